//! Types of tame programs.

ghost use Rattle.std.specs.Prelude.{◌≡◌, ◌≢◌, ◌<◌, IsTrue, Some, length, slice_get, true, false};
ghost use Rattle.ep_layout.specs.Table.{IsBuilt};
ghost use Rattle.ep_layout.specs.Views.{members_view};
ghost use Rattle.ep_kinds.specs.Tame as kind;
ghost use Rattle.ep_double.specs.Holders as seen;

use crate::tame::holders::{holds, is_array};
use ep_layout::Types;

/// Neither a union nor an array of aggregates that hold an array.
pub fn are_tame_types(types: &Types) -> bool
    ensures { result ≡ kind.are_tame_types types.now }
{
    has_no_union(types) && has_no_array_of_holders(types)
}

// Each table is built by the rules.
fn is_built(types: &Types)
    ensures { IsBuilt types.now }
{
    let _model = types.model();
}

fn has_no_union(types: &Types) -> bool
    ensures { result ≡ seen.has_no_union types.now }
{
    for a in 0..types.aggregate_count() {
        if types.is_union(a) {
            return false;
        }
    }
    true
}

fn has_no_array_of_holders(types: &Types) -> bool
    ensures { result ≡ seen.has_no_array_of_holders types.now }
{
    is_built(types);
    for ty in 0..types.type_count() {
        if is_array_of_holders(types, ty) {
            return false;
        }
    }
    true
}

fn is_array_of_holders(types: &Types, ty: u32) -> bool
    requires built { IsBuilt types.now }
    requires there { ty < length types.now.types }
    ensures { result ≡ kind.is_array_of_holders types.now ty }
{
    is_array(types, ty) && holds(types, ty)
}

/// Whether some aggregate of so many bytes holds an array.
pub fn is_size_of_holder(types: &Types, bytes: u32) -> bool
    ensures { result ≡ kind.is_size_of_holder types.now bytes }
{
    is_built(types);
    for ty in 0..types.type_count() {
        if is_holder_of(types, ty, bytes) {
            return true;
        }
    }
    false
}

fn is_holder_of(types: &Types, ty: u32, bytes: u32) -> bool
    requires built { IsBuilt types.now }
    requires there { ty < length types.now.types }
    ensures { result ≡ seen.is_holder_of types.now bytes ty }
{
    match types.size(ty) {
        None => false,
        Some(size) => size == bytes && (!is_array(types, ty) && holds(types, ty)),
    }
}
