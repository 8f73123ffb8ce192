//! Types of arrays and of pointers.

ghost use Rattle.std.specs.Prelude.{◌≡◌, ◌<◌, length, IsTrue, IfOk, OnOk};
ghost use Rattle.ep_layout.specs.Grown.{GrownFrom};
ghost use Rattle.ep_layout.specs.Table as table;
ghost use Rattle.ep_layout.specs.Table.{Grows};
ghost use Rattle.ep_typing.specs.Results.{at};
ghost use Rattle.ep_typing.specs.Types as types_of;
ghost use Rattle.ep_elaboration.specs.Declarators as rule;
ghost use Rattle.ep_declared.specs.Refinement.{OnAnswer, RefinesIn};
ghost use Rattle.ep_declared.specs.Open.{StaysOpen};
ghost use Rattle.ep_declared.specs.Stopped.{halted};
ghost use Rattle.ep_scopes.specs.Known.{IsKnown};

use ep_ast::{Halt, RefusalKind};
use ep_layout::{LayoutStop, Ty, Types};
use ep_operands::{has_room, refused, whole};
use ep_scopes::{add_type, type_number};
use ep_typing::{Base, CType};

/// What a table answers of a type or a body that it doesn't take.
pub(crate) fn stopped(line: u32, stop: LayoutStop) -> Halt
    ensures { result ≡ halted line stop }
{
    match stop {
        LayoutStop::Incomplete => refused(RefusalKind::IncompleteType, line),
        LayoutStop::TooLarge => refused(RefusalKind::TooLarge, line),
        LayoutStop::Memory => Halt::Memory,
    }
}

// An array whose elements are in the table.
fn add_array(types: &mut Types, line: u32, row: Ty) -> Result<CType, Halt>
    requires { IsTrue (table.names_known types.old row) }
    ensures means { RefinesIn (λ d. d) (at line (rule.made types.old row (table.type_stop types.old row)))
        types.new result }
    ensures there { IfOk result (λ d. types_of.c_type_number types.new d < length types.new.types) }
    ensures inside { IfOk result (λ d. IsKnown types.new d) }
    ensures grown { OnOk result (types.new ≡ table.type_added types.old row) }
    ensures comes { OnAnswer result (GrownFrom types.old types.new) }
{
    has_room(types.type_count())?;
    match types.add(row) {
        Ok(n) => Ok(whole(Base::Array(n))),
        Err(stop) => Err(stopped(line, stop)),
    }
}

#[tactic(auto, unfolding(ep_elaboration::specs::Declarators::array_of))]
fn array_of(types: &mut Types, line: u32, c: CType, count: u32) -> Result<CType, Halt>
    requires { IsKnown types.old c }
    ensures means { RefinesIn (λ d. d) (at line (rule.array_of types.old c count)) types.new result }
    ensures there { IfOk result (λ d. types_of.c_type_number types.new d < length types.new.types) }
    ensures inside { IfOk result (λ d. IsKnown types.new d) }
    ensures grown { OnOk result (Grows types.old types.new) }
    ensures stay { OnOk result (StaysOpen types.old types.new) }
    ensures comes { OnAnswer result (GrownFrom types.old types.new) }
{
    add_type(types, c)?;
    let element = type_number(types, c);
    add_array(types, line, Ty::Array(element, count))
}

/// An array of arrays; the last count is that of the innermost elements. Without counts it is the type itself.
#[tactic(auto, unfolding(ep_elaboration::specs::Declarators::arrays_of))]
pub fn arrays_of(types: &mut Types, c: CType, line: u32, counts: &[u32]) -> Result<CType, Halt>
    requires { IsKnown types.old c }
    ensures means { RefinesIn (λ d. d) (at line (rule.arrays_of types.old c counts.now)) types.new result }
    ensures there { IfOk result (λ d. types_of.c_type_number types.new d < length types.new.types) }
    ensures inside { IfOk result (λ d. IsKnown types.new d) }
    ensures grown { OnOk result (Grows types.old types.new) }
    ensures stay { OnOk result (StaysOpen types.old types.new) }
    ensures comes { OnAnswer result (GrownFrom types.old types.new) }
{
    add_type(types, c)?;
    let mut array = c;
    for i in (0..counts.len()).rev() {
        array = array_of(types, line, array, counts[i])?;
    }
    Ok(array)
}
