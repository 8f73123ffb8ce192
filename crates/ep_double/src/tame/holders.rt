//! Aggregates that hold an array.

ghost use Rattle.std.specs.Prelude.{◌≡◌, ◌<◌, ◌||◌, length};
ghost use Rattle.ep_layout.specs.Table.{IsBuilt};
ghost use Rattle.ep_layout.specs.Views.{members_view};
ghost use Rattle.ep_double.specs.Holders as seen;

use ep_layout::{Member, Ty, Types};

/// Whether a type holds an array, by a look at it alone or by a look into a part of it.
enum Look {
    Found,
    Nothing,
    Within(u32),
}

/// Whether a type is an array.
pub(crate) fn is_array(types: &Types, ty: u32) -> bool
    requires built { IsBuilt types.now }
    requires there { ty < length types.now.types }
    ensures { result ≡ seen.is_array types.now ty }
{
    match *types.ty(ty) {
        Ty::Array(_, _) => true,
        Ty::Void => false,
        Ty::Int(_) => false,
        Ty::Ptr(_) => false,
        Ty::Aggregate(_) => false,
    }
}

/// Whether a type, or what its elements are at whatever depth of arrays, is an aggregate that holds an array. The
/// widest part is gone into by the loop, and each other part has at most half of the bytes where there is no union:
/// calls lie at most some 16 deep in one another.
#[cycle(holders)]
pub(crate) fn holds(types: &Types, ty: u32) -> bool
    requires built { IsBuilt types.now }
    requires there { ty < length types.now.types }
    ensures { result ≡ seen.holds types.now ty }
{
    let mut at = ty;
    loop {
        match look_at(types, at) {
            Look::Found => return true,
            Look::Nothing => return false,
            Look::Within(part) => at = part,
        }
    }
}

#[cycle(holders)]
fn look_at(types: &Types, ty: u32) -> Look
    requires built { IsBuilt types.now }
    requires there { ty < length types.now.types }
    ensures { seen.IsLook types.now ty result }
{
    match *types.ty(ty) {
        Ty::Void => Look::Nothing,
        Ty::Int(_) => Look::Nothing,
        Ty::Ptr(_) => Look::Nothing,
        Ty::Array(element, _) => Look::Within(element),
        Ty::Aggregate(aggregate) => {
            let members = types.members(aggregate);
            if members.is_empty() {
                return Look::Nothing;
            }
            let widest = widest(types, members);
            if other_has(types, members, widest) {
                return Look::Found;
            }
            let part = members[widest].ty;
            if is_array(types, part) {
                return Look::Found;
            }
            Look::Within(part)
        }
    }
}

// A type of a member is an array, or has one inside.
#[cycle(holders)]
fn has_array(types: &Types, ty: u32) -> bool
    requires built { IsBuilt types.now }
    requires there { ty < length types.now.types }
    ensures { result ≡ (seen.is_array types.now ty || seen.holds types.now ty) }
{
    is_array(types, ty) || holds(types, ty)
}

// Some member but that one has an array.
#[cycle(holders)]
fn other_has(types: &Types, members: &[Member], spared: usize) -> bool
    requires built { IsBuilt types.now }
    requires there { seen.AreThere types.now (members_view members.now) }
    ensures { seen.OtherHas types.now (members_view members.now) spared result }
{
    for (i, member) in members.iter().enumerate() {
        if i != spared && has_array(types, member.ty) {
            return true;
        }
    }
    false
}

// A member that no other has more bytes than.
fn widest(types: &Types, members: &[Member]) -> usize
    requires some { 0 < length members.now }
    requires there { seen.AreThere types.now (members_view members.now) }
    ensures { result < length members.now }
{
    let mut widest = 0;
    let mut most = 0;
    for (i, member) in members.iter().enumerate() {
        let bytes = types.size(member.ty).unwrap_or(0);
        if bytes > most {
            widest = i;
            most = bytes;
        }
    }
    widest
}
