//! The members of one aggregate, found by name.

ghost use Rattle.std.specs.Prelude.{◌≡◌, IfOk, find, bytes_eq, option_map};
ghost use Rattle.ep_layout.specs.Table.{MemberRow};
ghost use Rattle.ep_layout.specs.Views.{member_view, members_view};

use crate::types::Member;
use indexmap::IndexMap;
use std::alloc::{AllocError, Global};
use std::marker::Model;

/// Members in their order.
#[derive(Drop)]
pub struct MemberList {
    members: Vec<Member>,
    /// Of each name the place of the first member that has it.
    places: IndexMap<Vec<u8>, usize>,
}

impl Model for MemberList {
    ghost use Rattle.std.specs.Prelude.{List};
    ghost use Rattle.ep_layout.specs.Table.{MemberRow};

    ghost Value = { List MemberRow };

    ghost use Rattle.ep_layout.specs.Views.{members_view};
    ghost use Rattle.ep_layout.specs.Places.{ArePlaces};

    ghost view = { λ s. members_view s.members.items };

    ghost invariant = { λ s. ArePlaces s.members.items s.places.entries };
}

impl MemberList {
    /// Members in this order. Of two with one name the first is found.
    pub fn new(alloc: Global, members: Vec<Member>) -> Result<MemberList, AllocError>
        ensures { IfOk result (λ s. s ≡ members_view members.items) }
    {
        let mut places = IndexMap::new(alloc);
        for (place, member) in members.iter().enumerate() {
            if !places.contains_key(&member.name) {
                let name = Vec::from_slice(alloc, &member.name)?;
                places.insert(name, place)?;
            }
        }
        Ok(MemberList { members, places })
    }

    /// All members, in their order.
    pub fn all(&self) -> &[Member]
        ensures { members_view result.now ≡ self.now }
    {
        self.members.as_slice()
    }

    /// The first member of a name.
    pub fn named(&self, name: &[u8]) -> Option<&Member>
        ensures { option_map (λ m. member_view m.now) result
            ≡ find (λ (m : MemberRow). bytes_eq name.now m.name) self.now }
    {
        match self.places.get(name) {
            None => None,
            Some(place) => Some(&self.members[*place]),
        }
    }
}
