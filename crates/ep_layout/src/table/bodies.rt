//! The bodies of aggregates.

ghost use Rattle.std.specs.Prelude.{◌≡◌, ◌<◌, ◌≤◌, ◌^◌, [], ◌∷◌, ◌++◌, max, Some, None, IsTrue, IfOk, IfErr, OnOk};
ghost use Rattle.std.specs.Prelude.{OnErr, is_some, length, option_map};
ghost use Rattle.std.specs.List.{list_all};
ghost use Rattle.ep_layout.specs.Layout.{most_bytes};
ghost use Rattle.ep_layout.specs.Table as table;
ghost use Rattle.ep_layout.specs.Extents.{IsExtent, extent_of};
ghost use Rattle.ep_layout.specs.Placed.{IsPlaced, next_offset, next_end, row};
ghost use Rattle.ep_layout.specs.Stops.{IsStop};
ghost use Rattle.ep_layout.specs.Views.{members_view, named_view};

use super::{Body, Types};
use crate::extent::{Extent, MOST_BYTES};
use crate::members::MemberList;
use crate::types::{LayoutStop, Member};

/// Members so far, and what they take together.
#[derive(Drop)]
pub(crate) struct Placing {
    pub members: Vec<Member>,
    pub end: u32,
    pub align: u32,
}

impl Placing {
    fn put(
        &mut self,
        is_union: bool,
        name: Vec<u8>,
        ty: u32,
        extent: Extent,
    ) -> Result<(), LayoutStop>
        requires extent { IsExtent extent }
        requires end { self.old.end ≤ most_bytes }
        ensures members { OnOk result (members_view self.new.members.items
            ≡ members_view self.old.members.items
            ++ row name.items ty (next_offset is_union self.old.end extent) ∷ []) }
        ensures end { OnOk result (self.new.end ≡ next_end is_union self.old.end extent) }
        ensures align { OnOk result (self.new.align ≡ max self.old.align extent.align) }
        ensures fits { OnOk result (self.new.end ≤ most_bytes) }
        ensures stop { IfErr result (IsStop (table.stop_at_size (next_end is_union self.old.end extent))) }
    {
        let (offset, end) = if is_union {
            (0, self.end.max(extent.size))
        } else {
            let offset = self.end.next_multiple_of(extent.align);
            (offset, offset + extent.size)
        };
        if end > MOST_BYTES {
            return Err(LayoutStop::TooLarge);
        }
        if self.members.push(Member { name, ty, offset }).is_err() {
            return Err(LayoutStop::Memory);
        }
        self.end = end;
        self.align = self.align.max(extent.align);
        Ok(())
    }
}

impl Types {
    fn have_sizes(&self, members: &[(Vec<u8>, u32)]) -> bool
        requires { IsTrue (list_all (λ m. table.is_type self.now m.1) members.now) }
        ensures { result ≡ list_all (λ m. is_some (table.layout_of self.now m.1)) members.now }
    {
        for member in members {
            if self.extent(member.1).is_none() {
                return false;
            }
        }
        true
    }

    fn placed(&self, is_union: bool, members: Vec<(Vec<u8>, u32)>) -> Result<Placing, LayoutStop>
        requires types { IsTrue (list_all (λ m. table.is_type self.now m.1) members.items) }
        requires sizes { IsTrue (list_all (λ m. is_some (table.layout_of self.now m.1)) members.items) }
        ensures placed { IfOk result (λ p. IsPlaced self.now is_union (named_view members.items) p) }
        ensures stop { IfErr result (IsStop (table.members_stop self.now is_union (named_view members.items))) }
    {
        let mut placing = Placing {
            members: Vec::new(self.alloc),
            end: 0,
            align: 1,
        };
        for (name, ty) in members {
            match self.extent(ty) {
                None => return Err(LayoutStop::Incomplete),
                Some(extent) => placing.put(is_union, name, ty, extent)?,
            }
        }
        Ok(placing)
    }

    pub(crate) fn body(
        &self,
        is_union: bool,
        members: Vec<(Vec<u8>, u32)>,
    ) -> Result<Body, LayoutStop>
        requires { IsTrue (list_all (λ m. table.is_type self.now m.1) members.items) }
        ensures members { IfOk result (λ b. b.members ≡ table.laid_out self.now is_union (named_view members.items)) }
        ensures extent { IfOk result (λ b.
            option_map extent_of (table.layout_with self.now is_union (named_view members.items)) ≡ Some b.extent) }
        ensures fits { OnOk result (table.members_stop self.now is_union (named_view members.items) ≡ None) }
        ensures stop { IfErr result (IsStop (table.members_stop self.now is_union (named_view members.items))) }
    {
        if !self.have_sizes(&members) {
            return Err(LayoutStop::Incomplete);
        }
        let placing = self.placed(is_union, members)?;
        let size = placing.end.next_multiple_of(placing.align);
        if size > MOST_BYTES {
            return Err(LayoutStop::TooLarge);
        }
        let extent = Extent {
            size,
            align: placing.align,
        };
        match MemberList::new(self.alloc, placing.members) {
            Ok(members) => Ok(Body { members, extent }),
            Err(_) => Err(LayoutStop::Memory),
        }
    }
}
