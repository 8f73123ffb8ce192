//! How a table grows.

ghost use Rattle.std.specs.Prelude.{◌≡◌, ◌<◌, ◌≤◌, ◌^◌, Some, None, IsTrue, IsFalse, IsOk, IsSome, IfSome, IfOk};
ghost use Rattle.std.specs.Prelude.{IfErr, OnOk, OnErr, length};
ghost use Rattle.std.specs.List.{list_all};
ghost use Rattle.ep_layout.specs.Table as table;
ghost use Rattle.ep_layout.specs.Extents.{IsExtent, kept_extent};
ghost use Rattle.ep_layout.specs.Stops.{IsStop};
ghost use Rattle.ep_layout.specs.Views.{named_view};

use super::{AggregateEntry, Body, Types};
use crate::extent::{Extent, MOST_BYTES};
use crate::members::MemberList;
use crate::types::{LayoutStop, Ty};
use ep_int::{Memory, bytes, pointer_bytes};

fn scalar_extent(size: u32) -> Extent
    ensures { result ≡ record { size = size; align = size } }
{
    Extent { size, align: size }
}

impl Types {
    ghost use Rattle.ep_layout.specs.declared.types.Ty.TheVariants.{Array};

    /// The number of a type, which takes the next one if no equal type is there.
    pub fn add(&mut self, ty: Ty) -> Result<u32, LayoutStop>
        requires parts { IsTrue (table.names_known self.old ty) }
        requires few { length self.old.types < 2 ^ 31 }
        ensures number { IfOk result (λ n. table.number_of self.new ty ≡ Some n) }
        ensures grown { OnOk result (self.new ≡ table.type_added self.old ty) }
        ensures fits { OnOk result (table.type_stop self.old ty ≡ None) }
        ensures err { OnErr result (self.new ≡ self.old) }
        ensures stop { IfErr result (IsStop (table.type_stop self.old ty)) }
        // An equal type needs no memory.
        ensures known { IsSome (table.number_of self.old ty) → IsOk result }
    {
        if let Some(n) = self.types.number_of(ty) {
            return Ok(n as u32);
        }
        let extent = self.new_extent(ty)?;
        let n = self.types.count() as u32;
        match self.push_type(ty, extent) {
            Ok(()) => Ok(n),
            Err(Memory) => Err(LayoutStop::Memory),
        }
    }

    fn new_extent(&self, ty: Ty) -> Result<Option<Extent>, LayoutStop>
        requires { IsTrue (table.names_known self.now ty) }
        ensures ok { OnOk result (table.type_stop self.now ty ≡ None) }
        ensures value { IfOk result (λ x. x ≡ kept_extent self.now ty) }
        ensures err { IfErr result (λ e. table.type_stop self.now ty ≡ Some e) }
    {
        match ty {
            Ty::Void => Ok(None),
            Ty::Int(t) => Ok(Some(scalar_extent(bytes(t)))),
            Ty::Ptr(_) => Ok(Some(scalar_extent(pointer_bytes(self.model)))),
            Ty::Array(element, count) => self.array_extent(element, count),
            Ty::Aggregate(_) => Ok(None),
        }
    }

    fn array_extent(&self, element: u32, count: u32) -> Result<Option<Extent>, LayoutStop>
        requires { element < length self.now.types }
        ensures ok { OnOk result (table.type_stop self.now (Array element count) ≡ None) }
        ensures value { IfOk result (λ x. x ≡ kept_extent self.now (Array element count)) }
        ensures err { IfErr result (λ e. table.type_stop self.now (Array element count) ≡ Some e) }
    {
        match self.extent(element) {
            None => Err(LayoutStop::Incomplete),
            Some(extent) => {
                let size = u64::from(count) * u64::from(extent.size);
                if size > u64::from(MOST_BYTES) {
                    return Err(LayoutStop::TooLarge);
                }
                Ok(Some(Extent {
                    size: size as u32,
                    align: extent.align,
                }))
            }
        }
    }

    fn push_type(&mut self, ty: Ty, extent: Option<Extent>) -> Result<(), Memory>
        requires parts { IsTrue (table.names_known self.old ty) }
        requires few { length self.old.types < 2 ^ 31 }
        requires new { table.number_of self.old ty ≡ None }
        requires fits { table.type_stop self.old ty ≡ None }
        requires kept { extent ≡ kept_extent self.old ty }
        ensures ok { OnOk result (self.new ≡ table.with_type self.old ty) }
        ensures err { OnErr result (self.new ≡ self.old) }
    {
        if self.extents.push(extent).is_err() {
            return Err(Memory);
        }
        if self.types.push(ty).is_err() {
            self.extents.pop();
            return Err(Memory);
        }
        Ok(())
    }

    /// The number of a struct or union that isn't completed yet. Its tag is empty where it has none.
    pub fn declare(&mut self, tag: Vec<u8>, is_union: bool) -> Result<u32, Memory>
        requires few { length self.old.aggregates < 2 ^ 31 }
        ensures number { IfOk result (λ n. n ≡ length self.old.aggregates) }
        ensures ok { OnOk result (self.new ≡ table.declared self.old tag.items is_union) }
        ensures err { OnErr result (self.new ≡ self.old) }
    {
        let n = self.aggregates.len() as u32;
        let entry = AggregateEntry {
            tag,
            is_union,
            body: None,
        };
        if self.aggregates.push(entry).is_err() {
            return Err(Memory);
        }
        Ok(n)
    }

    /// Gives an aggregate its members: names and types, in their order. Where a member has no size, the aggregate has
    /// none, and so it isn't too large.
    pub fn complete(
        &mut self,
        aggregate: u32,
        members: Vec<(Vec<u8>, u32)>,
    ) -> Result<(), LayoutStop>
        requires exists { aggregate < length self.old.aggregates }
        requires open { IsFalse (table.is_completed self.old aggregate) }
        requires parts { IsTrue (list_all (λ m. table.is_type self.old m.1) members.items) }
        ensures grown { OnOk result (self.new ≡ table.completed_with self.old aggregate (named_view members.items)) }
        ensures fits { OnOk result
            (table.members_stop self.old (table.is_union self.old aggregate) (named_view members.items) ≡ None) }
        ensures err { OnErr result (self.new ≡ self.old) }
        ensures stop { IfErr result
            (IsStop (table.members_stop self.old (table.is_union self.old aggregate) (named_view members.items))) }
    {
        let body = self.body(self.is_union(aggregate), members)?;
        if self.completed.push(aggregate).is_err() {
            return Err(LayoutStop::Memory);
        }
        self.aggregates[aggregate as usize].body = Some(body);
        Ok(())
    }
}
