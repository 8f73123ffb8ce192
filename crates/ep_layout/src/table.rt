//! A table of types, and what it answers of each.

ghost use Rattle.std.specs.Prelude.{◌≡◌, ◌≢◌, ◌+◌, ◌<◌, ◌≤◌, ◌^◌, [], Some, None, Ok, Err, IsTrue, IsOk, IsSome};
ghost use Rattle.std.specs.Prelude.{IfOk, IfErr, IfSome, OnOk, OnErr, option_map, slice_get, length, unwrap_or};
ghost use Rattle.std.specs.Prelude.{is_some};
ghost use Rattle.std.specs.List.{list_all};
ghost use Rattle.ep_layout.specs.declared.types.LayoutStop.{LayoutStop};
ghost use Rattle.ep_layout.specs.declared.table.Body.{Body};
ghost use Rattle.ep_layout.specs.Layout.{Layout, most_bytes};
ghost use Rattle.ep_layout.specs.Table as table;
ghost use Rattle.ep_layout.specs.Table.{IsBuilt};
ghost use Rattle.ep_layout.specs.Pointers as pointers;
ghost use Rattle.ep_layout.specs.Extents.{IsExtent, extent_of, kept_extent};
ghost use Rattle.ep_layout.specs.Views.{member_view, members_view, named_view};

mod bodies;
mod growth;
mod leaves;
mod marks;
mod text;

use crate::extent::Extent;
use crate::list::TypeList;
use crate::members::MemberList;
use crate::types::{Member, PointedRow, Ty};
use ep_int::Model as DataModel;
use std::alloc::Global;
use std::marker::Model;

/// The members of a completed aggregate, and how many bytes they take.
#[derive(Drop)]
pub(crate) struct Body {
    pub members: MemberList,
    pub extent: Extent,
}

/// A struct or union; its body once it is completed.
#[derive(Drop)]
pub(crate) struct AggregateEntry {
    pub tag: Vec<u8>,
    pub is_union: bool,
    pub body: Option<Body>,
}

impl AggregateEntry {
    fn is_complete(&self) -> bool
        ensures { result ≡ is_some (option_map (λ (b : Body). b.members) self.now.body) }
    {
        self.body.is_some()
    }

    fn extent(&self) -> Option<Extent>
        ensures { result ≡ option_map (λ (b : Body). b.extent) self.now.body }
    {
        match &self.body {
            None => None,
            Some(body) => Some(body.extent),
        }
    }
}

/// A list of types and one of aggregates, each numbered from 0 in the order of coming, for one data model.
#[derive(Drop)]
pub struct Types {
    model: DataModel,
    types: TypeList,
    /// Of each type that isn't an aggregate.
    extents: Vec<Option<Extent>>,
    aggregates: Vec<AggregateEntry>,
    completed: Vec<u32>,
    alloc: Global,
}

impl Model for Types {
    ghost use Rattle.ep_layout.specs.Table.{Table};

    ghost Value = { Table };

    ghost use Rattle.ep_layout.specs.TableInvariant.{table_of, IsKept};

    ghost view = { table_of };

    ghost invariant = { IsKept };
}

impl Types {
    /// No types and no aggregates. Takes no memory.
    pub fn new(alloc: Global, model: DataModel) -> Types
        ensures { result ≡ table.empty model }
    {
        Types {
            model,
            types: TypeList::new(alloc),
            extents: Vec::new(alloc),
            aggregates: Vec::new(alloc),
            completed: Vec::new(alloc),
            alloc,
        }
    }

    /// The data model that the sizes are for.
    pub fn model(&self) -> DataModel
        ensures model { result ≡ self.now.model }
        ensures built { IsBuilt self.now }
    {
        self.model
    }

    /// How many types there are. Their numbers are those below it.
    pub fn type_count(&self) -> u32
        ensures { result ≡ length self.now.types }
    {
        self.types.count() as u32
    }

    /// How many aggregates there are. Their numbers are those below it.
    pub fn aggregate_count(&self) -> u32
        ensures { result ≡ length self.now.aggregates }
    {
        self.aggregates.len() as u32
    }

    /// The type of a number.
    pub fn ty(&self, ty: u32) -> &Ty
        requires { ty < length self.now.types }
        ensures { slice_get self.now.types ty ≡ Some result.now }
    {
        self.types.get(ty as usize)
    }

    /// Whether an aggregate is a union.
    pub fn is_union(&self, aggregate: u32) -> bool
        requires { aggregate < length self.now.aggregates }
        ensures { result ≡ table.is_union self.now aggregate }
    {
        self.aggregates[aggregate as usize].is_union
    }

    /// Whether an aggregate has its members.
    pub fn is_completed(&self, aggregate: u32) -> bool
        requires { aggregate < length self.now.aggregates }
        ensures { result ≡ table.is_completed self.now aggregate }
    {
        self.aggregates[aggregate as usize].is_complete()
    }

    /// The members of an aggregate in their order. One that isn't completed has none.
    pub fn members(&self, aggregate: u32) -> &[Member]
        requires { aggregate < length self.now.aggregates }
        ensures { members_view result.now ≡ table.members_of self.now aggregate }
    {
        match &self.aggregates[aggregate as usize].body {
            None => &[],
            Some(body) => body.members.all(),
        }
    }

    /// The member of a name, the first one where several have it.
    pub fn member(&self, aggregate: u32, name: &[u8]) -> Option<&Member>
        requires { aggregate < length self.now.aggregates }
        ensures { option_map (λ m. member_view m.now) result ≡ table.member_named self.now aggregate name.now }
    {
        match &self.aggregates[aggregate as usize].body {
            None => None,
            Some(body) => body.members.named(name),
        }
    }

    pub(crate) fn extent(&self, ty: u32) -> Option<Extent>
        requires { ty < length self.now.types }
        ensures value { result ≡ option_map extent_of (table.layout_of self.now ty) }
        ensures within { IfSome result (λ e. IsExtent e) }
    {
        match *self.types.get(ty as usize) {
            Ty::Aggregate(a) => self.aggregates[a as usize].extent(),
            _ => self.extents[ty as usize],
        }
    }

    /// The number of bytes of a type; none where it is void or incomplete.
    pub fn size(&self, ty: u32) -> Option<u32>
        requires { ty < length self.now.types }
        ensures value { result ≡ table.size self.now ty }
        ensures within { IfSome result (λ n. n ≤ most_bytes) }
    {
        match self.extent(ty) {
            None => None,
            Some(extent) => Some(extent.size),
        }
    }

    /// The number of bytes of an aggregate; none where it isn't completed.
    pub fn aggregate_size(&self, aggregate: u32) -> Option<u32>
        requires { aggregate < length self.now.aggregates }
        ensures { result ≡ option_map (λ (l : Layout). l.size) (table.aggregate_layout self.now aggregate) }
    {
        match self.aggregates[aggregate as usize].extent() {
            None => None,
            Some(extent) => Some(extent.size),
        }
    }

    /// The number of a type, if it is there.
    pub fn number_of(&self, ty: Ty) -> Option<u32>
        ensures number { result ≡ table.number_of self.now ty }
        ensures inside { IfSome result (λ n. n < length self.now.types) }
    {
        match self.types.number_of(ty) {
            None => None,
            Some(n) => Some(n as u32),
        }
    }

    /// The row that so many pointers over a row come to, where each in turn is there. In constant time.
    pub fn pointer_row(&self, row: u32, stars: u32) -> Option<u32>
        requires { row < length self.now.types }
        ensures row { result ≡ pointers.pointer_row self.now row stars }
        ensures inside { IfSome result (λ n. n < length self.now.types) }
    {
        self.types.row_over(row, stars)
    }

    /// How many pointers over a row are there, each to the one before. In constant time.
    pub fn pointers_over(&self, row: u32) -> u32
        requires { row < length self.now.types }
        ensures there { IsSome (pointers.pointer_row self.now row result) }
        ensures last { pointers.pointer_row self.now row (result + 1) ≡ None }
    {
        self.types.stars_over(row) as u32
    }

    /// The row at the root of a row's pointers, and how many there are. In constant time.
    pub fn root_of(&self, row: u32) -> PointedRow
        requires { row < length self.now.types }
        ensures chain { pointers.pointer_row self.now result.row result.stars ≡ Some row }
        ensures root { pointers.IsNoPointer self.now.types result.row }
        ensures inside { result.row < length self.now.types }
        ensures few { result.stars < length self.now.types }
    {
        self.types.root_of(row)
    }

    /// What the address of an object of a type is a multiple of; none where it is void or incomplete.
    pub fn align(&self, ty: u32) -> Option<u32>
        requires { ty < length self.now.types }
        ensures value { result ≡ table.align self.now ty }
        ensures within { IfSome result (λ n. (0 < n) × (n ≤ 8)) }
    {
        match self.extent(ty) {
            None => None,
            Some(extent) => Some(extent.align),
        }
    }
}
