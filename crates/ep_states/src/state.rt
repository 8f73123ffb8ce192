//! What is known of the cells of two memories, in parts that copies share.

ghost use Rattle.std.specs.Prelude.{◌≡◌, ◌↔◌, IsTrue, true, [], map, Some, IfOk, OnOk, OnErr, IfSome, IfNone};
ghost use Rattle.std.specs.Option.{option_map};
ghost use Rattle.ep_cells.specs.Cells.{put_all};
ghost use Rattle.ep_cells.specs.Look.{cell_at, is_some_partly_in};
ghost use Rattle.ep_cells.specs.States.{Fits, IsOfSort, AreCells, CanWrite, HaveCellsAlike};
ghost use Rattle.ep_cells.specs.Write.{written};
ghost use Rattle.ep_cells.specs.Weaken.{weakened};
ghost use Rattle.ep_cells.specs.Both.{cells_of_both, joined, widened, are_within};
ghost use Rattle.ep_cells.specs.Kill.{AreLeavesIn, undefined_cell, killed_cells};
ghost use Rattle.ep_cells.specs.Reshare.{cell_from, places, reshared};
ghost use Rattle.ep_cell_ranges.specs.Narrow.{with_value};
ghost use Rattle.ep_cell_ranges.specs.Ranges.{overwritten, blurred_at};
ghost use Rattle.ep_cell_rows.specs.Parts.{united as of_union};
ghost use Rattle.ep_bicells.specs.Steps.{changed_by};
ghost use Rattle.ep_cell_parts.specs.About.{IsAbout};
ghost use Rattle.ep_cell_steps.specs.PartsInvariant.{AreKept};
ghost use Rattle.ep_shared_parts.specs.Spread.{all_items};
ghost use Rattle.ep_cell_parts.specs.Alike.{are_different};

use ep_bicells::cells;
use ep_bicells::changes::Step;
use ep_bitslice::Side;
use ep_cell_changes::check::{are_cells, in_order};
use ep_cell_parts::about::about;
use ep_cell_parts::conditions::can_write;
use ep_cell_parts::equals::{are_equal, is_model, is_order};
use ep_cell_parts::kills::killed;
use ep_cell_parts::places::{are_different, cell_from, places, places_alike};
use ep_cell_parts::unions::united;
use ep_cell_parts::values::set_value_at;
use ep_cell_rows::values::Union;
use ep_cell_steps::blurs::{blur_at, blurred};
use ep_cell_steps::building::{index, spread};
use ep_cell_steps::changes::{Parts, after, changed};
use ep_cell_steps::weak_writes::{weaken_at, weakened};
use ep_cell_steps::writes::{write_at, written};
use ep_cells::{ByteRange, Cell, Value};
use ep_domain::Num;
use ep_int::{Memory, Model, Order, Scalar};
use ep_layout::Leaf;
use ep_shared_parts::parts::shared;
use ep_shared_parts::walks::are_alike;
use std::alloc::Global;

/// What is known of the cells of two memories.
#[derive(Drop)]
pub struct State<N> {
    orders: (Order, Order),
    model: Model,
    parts: Parts<N>,
}

impl<N> std::marker::Model for State<N> {
    ghost use Rattle.ep_cells.specs.States.{Known};
    ghost use Rattle.ep_shared_parts.specs.Spread.{all_items};
    ghost use Rattle.ep_cell_steps.specs.PartsInvariant.{AreKept};

    ghost Value = { Known N };

    ghost view = { λ s. record { orders = s.orders; model = s.model; cells = all_items s.parts.cells.items } };

    ghost invariant = { λ s. AreKept s.model s.parts.cells.items s.parts.uses.items };
}

impl<N: Num> State<N> {
    fn of_parts(orders: (Order, Order), model: Model, parts: Parts<N>) -> Self
        requires { AreKept model parts.cells.items parts.uses.items }
        ensures { result ≡ record { orders = orders; model = model; cells = all_items parts.cells.items } }
    {
        State {
            orders,
            model,
            parts,
        }
    }

    /// Nothing is known. Takes no memory.
    pub fn empty(alloc: Global, orders: (Order, Order), model: Model) -> Self
        ensures { result ≡ record { orders = orders; model = model; cells = [] } }
    {
        State {
            orders,
            model,
            parts: Parts {
                cells: Vec::new(alloc),
                uses: Vec::new(alloc),
            },
        }
    }

    /// The state of cells that are in order. Costs a search for each of them and for each of their mentions.
    pub fn with_cells(
        alloc: Global,
        orders: (Order, Order),
        model: Model,
        cells: Vec<Cell<N>>,
    ) -> Result<State<N>, Memory>
        requires { AreCells model cells.items }
        ensures { IfOk result (λ s. s ≡ record { orders = orders; model = model; cells = cells.items }) }
    {
        let uses = index(alloc, &cells)?;
        let cells = spread(alloc, model, cells)?;
        Ok(State::of_parts(orders, model, Parts { cells, uses }))
    }

    /// The state of these cells, in whatever order they are given. None where they are none of a state.
    pub fn of_cells(
        alloc: Global,
        orders: (Order, Order),
        model: Model,
        cells: Vec<Cell<N>>,
    ) -> Result<Option<State<N>>, Memory>
        ensures some { IfOk result (λ o. IfSome o (λ s. s
            ≡ record { orders = orders; model = model; cells = put_all cells.items [] })) }
        ensures none { IfOk result (λ o. IfNone o (AreCells model (put_all cells.items []) → ⊥)) }
    {
        let cells = in_order(alloc, cells)?;
        if are_cells(model, &cells) {
            Ok(Some(State::with_cells(alloc, orders, model, cells)?))
        } else {
            Ok(None)
        }
    }

    /// The same. Takes a count for each part.
    pub fn copy(&self) -> Result<Self, Memory>
        ensures { IfOk result (λ s. s ≡ self.now) }
    {
        let alloc = *self.parts.cells.allocator();
        let cells = shared(alloc, &self.parts.cells)?;
        let uses = shared(alloc, &self.parts.uses)?;
        let parts = Parts { cells, uses };
        Ok(State::of_parts(self.orders, self.model, parts))
    }

    /// The allocator of its parts.
    pub fn allocator(&self) -> Global {
        *self.parts.cells.allocator()
    }

    /// The byte orders of the left and of the right memory.
    pub fn orders(&self) -> (Order, Order)
        ensures { result ≡ self.now.orders }
    {
        self.orders
    }

    /// The data model. Its contract has that the cells are those of a state, too.
    pub fn model(&self) -> Model
        ensures value { result ≡ self.now.model }
        ensures cells { AreCells self.now.model self.now.cells }
    {
        self.model
    }

    /// The cells in order.
    pub fn cells(&self) -> Result<Vec<Cell<N>>, Memory>
        ensures { IfOk result (λ v. v.items ≡ self.now.cells) }
    {
        cells::copied(*self.parts.cells.allocator(), &self.parts.cells)
    }

    /// The cell of that side, or Shared, that has the byte. Takes no memory.
    pub fn cell_at(&self, side: Side, block: u32, byte: u32) -> Option<&Cell<N>>
        ensures { option_map (λ c. c.now) result ≡ cell_at self.now.model side block byte self.now.cells }
    {
        cells::cell_at(self.model, side, block, byte, &self.parts.cells)
    }

    /// The cell of that side that begins at an offset. Takes no memory.
    pub fn cell_from(&self, side: Side, block: u32, offset: u32) -> Option<&Cell<N>>
        ensures { option_map (λ c. c.now) result ≡ cell_from side block offset self.now.cells }
    {
        cell_from(side, block, offset, &self.parts.cells)
    }

    /// All cells where they stand, in order. Takes memory for the list alone.
    pub fn all(&self) -> Result<Vec<&Cell<N>>, Memory>
        ensures { IfOk result (λ v. map (λ r. r.now) v.items ≡ self.now.cells) }
    {
        let cells = cells::all(*self.parts.cells.allocator(), &self.parts.cells)?;
        Ok(cells)
    }

    /// The cells that may touch a place, in order, and some about them. Takes memory for them alone.
    pub fn about(&self, place: &ByteRange) -> Result<Vec<&Cell<N>>, Memory>
        ensures { IfOk result (λ v. IsAbout self.now.model place.now self.now.cells (map (λ r. r.now) v.items)) }
    {
        let cells = about(*self.parts.cells.allocator(), &self.parts.cells, place)?;
        Ok(cells)
    }

    /// Whether some cell has bytes in the place, and others. Takes no memory.
    pub fn partly(&self, place: &ByteRange) -> bool
        ensures { result ≡ is_some_partly_in self.now.model place.now self.now.cells }
    {
        cells::is_some_partly_in(self.model, place, &self.parts.cells)
    }

    /// Whether it has each cell of the other, within it. Takes no memory.
    pub fn leq(&self, other: &State<N>) -> bool
        ensures { result ≡ are_within N.ops self.now.cells other.now.cells }
    {
        cells::are_within(&self.parts.cells, &other.parts.cells)
    }

    /// Whether a cell may be written. Looks at all cells.
    pub fn can_write(&self, c: &Cell<N>) -> Result<bool, Memory>
        ensures { IfOk result (λ b. IsTrue b ↔ CanWrite self.now.model c.now self.now.cells) }
    {
        let model = self.model();
        let cells = self.cells()?;
        Ok(can_write(model, c, &cells))
    }

    /// Whether both have cells of the same sides, places and types. Looks at all cells. Takes no memory.
    pub fn is_like(&self, other: &State<N>) -> bool
        ensures { IsTrue result ↔ HaveCellsAlike self.now.cells other.now.cells }
    {
        are_alike(&self.parts.cells, &other.parts.cells)
    }

    /// Whether both are one state: of one pair of byte orders, one data model and the same cells. Takes no memory.
    pub fn is_same(&self, other: &State<N>) -> bool
        ensures { IsTrue result ↔ (self.now ≡ other.now) }
    {
        is_order(self.orders.0, other.orders.0)
            & is_order(self.orders.1, other.orders.1)
            & is_model(self.model, other.model)
            & are_equal(&self.parts.cells, &other.parts.cells)
    }

    /// Writes a cell: what was in its place on the sides written is gone. Costs the parts with cells that touch the
    /// place or mention such, and a search in the list of parts.
    pub fn write(&mut self, c: Cell<N>) -> Result<(), Memory>
        requires { CanWrite self.old.model c self.old.cells }
        ensures ok { OnOk result (self.new ≡ record self.old { cells = written self.old.model c self.old.cells }) }
        ensures err { OnErr result (self.new ≡ self.old) }
    {
        let alloc = *self.parts.cells.allocator();
        write_at(
            alloc,
            self.model,
            &mut self.parts.cells,
            &mut self.parts.uses,
            c,
        )
    }

    /// A cell may be written: a weak write at one of several possible places. `shared_stays` where both memories have
    /// it written or neither. Costs what a write does.
    pub fn weaken(&mut self, c: &Cell<N>, shared_stays: bool) -> Result<(), Memory>
        requires fits { Fits self.old.model c.now }
        requires stays { shared_stays ≡ true → c.now.side ≡ Side.Shared }
        ensures ok { OnOk result (self.new
            ≡ record self.old { cells = weakened N.ops self.old.model c.now shared_stays self.old.cells }) }
        ensures err { OnErr result (self.new ≡ self.old) }
    {
        let alloc = *self.parts.cells.allocator();
        weaken_at(
            alloc,
            self.model,
            &mut self.parts.cells,
            &self.parts.uses,
            c,
            shared_stays,
        )
    }

    /// The cell of this side, place and type takes another value: whether it may be undefined, its form and the forms
    /// that mention it stay. Where there is no such cell all stays. Costs a search and the part that has the cell.
    pub fn set_value(
        &mut self,
        side: Side,
        block: u32,
        offset: u32,
        what: Scalar,
        value: Value<N>,
    ) -> Result<(), Memory>
        requires { IsOfSort what (Some value) }
        ensures ok { OnOk result (self.new
            ≡ with_value (undefined_cell side block offset what) value self.old) }
        ensures err { OnErr result (self.new ≡ self.old) }
    {
        let alloc = *self.parts.cells.allocator();
        let c = Cell {
            side,
            block,
            offset,
            what,
            value: Some(value),
            maybe: true,
            form: None,
        };
        set_value_at(alloc, self.model, &mut self.parts.cells, &c)
    }

    fn changed(&self, step: &Step<N>, new: &[Cell<N>]) -> Result<State<N>, Memory>
        requires { AreCells self.now.model (changed_by N.ops self.now.model step.now new.now self.now.cells) }
        ensures { IfOk result (λ s. s
            ≡ record self.now { cells = changed_by N.ops self.now.model step.now new.now self.now.cells }) }
    {
        let alloc = *self.parts.cells.allocator();
        let model = self.model;
        let parts = changed(alloc, model, &self.parts.cells, &self.parts.uses, step, new)?;
        Ok(State::of_parts(self.orders, model, parts))
    }

    /// A step, with new cells, whose forms mention cells as they were before it. What comes of it has to be the cells
    /// of a state. Costs the parts with cells that the step touches or with forms that mention such, a search for each
    /// new cell, and where a block is killed a look at all cells.
    pub fn change(&mut self, step: &Step<N>, new: Vec<Cell<N>>) -> Result<(), Memory>
        requires { AreCells self.old.model (changed_by N.ops self.old.model step.now new.items self.old.cells) }
        ensures ok { OnOk result (self.new
            ≡ record self.old { cells = changed_by N.ops self.old.model step.now new.items self.old.cells }) }
        ensures err { OnErr result (self.new ≡ self.old) }
    {
        let after = self.copy()?.after(step, new)?;
        *self = after;
        Ok(())
    }

    /// The state after a step with new cells, whose forms mention cells as they were before it. What comes of it has to
    /// be the cells of a state. Parts that no copy shares are changed where they stand: costs those with cells that the
    /// step touches or with forms that mention such, a search for each new cell, and where a block is killed a look at
    /// all cells.
    pub fn after(self, step: &Step<N>, new: Vec<Cell<N>>) -> Result<State<N>, Memory>
        requires { AreCells self.model (changed_by N.ops self.model step.now new.items self.cells) }
        ensures { IfOk result (λ s. s
            ≡ record self { cells = changed_by N.ops self.model step.now new.items self.cells }) }
    {
        let alloc = *self.parts.cells.allocator();
        let (orders, model) = (self.orders, self.model);
        let parts = after(alloc, model, self.parts, step, &new)?;
        Ok(State::of_parts(orders, model, parts))
    }

    /// The state where a cell is written. Costs what `after` does.
    pub fn written(self, c: Cell<N>) -> Result<State<N>, Memory>
        requires { CanWrite self.model c self.cells }
        ensures { IfOk result (λ s. s ≡ record self { cells = written self.model c self.cells }) }
    {
        let alloc = *self.parts.cells.allocator();
        let (orders, model) = (self.orders, self.model);
        let parts = written(alloc, model, self.parts, c)?;
        Ok(State::of_parts(orders, model, parts))
    }

    /// The state where a cell may be written, as by `weaken`. Costs what `after` does.
    pub fn weakened(self, c: &Cell<N>, shared_stays: bool) -> Result<State<N>, Memory>
        requires fits { Fits self.model c.now }
        requires stays { shared_stays ≡ true → c.now.side ≡ Side.Shared }
        ensures { IfOk result (λ s. s
            ≡ record self { cells = weakened N.ops self.model c.now shared_stays self.cells }) }
    {
        let alloc = *self.parts.cells.allocator();
        let (orders, model) = (self.orders, self.model);
        let parts = weakened(alloc, model, self.parts, c, shared_stays)?;
        Ok(State::of_parts(orders, model, parts))
    }

    /// The state where a place may have been written in whatever way, as by `blur`. Costs what `after` does.
    pub fn blurred(self, place: ByteRange) -> Result<State<N>, Memory>
        ensures { IfOk result (λ s. s ≡ blurred_at N.ops place self) }
    {
        let alloc = *self.parts.cells.allocator();
        let (orders, model) = (self.orders, self.model);
        let parts = blurred(alloc, model, self.parts, place)?;
        Ok(State::of_parts(orders, model, parts))
    }

    /// New cells in a place, in which no others lie partly: what was there on its sides is gone. What comes of it has
    /// to be the cells of a state. Costs the parts with cells that touch the place or mention such, and a search for
    /// each new cell.
    pub fn overwrite(&mut self, place: ByteRange, new: &[Cell<N>]) -> Result<(), Memory>
        requires { AreCells self.old.model (overwritten N.ops place new.now self.old).cells }
        ensures ok { OnOk result (self.new ≡ overwritten N.ops place new.now self.old) }
        ensures err { OnErr result (self.new ≡ self.old) }
    {
        let after = self.changed(&Step::Write(place), new)?;
        *self = after;
        Ok(())
    }

    /// A place may have been written in whatever way: on its sides, integer cells with bytes in it may have any value
    /// or be undefined, and pointer cells are gone. Costs the parts with cells that touch the place or mention such.
    pub fn blur(&mut self, place: ByteRange) -> Result<(), Memory>
        ensures ok { OnOk result (self.new ≡ blurred_at N.ops place self.old) }
        ensures err { OnErr result (self.new ≡ self.old) }
    {
        let alloc = *self.parts.cells.allocator();
        blur_at(
            alloc,
            self.model,
            &mut self.parts.cells,
            &self.parts.uses,
            place,
        )
    }

    fn united(&self, union: Union, other: &State<N>) -> Result<State<N>, Memory>
        requires model { self.now.model ≡ other.now.model }
        requires alike { HaveCellsAlike self.now.cells other.now.cells }
        ensures { IfOk result (λ s. s
            ≡ record self.now { cells = cells_of_both (of_union N.ops union) self.now.cells other.now.cells }) }
    {
        other.model();
        let alloc = *self.parts.cells.allocator();
        let model = self.model;
        let (first, second) = (&self.parts.cells, &other.parts.cells);
        let cells = united(alloc, model, union, first, &self.parts.uses, second)?;
        let uses = shared(alloc, &self.parts.uses)?;
        Ok(State::of_parts(self.orders, model, Parts { cells, uses }))
    }

    /// What both say, where both have cells of the same sides, places and types.
    pub fn join(&self, other: &State<N>) -> Result<State<N>, Memory>
        requires model { self.now.model ≡ other.now.model }
        requires alike { HaveCellsAlike self.now.cells other.now.cells }
        ensures { IfOk result (λ s. s
            ≡ record self.now { cells = joined N.ops self.now.cells other.now.cells }) }
    {
        self.united(Union::Join, other)
    }

    /// The same with the domain's widening in place of its join.
    pub fn widen(&self, other: &State<N>) -> Result<State<N>, Memory>
        requires model { self.now.model ≡ other.now.model }
        requires alike { HaveCellsAlike self.now.cells other.now.cells }
        ensures { IfOk result (λ s. s
            ≡ record self.now { cells = widened N.ops self.now.cells other.now.cells }) }
    {
        self.united(Union::Widen, other)
    }

    fn killed(&self, side: Side, block: u32, leaves: &[Leaf], size: u32) -> Result<State<N>, Memory>
        requires { AreLeavesIn self.now.model 0 size leaves.now }
        ensures { IfOk result (λ s. s
            ≡ record self.now { cells = killed_cells self.now.model side block leaves.now size self.now.cells }) }
    {
        let alloc = *self.parts.cells.allocator();
        let model = self.model;
        let cells = killed(
            alloc,
            model,
            &self.parts.cells,
            &self.parts.uses,
            side,
            block,
            leaves,
            size,
        )?;
        let uses = shared(alloc, &self.parts.uses)?;
        Ok(State::of_parts(self.orders, model, Parts { cells, uses }))
    }

    /// A block of these leaves and this size is killed on a side, or on both: its cells are as on entry, and pointers
    /// into it are undefined. Looks at all cells, and makes anew the parts that it touches alone.
    pub fn kill_block(
        &mut self,
        side: Side,
        block: u32,
        leaves: &[Leaf],
        size: u32,
    ) -> Result<(), Memory>
        requires { AreLeavesIn self.old.model 0 size leaves.now }
        ensures ok { OnOk result (self.new
            ≡ record self.old { cells = killed_cells self.old.model side block leaves.now size self.old.cells }) }
        ensures err { OnErr result (self.new ≡ self.old) }
    {
        let after = self.killed(side, block, leaves, size)?;
        *self = after;
        Ok(())
    }

    /// The places at which Left cells begin. Looks at all cells.
    pub fn left_places(&self) -> Result<Vec<(u32, u32)>, Memory>
        ensures { IfOk result (λ v. v.items ≡ places self.now.cells) }
    {
        let places = places(*self.parts.cells.allocator(), &self.parts.cells)?;
        Ok(places)
    }

    /// The places at which Left cells begin, where the other state has cells of the same sides, places and types. Looks
    /// at all cells of both, once.
    pub fn left_places_alike(&self, other: &State<N>) -> Result<Option<Vec<(u32, u32)>>, Memory>
        ensures places { IfOk result (λ o. IfSome o (λ v. v.items ≡ places self.now.cells)) }
        ensures alike { IfOk result (λ o. IfSome o (λ _. HaveCellsAlike self.now.cells other.now.cells)) }
        ensures unlike { IfOk result (λ o. IfNone o (HaveCellsAlike self.now.cells other.now.cells → ⊥)) }
    {
        let alloc = *self.parts.cells.allocator();
        let places = places_alike(alloc, &self.parts.cells, &other.parts.cells)?;
        Ok(places)
    }

    /// Whether at none of these places, which are all those of Left cells, a Left cell is surely the same as a Right
    /// one, so that resharing leaves all cells as they are. Two searches for each place. Takes no memory.
    pub fn is_reshared_at(&self, at: &[(u32, u32)]) -> bool
        requires { at.now ≡ places self.now.cells }
        ensures value { result ≡ are_different N.ops self.now.cells (places self.now.cells) }
        ensures stays { IsTrue result → self.now.cells ≡ reshared N.ops self.now.cells }
    {
        are_different(at, &self.parts.cells)
    }

    /// Whether no Left cell is surely the same as a Right one, so that resharing leaves all cells as they are. Takes
    /// memory for the places of Left cells, and two searches for each.
    pub fn is_reshared(&self) -> Result<bool, Memory>
        ensures value { IfOk result (λ b. b ≡ are_different N.ops self.now.cells (places self.now.cells)) }
        ensures stays { IfOk result (λ b. IsTrue b → self.now.cells ≡ reshared N.ops self.now.cells) }
    {
        let places = places(*self.parts.cells.allocator(), &self.parts.cells)?;
        Ok(are_different(&places, &self.parts.cells))
    }
}
