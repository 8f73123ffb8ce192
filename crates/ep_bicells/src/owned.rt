//! Steps of cells where they stand, as far as no other state shares them.

ghost use Rattle.std.specs.Prelude.{◌≡◌, ◌<◌, ◌≤◌, ◌++◌, ◌∷◌, [], true, not, ◌||◌, ◌&&◌, nat_eq, length};
ghost use Rattle.std.specs.Prelude.{take, drop, IfOk, OnOk, IsTrue, Some};
ghost use Rattle.std.specs.List.{list_all};
ghost use Rattle.ep_bitslice.specs.Segments.{bits, normal};
ghost use Rattle.ep_cells.specs.Cells.{place_of as the_place, touches};
ghost use Rattle.ep_cells.specs.Kill.{has_target};
ghost use Rattle.ep_bicells.specs.Steps.{after_step};
ghost use Rattle.ep_bicells.specs.Standing.{passes, is_number, AreSpanned};

use crate::changes::{Step, is_edited};
use ep_bitslice::{Form, Segment};
use ep_cell_rows::places::{is_same_cell, place_of, touches};
use ep_cell_rows::values::has_target;
use ep_cells::{ByteRange, Cell};
use ep_domain::Num;
use ep_int::{Memory, Model};
use ep_shared_parts::parts::{Edit, Part};
use std::alloc::Global;
use std::mem;
use std::rc::Rc;

fn is_apart<N: Num>(model: Model, p: &ByteRange, x: &Cell<N>) -> bool
    ensures { result ≡ not (touches p.now (the_place model x.now)) }
{
    !touches(p, &place_of(model, x))
}

fn is_alive<N: Num>(block: u32, x: &Cell<N>) -> bool
    ensures { result ≡ not (nat_eq x.now.block block || has_target block x.now.value) }
{
    !((x.block == block) | has_target(&x.value, block))
}

fn begins_apart<N: Num>(x: &Cell<N>, y: &Cell<N>) -> bool
    ensures { result ≡ not (nat_eq x.now.block y.now.block && nat_eq x.now.offset y.now.offset) }
{
    !((x.block == y.block) & (x.offset == y.offset))
}

fn is_number(s: &Segment) -> bool
    ensures { result ≡ is_number s.now }
{
    match s {
        Segment::Bits(_, _, _) => false,
        Segment::Fixed(_, _) => true,
    }
}

fn are_numbers(segments: &[Segment]) -> bool
    ensures { result ≡ list_all is_number segments.now }
{
    segments.iter().all(|s| is_number(s))
}

fn names_none(form: &Form) -> bool
    ensures none { IsTrue result → list_all is_number form.now ≡ true }
    ensures normal { normal (bits form.now) ≡ form.now }
{
    are_numbers(form.segments())
}

// The first cells stay, and the others come out.
fn cut<N: Num>(cells: &mut Vec<Cell<N>>, at: usize) -> Result<Vec<Cell<N>>, Memory>
    requires { at ≤ length cells.old.items }
    ensures kept { OnOk result (cells.new.items ≡ take at cells.old.items) }
    ensures rest { IfOk result (λ v. v.items ≡ drop at cells.old.items) }
{
    cells.split_off(at).map_err(|_| Memory)
}

fn append<N: Num>(out: &mut Vec<Cell<N>>, more: Vec<Cell<N>>) -> Result<(), Memory>
    ensures { OnOk result (out.new.items ≡ out.old.items ++ more.items) }
{
    let mut more = more;
    out.append(&mut more).map_err(|_| Memory)
}

impl<N: Num> Step<N> {
    fn passes(&self, model: Model, x: &Cell<N>) -> bool
        ensures { result ≡ passes model self.now x.now }
    {
        match self {
            Step::Write(p) => is_apart(model, p, x),
            Step::WeakWrite(c, _) => is_apart(model, &place_of(model, c), x),
            Step::Kill(_, block) => is_alive(*block, x),
            Step::Blur(p) => is_apart(model, p, x),
            Step::Split(_, y) => !is_same_cell(x, y),
            Step::Cross(y) => !is_same_cell(x, y),
            Step::Unshare(p) => is_apart(model, p, x),
            Step::Lack(y) => !is_same_cell(x, y),
            Step::Reshare(l, _) => begins_apart(x, l),
        }
    }

    // A form that mentions no cell stays.
    fn leaves_formed(&self, model: Model, x: &Cell<N>, form: &Form) -> bool
        requires { x.now.form ≡ Some form.now }
        ensures { IsTrue result → after_step N.ops model self.now (x.now ∷ []) ≡ x.now ∷ [] }
    {
        if names_none(form) {
            return self.passes(model, x);
        }
        false
    }

    // Whether a cell stays as it is. A cell whose form mentions some is said not to.
    fn leaves(&self, model: Model, x: &Cell<N>) -> bool
        ensures { IsTrue result → after_step N.ops model self.now (x.now ∷ []) ≡ x.now ∷ [] }
    {
        match &x.form {
            None => self.passes(model, x),
            Some(form) => self.leaves_formed(model, x, form.form()),
        }
    }

    // How many cells at the front stay as they are.
    fn front(&self, model: Model, cells: &[Cell<N>]) -> usize
        ensures within { result ≤ length cells.now }
        ensures stays { after_step N.ops model self.now (take result cells.now) ≡ take result cells.now }
    {
        for i in 0..cells.len() {
            if !self.leaves(model, &cells[i]) {
                return i;
            }
        }
        cells.len()
    }

    // Behind how many cells all stay as they are.
    fn back(&self, model: Model, cells: &[Cell<N>]) -> usize
        ensures within { result ≤ length cells.now }
        ensures stays { after_step N.ops model self.now (drop result cells.now) ≡ drop result cells.now }
    {
        for i in (0..cells.len()).rev() {
            if !self.leaves(model, &cells[i]) {
                return i + 1;
            }
        }
        0
    }

    // Cells before the first and behind the last one that the step changes are moved as a whole.
    fn all_after(
        &self,
        alloc: Global,
        model: Model,
        cells: Vec<Cell<N>>,
    ) -> Result<Vec<Cell<N>>, Memory>
        ensures { IfOk result (λ v. v.items ≡ after_step N.ops model self.now cells.items) }
    {
        let mut out = cells;
        let first = self.front(model, &out);
        let mut rest = cut(&mut out, first)?;
        let end = self.back(model, &rest);
        let behind = cut(&mut rest, end)?;
        let after = self.after(alloc, model, &rest)?;
        append(&mut out, after)?;
        append(&mut out, behind)?;
        Ok(out)
    }

    // A part changes. Its cells are moved where no other part shares them.
    fn change_part(
        &self,
        alloc: Global,
        model: Model,
        part: &mut Part<Cell<N>>,
    ) -> Result<(), Memory>
        ensures start { OnOk result (part.new.start ≡ part.old.start) }
        ensures items { OnOk result (part.new.items.value.items
            ≡ after_step N.ops model self.now part.old.items.value.items) }
    {
        match Rc::get_mut(&mut part.items) {
            Some(cells) => {
                let before = mem::replace(cells, Vec::new(alloc));
                *cells = self.all_after(alloc, model, before)?;
                Ok(())
            }
            None => {
                let cells = self.after(alloc, model, &part.items)?;
                part.items = Rc::new(alloc, cells).map_err(|_| Memory)?;
                Ok(())
            }
        }
    }

    /// Changes the parts from `first` up to `end`, but for those that are edited, where they stand.
    pub fn change_parts(
        &self,
        alloc: Global,
        model: Model,
        parts: &mut Vec<Part<Cell<N>>>,
        first: usize,
        end: usize,
        edits: &[Edit<Cell<N>>],
    ) -> Result<(), Memory>
        requires order { first ≤ end }
        requires within { end ≤ length parts.old.items }
        ensures { OnOk result (AreSpanned (after_step N.ops model self.now) first end edits.now parts.old.items
            parts.new.items) }
    {
        for i in first..end {
            if !is_edited(edits, i) {
                self.change_part(alloc, model, &mut parts[i])?;
            }
        }
        Ok(())
    }
}
