//! What becomes of mentions of cells.

ghost use Rattle.std.specs.Prelude.{◌≡◌, IfOk, None, Some, if◌then◌else◌};
ghost use Rattle.std.specs.List.{list_all};
ghost use Rattle.std.specs.Option.{option_map};
ghost use Rattle.ep_bitslice.specs.Bits.{renamed};
ghost use Rattle.ep_bitslice.specs.Segments.{bits, IsForm};
ghost use Rattle.ep_cells.specs.Cells.{share_memory as share};
ghost use Rattle.ep_cells.specs.Forms.{form_after};
ghost use Rattle.ep_cells.specs.Write.{fate_by_write};
ghost use Rattle.ep_cells.specs.Weaken.{fate_by_weak_write, first_part as first_of};
ghost use Rattle.ep_cells.specs.Kill.{fate_by_kill};
ghost use Rattle.ep_cells.specs.Reshare.{fate_by_side};
ghost use Rattle.ep_cell_rows.specs.Parts.{fate_of, fate_by_unsharing, goes_on, name_after, bits_with, bits_with_all};

use crate::places::{first_part, place_of_name, share_memory, side_without, touches};
use crate::values::boxed_like;
use ep_bitslice::{BoxedForm, CellName, Form, Segment, Side};
use ep_cells::ByteRange;
use ep_int::Memory;

/// A change of cells.
#[derive(Clone, Copy)]
pub enum Change {
    Write(ByteRange),
    WeakWrite(ByteRange),
    /// A side, and a block.
    Kill(Side, u32),
    /// A block and an offset, and whether the Shared cell there may be undefined.
    Reshare(u32, u32, bool),
    /// Shared cells that are met come apart.
    Unshare(ByteRange),
}

// The name on another side, if there is one.
fn on_side(n: &CellName, side: Option<Side>) -> Option<CellName>
    ensures { result ≡ option_map (λ s. record n.now { side = s }) side }
{
    match side {
        None => None,
        Some(side) => Some(CellName {
            side,
            block: n.block,
            offset: n.offset,
            t: n.t,
        }),
    }
}

fn fate_by_write(p: &ByteRange, n: &CellName) -> Option<CellName>
    ensures { result ≡ fate_by_write p.now n.now }
{
    if touches(p, &place_of_name(n)) {
        on_side(n, side_without(p.side, n.side))
    } else {
        Some(*n)
    }
}

fn touched_weakly(p: &ByteRange, n: &CellName) -> Option<CellName>
    ensures { result
        ≡ (if share p.now.side (first_of n.now.side) then None
        else Some (record n.now { side = first_of n.now.side })) }
{
    if share_memory(p.side, first_part(n.side)) {
        None
    } else {
        on_side(n, Some(first_part(n.side)))
    }
}

fn fate_by_weak_write(p: &ByteRange, n: &CellName) -> Option<CellName>
    ensures { result ≡ fate_by_weak_write p.now n.now }
{
    if touches(p, &place_of_name(n)) {
        touched_weakly(p, n)
    } else {
        Some(*n)
    }
}

fn fate_by_kill(side: Side, block: u32, n: &CellName) -> Option<CellName>
    ensures { result ≡ fate_by_kill side block n.now }
{
    if n.block == block {
        on_side(n, side_without(side, n.side))
    } else {
        Some(*n)
    }
}

fn shared_name(maybe: bool, n: &CellName) -> Option<CellName>
    ensures { result ≡ (if maybe then None
        else Some (record n.now { side = Side.Shared })) }
{
    if maybe {
        None
    } else {
        on_side(n, Some(Side::Shared))
    }
}

fn fate_by_side(maybe: bool, n: &CellName) -> Option<CellName>
    ensures { result ≡ fate_by_side maybe n.now n.now.side }
{
    match n.side {
        Side::Left => shared_name(maybe, n),
        Side::Right => shared_name(maybe, n),
        Side::Shared => Some(*n),
    }
}

fn fate_by_reshare(block: u32, offset: u32, maybe: bool, n: &CellName) -> Option<CellName>
    ensures { result ≡ fate_of (Change.Reshare block offset maybe) n.now }
{
    if n.block == block && n.offset == offset {
        fate_by_side(maybe, n)
    } else {
        Some(*n)
    }
}

fn fate_by_unsharing(p: &ByteRange, n: &CellName) -> Option<CellName>
    ensures { result ≡ fate_by_unsharing p.now n.now }
{
    if touches(p, &place_of_name(n)) {
        on_side(n, Some(first_part(n.side)))
    } else {
        Some(*n)
    }
}

impl Change {
    /// The name by which a mention of a cell goes on, if it does.
    pub fn fate(self, n: &CellName) -> Option<CellName>
        ensures { result ≡ fate_of self n.now }
    {
        match self {
            Change::Write(p) => fate_by_write(&p, n),
            Change::WeakWrite(p) => fate_by_weak_write(&p, n),
            Change::Kill(side, block) => fate_by_kill(side, block, n),
            Change::Reshare(block, offset, maybe) => fate_by_reshare(block, offset, maybe, n),
            Change::Unshare(p) => fate_by_unsharing(&p, n),
        }
    }

    fn goes_on(self, s: &Segment) -> bool
        ensures { result ≡ goes_on (fate_of self) s.now }
    {
        match s {
            Segment::Bits(c, _, _) => self.fate(c).is_some(),
            Segment::Fixed(_, _) => true,
        }
    }

    fn all_go_on(self, segments: &[Segment]) -> bool
        ensures { result ≡ list_all (goes_on (fate_of self)) segments.now }
    {
        segments.iter().all(|s| self.goes_on(s))
    }

    fn with_name(self, form: &Form, c: &CellName) -> Form
        ensures bits { bits result ≡ renamed c.now (name_after (fate_of self) c.now) (bits form.now) }
        ensures form { IsForm result }
    {
        match self.fate(c) {
            None => form.rename(c, c),
            Some(e) => form.rename(c, &e),
        }
    }

    fn with_segment(self, form: &Form, s: &Segment) -> Form
        ensures bits { bits result ≡ bits_with (fate_of self) s.now (bits form.now) }
        ensures form { IsForm result }
    {
        match s {
            Segment::Bits(c, _, _) => self.with_name(form, c),
            Segment::Fixed(_, _) => form.copy(),
        }
    }

    fn renamed(self, form: &Form) -> Form
        ensures bits { bits result ≡ bits_with_all (fate_of self) form.now (bits form.now) }
        ensures form { IsForm result }
        ensures old { IsForm form.now }
    {
        let mut after = form.copy();
        for s in form.segments() {
            after = self.with_segment(&after, s);
        }
        after
    }

    fn some_form(self, form: &Form) -> Option<Form>
        ensures { result ≡ form_after (fate_of self) (Some form.now) }
    {
        let after = self.renamed(form);
        if self.all_go_on(form.segments()) {
            Some(after)
        } else {
            None
        }
    }

    /// The form with the new names, if every mention goes on.
    pub fn form(self, form: &Option<BoxedForm>) -> Result<Option<BoxedForm>, Memory>
        ensures { IfOk result (λ f. f ≡ form_after (fate_of self) form.now) }
    {
        match form {
            None => Ok(None),
            Some(form) => boxed_like(form, self.some_form(form.form())),
        }
    }

    fn some_form_there(self, form: BoxedForm) -> Option<BoxedForm>
        ensures { result ≡ form_after (fate_of self) (Some form) }
    {
        match self.some_form(form.form()) {
            None => None,
            Some(after) => Some(form.replaced(after)),
        }
    }

    /// The same in the place of the form.
    pub fn form_there(self, form: Option<BoxedForm>) -> Option<BoxedForm>
        ensures { result ≡ form_after (fate_of self) form }
    {
        match form {
            None => None,
            Some(form) => self.some_form_there(form),
        }
    }
}
