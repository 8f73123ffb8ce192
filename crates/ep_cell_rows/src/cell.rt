//! One cell.

ghost use Rattle.std.specs.Prelude.{◌≡◌, ◌↔◌, IfOk, IsTrue};
ghost use Rattle.ep_cells.specs.Forms.{reformed};
ghost use Rattle.ep_cell_rows.specs.Parts.{fate_of};

use crate::change::Change;
use crate::places::is_same_cell;
use crate::values::{copy_boxed, copy_value, is_same_form, is_same_value};
use ep_bitslice::Side;
use ep_cells::Cell;
use ep_domain::Num;
use ep_int::Memory;

/// The same cell.
pub fn copy_cell<N: Num>(c: &Cell<N>) -> Result<Cell<N>, Memory>
    ensures { IfOk result (λ x. x ≡ c.now) }
{
    Ok(Cell {
        side: c.side,
        block: c.block,
        offset: c.offset,
        what: c.what,
        value: copy_value(&c.value)?,
        maybe: c.maybe,
        form: copy_boxed(&c.form)?,
    })
}

/// Whether two cells say the same of the same scalar: every field of one is that of the other.
pub fn is_equal<N: Num>(x: &Cell<N>, y: &Cell<N>) -> bool
    ensures { IsTrue result ↔ (x.now ≡ y.now) }
{
    if !is_same_cell(x, y) {
        return false;
    }
    if x.maybe != y.maybe {
        return false;
    }
    if !is_same_value(&x.value, &y.value) {
        return false;
    }
    is_same_form(&x.form, &y.form)
}

/// The same cell on this side, with its form under new names.
pub fn reformed_on<N: Num>(change: Change, c: &Cell<N>, side: Side) -> Result<Cell<N>, Memory>
    ensures { IfOk result (λ x. x ≡ reformed (fate_of change) (record c.now { side = side })) }
{
    Ok(Cell {
        side,
        block: c.block,
        offset: c.offset,
        what: c.what,
        value: copy_value(&c.value)?,
        maybe: c.maybe,
        form: change.form(&c.form)?,
    })
}

/// The cell with its form under new names.
pub fn reformed<N: Num>(change: Change, c: Cell<N>) -> Cell<N>
    ensures { result ≡ reformed (fate_of change) c }
{
    Cell {
        side: c.side,
        block: c.block,
        offset: c.offset,
        what: c.what,
        value: c.value,
        maybe: c.maybe,
        form: change.form_there(c.form),
    }
}
