//! Whether operations may be made.

ghost use Rattle.std.specs.Prelude.{◌↔◌, IsTrue};
ghost use Rattle.ep_cells.specs.States.{AreCells, CanWrite};

use ep_cell_changes::check::{has_form, is_cell};
use ep_cell_rows::places::place_of;
use ep_cell_rows::rows::is_some_partly_in;
use ep_cell_rows::values::rises;
use ep_cells::Cell;
use ep_domain::Num;
use ep_int::Model;

/// Whether a cell may be written to these.
pub fn can_write<N: Num>(model: Model, c: &Cell<N>, cells: &[Cell<N>]) -> bool
    requires { AreCells model cells.now }
    ensures { IsTrue result ↔ CanWrite model c.now cells.now }
{
    rises(&c.value);
    is_cell(model, c) & has_form(c, cells) & !is_some_partly_in(model, &place_of(model, c), cells)
}
