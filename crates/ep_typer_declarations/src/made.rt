//! What declarations come to.

ghost use Rattle.std.specs.Prelude.{◌≡◌, ◌++◌, [], map, OnOk};
ghost use Rattle.ep_core.specs.View.{what_view};
ghost use Rattle.ep_given.specs.View.{given as shown_given};
ghost use Rattle.ep_elaboration.specs.Declarations as rule;
ghost use Rattle.ep_typer_declarations.specs.View as view;

use ep_core::program::InitByte;
use ep_core::tree::{Stmt, What};
use ep_given::Given;
use std::alloc::{AllocError, Global};

/// What declarations come to: statements of a block, or first values of globals.
#[derive(Drop)]
pub struct Made {
    pub lines: Vec<Stmt>,
    pub values: Vec<InitByte>,
}

// Statements of one line come behind others.
fn add_statements(lines: &mut Vec<Stmt>, line: u32, statements: Vec<What>) -> Result<(), AllocError>
    ensures { OnOk result (map view.line lines.new.items
        ≡ map view.line lines.old.items ++ map (λ w. (line, what_view w)) statements.items) }
{
    for what in statements {
        lines.push(Stmt { line, what })?;
    }
    Ok(())
}

impl Made {
    /// No declarations.
    pub(crate) fn new(alloc: Global) -> Made
        ensures { view.made result ≡ record { lines = []; values = [] } }
    {
        Made {
            lines: Vec::new(alloc),
            values: Vec::new(alloc),
        }
    }

    /// One variable more, whose name is on the line.
    pub(crate) fn add(&mut self, line: u32, given: Given) -> Result<(), AllocError>
        ensures { OnOk result (view.made self.new
            ≡ rule.both_made (view.made self.old) (rule.lined line (shown_given given))) }
    {
        add_statements(&mut self.lines, line, given.statements)?;
        let mut values = given.values;
        self.values.append(&mut values)
    }
}
