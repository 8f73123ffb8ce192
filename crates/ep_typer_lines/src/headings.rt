//! The lines of a `for`.

ghost use Rattle.std.specs.Prelude.{◌≡◌, ◌++◌, IfErr, IfOk, OnOk};
ghost use Rattle.ep_ast.specs.declared.refusals.Halt.TheVariants as halts;
ghost use Rattle.ep_ast.specs.Statement.{first_of};
ghost use Rattle.ep_core.specs.View.{what_view};
ghost use Rattle.ep_elaboration.specs.Statements as rule;
ghost use Rattle.ep_typer_lines.specs.View.{lines as lines_view};

use crate::nodes::{one_line, scoped};
use ep_ast::{ForInitTree, Halt};
use ep_core::tree::{Stmt, What};
use std::alloc::Global;

fn followed(lines: &mut Vec<Stmt>, line: u32, what: What) -> Result<(), Halt>
    ensures more { OnOk result (lines_view lines.new ≡ lines_view lines.old ++ rule.one_line line (what_view what)) }
    ensures wants { IfErr result (λ e. e ≡ halts.Memory) }
{
    lines.push(Stmt { line, what })?;
    Ok(())
}

/// A `for` from its first part, its loop, and the blocks that it declares.
pub fn for_lines(
    alloc: Global,
    first: &ForInitTree,
    line: u32,
    before: Vec<Stmt>,
    what: What,
    blocks: Vec<u32>,
) -> Result<Vec<Stmt>, Halt>
    ensures means { IfOk result (λ v. lines_view v
        ≡ rule.for_lines (first_of first.now) line (lines_view before) (what_view what) blocks.items) }
    ensures wants { IfErr result (λ e. e ≡ halts.Memory) }
{
    let mut lines = before;
    followed(&mut lines, line, what)?;
    match first {
        ForInitTree::Declaration(_) => {
            let all = one_line(alloc, line, scoped(blocks, lines))?;
            Ok(all)
        }
        ForInitTree::Expr(_) => Ok(lines),
    }
}
