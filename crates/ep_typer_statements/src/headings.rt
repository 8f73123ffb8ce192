//! The first part of a `for`.

ghost use Rattle.std.specs.Prelude.{OnOk};
ghost use Rattle.ep_ast.specs.Statement.{first_of};
ghost use Rattle.ep_declared.specs.Refinement.{RefinesIn};
ghost use Rattle.ep_elaboration.specs.Statements as rule;
ghost use Rattle.ep_scopes.specs.Known.{IsKnownEnv};
ghost use Rattle.ep_scopes.specs.View.{env as env_view};
ghost use Rattle.ep_typer_statements.specs.View.{lines as lines_view};

use ep_ast::{ForInitTree, Halt};
use ep_core::tree::Stmt;
use ep_scopes::Env;
use ep_typer_declarations::declaration;
use ep_typer_lines::{enter, evaluated_if};

/// The first part of a `for` on this line.
#[tactic(auto, unfolding(ep_elaboration::specs::Statements::first_part))]
fn first_part(env: &mut Env, line: u32, first: &ForInitTree) -> Result<Vec<Stmt>, Halt>
    requires { IsKnownEnv (env_view env.old) }
    ensures means { RefinesIn lines_view (rule.first_part (env_view env.old) line (first_of first.now))
        (env_view env.new) result }
    ensures known { OnOk result (IsKnownEnv (env_view env.new)) }
{
    match first {
        ForInitTree::Declaration(tree) => {
            let made = declaration(env, false, false, tree)?;
            Ok(made.lines)
        }
        ForInitTree::Expr(tree) => evaluated_if(env, line, tree),
    }
}

/// The same in a scope of its own, which stays open.
pub(crate) fn first_inside(env: &mut Env, line: u32, first: &ForInitTree) -> Result<Vec<Stmt>, Halt>
    requires { IsKnownEnv (env_view env.old) }
    ensures means { RefinesIn lines_view
        (rule.first_part (rule.entered (env_view env.old)) line (first_of first.now)) (env_view env.new) result }
    ensures known { OnOk result (IsKnownEnv (env_view env.new)) }
{
    enter(env)?;
    let lines = first_part(env, line, first)?;
    Ok(lines)
}
