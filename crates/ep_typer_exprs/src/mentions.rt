//! What an expression declares.

ghost use Rattle.std.specs.Prelude.{◌≡◌, map, OnOk};
ghost use Rattle.ep_ast.specs.Expression as source;
ghost use Rattle.ep_typing.specs.Names as rule;
ghost use Rattle.ep_scopes.specs.Known.{IsKnownEnv};
ghost use Rattle.ep_scopes.specs.View.{env as env_view};

use ep_ast::ExprTree;
use ep_int::Memory;
use ep_scopes::{Env, mention_name};

/// The tags and types that an expression's type names mention come into the environment.
#[cycle(mentions)]
#[tactic(auto, unfolding(ep_typing::specs::Names::mentioned))]
pub fn mention(env: &mut Env, tree: &ExprTree) -> Result<(), Memory>
    requires { IsKnownEnv (env_view env.old) }
    ensures means { OnOk result (env_view env.new ≡ rule.mentioned (env_view env.old) (source.expr tree.now)) }
    ensures known { OnOk result (IsKnownEnv (env_view env.new)) }
{
    match tree {
        ExprTree::Assign(_, _, a, b) => {
            mention(env, a)?;
            mention(env, b)
        }
        ExprTree::Conditional(_, test, a, b) => {
            mention(env, test)?;
            mention(env, a)?;
            mention(env, b)
        }
        ExprTree::Binary(_, _, a, b) => {
            mention(env, a)?;
            mention(env, b)
        }
        ExprTree::Cast(_, name, a) => {
            mention_name(env, name)?;
            mention(env, a)
        }
        ExprTree::Step(_, _, a) => mention(env, a),
        ExprTree::Unary(_, _, a) => mention(env, a),
        ExprTree::SizeofExpr(_, a) => mention(env, a),
        ExprTree::SizeofType(_, name) => mention_name(env, name),
        ExprTree::Index(_, a, b) => {
            mention(env, a)?;
            mention(env, b)
        }
        ExprTree::Call(_, f, list) => {
            mention(env, f)?;
            mention_all(env, list)
        }
        ExprTree::Member(_, a, _) => mention(env, a),
        ExprTree::Arrow(_, a, _) => mention(env, a),
        ExprTree::PostIncrement(_, a) => mention(env, a),
        ExprTree::PostDecrement(_, a) => mention(env, a),
        ExprTree::Id(_, _) => Ok(()),
        ExprTree::Number(_, _) => Ok(()),
    }
}

/// The same of expressions one after another.
#[cycle(mentions)]
#[tactic(auto, unfolding(ep_typing::specs::Names::mentioned_all))]
pub fn mention_all(env: &mut Env, list: &[ExprTree]) -> Result<(), Memory>
    requires { IsKnownEnv (env_view env.old) }
    ensures means { OnOk result (env_view env.new
        ≡ rule.mentioned_all (env_view env.old) (source.to_exprs (map source.expr list.now))) }
    ensures known { OnOk result (IsKnownEnv (env_view env.new)) }
{
    for tree in list {
        mention(env, tree)?;
    }
    Ok(())
}
