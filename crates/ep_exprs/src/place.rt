//! An expression at a place of the tokens.

ghost use Rattle.std.specs.Prelude.{◌≡◌, ◌+◌, ◌<◌, ◌≤◌, ◌^◌, length, drop, map, List, IfOk, IfErr, OnOk, None, false};
ghost use Rattle.ep_ast.specs.Token.{Tok};
ghost use Rattle.ep_ast.specs.Expression.{Expr, expr};
ghost use Rattle.ep_ast.specs.Grammar.{IsFront};
ghost use Rattle.ep_ast.specs.Kind.{nesting};
ghost use Rattle.ep_ast.specs.Nesting.{is_too_deep, opens_past};
ghost use Rattle.ep_ast.specs.Refusal.{IfRefused};
ghost use Rattle.ep_lexer.specs.Tokens.{view, all_view};
ghost use Rattle.ep_reading.specs.Names.{is_type};
ghost use Rattle.ep_expression_trees.specs.BoundedTrees.{Shows};
ghost use Rattle.ep_exprs.specs.Answer.{IsFound, IsRefused, Wholly};

use crate::look::follows;
use crate::parser::read_expression;
use ep_ast::{ExprTree, Halt, Refusal, RefusalKind};
use ep_expression_trees::BoundedTree;
use ep_lexer::Tokens;
use ep_reading::{Reader, TypeNames, last_line, opens_past};
use std::alloc::Global;

fn too_deep(line: u32) -> Refusal
    ensures { (result.kind ≡ nesting) × (result.word ≡ 0) × (result.line ≡ line) }
{
    Refusal::new(RefusalKind::Nesting, line)
}

/// The tree, where it isn't too deep.
fn whole(kept: BoundedTree) -> Result<ExprTree, Refusal>
    ensures { (t : Expr) → Shows kept t → Wholly result t }
{
    let line = kept.line;
    match kept.tree {
        Some(tree) => Ok(tree),
        None => Err(too_deep(line)),
    }
}

/// The expression that begins at this place, and the place after it, where something stands that may follow an
/// expression.
/// A refusal for syntax names the line of the first token with which no expression goes on, or the last token's where
/// the
/// tokens end too soon; one for nesting that of the bracket, or of the expression.
pub fn expression(
    alloc: Global,
    tokens: &Tokens<'_>,
    from: usize,
    names: &TypeNames,
) -> Result<(ExprTree, usize), Halt>
    requires place { from ≤ length tokens.now.list.items }
    requires few { length tokens.now.list.items < 2 ^ 24 }
    ensures found { IfOk result (λ p. IsFound (is_type names.now) (all_view tokens.now) from p.1 (expr p.0)) }
    ensures only { IfOk result (λ p. (front rest : List Tok) → (t : Expr)
        → IsFront (is_type names.now) (drop from (all_view tokens.now)) front rest t
        → (t ≡ expr p.0) × (length front + from ≡ p.1)) }
    ensures nesting { IfOk result (λ p. (opens_past 0 (drop from (all_view tokens.now)) ≡ None)
        × (is_too_deep (expr p.0) ≡ false)) }
    ensures refused { IfErr result (λ e. IfRefused e (IsRefused (is_type names.now)
        (drop from (all_view tokens.now)))) }
{
    let all = tokens.list.as_slice();
    let (_, here) = all.split_at(from);
    if let Some(line) = opens_past(here) {
        return Err(Halt::Refused(too_deep(line)));
    }
    let reader = Reader {
        alloc,
        names,
        last: last_line(all),
    };
    let kept = read_expression(&reader, here)?;
    if !follows(kept.rest) {
        return Err(Halt::Refused(reader.stopped(kept.rest)));
    }
    match whole(kept.value) {
        Ok(tree) => Ok((tree, all.len() - kept.rest.len())),
        Err(refusal) => Err(Halt::Refused(refusal)),
    }
}
