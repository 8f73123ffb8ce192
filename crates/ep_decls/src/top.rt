//! Reading a program.

ghost use Rattle.std.specs.Prelude.{◌≡◌, ◌<◌, ◌^◌, length, map, IfOk, IfErr, List, None};
ghost use Rattle.ep_ast.specs.Statement.{Item, program_of};
ghost use Rattle.ep_ast.specs.ProgramGrammar.{Programs};
ghost use Rattle.ep_ast.specs.Depth.{brackets_past, too_deep};
ghost use Rattle.ep_ast.specs.Kind.{nesting};
ghost use Rattle.ep_ast.specs.Offence.{Offends};
ghost use Rattle.ep_ast.specs.Refusal.{IfRefused};
ghost use Rattle.ep_ast.specs.declared.refusals.Refusal.{Refusal};
ghost use Rattle.ep_lexer.specs.Tokens.{view, all_view};
ghost use Rattle.ep_decls.specs.Answer.{NoneFits, ReadsAll};

use crate::items::item;
use crate::trees::{too_deep, whole};
use ep_ast::{Halt, ItemTree, ProgramTree};
use ep_lexer::{Token, Tokens};
use ep_reading::{Measured, TypeNames, brackets_past, last_line};
use std::alloc::Global;

/// All items, up to the end of the tokens, of which the last has this line.
fn all_items<'a>(
    alloc: Global,
    last: u32,
    tokens: &'a [Token<'a>],
) -> Result<Measured<Vec<ItemTree>>, Halt>
    requires { length tokens.now < 2 ^ 24 }
    ensures reads { ReadsAll (map view tokens.now) result }
{
    let mut names = TypeNames::new(alloc);
    let mut found = Measured::Fits(Vec::new(alloc));
    // The variable has a lifetime of its own.
    let mut rest = (tokens,).0;
    'items: loop {
        if rest.is_empty() {
            return Ok(found);
        }
        let one = item(alloc, &mut names, last, rest)?;
        found = found.longer(one.value)?;
        rest = one.rest;
    }
}

/// The tree of a whole program.
/// A refusal for syntax names the line of the first token with which no program goes on, or the last
/// token's where the tokens end too soon, and one for nesting that of the bracket, or of what is too
/// deep the first in the text.
pub fn program(alloc: Global, tokens: &Tokens<'_>) -> Result<ProgramTree, Halt>
    requires few { length tokens.now.list.items < 2 ^ 24 }
    ensures derives { IfOk result (λ t. Programs (all_view tokens.now) (program_of t)) }
    ensures only { IfOk result (λ t. (is : List Item) → Programs (all_view tokens.now) is → is ≡ program_of t) }
    ensures fits { IfOk result (λ t. (brackets_past 0 (all_view tokens.now) ≡ None)
        × (too_deep (program_of t) ≡ None)) }
    ensures faultless { IfOk result (λ _. (r : Refusal) → Offends (all_view tokens.now) r → ⊥) }
    ensures refused { IfErr result (λ e. IfRefused e (Offends (all_view tokens.now))) }
    ensures deep { IfErr result (λ e. IfRefused e (λ r. r.kind ≡ nesting → NoneFits (all_view tokens.now))) }
{
    let all = tokens.list.as_slice();
    if let Some(line) = brackets_past(all) {
        return Err(Halt::Refused(too_deep(line)));
    }
    let found = all_items(alloc, last_line(all), all)?;
    match whole(found) {
        Ok(tree) => Ok(tree),
        Err(refusal) => Err(Halt::Refused(refusal)),
    }
}
