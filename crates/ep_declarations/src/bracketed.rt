//! Reading the bounds of arrays.

ghost use Rattle.std.specs.Prelude.{◌≡◌, ◌<◌, ◌^◌, length, map, List, Option, Some, IfOk};
ghost use Rattle.ep_ast.specs.Expression.{Expr};
ghost use Rattle.ep_ast.specs.DeclarationGrammar.{Bounds};
ghost use Rattle.ep_lexer.specs.Tokens.{view};
ghost use Rattle.ep_reading.specs.Names.{is_type};
ghost use Rattle.ep_reading.specs.Answer.{Parses, IsWithin};
ghost use Rattle.ep_expression_trees.specs.BoundedTrees.{Shows};
ghost use Rattle.ep_declarations.specs.Parts.{ShowsBound, ShowsBounds, Derives};

use ep_ast::{ExprTree, Halt, Mark};
use ep_exprs::{BoundedTree, read_expression};
use ep_lexer::Token;
use ep_reading::{Measured, Part, Reader, at_mark};

/// How many stars and bounds a declarator may have.
const MOST_DERIVATIONS: usize = 64;

/// What stands between brackets that aren't empty.
fn bound(size: BoundedTree) -> Measured<Option<ExprTree>>
    ensures { (e : Expr) → Shows size e → ShowsBound result (Some e) }
{
    match size.measured() {
        Measured::Fits(tree) => Measured::Fits(Some(tree)),
        Measured::TooDeep(line) => Measured::TooDeep(line),
    }
}

/// All pairs of `[ ]` that stand here, where no bound is too deep.
pub fn bounds<'a>(
    reader: &Reader<'_>,
    tokens: &'a [Token<'a>],
) -> Result<Part<'a, Measured<Vec<Option<ExprTree>>>>, Halt>
    requires { length tokens.now < 2 ^ 24 }
    ensures reads { Parses ShowsBounds (Bounds (is_type reader.now.names.now)) (map view tokens.now) result }
    ensures shorter { IfOk result (IsWithin (length tokens.now)) }
{
    let mut found = Measured::Fits(Vec::new(reader.alloc));
    // The variable has a lifetime of its own.
    let mut rest = (tokens,).0;
    'bounds: loop {
        let Some((_, inside)) = at_mark(rest, Mark::LeftBracket) else {
            return Ok(Part { value: found, rest });
        };
        if let Some((_, more)) = at_mark(inside, Mark::RightBracket) {
            found = found.longer(Measured::Fits(None))?;
            rest = more;
        } else {
            let size = read_expression(reader, inside)?;
            let Some((_, more)) = at_mark(size.rest, Mark::RightBracket) else {
                return Err(Halt::Refused(reader.stopped(size.rest)));
            };
            found = found.longer(bound(size.value))?;
            rest = more;
        }
    }
}

/// The stars and bounds of a declarator, where they aren't too many and no bound is too deep.
pub fn derived(
    stars: Vec<u32>,
    bounds: Measured<Vec<Option<ExprTree>>>,
) -> Option<(Vec<u32>, Vec<Option<ExprTree>>)>
    ensures { (bs : List (Option Expr)) → ShowsBounds bounds bs → Derives result stars.items bs }
{
    match bounds {
        Measured::Fits(bounds) => {
            if stars.len() + bounds.len() > MOST_DERIVATIONS {
                return None;
            }
            Some((stars, bounds))
        }
        Measured::TooDeep(_) => None,
    }
}
