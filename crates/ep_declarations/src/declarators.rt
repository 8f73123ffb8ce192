//! Reading declarators.

ghost use Rattle.std.specs.Prelude.{◌≡◌, ◌<◌, ◌^◌, length, map, List, Option, IfOk};
ghost use Rattle.ep_ast.specs.Expression.{Expr};
ghost use Rattle.ep_ast.specs.DeclarationGrammar.{Declared};
ghost use Rattle.ep_lexer.specs.Tokens.{view};
ghost use Rattle.ep_reading.specs.Names.{is_type};
ghost use Rattle.ep_reading.specs.Answer.{Parses, IsPast};
ghost use Rattle.ep_declarations.specs.DeclaratorAnswer.{ShowsDeclarator, ShowsNamed};
ghost use Rattle.ep_declarations.specs.Parts.{ShowsBounds};

use crate::bracketed::{bounds, derived};
use ep_ast::{DeclaratorTree, ExprTree, Halt, Word};
use ep_lexer::Token;
use ep_reading::{Measured, Part, Reader, at_name, at_word};
use ep_type_names::stars;
use std::alloc::{AllocError, Global};

/// The name that is declared, and the declarator where it isn't too deep.
#[derive(Debug, Drop)]
pub struct Named<'a> {
    pub name: &'a [u8],
    pub tree: Measured<DeclaratorTree>,
}

/// A declarator, where it isn't too deep.
fn make_declarator(
    alloc: Global,
    line: u32,
    stars: Vec<u32>,
    name: &[u8],
    bounds: Measured<Vec<Option<ExprTree>>>,
) -> Result<Measured<DeclaratorTree>, AllocError>
    ensures { (bs : List (Option Expr)) → ShowsBounds bounds bs
        → IfOk result (λ t. ShowsDeclarator t
        (record { line = line; stars = stars.items; name = name.now; bounds = bs })) }
{
    match derived(stars, bounds) {
        Some((stars, bounds)) => {
            let name = Vec::from_slice(alloc, name)?;
            Ok(Measured::Fits(DeclaratorTree {
                line,
                stars,
                name,
                bounds,
            }))
        }
        None => Ok(Measured::TooDeep(line)),
    }
}

/// The declarator that begins here.
pub fn declarator<'a>(
    reader: &Reader<'_>,
    tokens: &'a [Token<'a>],
) -> Result<Part<'a, Named<'a>>, Halt>
    requires { length tokens.now < 2 ^ 24 }
    ensures reads { Parses ShowsNamed (Declared (is_type reader.now.names.now)) (map view tokens.now) result }
    ensures shorter { IfOk result (IsPast (length tokens.now)) }
{
    if let Some(_) = at_word(tokens, Word::Const) {
        return Err(Halt::Refused(reader.stopped(tokens)));
    }
    let stars = stars(reader.alloc, tokens)?;
    let Some((line, name, inside)) = at_name(stars.rest) else {
        return Err(Halt::Refused(reader.stopped(stars.rest)));
    };
    if reader.names.has(name) {
        return Err(Halt::Refused(reader.stopped(stars.rest)));
    }
    let bounds = bounds(reader, inside)?;
    let tree = make_declarator(reader.alloc, line, stars.value, name, bounds.value)?;
    Ok(Part {
        value: Named { name, tree },
        rest: bounds.rest,
    })
}
