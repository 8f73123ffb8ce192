//! Reading declarations of variables.

ghost use Rattle.std.specs.Prelude.{◌≡◌, ◌<◌, ◌^◌, length, map, IfOk, List};
ghost use Rattle.ep_ast.specs.Declaration.{Spec, Init};
ghost use Rattle.ep_ast.specs.DeclarationGrammar as grammar;
ghost use Rattle.ep_ast.specs.DeclarationGrammar.{Declares, in_block};
ghost use Rattle.ep_lexer.specs.Tokens.{view};
ghost use Rattle.ep_reading.specs.Names.{is_type};
ghost use Rattle.ep_reading.specs.Answer.{Parses, IsPast};
ghost use Rattle.ep_declarations.specs.DeclaratorAnswer.{ShowsInits};
ghost use Rattle.ep_declarations.specs.Answer.{ShowsSpecs, ShowsDeclaration};

use crate::aggregates::specs_line;
use crate::initialisers::inits;
use crate::specs::{Context, SpecList, spec_list};
use ep_ast::{DeclarationTree, Halt, InitTree};
use ep_lexer::Token;
use ep_reading::{Measured, Part, Reader};

/// A declaration of these words and variables.
pub fn make_declaration(
    specs: SpecList,
    inits: Measured<Vec<InitTree>>,
) -> Measured<DeclarationTree>
    ensures { (ss : List Spec) → (is : List Init) → ShowsSpecs specs ss → ShowsInits inits is
        → ShowsDeclaration result (record { line = grammar.specs_line ss; specs = ss; inits = is }) }
{
    match specs.tree.and(inits) {
        Measured::Fits((specs, inits)) => {
            let line = specs_line(&specs);
            Measured::Fits(DeclarationTree { line, specs, inits })
        }
        Measured::TooDeep(line) => Measured::TooDeep(line),
    }
}

/// A declaration in a block, up to and with its semicolon.
pub fn declaration<'a>(
    reader: &Reader<'_>,
    tokens: &'a [Token<'a>],
) -> Result<Part<'a, Measured<DeclarationTree>>, Halt>
    requires { length tokens.now < 2 ^ 24 }
    ensures reads { Parses ShowsDeclaration (Declares (is_type reader.now.names.now) in_block) (map view tokens.now)
        result }
    ensures shorter { IfOk result (IsPast (length tokens.now)) }
{
    let specs = spec_list(reader, Context::Block, tokens)?;
    let variables = inits(reader, specs.rest)?;
    Ok(Part {
        value: make_declaration(specs.value, variables.value),
        rest: variables.rest,
    })
}
