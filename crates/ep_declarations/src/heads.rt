//! Reading the heads of functions.

ghost use Rattle.std.specs.Prelude.{◌≡◌, ◌<◌, ◌^◌, [], length, map, Option, IfOk, List};
ghost use Rattle.std.specs.Option.{option_map};
ghost use Rattle.ep_ast.specs.Token.{Tok};
ghost use Rattle.ep_ast.specs.Declaration.{Spec, Params, spec_of, params_of, head_of};
ghost use Rattle.ep_ast.specs.DeclarationGrammar as grammar;
ghost use Rattle.ep_ast.specs.DeclarationGrammar.{Specified, at_file_scope};
ghost use Rattle.ep_ast.specs.Depth.{line_if, are_deep, in_spec, in_params, in_head};
ghost use Rattle.ep_ast.specs.Reading.{Takes};
ghost use Rattle.ep_lexer.specs.Tokens.{view};
ghost use Rattle.ep_reading.specs.Names.{is_type};
ghost use Rattle.ep_reading.specs.Answer.{Parses, IsPast};
ghost use Rattle.ep_reading.specs.Measured.{Shows, ShowsAll};
ghost use Rattle.ep_declarations.specs.Answer.{ShowsSpecs, ShowsHead};

use crate::parameters::head_parameters;
use crate::specs::SpecList;
use ep_ast::{Halt, HeadTree, Mark, ParamsTree, SpecTree, Word};
use ep_lexer::Token;
use ep_reading::{Measured, Part, Reader, at_mark, at_name, at_word};
use ep_type_names::stars;
use std::alloc::{AllocError, Global};

/// How many stars may stand before the name of a function.
const MOST_STARS: usize = 64;

/// The head of a function, where nothing in it is too deep, and whether every parameter has a name.
#[derive(Debug, Drop)]
pub struct Headed {
    pub tree: Measured<HeadTree>,
    pub named: bool,
}

/// The stars, where there aren't too many, or this line.
fn measured_stars(line: u32, stars: Vec<u32>) -> Measured<Vec<u32>>
    ensures { Shows (λ v. v.items) (λ ns. line_if (are_deep ns []) line) result stars.items }
{
    if stars.len() > MOST_STARS {
        return Measured::TooDeep(line);
    }
    Measured::Fits(stars)
}

fn make_head(
    alloc: Global,
    line: u32,
    specs: Measured<Vec<SpecTree>>,
    stars: Vec<u32>,
    name: &[u8],
    params: Measured<Option<ParamsTree>>,
) -> Result<Measured<HeadTree>, AllocError>
    ensures { (ss : List Spec) → (ps : Option Params) → ShowsAll spec_of in_spec specs ss
        → Shows (option_map params_of) in_params params ps
        → IfOk result (λ t. Shows head_of in_head t
        (record { line = line; specs = ss; stars = stars.items; name = name.now; params = ps })) }
{
    let behind = measured_stars(line, stars).and(params);
    match specs.and(behind) {
        Measured::Fits((specs, (stars, params))) => {
            let name = Vec::from_slice(alloc, name)?;
            Ok(Measured::Fits(HeadTree {
                line,
                specs,
                stars,
                name,
                params,
            }))
        }
        Measured::TooDeep(line) => Ok(Measured::TooDeep(line)),
    }
}

/// The rest of a head behind the words that begin it, up to and with the closing parenthesis.
pub fn head<'a>(
    reader: &Reader<'_>,
    specs: SpecList,
    tokens: &'a [Token<'a>],
) -> Result<Part<'a, Headed>, Halt>
    requires { length tokens.now < 2 ^ 24 }
    ensures reads { (xs : List Tok) → (ss : List Spec)
        → Takes (Specified (is_type reader.now.names.now) at_file_scope) xs ss (map view tokens.now)
        → ShowsSpecs specs ss
        → Parses ShowsHead (grammar.Headed (is_type reader.now.names.now)) xs result }
    ensures shorter { IfOk result (IsPast (length tokens.now)) }
{
    if let Some(_) = at_word(tokens, Word::Const) {
        return Err(Halt::Refused(reader.stopped(tokens)));
    }
    let stars = stars(reader.alloc, tokens)?;
    let Some((line, name, behind)) = at_name(stars.rest) else {
        return Err(Halt::Refused(reader.stopped(stars.rest)));
    };
    if reader.names.has(name) {
        return Err(Halt::Refused(reader.stopped(stars.rest)));
    }
    let Some((_, inside)) = at_mark(behind, Mark::LeftParen) else {
        return Err(Halt::Refused(reader.stopped(behind)));
    };
    let parameters = head_parameters(reader, inside)?;
    let named = parameters.value.named;
    let tree = make_head(
        reader.alloc,
        line,
        specs.tree,
        stars.value,
        name,
        parameters.value.tree,
    )?;
    Ok(Part {
        value: Headed { tree, named },
        rest: parameters.rest,
    })
}
