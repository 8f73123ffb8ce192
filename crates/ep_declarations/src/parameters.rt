//! Reading parameters.

ghost use Rattle.std.specs.Prelude.{◌≡◌, ◌<◌, ◌≤◌, ◌^◌, ◌∷◌, ◌++◌, [], List, Option, length, map, IfOk, IfSome, Some};
ghost use Rattle.std.specs.Option.{option_map};
ghost use Rattle.ep_ast.specs.Declaration as shape;
ghost use Rattle.ep_ast.specs.Declaration.{Param, param_of, text_of};
ghost use Rattle.ep_ast.specs.DeclarationGrammar as grammar;
ghost use Rattle.ep_ast.specs.DeclarationGrammar.{OneParam, SomeParams};
ghost use Rattle.ep_ast.specs.Depth.{in_param};
ghost use Rattle.ep_ast.specs.Expression.{Expr, type_word};
ghost use Rattle.ep_lexer.specs.Tokens.{view};
ghost use Rattle.ep_reading.specs.Names.{is_type};
ghost use Rattle.ep_reading.specs.Look.{seen, IsShorter};
ghost use Rattle.ep_reading.specs.Answer.{Parses, IsPast, IsWithin};
ghost use Rattle.ep_reading.specs.Measured.{Shows};
ghost use Rattle.ep_declarations.specs.DeclaratorAnswer.{ShowsParameters};
ghost use Rattle.ep_declarations.specs.Parts.{first_line, AtVoid, ShowsBounds, ShowsParameter, ShowsSome};

use crate::bracketed::{bounds, derived};
use ep_ast::{ExprTree, Halt, Mark, ParamTree, ParamsTree, TypeWordTree, Word};
use ep_lexer::Token;
use ep_reading::{Measured, Part, Reader, at_mark, at_name, at_word};
use ep_type_names::{stars, type_words};
use std::alloc::{AllocError, Global};

/// What stands between the brackets of a head, where none of it is too deep, and whether every parameter has a name.
#[derive(Debug, Drop)]
pub struct ParameterList {
    pub tree: Measured<Option<ParamsTree>>,
    pub named: bool,
}

/// A parameter, and whether it has a name.
#[derive(Debug, Drop)]
struct MeasuredParameter {
    tree: Measured<ParamTree>,
    named: bool,
}

/// Parameters, and whether all have names.
#[derive(Debug, Drop)]
struct MeasuredParameters {
    trees: Measured<Vec<ParamTree>>,
    named: bool,
}

/// The line of the first token.
fn first_line(tokens: &[Token<'_>]) -> u32
    ensures { result ≡ first_line (map view tokens.now) }
{
    match tokens {
        [] => 0,
        [first, ..] => first.line,
    }
}

/// The line of `void` alone before the closing parenthesis, and what comes after that.
fn void_alone<'a>(tokens: &'a [Token<'a>]) -> Option<(u32, &'a [Token<'a>])>
    ensures value { AtVoid (map view tokens.now) (option_map seen result) }
    ensures shorter { IfSome result (IsShorter (length tokens.now)) }
{
    let (line, inside) = at_word(tokens, Word::Void)?;
    let (_, rest) = at_mark(inside, Mark::RightParen)?;
    Some((line, rest))
}

/// A parameter, where it isn't too deep.
fn make_parameter(
    line: u32,
    specs: Vec<TypeWordTree>,
    stars: Vec<u32>,
    name: Option<Vec<u8>>,
    bounds: Measured<Vec<Option<ExprTree>>>,
) -> Measured<ParamTree>
    ensures { (bs : List (Option Expr)) → ShowsBounds bounds bs
        → Shows param_of in_param result
        (grammar.param line (map type_word specs.items) stars.items (option_map text_of name) bs) }
{
    match derived(stars, bounds) {
        Some((stars, bounds)) => Measured::Fits(ParamTree {
            line,
            specs,
            stars,
            name,
            bounds,
        }),
        None => Measured::TooDeep(line),
    }
}

fn parameter<'a>(
    reader: &Reader<'_>,
    tokens: &'a [Token<'a>],
) -> Result<Part<'a, MeasuredParameter>, Halt>
    requires { length tokens.now < 2 ^ 24 }
    ensures reads { Parses ShowsParameter (OneParam (is_type reader.now.names.now)) (map view tokens.now) result }
    ensures shorter { IfOk result (IsWithin (length tokens.now)) }
{
    let specs = type_words(reader, tokens)?;
    let stars = stars(reader.alloc, specs.rest)?;
    match at_name(stars.rest) {
        Some((line, text, more)) => {
            if reader.names.has(text) {
                return Err(Halt::Refused(reader.stopped(stars.rest)));
            }
            let bounds = bounds(reader, more)?;
            let name = Vec::from_slice(reader.alloc, text)?;
            let tree = make_parameter(line, specs.value, stars.value, Some(name), bounds.value);
            Ok(Part {
                value: MeasuredParameter { tree, named: true },
                rest: bounds.rest,
            })
        }
        None => {
            let bounds = bounds(reader, stars.rest)?;
            let line = first_line(tokens);
            let tree = make_parameter(line, specs.value, stars.value, None, bounds.value);
            Ok(Part {
                value: MeasuredParameter { tree, named: false },
                rest: bounds.rest,
            })
        }
    }
}

impl MeasuredParameters {
    fn new(alloc: Global) -> MeasuredParameters
        ensures { ShowsSome result [] }
    {
        MeasuredParameters {
            trees: Measured::Fits(Vec::new(alloc)),
            named: true,
        }
    }

    /// With one parameter more.
    fn with(self, one: MeasuredParameter) -> Result<MeasuredParameters, AllocError>
        ensures { (ps : List Param) → (p : Param) → ShowsSome self ps → ShowsParameter one p
            → IfOk result (λ a. ShowsSome a (ps ++ p ∷ [])) }
    {
        let named = self.named && one.named;
        let trees = self.trees.longer(one.tree)?;
        Ok(MeasuredParameters { trees, named })
    }

    /// As what stands between brackets; the line is that of the first parameter's first word.
    fn listed(self, line: u32) -> ParameterList
        ensures { (ps : List Param) → ShowsSome self ps → ShowsParameters result (Some (shape.some_params line ps)) }
    {
        let named = self.named;
        match self.trees {
            Measured::Fits(all) => ParameterList {
                tree: Measured::Fits(Some(ParamsTree::List(line, all))),
                named,
            },
            Measured::TooDeep(line) => ParameterList {
                tree: Measured::TooDeep(line),
                named,
            },
        }
    }
}

/// One parameter or more, up to and with the closing parenthesis.
fn parameters<'a>(
    reader: &Reader<'_>,
    tokens: &'a [Token<'a>],
) -> Result<Part<'a, MeasuredParameters>, Halt>
    requires { length tokens.now < 2 ^ 24 }
    ensures reads { Parses ShowsSome (SomeParams (is_type reader.now.names.now)) (map view tokens.now) result }
    ensures shorter { IfOk result (IsPast (length tokens.now)) }
{
    let mut found = MeasuredParameters::new(reader.alloc);
    // The variable has a lifetime of its own.
    let mut rest = (tokens,).0;
    'parameters: loop {
        let one = parameter(reader, rest)?;
        found = found.with(one.value)?;
        if let Some((_, end)) = at_mark(one.rest, Mark::RightParen) {
            return Ok(Part {
                value: found,
                rest: end,
            });
        }
        let Some((_, more)) = at_mark(one.rest, Mark::Comma) else {
            return Err(Halt::Refused(reader.stopped(one.rest)));
        };
        rest = more;
    }
}

/// The parameters of a head, from behind the opening parenthesis to behind the closing one.
pub fn head_parameters<'a>(
    reader: &Reader<'_>,
    tokens: &'a [Token<'a>],
) -> Result<Part<'a, ParameterList>, Halt>
    requires { length tokens.now < 2 ^ 24 }
    ensures reads { Parses ShowsParameters (grammar.Parameters (is_type reader.now.names.now)) (map view tokens.now)
        result }
    ensures shorter { IfOk result (IsPast (length tokens.now)) }
{
    if let Some((_, rest)) = at_mark(tokens, Mark::RightParen) {
        let tree = Measured::Fits(None);
        return Ok(Part {
            value: ParameterList { tree, named: true },
            rest,
        });
    }
    if let Some((line, rest)) = void_alone(tokens) {
        let tree = Measured::Fits(Some(ParamsTree::Void(line)));
        return Ok(Part {
            value: ParameterList { tree, named: true },
            rest,
        });
    }
    let found = parameters(reader, tokens)?;
    Ok(Part {
        value: found.value.listed(first_line(tokens)),
        rest: found.rest,
    })
}
