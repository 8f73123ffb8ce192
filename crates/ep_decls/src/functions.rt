//! Reading functions, and those by byte order.

ghost use Rattle.std.specs.Prelude.{◌≡◌, ◌<◌, ◌≤◌, ◌^◌, length, map, IfOk, List};
ghost use Rattle.ep_ast.specs.Token.{Tok};
ghost use Rattle.ep_ast.specs.Declaration as shape;
ghost use Rattle.ep_ast.specs.DeclarationGrammar as grammar;
ghost use Rattle.ep_ast.specs.ProgramGrammar.{Defines, Functions, OtherFunctions};
ghost use Rattle.ep_ast.specs.Reading.{Takes};
ghost use Rattle.ep_lexer.specs.Tokens.{view};
ghost use Rattle.ep_reading.specs.Names.{is_type};
ghost use Rattle.ep_reading.specs.Answer.{Parses, IsPast, IsWithin};
ghost use Rattle.ep_declarations.specs.Answer.{ShowsSpecs, ShowsHead};
ghost use Rattle.ep_decls.specs.Answer.{ShowsFunction, ShowsFunctions, ShowsOther, ShowsItem, Arms};

use crate::trees::{behind_else, by_order, function_of};
use crate::unnamed::{behind_unnamed, no_later};
use ep_ast::{FunctionTree, Halt, ItemTree, NamedOrder};
use ep_declarations::{Context, Headed, SpecList, head, spec_list};
use ep_lexer::Token;
use ep_reading::{Measured, Part, Reader, at_else, at_end_if, ends_arm};
use ep_statements::block;

/// The rest of a function behind its head.
pub fn body<'a>(
    reader: &Reader<'_>,
    headed: Headed,
    tokens: &'a [Token<'a>],
) -> Result<Part<'a, Measured<FunctionTree>>, Halt>
    requires { length tokens.now < 2 ^ 24 }
    ensures reads { (xs : List Tok) → (h : shape.Head)
        → Takes (grammar.Headed (is_type reader.now.names.now)) xs h (map view tokens.now) → ShowsHead headed h
        → Parses ShowsFunction (Defines (is_type reader.now.names.now)) xs result }
    ensures shorter { IfOk result (IsPast (length tokens.now)) }
{
    if !headed.named {
        return Err(Halt::Refused(reader.stopped(tokens)));
    }
    let block = block(reader, tokens)?;
    Ok(Part {
        value: function_of(headed.tree, block.value),
        rest: block.rest,
    })
}

/// A function with its body, from behind the words that begin its head.
fn definition<'a>(
    reader: &Reader<'_>,
    specs: SpecList,
    tokens: &'a [Token<'a>],
) -> Result<Part<'a, Measured<FunctionTree>>, Halt>
    requires { length tokens.now < 2 ^ 24 }
    ensures reads { (xs : List Tok) → (ss : List shape.Spec)
        → Takes (grammar.Specified (is_type reader.now.names.now) grammar.at_file_scope) xs ss (map view tokens.now)
        → ShowsSpecs specs ss
        → Parses ShowsFunction (Defines (is_type reader.now.names.now)) xs result }
    ensures shorter { IfOk result (IsPast (length tokens.now)) }
{
    let headed = head(reader, specs, tokens)?;
    body(reader, headed.value, headed.rest)
}

/// A function with its body, where only functions stand: a parameter without a name is refused at the token behind it.
fn function<'a>(
    reader: &Reader<'_>,
    tokens: &'a [Token<'a>],
) -> Result<Part<'a, Measured<FunctionTree>>, Halt>
    requires { length tokens.now < 2 ^ 24 }
    ensures reads { Parses ShowsFunction (Defines (is_type reader.now.names.now)) (map view tokens.now) result }
    ensures shorter { IfOk result (IsPast (length tokens.now)) }
{
    let specs = spec_list(reader, Context::FileScope, tokens)?;
    match definition(reader, specs.value, specs.rest) {
        Ok(found) => Ok(found),
        Err(halt) => Err(no_later(halt, behind_unnamed(reader.names, specs.rest))),
    }
}

/// The functions of an arm, up to an `#else` or `#endif`.
fn all_functions<'a>(
    reader: &Reader<'_>,
    tokens: &'a [Token<'a>],
) -> Result<Part<'a, Measured<Vec<FunctionTree>>>, Halt>
    requires { length tokens.now < 2 ^ 24 }
    ensures reads { Parses ShowsFunctions (Functions (is_type reader.now.names.now)) (map view tokens.now) result }
    ensures shorter { IfOk result (IsWithin (length tokens.now)) }
{
    let mut found = Measured::Fits(Vec::new(reader.alloc));
    // The variable has a lifetime of its own.
    let mut rest = (tokens,).0;
    'functions: loop {
        if ends_arm(rest) {
            return Ok(Part { value: found, rest });
        }
        let one = function(reader, rest)?;
        found = found.longer(one.value)?;
        rest = one.rest;
    }
}

/// What stands from `#else` on, if there is one, up to and with the `#endif`.
fn other_functions<'a>(
    reader: &Reader<'_>,
    tokens: &'a [Token<'a>],
) -> Result<Part<'a, Measured<Option<Vec<FunctionTree>>>>, Halt>
    requires { length tokens.now < 2 ^ 24 }
    ensures reads { Parses ShowsOther (OtherFunctions (is_type reader.now.names.now)) (map view tokens.now) result }
    ensures shorter { IfOk result (IsPast (length tokens.now)) }
{
    if let Some((_, more)) = at_end_if(tokens) {
        return Ok(Part {
            value: Measured::Fits(None),
            rest: more,
        });
    }
    let Some((_, inside)) = at_else(tokens) else {
        return Err(Halt::Refused(reader.stopped(tokens)));
    };
    let found = all_functions(reader, inside)?;
    let Some((_, more)) = at_end_if(found.rest) else {
        return Err(Halt::Refused(reader.stopped(found.rest)));
    };
    Ok(Part {
        value: behind_else(found.value),
        rest: more,
    })
}

/// Functions by byte order, from behind the `#if` of this line and order.
pub fn arms<'a>(
    reader: &Reader<'_>,
    line: u32,
    order: NamedOrder,
    tokens: &'a [Token<'a>],
) -> Result<Part<'a, Measured<ItemTree>>, Halt>
    requires { length tokens.now < 2 ^ 24 }
    ensures reads { Parses ShowsItem (Arms (is_type reader.now.names.now) line order) (map view tokens.now) result }
    ensures shorter { IfOk result (IsPast (length tokens.now)) }
{
    let then = all_functions(reader, tokens)?;
    let otherwise = other_functions(reader, then.rest)?;
    Ok(Part {
        value: by_order(line, order, then.value, otherwise.value),
        rest: otherwise.rest,
    })
}
