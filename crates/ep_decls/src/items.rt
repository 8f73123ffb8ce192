//! Reading what stands at file scope.

ghost use Rattle.std.specs.Prelude.{◌≡◌, ◌<◌, ◌^◌, length, map, IfOk, List, true};
ghost use Rattle.ep_ast.specs.Token.{Tok};
ghost use Rattle.ep_ast.specs.Declaration.{Spec};
ghost use Rattle.ep_ast.specs.DeclarationGrammar as grammar;
ghost use Rattle.ep_ast.specs.Reading.{Takes};
ghost use Rattle.ep_lexer.specs.Tokens.{view};
ghost use Rattle.ep_reading.specs.Names.{is_type};
ghost use Rattle.ep_reading.specs.Answer.{Parses, IsPast};
ghost use Rattle.ep_declarations.specs.Answer.{ShowsSpecs};
ghost use Rattle.ep_decls.specs.Look as look;
ghost use Rattle.ep_decls.specs.Answer.{ShowsItem, MakesTypes, Worded, NewTypes, Itemed};

use crate::functions::{arms, body};
use crate::look::begins_head;
use crate::trees::{completed, declared, defined, new_types, prototype};
use ep_ast::{Halt, ItemTree, Mark, Word};
use ep_declarations::{
    Context, SpecList, head, inits, make_declaration, only_body, spec_list, typedef_names,
};
use ep_lexer::Token;
use ep_reading::{Measured, Part, Reader, TypeNames, at_if, at_mark, at_word};
use std::alloc::Global;

/// Names of types, from behind the word `typedef` of this line.
fn typedef<'a>(
    alloc: Global,
    names: &mut TypeNames,
    last: u32,
    line: u32,
    tokens: &'a [Token<'a>],
) -> Result<Part<'a, Measured<ItemTree>>, Halt>
    requires { length tokens.now < 2 ^ 24 }
    ensures reads { Parses (MakesTypes (is_type names.new)) (NewTypes (is_type names.old) line) (map view tokens.now)
        result }
    ensures shorter { IfOk result (IsPast (length tokens.now)) }
{
    let reader = Reader {
        alloc,
        names: &*names,
        last,
    };
    let specs = spec_list(&reader, Context::Typedef, tokens)?;
    let declarators = typedef_names(alloc, names, last, specs.rest)?;
    Ok(Part {
        value: new_types(line, specs.value, declarators.value),
        rest: declarators.rest,
    })
}

/// A function or a prototype, from behind the words that begin its head.
fn headed_item<'a>(
    reader: &Reader<'_>,
    specs: SpecList,
    tokens: &'a [Token<'a>],
) -> Result<Part<'a, Measured<ItemTree>>, Halt>
    requires { length tokens.now < 2 ^ 24 }
    ensures reads { (xs : List Tok) → (ss : List Spec)
        → Takes (grammar.Specified (is_type reader.now.names.now) grammar.at_file_scope) xs ss (map view tokens.now)
        → ShowsSpecs specs ss
        → look.begins_head (map view tokens.now) ≡ true
        → Parses ShowsItem (Worded (is_type reader.now.names.now)) xs result }
    ensures shorter { IfOk result (IsPast (length tokens.now)) }
{
    let headed = head(reader, specs, tokens)?;
    if let Some((_, more)) = at_mark(headed.rest, Mark::Semicolon) {
        return Ok(Part {
            value: prototype(headed.value.tree),
            rest: more,
        });
    }
    let function = body(reader, headed.value, headed.rest)?;
    Ok(Part {
        value: defined(function.value),
        rest: function.rest,
    })
}

/// An item that begins with the words of a declaration.
fn worded_item<'a>(
    reader: &Reader<'_>,
    tokens: &'a [Token<'a>],
) -> Result<Part<'a, Measured<ItemTree>>, Halt>
    requires { length tokens.now < 2 ^ 24 }
    ensures reads { Parses ShowsItem (Worded (is_type reader.now.names.now)) (map view tokens.now) result }
    ensures shorter { IfOk result (IsPast (length tokens.now)) }
{
    let specs = spec_list(reader, Context::FileScope, tokens)?;
    if begins_head(specs.rest) {
        return headed_item(reader, specs.value, specs.rest);
    }
    if let Some((_, more)) = at_mark(specs.rest, Mark::Semicolon) {
        return match only_body(specs.value) {
            Some(aggregate) => Ok(Part {
                value: completed(aggregate),
                rest: more,
            }),
            None => Err(Halt::Refused(reader.stopped(specs.rest))),
        };
    }
    let variables = inits(reader, specs.rest)?;
    Ok(Part {
        value: declared(make_declaration(specs.value, variables.value)),
        rest: variables.rest,
    })
}

/// The item that stands first. The names that it makes types are known from there on.
pub fn item<'a>(
    alloc: Global,
    names: &mut TypeNames,
    last: u32,
    tokens: &'a [Token<'a>],
) -> Result<Part<'a, Measured<ItemTree>>, Halt>
    requires { length tokens.now < 2 ^ 24 }
    ensures reads { Parses (MakesTypes (is_type names.new)) (Itemed (is_type names.old)) (map view tokens.now) result }
    ensures shorter { IfOk result (IsPast (length tokens.now)) }
{
    if let Some((line, behind)) = at_word(tokens, Word::Typedef) {
        return typedef(alloc, names, last, line, behind);
    }
    let reader = Reader {
        alloc,
        names: &*names,
        last,
    };
    if let Some((line, order, behind)) = at_if(tokens) {
        return arms(&reader, line, order, behind);
    }
    worded_item(&reader, tokens)
}
