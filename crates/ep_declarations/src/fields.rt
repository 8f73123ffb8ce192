//! Reading what members declare: declarators and bit-fields.

ghost use Rattle.std.specs.Prelude.{◌≡◌, ◌<◌, ◌^◌, length, map, IfOk, IfSome, false};
ghost use Rattle.std.specs.Option.{option_map};
ghost use Rattle.ep_ast.specs.Declaration as shape;
ghost use Rattle.ep_ast.specs.Declaration.{Declarator, text_of};
ghost use Rattle.ep_ast.specs.DeclarationGrammar.{OneField, Fields};
ghost use Rattle.ep_ast.specs.Expression.{Expr};
ghost use Rattle.ep_lexer.specs.Tokens.{view};
ghost use Rattle.ep_reading.specs.Names.{is_type};
ghost use Rattle.ep_reading.specs.Answer.{Parses, ParsesEnded, IsPast};
ghost use Rattle.ep_expression_trees.specs.BoundedTrees.{Shows as ShowsKept};
ghost use Rattle.ep_declarations.specs.DeclaratorAnswer.{ShowsDeclarator, ShowsField, ShowsFields, AtBits, IsBitsPast};
ghost use Rattle.ep_declarations.specs.DeclaratorAnswer.{begins_bits};

use crate::aggregates::owned_tag;
use crate::declarators::declarator;
use ep_ast::{DeclaratorTree, Halt, Mark, MemberFieldTree};
use ep_exprs::{BoundedTree, read_expression};
use ep_lexer::Token;
use ep_reading::{Measured, Part, Reader, TypeNames, at_mark, at_name};

/// A bit-field before its width: its line, its name, and what comes behind the `:`.
#[derive(Clone, Copy)]
pub struct BitsOpening<'a> {
    pub line: u32,
    pub name: Option<&'a [u8]>,
    pub inside: &'a [Token<'a>],
}

/// The bit-field that begins here.
fn at_bits<'a>(names: &TypeNames, tokens: &'a [Token<'a>]) -> Option<BitsOpening<'a>>
    ensures value { AtBits (is_type names.now) (map view tokens.now) result }
    ensures shorter { IfSome result (IsBitsPast (length tokens.now)) }
{
    if let Some((line, inside)) = at_mark(tokens, Mark::Colon) {
        return Some(BitsOpening {
            line,
            name: None,
            inside,
        });
    }
    let (line, name, after) = at_name(tokens)?;
    let (_, inside) = at_mark(after, Mark::Colon)?;
    if names.has(name) {
        return None;
    }
    Some(BitsOpening {
        line,
        name: Some(name),
        inside,
    })
}

fn whole(declarator: Measured<DeclaratorTree>) -> Measured<MemberFieldTree>
    ensures { (d : Declarator) → ShowsDeclarator declarator d → ShowsField result (shape.whole d) }
{
    match declarator {
        Measured::Fits(declarator) => Measured::Fits(MemberFieldTree::Whole(declarator)),
        Measured::TooDeep(line) => Measured::TooDeep(line),
    }
}

/// A bit-field, where its width isn't too deep.
fn bits(line: u32, name: Option<Vec<u8>>, width: BoundedTree) -> Measured<MemberFieldTree>
    ensures { (e : Expr) → ShowsKept width e → ShowsField result (shape.bits line (option_map text_of name) e) }
{
    match width.measured() {
        Measured::Fits(width) => Measured::Fits(MemberFieldTree::Bits(line, name, width)),
        Measured::TooDeep(_) => Measured::TooDeep(line),
    }
}

/// A declarator, where no bit-field begins. A `:` behind it is refused.
fn whole_field<'a>(
    reader: &Reader<'_>,
    tokens: &'a [Token<'a>],
) -> Result<Part<'a, Measured<MemberFieldTree>>, Halt>
    requires few { length tokens.now < 2 ^ 24 }
    requires whole { begins_bits (is_type reader.now.names.now) (map view tokens.now) ≡ false }
    ensures reads { ParsesEnded ShowsField (OneField (is_type reader.now.names.now)) (map view tokens.now) result }
    ensures shorter { IfOk result (IsPast (length tokens.now)) }
{
    let named = declarator(reader, tokens)?;
    if let Some(_) = at_mark(named.rest, Mark::Colon) {
        return Err(Halt::Refused(reader.stopped(named.rest)));
    }
    Ok(Part {
        value: whole(named.value.tree),
        rest: named.rest,
    })
}

/// A declarator or a bit-field.
fn one_field<'a>(
    reader: &Reader<'_>,
    tokens: &'a [Token<'a>],
) -> Result<Part<'a, Measured<MemberFieldTree>>, Halt>
    requires { length tokens.now < 2 ^ 24 }
    ensures reads { ParsesEnded ShowsField (OneField (is_type reader.now.names.now)) (map view tokens.now) result }
    ensures shorter { IfOk result (IsPast (length tokens.now)) }
{
    let Some(opening) = at_bits(reader.names, tokens) else {
        return whole_field(reader, tokens);
    };
    let width = read_expression(reader, opening.inside)?;
    let name = owned_tag(reader.alloc, opening.name)?;
    Ok(Part {
        value: bits(opening.line, name, width.value),
        rest: width.rest,
    })
}

/// What members of one type declare, up to and with the semicolon.
pub fn member_fields<'a>(
    reader: &Reader<'_>,
    tokens: &'a [Token<'a>],
) -> Result<Part<'a, Measured<Vec<MemberFieldTree>>>, Halt>
    requires { length tokens.now < 2 ^ 24 }
    ensures reads { Parses ShowsFields (Fields (is_type reader.now.names.now)) (map view tokens.now) result }
    ensures shorter { IfOk result (IsPast (length tokens.now)) }
{
    let mut found = Measured::Fits(Vec::with_capacity(reader.alloc, 1)?);
    // The variable has a lifetime of its own.
    let mut rest = (tokens,).0;
    'fields: loop {
        let one = one_field(reader, rest)?;
        found = found.longer(one.value)?;
        if let Some((_, end)) = at_mark(one.rest, Mark::Semicolon) {
            return Ok(Part {
                value: found,
                rest: end,
            });
        }
        let Some((_, more)) = at_mark(one.rest, Mark::Comma) else {
            return Err(Halt::Refused(reader.stopped(one.rest)));
        };
        rest = more;
    }
}
