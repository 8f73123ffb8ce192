//! Reading declarators of variables, with their initialisers.

ghost use Rattle.std.specs.Prelude.{◌≡◌, ◌<◌, ◌^◌, Some, None, List, length, map, IfOk};
ghost use Rattle.ep_ast.specs.Declaration as shape;
ghost use Rattle.ep_ast.specs.Declaration.{to_values, Value, Declarator};
ghost use Rattle.ep_ast.specs.DeclarationGrammar.{Given, Listed, Initialised, Inits};
ghost use Rattle.ep_ast.specs.Expression.{Expr};
ghost use Rattle.ep_lexer.specs.Tokens.{view};
ghost use Rattle.ep_reading.specs.Names.{is_type};
ghost use Rattle.ep_reading.specs.Answer.{Parses, ParsesEnded, IsPast};
ghost use Rattle.ep_expression_trees.specs.BoundedTrees.{Shows as ShowsKept};
ghost use Rattle.ep_declarations.specs.DeclaratorAnswer.{ShowsDeclarator, ShowsInits};
ghost use Rattle.ep_declarations.specs.Parts.{ShowsValue, ShowsValues, ShowsInit};

use crate::declarators::declarator;
use ep_ast::{DeclaratorTree, Halt, InitTree, Mark, ValueTree};
use ep_exprs::{BoundedTree, read_expression};
use ep_lexer::Token;
use ep_reading::{Measured, Part, Reader, at_mark};

fn single(kept: BoundedTree) -> Measured<ValueTree>
    ensures { (e : Expr) → ShowsKept kept e → ShowsValue result (shape.single e) }
{
    match kept.measured() {
        Measured::Fits(tree) => Measured::Fits(ValueTree::Expr(tree)),
        Measured::TooDeep(line) => Measured::TooDeep(line),
    }
}

fn braced(line: u32, values: Measured<Vec<ValueTree>>) -> Measured<ValueTree>
    ensures { (vs : List Value) → ShowsValues values vs → ShowsValue result (shape.listed line (to_values vs)) }
{
    match values {
        Measured::Fits(all) => Measured::Fits(ValueTree::new_list(line, all)),
        Measured::TooDeep(deep) => Measured::TooDeep(deep),
    }
}

/// A value, where nothing in it is too deep.
#[cycle(values)]
fn value<'a>(
    reader: &Reader<'_>,
    tokens: &'a [Token<'a>],
) -> Result<Part<'a, Measured<ValueTree>>, Halt>
    requires { length tokens.now < 2 ^ 24 }
    ensures reads { ParsesEnded ShowsValue (Given (is_type reader.now.names.now)) (map view tokens.now) result }
    ensures shorter { IfOk result (IsPast (length tokens.now)) }
{
    if let Some((line, inside)) = at_mark(tokens, Mark::LeftBrace) {
        let values = values(reader, inside)?;
        return Ok(Part {
            value: braced(line, values.value),
            rest: values.rest,
        });
    }
    let kept = read_expression(reader, tokens)?;
    Ok(Part {
        value: single(kept.value),
        rest: kept.rest,
    })
}

/// The values of a list, from behind the opening brace to behind the closing one.
#[cycle(values)]
fn values<'a>(
    reader: &Reader<'_>,
    tokens: &'a [Token<'a>],
) -> Result<Part<'a, Measured<Vec<ValueTree>>>, Halt>
    requires { length tokens.now < 2 ^ 24 }
    ensures reads { Parses ShowsValues (Listed (is_type reader.now.names.now)) (map view tokens.now) result }
    ensures shorter { IfOk result (IsPast (length tokens.now)) }
{
    let mut found = Measured::Fits(Vec::new(reader.alloc));
    // The variable has a lifetime of its own.
    let mut rest = (tokens,).0;
    'values: loop {
        let one = value(reader, rest)?;
        found = found.longer(one.value)?;
        if let Some((_, end)) = at_mark(one.rest, Mark::RightBrace) {
            return Ok(Part {
                value: found,
                rest: end,
            });
        }
        let Some((_, more)) = at_mark(one.rest, Mark::Comma) else {
            return Err(Halt::Refused(reader.stopped(one.rest)));
        };
        if let Some((_, end)) = at_mark(more, Mark::RightBrace) {
            return Ok(Part {
                value: found,
                rest: end,
            });
        }
        rest = more;
    }
}

fn without_value(declarator: Measured<DeclaratorTree>) -> Measured<InitTree>
    ensures { (d : Declarator) → ShowsDeclarator declarator d
        → ShowsInit result (record { line = d.line; declarator = d; value = None }) }
{
    match declarator {
        Measured::Fits(declarator) => Measured::Fits(InitTree {
            line: declarator.line,
            declarator,
            value: None,
        }),
        Measured::TooDeep(line) => Measured::TooDeep(line),
    }
}

fn with_value(
    declarator: Measured<DeclaratorTree>,
    value: Measured<ValueTree>,
) -> Measured<InitTree>
    ensures { (d : Declarator) → (v : Value) → ShowsDeclarator declarator d → ShowsValue value v
        → ShowsInit result (record { line = d.line; declarator = d; value = Some v }) }
{
    match declarator {
        Measured::Fits(declarator) => {
            let line = declarator.line;
            match value {
                Measured::Fits(value) => Measured::Fits(InitTree {
                    line,
                    declarator,
                    value: Some(value),
                }),
                Measured::TooDeep(_) => Measured::TooDeep(line),
            }
        }
        Measured::TooDeep(line) => Measured::TooDeep(line),
    }
}

/// A declarator with its initialiser, if it has one.
fn initialised<'a>(
    reader: &Reader<'_>,
    tokens: &'a [Token<'a>],
) -> Result<Part<'a, Measured<InitTree>>, Halt>
    requires { length tokens.now < 2 ^ 24 }
    ensures reads { ParsesEnded ShowsInit (Initialised (is_type reader.now.names.now)) (map view tokens.now) result }
    ensures shorter { IfOk result (IsPast (length tokens.now)) }
{
    let named = declarator(reader, tokens)?;
    let Some((_, more)) = at_mark(named.rest, Mark::Equal) else {
        return Ok(Part {
            value: without_value(named.value.tree),
            rest: named.rest,
        });
    };
    let given = value(reader, more)?;
    Ok(Part {
        value: with_value(named.value.tree, given.value),
        rest: given.rest,
    })
}

/// The declarators of variables with their initialisers, up to and with the semicolon.
pub fn inits<'a>(
    reader: &Reader<'_>,
    tokens: &'a [Token<'a>],
) -> Result<Part<'a, Measured<Vec<InitTree>>>, Halt>
    requires { length tokens.now < 2 ^ 24 }
    ensures reads { Parses ShowsInits (Inits (is_type reader.now.names.now)) (map view tokens.now) result }
    ensures shorter { IfOk result (IsPast (length tokens.now)) }
{
    let mut found = Measured::Fits(Vec::with_capacity(reader.alloc, 1)?);
    let mut rest = (tokens,).0;
    'inits: loop {
        let one = initialised(reader, rest)?;
        found = found.longer(one.value)?;
        if let Some((_, end)) = at_mark(one.rest, Mark::Semicolon) {
            return Ok(Part {
                value: found,
                rest: end,
            });
        }
        let Some((_, more)) = at_mark(one.rest, Mark::Comma) else {
            return Err(Halt::Refused(reader.stopped(one.rest)));
        };
        rest = more;
    }
}
