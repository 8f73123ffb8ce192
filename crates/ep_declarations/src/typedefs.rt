//! Reading the names of types.

ghost use Rattle.std.specs.Prelude.{◌≡◌, ◌<◌, ◌^◌, length, map, IfOk};
ghost use Rattle.ep_lexer.specs.Tokens.{view};
ghost use Rattle.ep_reading.specs.Names.{is_type};
ghost use Rattle.ep_reading.specs.Answer.{Parses, IsPast};
ghost use Rattle.ep_declarations.specs.DeclaratorAnswer.{AddsTypes, NamesTypes};

use crate::declarators::declarator;
use ep_ast::{DeclaratorTree, Halt, Mark};
use ep_lexer::Token;
use ep_reading::{Measured, Part, Reader, TypeNames, at_mark};
use std::alloc::Global;

/// The names of types that are declared here, up to and with the semicolon; each is one from the end of its declarator
/// on.
pub fn typedef_names<'a>(
    alloc: Global,
    names: &mut TypeNames,
    last: u32,
    tokens: &'a [Token<'a>],
) -> Result<Part<'a, Measured<Vec<DeclaratorTree>>>, Halt>
    requires { length tokens.now < 2 ^ 24 }
    ensures reads { Parses (AddsTypes (is_type names.new)) (NamesTypes (is_type names.old)) (map view tokens.now)
        result }
    ensures shorter { IfOk result (IsPast (length tokens.now)) }
{
    let mut found = Measured::Fits(Vec::with_capacity(alloc, 1)?);
    // The variable has a lifetime of its own.
    let mut rest = (tokens,).0;
    'typedefs: loop {
        let reader = Reader {
            alloc,
            names: &*names,
            last,
        };
        let named = declarator(&reader, rest)?;
        names.add(named.value.name)?;
        found = found.longer(named.value.tree)?;
        if let Some((_, end)) = at_mark(named.rest, Mark::Semicolon) {
            return Ok(Part {
                value: found,
                rest: end,
            });
        }
        let Some((_, more)) = at_mark(named.rest, Mark::Comma) else {
            let reader = Reader {
                alloc,
                names: &*names,
                last,
            };
            return Err(Halt::Refused(reader.stopped(named.rest)));
        };
        rest = more;
    }
}
