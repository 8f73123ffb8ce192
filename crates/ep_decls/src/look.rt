//! Looks at the first tokens.

ghost use Rattle.std.specs.Prelude.{◌≡◌, ◌<◌, length, map, IfSome};
ghost use Rattle.std.specs.Option.{option_map};
ghost use Rattle.ep_lexer.specs.Tokens.{view};
ghost use Rattle.ep_decls.specs.Look as look;
ghost use Rattle.ep_decls.specs.Look.{IsBehind, HasFewer, tokens_of};

use ep_ast::{Mark, Word};
use ep_lexer::Token;
use ep_reading::{at_mark, at_name, at_word};

fn begins_call(tokens: &[Token<'_>]) -> bool
    ensures { result ≡ look.begins_call (map view tokens.now) }
{
    match at_name(tokens) {
        Some((_, _, rest)) => at_mark(rest, Mark::LeftParen).is_some(),
        None => false,
    }
}

/// What comes behind a star or a `const`.
fn behind_star<'a>(tokens: &'a [Token<'a>]) -> Option<&'a [Token<'a>]>
    ensures value { IsBehind (map view tokens.now) (option_map tokens_of result) }
    ensures shorter { IfSome result (HasFewer (length tokens.now)) }
{
    if let Some((_, rest)) = at_mark(tokens, Mark::Star) {
        return Some(rest);
    }
    if let Some((_, rest)) = at_word(tokens, Word::Const) {
        return Some(rest);
    }
    None
}

/// What comes behind all stars and `const` that stand here.
pub fn behind_stars<'a>(tokens: &'a [Token<'a>]) -> &'a [Token<'a>]
    ensures { look.begins_head (map view tokens.now) ≡ look.begins_call (map view result.now) }
{
    // The variable has a lifetime of its own.
    let mut rest = (tokens,).0;
    'stars: while let Some(more) = behind_star(rest) {
        rest = more;
    }
    rest
}

/// Whether a name and an opening parenthesis stand here, perhaps behind stars.
pub fn begins_head(tokens: &[Token<'_>]) -> bool
    ensures { result ≡ look.begins_head (map view tokens.now) }
{
    begins_call(behind_stars(tokens))
}
