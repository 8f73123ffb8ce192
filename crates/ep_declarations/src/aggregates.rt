//! The parts of a `struct` or `union` with its members.

ghost use Rattle.std.specs.Prelude.{◌≡◌, ◌<◌, length, map, IfOk, IfSome, List};
ghost use Rattle.std.specs.Option.{option_map};
ghost use Rattle.ep_ast.specs.Declaration as shape;
ghost use Rattle.ep_ast.specs.Declaration.{Spec, Member, MemberField, spec_of, member_of, text_of, to_specs};
ghost use Rattle.ep_ast.specs.Declaration.{to_members};
ghost use Rattle.ep_ast.specs.DeclarationGrammar as grammar;
ghost use Rattle.ep_ast.specs.Depth.{in_spec, in_member};
ghost use Rattle.ep_ast.specs.Mark.{word_number};
ghost use Rattle.ep_lexer.specs.Tokens.{view};
ghost use Rattle.ep_reading.specs.Measured.{Shows, ShowsAll};
ghost use Rattle.ep_declarations.specs.DeclaratorAnswer.{ShowsFields};
ghost use Rattle.ep_declarations.specs.Answer.{ShowsMembers};
ghost use Rattle.ep_declarations.specs.SpecAhead.{AtBody, IsOpenPast, tag_text};

use ep_ast::{Mark, MemberFieldTree, MemberTree, SpecTree, TypeWordTree, Word};
use ep_lexer::Token;
use ep_reading::{Head, Measured, at_mark, at_name, first_of};
use ep_type_names::is_tag_word;
use std::alloc::{AllocError, Global};

/// A `struct` or `union` before its members: the line of its word and that word, its tag, what begins with the opening
/// brace, and what comes behind that.
#[derive(Clone, Copy)]
pub struct Opening<'a> {
    pub line: u32,
    pub word: Word,
    pub tag: Option<&'a [u8]>,
    pub brace: &'a [Token<'a>],
    pub inside: &'a [Token<'a>],
}

/// The `struct` or `union` that begins here, where its members come.
pub fn at_body<'a>(tokens: &'a [Token<'a>]) -> Option<Opening<'a>>
    ensures value { AtBody (map view tokens.now) result }
    ensures shorter { IfSome result (IsOpenPast (length tokens.now)) }
{
    let Head::Word(line, word, rest) = first_of(tokens) else {
        return None;
    };
    if !is_tag_word(word) {
        return None;
    }
    if let Some((_, inside)) = at_mark(rest, Mark::LeftBrace) {
        return Some(Opening {
            line,
            word,
            tag: None,
            brace: rest,
            inside,
        });
    }
    let (_, tag, after) = at_name(rest)?;
    let (_, inside) = at_mark(after, Mark::LeftBrace)?;
    Some(Opening {
        line,
        word,
        tag: Some(tag),
        brace: after,
        inside,
    })
}

/// The tag, where there is one.
pub fn owned_tag(alloc: Global, tag: Option<&[u8]>) -> Result<Option<Vec<u8>>, AllocError>
    ensures { IfOk result (λ t. option_map text_of t ≡ tag_text tag.entry) }
{
    match tag {
        Some(text) => Ok(Some(Vec::from_slice(alloc, text)?)),
        None => Ok(None),
    }
}

/// The `struct` or `union` of these members.
pub fn make_body(
    line: u32,
    word: Word,
    tag: Option<Vec<u8>>,
    members: Measured<Vec<MemberTree>>,
) -> Measured<SpecTree>
    ensures { (ms : List Member) → ShowsMembers members ms
        → Shows spec_of in_spec result
        (shape.body (shape.aggregate line (word_number word) (option_map text_of tag) (to_members ms))) }
{
    match members {
        Measured::Fits(members) => Measured::Fits(SpecTree::new_body(line, word, tag, members)),
        Measured::TooDeep(deep) => Measured::TooDeep(deep),
    }
}

/// The line of the first of these words.
pub fn specs_line(specs: &[SpecTree]) -> u32
    ensures { result ≡ grammar.specs_line (map spec_of specs.now) }
{
    match specs {
        [] => 0,
        [first, ..] => match first {
            SpecTree::Plain(TypeWordTree::Word(line, _)) => *line,
            SpecTree::Plain(TypeWordTree::Name(line, _)) => *line,
            SpecTree::Plain(TypeWordTree::Tag(line, _, _)) => *line,
            SpecTree::Body(line, _, _, _) => *line,
        },
    }
}

/// Members of these words and fields. What is too deep in the words comes first.
pub fn make_member(
    specs: Measured<Vec<SpecTree>>,
    fields: Measured<Vec<MemberFieldTree>>,
) -> Measured<MemberTree>
    ensures { (ss : List Spec) → (fs : List MemberField) → ShowsAll spec_of in_spec specs ss → ShowsFields fields fs
        → Shows member_of in_member result (shape.member (grammar.specs_line ss) (to_specs ss) fs) }
{
    match specs {
        Measured::Fits(specs) => match fields {
            Measured::Fits(fields) => {
                let line = specs_line(&specs);
                Measured::Fits(MemberTree {
                    line,
                    specs,
                    fields,
                })
            }
            Measured::TooDeep(deep) => Measured::TooDeep(deep),
        },
        Measured::TooDeep(deep) => Measured::TooDeep(deep),
    }
}
