//! Words that are a type together.

ghost use Rattle.std.specs.Prelude.{◌≡◌, map, find, count_by, if◌then◌else◌};
ghost use Rattle.std.specs.List.{list_any};
ghost use Rattle.std.specs.Option.{option_map};
ghost use Rattle.ep_ast.specs.Expression.{type_word};
ghost use Rattle.ep_ast.specs.Mark.{word_number};
ghost use Rattle.ep_typing.specs.Env.{entry};
ghost use Rattle.ep_typing.specs.Names as rule;
ghost use Rattle.ep_typing.specs.Types as types_of;
ghost use Rattle.ep_scopes.specs.Words as words_of;

use ep_ast::{TypeWordTree, Word};
use ep_int::{IntType, Model};

fn is_unsigned(word: &TypeWordTree) -> bool
    ensures { result ≡ rule.is_unsigned (type_word word.now) }
{
    match word {
        TypeWordTree::Word(_, word) => *word == Word::Unsigned,
        TypeWordTree::Name(_, _) => false,
        TypeWordTree::Tag(_, _, _) => false,
    }
}

// A word that is a type by itself.
fn is_whole(word: &TypeWordTree) -> bool
    ensures { result ≡ rule.is_whole (type_word word.now) }
{
    match word {
        TypeWordTree::Word(_, word) => *word == Word::Void,
        TypeWordTree::Name(_, _) => true,
        TypeWordTree::Tag(_, _, _) => true,
    }
}

#[tactic(auto, using(crate::proofs::WordLemmas::word_test))]
fn is_word(word: &TypeWordTree, wanted: Word) -> bool
    ensures { result ≡ words_of.is_word (word_number wanted) (type_word word.now) }
{
    match word {
        TypeWordTree::Word(_, own) => *own == wanted,
        TypeWordTree::Name(_, _) => false,
        TypeWordTree::Tag(_, _, _) => false,
    }
}

fn count_of(all: &[TypeWordTree], wanted: Word) -> usize
    ensures { result ≡ count_by (λ w. words_of.is_word (word_number wanted) (type_word w)) all.now }
{
    all.iter().filter(|w| is_word(w, wanted)).count()
}

fn is_any_unsigned(all: &[TypeWordTree]) -> bool
    ensures { result ≡ list_any (λ w. rule.is_unsigned (type_word w)) all.now }
{
    all.iter().any(|w| is_unsigned(w))
}

/// The word that is a type by itself, if there is one.
pub(crate) fn whole_word(all: &[TypeWordTree]) -> Option<&TypeWordTree>
    ensures { option_map (λ w. type_word w.now) result ≡ find rule.is_whole (map type_word all.now) }
{
    for word in all {
        if is_whole(word) {
            return Some(word);
        }
    }
    None
}

fn long_type(model: Model, is_unsigned: bool) -> IntType
    ensures { result ≡ types_of.long_type model is_unsigned }
{
    match model {
        Model::Ilp32 => {
            if is_unsigned {
                IntType::U32
            } else {
                IntType::I32
            }
        }
        Model::Lp64 => {
            if is_unsigned {
                IntType::U64
            } else {
                IntType::I64
            }
        }
    }
}

fn signed_or(is_unsigned: bool, unsigned: IntType, signed: IntType) -> IntType
    ensures { result ≡ (if is_unsigned then unsigned else signed) }
{
    if is_unsigned { unsigned } else { signed }
}

// The integer type of so many words of each sort.
fn picked(model: Model, unsigned: bool, chars: usize, shorts: usize, longs: usize) -> IntType
    ensures { result ≡ words_of.picked model unsigned chars shorts longs }
{
    if chars == 1 {
        return signed_or(unsigned, IntType::U8, IntType::I8);
    }
    if shorts == 1 {
        return signed_or(unsigned, IntType::U16, IntType::I16);
    }
    if longs == 2 {
        return signed_or(unsigned, IntType::U64, IntType::I64);
    }
    if longs == 1 {
        return long_type(model, unsigned);
    }
    signed_or(unsigned, IntType::U32, IntType::I32)
}

/// The integer type of words in any order.
pub(crate) fn integer_of(model: Model, all: &[TypeWordTree]) -> IntType
    ensures { result ≡ rule.integer_of model (map type_word all.now) }
{
    let unsigned = is_any_unsigned(all);
    let chars = count_of(all, Word::Char);
    let shorts = count_of(all, Word::Short);
    let longs = count_of(all, Word::Long);
    picked(model, unsigned, chars, shorts, longs)
}

fn listed(types: &[(&[u8], IntType)], name: &[u8]) -> Option<IntType>
    ensures { result ≡ entry name.now (map (λ e. words_of.listed e.0.now e.1) types.now) }
{
    for (text, t) in types {
        if name == *text {
            return Some(*t);
        }
    }
    None
}

/// The integer type that a name is without a declaration.
pub(crate) fn built_in_type(model: Model, name: &[u8]) -> Option<IntType>
    ensures { result ≡ entry name.now (rule.built_in_types model) }
{
    listed(
        &[
            (b"int8_t", IntType::I8),
            (b"int16_t", IntType::I16),
            (b"int32_t", IntType::I32),
            (b"int64_t", IntType::I64),
            (b"uint8_t", IntType::U8),
            (b"uint16_t", IntType::U16),
            (b"uint32_t", IntType::U32),
            (b"uint64_t", IntType::U64),
            (b"size_t", long_type(model, true)),
        ],
        name,
    )
}
