//! Trees of declarations.

ghost use Rattle.std.specs.Prelude.{◌≡◌, map};
ghost use Rattle.std.specs.Option.{option_map};
ghost use Rattle.ep_ast.specs.Declaration as shape;
ghost use Rattle.ep_ast.specs.Mark.{word_number};

use crate::expressions::{ExprTree, TypeWordTree};
use crate::words::Word;

/// A name with its derivations. `stars` has for each `*` the number of `const` after it, `bounds` each pair of `[ ]`.
/// The line is that of the name.
#[derive(Debug, Drop)]
pub struct DeclaratorTree {
    pub line: u32,
    pub stars: Vec<u32>,
    pub name: Vec<u8>,
    pub bounds: Vec<Option<ExprTree>>,
}

/// One of the words that begin a declaration: a type word, or a `struct` or `union` with its members.
#[derive(Debug, Drop)]
#[cycle(specs)]
pub enum SpecTree {
    Plain(TypeWordTree),
    Body(u32, Word, Option<Vec<u8>>, Vec<MemberTree>),
}

/// A `struct` or `union` with its members. The line is that of its word.
#[derive(Debug, Drop)]
pub struct AggregateTree {
    pub line: u32,
    pub word: Word,
    pub tag: Option<Vec<u8>>,
    pub members: Vec<MemberTree>,
}

/// What a member declares: a name with its derivations, or a bit-field, perhaps with a name, and its width. The line of
/// a bit-field is that of its name, or of its `:` where it has none.
#[derive(Debug, Drop)]
pub enum MemberFieldTree {
    Whole(DeclaratorTree),
    Bits(u32, Option<Vec<u8>>, ExprTree),
}

/// One or more members of a `struct` or `union`.
#[derive(Debug, Drop)]
#[cycle(specs)]
pub struct MemberTree {
    pub line: u32,
    pub specs: Vec<SpecTree>,
    pub fields: Vec<MemberFieldTree>,
}

/// What an initialiser gives: an expression, or a list in braces.
#[derive(Debug, Drop)]
pub enum ValueTree {
    Expr(ExprTree),
    List(u32, Vec<ValueTree>),
}

/// A declarator, and its initialiser where it has one. The line is that of the declarator.
#[derive(Debug, Drop)]
pub struct InitTree {
    pub line: u32,
    pub declarator: DeclaratorTree,
    pub value: Option<ValueTree>,
}

/// A declaration of variables.
#[derive(Debug, Drop)]
pub struct DeclarationTree {
    pub line: u32,
    pub specs: Vec<SpecTree>,
    pub inits: Vec<InitTree>,
}

/// A declaration of type names. The line is that of `typedef`.
#[derive(Debug, Drop)]
pub struct TypedefTree {
    pub line: u32,
    pub specs: Vec<SpecTree>,
    pub declarators: Vec<DeclaratorTree>,
}

/// A parameter. The line is that of its name, or of its first token where it has none.
#[derive(Debug, Drop)]
pub struct ParamTree {
    pub line: u32,
    pub specs: Vec<TypeWordTree>,
    pub stars: Vec<u32>,
    pub name: Option<Vec<u8>>,
    pub bounds: Vec<Option<ExprTree>>,
}

/// What stands between the brackets of a head, where something does: `void` alone, or parameters.
#[derive(Debug, Drop)]
pub enum ParamsTree {
    Void(u32),
    List(u32, Vec<ParamTree>),
}

/// What a function is declared as. The line is that of its name.
#[derive(Debug, Drop)]
pub struct HeadTree {
    pub line: u32,
    pub specs: Vec<SpecTree>,
    pub stars: Vec<u32>,
    pub name: Vec<u8>,
    pub params: Option<ParamsTree>,
}

impl SpecTree {
    /// A `struct` or `union` with its members.
    pub fn new_body(
        line: u32,
        word: Word,
        tag: Option<Vec<u8>>,
        members: Vec<MemberTree>,
    ) -> SpecTree
        ensures { shape.spec_of result
            ≡ shape.body (shape.aggregate line (word_number word) (option_map shape.text_of tag)
            (shape.to_members (map shape.member_of members.items))) }
    {
        SpecTree::Body(line, word, tag, members)
    }
}

impl ValueTree {
    /// A list in braces.
    pub fn new_list(line: u32, values: Vec<ValueTree>) -> ValueTree
        ensures { shape.value_of result ≡ shape.listed line (shape.to_values (map shape.value_of values.items)) }
    {
        ValueTree::List(line, values)
    }
}
