//! Kinds of refusals.

ghost use Rattle.std.specs.Prelude.{◌≡◌};
ghost use Rattle.ep_ast.specs.Kind.{number_of};
ghost use Rattle.ep_ast.specs.Refusal as spec;

/// For what a source is refused.
#[derive(Clone, Copy, Debug, PartialEq, Eq)]
pub enum RefusalKind {
    Byte,
    Comment,
    Number,
    StringLiteral,
    Directive,
    Include,
    Conditional,
    /// A word of C that isn't accepted.
    ReservedWord,
    BitField,
    Syntax,
    ArrayBound,
    /// A call that stands neither as a whole statement nor as all of the right side of one.
    CallInExpression,
    AssignmentInExpression,
    /// More than 64 inside one another.
    Nesting,
    UnknownName,
    Redeclared,
    TypeMismatch,
    IncompleteType,
    PointerToInteger,
    /// A call of main, or a function that leads to itself.
    Recursion,
    /// No body of main.
    NoMain,
    /// A type or all objects together of more than 65,536 bytes.
    TooLarge,
    /// Arms by byte order that don't define the same functions.
    ConditionalArms,
    Arity,
    NoMember,
    NotAnLvalue,
    LengthNotConstant,
    /// A parameter or a result of a type that isn't passed.
    StructByValue,
    IncompatiblePointers,
    /// A first value of a global that is no constant.
    NotConstant,
    /// A call of a function without a body.
    NoDefinition,
    /// A jump that stands in no loop.
    StrayJump,
    /// More than 256 statements inside one another along calls.
    CallDepth,
    /// A bit-field that is neither a whole right side nor a whole left one.
    BitFieldPlace,
}

impl RefusalKind {
    /// The number that a text prints.
    pub fn number(self) -> u8
        ensures { result ≡ number_of self }
    {
        match self {
            RefusalKind::Byte => 1,
            RefusalKind::Comment => 2,
            RefusalKind::Number => 3,
            RefusalKind::StringLiteral => 4,
            RefusalKind::Directive => 5,
            RefusalKind::Include => 6,
            RefusalKind::Conditional => 7,
            RefusalKind::ReservedWord => 8,
            RefusalKind::BitField => 9,
            RefusalKind::Syntax => 10,
            RefusalKind::ArrayBound => 17,
            RefusalKind::CallInExpression => 18,
            RefusalKind::AssignmentInExpression => 19,
            RefusalKind::Nesting => 22,
            RefusalKind::UnknownName => 30,
            RefusalKind::Redeclared => 31,
            RefusalKind::TypeMismatch => 32,
            RefusalKind::IncompleteType => 33,
            RefusalKind::PointerToInteger => 34,
            RefusalKind::Recursion => 35,
            RefusalKind::NoMain => 36,
            RefusalKind::TooLarge => 37,
            RefusalKind::ConditionalArms => 38,
            RefusalKind::Arity => 39,
            RefusalKind::NoMember => 40,
            RefusalKind::NotAnLvalue => 41,
            RefusalKind::LengthNotConstant => 42,
            RefusalKind::StructByValue => 43,
            RefusalKind::IncompatiblePointers => 44,
            RefusalKind::NotConstant => 45,
            RefusalKind::NoDefinition => 46,
            RefusalKind::StrayJump => 47,
            RefusalKind::CallDepth => 48,
            RefusalKind::BitFieldPlace => 51,
        }
    }

    /// The name that a text prints behind the number.
    pub fn name(self) -> &'static [u8]
        ensures { result.now ≡ spec.kind_name (number_of self) }
    {
        match self {
            RefusalKind::Byte => b"byte",
            RefusalKind::Comment => b"comment",
            RefusalKind::Number => b"number",
            RefusalKind::StringLiteral => b"string-literal",
            RefusalKind::Directive => b"directive",
            RefusalKind::Include => b"include",
            RefusalKind::Conditional => b"conditional",
            RefusalKind::ReservedWord => b"reserved-word",
            RefusalKind::BitField => b"bit-field",
            RefusalKind::Syntax => b"syntax",
            RefusalKind::ArrayBound => b"array-bound",
            RefusalKind::CallInExpression => b"call-in-expression",
            RefusalKind::AssignmentInExpression => b"assignment-in-expression",
            RefusalKind::Nesting => b"nesting",
            RefusalKind::UnknownName => b"unknown-name",
            RefusalKind::Redeclared => b"redeclared",
            RefusalKind::TypeMismatch => b"type-mismatch",
            RefusalKind::IncompleteType => b"incomplete-type",
            RefusalKind::PointerToInteger => b"pointer-to-integer",
            RefusalKind::Recursion => b"recursion",
            RefusalKind::NoMain => b"no-main",
            RefusalKind::TooLarge => b"too-large",
            RefusalKind::ConditionalArms => b"conditional-arms",
            RefusalKind::Arity => b"arity",
            RefusalKind::NoMember => b"no-member",
            RefusalKind::NotAnLvalue => b"not-an-lvalue",
            RefusalKind::LengthNotConstant => b"length-not-constant",
            RefusalKind::StructByValue => b"struct-by-value",
            RefusalKind::IncompatiblePointers => b"incompatible-pointers",
            RefusalKind::NotConstant => b"not-constant",
            RefusalKind::NoDefinition => b"no-definition",
            RefusalKind::StrayJump => b"stray-jump",
            RefusalKind::CallDepth => b"call-depth",
            RefusalKind::BitFieldPlace => b"bit-field-place",
        }
    }
}
