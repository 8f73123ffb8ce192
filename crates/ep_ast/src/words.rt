//! Words that the language has, and words that are reserved.

ghost use Rattle.std.specs.Prelude.{◌≡◌, ◌==◌, Some};
ghost use Rattle.ep_ast.specs.Mark.{union_word, word_number, word_text};
ghost use Rattle.ep_ast.specs.Reserved.{reserved_number, reserved_word};

/// A word of C11 6.4.1 that is accepted.
#[derive(Clone, Copy, Debug, PartialEq, Eq)]
pub enum Word {
    Break,
    Char,
    Const,
    Continue,
    Do,
    Else,
    For,
    If,
    Inline,
    Int,
    Long,
    Return,
    Short,
    Signed,
    Sizeof,
    Static,
    Struct,
    Typedef,
    Union,
    Unsigned,
    Void,
    While,
}

impl Word {
    /// Whether it is `union`.
    pub fn is_union(self) -> bool
        ensures { result ≡ (word_number self == union_word) }
    {
        self == Word::Union
    }

    /// The bytes that spell it.
    pub fn text(self) -> &'static [u8]
        ensures { result.now ≡ word_text self }
    {
        match self {
            Word::Break => b"break",
            Word::Char => b"char",
            Word::Const => b"const",
            Word::Continue => b"continue",
            Word::Do => b"do",
            Word::Else => b"else",
            Word::For => b"for",
            Word::If => b"if",
            Word::Inline => b"inline",
            Word::Int => b"int",
            Word::Long => b"long",
            Word::Return => b"return",
            Word::Short => b"short",
            Word::Signed => b"signed",
            Word::Sizeof => b"sizeof",
            Word::Static => b"static",
            Word::Struct => b"struct",
            Word::Typedef => b"typedef",
            Word::Union => b"union",
            Word::Unsigned => b"unsigned",
            Word::Void => b"void",
            Word::While => b"while",
        }
    }
}

/// A word of C11 6.4.1 that is refused.
#[derive(Clone, Copy, Debug, PartialEq, Eq)]
pub enum ReservedWord {
    Auto,
    Case,
    Default,
    Double,
    Enum,
    Extern,
    Float,
    Goto,
    Register,
    Restrict,
    Switch,
    Volatile,
    Alignas,
    Alignof,
    Atomic,
    Bool,
    Complex,
    Generic,
    Imaginary,
    Noreturn,
    StaticAssert,
    ThreadLocal,
}

impl ReservedWord {
    /// The bytes that spell it.
    pub fn text(self) -> &'static [u8]
        ensures { result.now ≡ reserved_word (reserved_number (Some self)) }
    {
        match self {
            ReservedWord::Auto => b"auto",
            ReservedWord::Case => b"case",
            ReservedWord::Default => b"default",
            ReservedWord::Double => b"double",
            ReservedWord::Enum => b"enum",
            ReservedWord::Extern => b"extern",
            ReservedWord::Float => b"float",
            ReservedWord::Goto => b"goto",
            ReservedWord::Register => b"register",
            ReservedWord::Restrict => b"restrict",
            ReservedWord::Switch => b"switch",
            ReservedWord::Volatile => b"volatile",
            ReservedWord::Alignas => b"_Alignas",
            ReservedWord::Alignof => b"_Alignof",
            ReservedWord::Atomic => b"_Atomic",
            ReservedWord::Bool => b"_Bool",
            ReservedWord::Complex => b"_Complex",
            ReservedWord::Generic => b"_Generic",
            ReservedWord::Imaginary => b"_Imaginary",
            ReservedWord::Noreturn => b"_Noreturn",
            ReservedWord::StaticAssert => b"_Static_assert",
            ReservedWord::ThreadLocal => b"_Thread_local",
        }
    }
}
