//! Punctuators.

ghost use Rattle.std.specs.Prelude.{◌≡◌, ◌<◌, length};
ghost use Rattle.ep_ast.specs.Mark.{mark_text};

/// A mark: the punctuators of C11 6.4.6 that are accepted.
#[derive(Clone, Copy, Debug, PartialEq, Eq)]
pub enum Mark {
    /// `<<=`
    LeftShiftEqual,
    /// `>>=`
    RightShiftEqual,
    /// `->`
    Arrow,
    /// `++`
    PlusPlus,
    /// `--`
    MinusMinus,
    /// `<<`
    LeftShift,
    /// `>>`
    RightShift,
    /// `<=`
    LessEqual,
    /// `>=`
    GreaterEqual,
    /// `==`
    EqualEqual,
    /// `!=`
    NotEqual,
    /// `&&`
    AndAnd,
    /// `||`
    BarBar,
    /// `+=`
    PlusEqual,
    /// `-=`
    MinusEqual,
    /// `*=`
    StarEqual,
    /// `/=`
    SlashEqual,
    /// `%=`
    PercentEqual,
    /// `&=`
    AmpersandEqual,
    /// `|=`
    BarEqual,
    /// `^=`
    CaretEqual,
    /// `(`
    LeftParen,
    /// `)`
    RightParen,
    /// `[`
    LeftBracket,
    /// `]`
    RightBracket,
    /// `{`
    LeftBrace,
    /// `}`
    RightBrace,
    /// `.`
    Dot,
    /// `&`
    Ampersand,
    /// `*`
    Star,
    /// `+`
    Plus,
    /// `-`
    Minus,
    /// `~`
    Tilde,
    /// `!`
    Exclamation,
    /// `/`
    Slash,
    /// `%`
    Percent,
    /// `<`
    Less,
    /// `>`
    Greater,
    /// `^`
    Caret,
    /// `|`
    Bar,
    /// `?`
    Question,
    /// `:`
    Colon,
    /// `;`
    Semicolon,
    /// `=`
    Equal,
    /// `,`
    Comma,
}

impl Mark {
    /// The bytes that spell it.
    pub fn text(self) -> &'static [u8]
        ensures value { result.now ≡ mark_text self }
        ensures some { 0 < length result.now }
    {
        match self {
            Mark::LeftShiftEqual => b"<<=",
            Mark::RightShiftEqual => b">>=",
            Mark::Arrow => b"->",
            Mark::PlusPlus => b"++",
            Mark::MinusMinus => b"--",
            Mark::LeftShift => b"<<",
            Mark::RightShift => b">>",
            Mark::LessEqual => b"<=",
            Mark::GreaterEqual => b">=",
            Mark::EqualEqual => b"==",
            Mark::NotEqual => b"!=",
            Mark::AndAnd => b"&&",
            Mark::BarBar => b"||",
            Mark::PlusEqual => b"+=",
            Mark::MinusEqual => b"-=",
            Mark::StarEqual => b"*=",
            Mark::SlashEqual => b"/=",
            Mark::PercentEqual => b"%=",
            Mark::AmpersandEqual => b"&=",
            Mark::BarEqual => b"|=",
            Mark::CaretEqual => b"^=",
            Mark::LeftParen => b"(",
            Mark::RightParen => b")",
            Mark::LeftBracket => b"[",
            Mark::RightBracket => b"]",
            Mark::LeftBrace => b"{",
            Mark::RightBrace => b"}",
            Mark::Dot => b".",
            Mark::Ampersand => b"&",
            Mark::Star => b"*",
            Mark::Plus => b"+",
            Mark::Minus => b"-",
            Mark::Tilde => b"~",
            Mark::Exclamation => b"!",
            Mark::Slash => b"/",
            Mark::Percent => b"%",
            Mark::Less => b"<",
            Mark::Greater => b">",
            Mark::Caret => b"^",
            Mark::Bar => b"|",
            Mark::Question => b"?",
            Mark::Colon => b":",
            Mark::Semicolon => b";",
            Mark::Equal => b"=",
            Mark::Comma => b",",
        }
    }
}
