//! Sources and their tokens.

use ep_ast::Halt;
use ep_lexer::{Token, TokenKind, lex};
use std::alloc::{AllocError, Global};
use std::fmt::Write;
use std::test::Fail;

fn show(alloc: Global, out: &mut String, token: &Token<'_>) -> Result<(), AllocError> {
    let line = token.line;
    match &token.what {
        TokenKind::Word(word) => write!(out, "{line}:{word:?} ")?,
        TokenKind::Name(text) => {
            write!(out, "{line}:")?;
            for b in *text {
                out.push(char::from(*b))?;
            }
            out.push(' ')?;
        }
        TokenKind::Number(n) => {
            let value = n.value;
            let longs = n.longs;
            let base = if n.decimal { "d" } else { "o" };
            let sign = if n.unsigned { "u" } else { "" };
            write!(out, "{line}:{value}{base}{sign}{longs} ")?;
        }
        TokenKind::Mark(mark) => write!(out, "{line}:{mark:?} ")?,
        TokenKind::IfLittle => write!(out, "{line}:little ")?,
        TokenKind::IfBig => write!(out, "{line}:big ")?,
        TokenKind::Other => write!(out, "{line}:else ")?,
        TokenKind::EndIf => write!(out, "{line}:endif ")?,
    }
    Ok(())
}

fn read(alloc: Global, source: &[u8]) -> Result<String, AllocError> {
    let mut out = String::new(alloc);
    if source.len() >= 1000 {
        return Ok(out);
    }
    match &lex(alloc, source) {
        Ok(tokens) => {
            for token in &tokens.list {
                show(alloc, &mut out, token)?;
            }
        }
        Err(Halt::Refused(r)) => {
            let kind = r.kind.number();
            let line = r.line;
            let word = r.word;
            write!(out, "refused {kind} line {line} word {word:?}")?;
        }
        Err(Halt::Memory) => out.push_str("memory")?,
    }
    Ok(out)
}

#[test]
fn tokens(rt: HostRuntime) -> Result<(), Fail> {
    for (source, want) in [
        ("a - b - c", "1:a 1:Minus 1:b 1:Minus 1:c "),
        (
            "int\twhile_1;\r\nx<<=1",
            "1:Int 1:while_1 1:Semicolon 2:x 2:LeftShiftEqual 2:1d0 ",
        ),
        (
            "a+++b->c.d",
            "1:a 1:PlusPlus 1:Plus 1:b 1:Arrow 1:c 1:Dot 1:d ",
        ),
        ("2147483648", "1:2147483648d0 "),
        ("18446744073709551615u", "1:18446744073709551615du0 "),
        (
            "0 00 0x1fUL 017LLu 9LL 5l",
            "1:0o0 1:0o0 1:31ou1 1:15ou2 1:9d2 1:5d1 ",
        ),
        (
            "'a' '\\0' '\\a' '\\b' '\\f' '\\n' '\\r'",
            "1:97d0 1:0d0 1:7d0 1:8d0 1:12d0 1:10d0 1:13d0 ",
        ),
        (
            "'\\t' '\\v' '\\\\' '\\'' '\\\"' '\\?' '\"'",
            "1:9d0 1:11d0 1:92d0 1:39d0 1:34d0 1:63d0 1:34d0 ",
        ),
        ("a // b \\\nc /* d\n*/ e", "1:a 2:c 3:e "),
        ("/**/a/*/ b */c", "1:a 1:c "),
        ("#define N 4\nN + M", "2:4d0 2:Plus 2:M "),
        ("#define A 16\n# /**/ define B A // c\nB", "3:16d0 "),
        ("#define C /* a\n b */ 'x'\nC", "3:120d0 "),
        ("/*\n*/ #define A 1\nA", "3:1d0 "),
        (
            "#include <stdint.h>\n#include \"ep.h\" /* x */\n# include/**/<string.h>\n",
            "",
        ),
        (
            "#if __BYTE_ORDER__ == __ORDER_LITTLE_ENDIAN__\na\n#else // b\nc\n#endif\n",
            "1:little 2:a 3:else 4:c 5:endif ",
        ),
        (
            "\n #if __BYTE_ORDER__==__ORDER_BIG_ENDIAN__\n#endif",
            "2:big 3:endif ",
        ),
        ("", ""),
    ] {
        assert_eq!(rt;
            read(rt.alloc(), source.as_bytes())?.as_str(),
            want,
            "{source}"
        );
    }
    Ok(())
}

#[test]
fn refusals(rt: HostRuntime) -> Result<(), Fail> {
    for (source, want) in [
        ("a\n$", "refused 1 line 2 word None"),
        ("a # b", "refused 1 line 1 word None"),
        ("int x; /*\n*/ #define A 1", "refused 1 line 2 word None"),
        ("#define A $", "refused 1 line 1 word None"),
        ("#include <stdint.h> $", "refused 1 line 1 word None"),
        ("int x;\n/* a\nb", "refused 2 line 2 word None"),
        ("0xE+1", "refused 3 line 1 word None"),
        ("08", "refused 3 line 1 word None"),
        ("0x", "refused 3 line 1 word None"),
        ("1lul", "refused 3 line 1 word None"),
        ("1Ll", "refused 3 line 1 word None"),
        ("1.5", "refused 3 line 1 word None"),
        ("9223372036854775808", "refused 3 line 1 word None"),
        ("18446744073709551616u", "refused 3 line 1 word None"),
        ("'ab'", "refused 3 line 1 word None"),
        ("'\\01'", "refused 3 line 1 word None"),
        ("#define A 08", "refused 3 line 1 word None"),
        ("\"x\"", "refused 4 line 1 word None"),
        ("#define A /*\n*/ \"x\"", "refused 4 line 2 word None"),
        ("#pragma \"x\"", "refused 5 line 1 word None"),
        ("#define A goto", "refused 5 line 1 word None"),
        ("#define N 4\n#define N 5", "refused 5 line 2 word None"),
        ("#define int 4", "refused 5 line 1 word None"),
        ("#define /*\n*/ A 1 2", "refused 5 line 1 word None"),
        ("\n#\n", "refused 5 line 2 word None"),
        ("#include <stdio.h>", "refused 6 line 1 word None"),
        ("#include < stdint.h>", "refused 6 line 1 word None"),
        ("#include \"ep.h\" \"", "refused 6 line 1 word None"),
        ("#if __BYTE_ORDER__ == 1", "refused 7 line 1 word None"),
        (
            "#define __BYTE_ORDER__ 1\n#if __BYTE_ORDER__ == __ORDER_BIG_ENDIAN__",
            "refused 7 line 2 word None",
        ),
        ("a\n#elif", "refused 7 line 2 word None"),
        ("#else", "refused 7 line 1 word None"),
        (
            "#if __BYTE_ORDER__ == __ORDER_BIG_ENDIAN__\n#else\n#else\n#endif",
            "refused 7 line 3 word None",
        ),
        (
            "#if __BYTE_ORDER__ == __ORDER_BIG_ENDIAN__\n#include <stdint.h>\n#endif",
            "refused 7 line 2 word None",
        ),
        (
            "a\n#if __BYTE_ORDER__ == __ORDER_BIG_ENDIAN__\nb\n",
            "refused 7 line 2 word None",
        ),
        ("goto", "refused 8 line 1 word Some(Goto)"),
        ("a\nauto _Thread_local", "refused 8 line 2 word Some(Auto)"),
    ] {
        assert_eq!(rt;
            read(rt.alloc(), source.as_bytes())?.as_str(),
            want,
            "{source}"
        );
    }
    Ok(())
}

#[test]
fn other_bytes(rt: HostRuntime) -> Result<(), Fail> {
    assert_eq!(rt;
        read(rt.alloc(), &[b'a', 200])?.as_str(),
        "refused 1 line 1 word None"
    );
    assert_eq!(rt;
        read(rt.alloc(), &[b'\'', 200, b'\''])?.as_str(),
        "refused 3 line 1 word None"
    );
    assert_eq!(rt;
        read(rt.alloc(), &[b'/', b'/', 200, b'\n', b'a'])?.as_str(),
        "2:a "
    );
    assert_eq!(rt;
        read(rt.alloc(), &[b'/', b'*', 200, 0, b'*', b'/', b'a'])?.as_str(),
        "1:a "
    );
    Ok(())
}
