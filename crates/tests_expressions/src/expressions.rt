//! Expressions, read and shown as trees.

use ep_ast::Halt;
use ep_exprs::{TypeNames, expression};
use ep_lexer::lex;
use std::alloc::{AllocError, Global};
use std::fmt::Write;
use std::test::Fail;

/// The tree at a place of a source and the place after it, or the refusal. `T` is a typedef name.
fn read(alloc: Global, source: &[u8], from: usize) -> Result<String, AllocError> {
    let mut out = String::new(alloc);
    let mut names = TypeNames::new(alloc);
    if names.add(b"T").is_err() || source.len() >= 16777216 {
        return Ok(out);
    }
    let Ok(tokens) = lex(alloc, source) else {
        return Ok(out);
    };
    if from > tokens.list.len() || tokens.list.len() >= 16777216 {
        return Ok(out);
    }
    match &expression(alloc, &tokens, from, &names) {
        Ok((tree, next)) => write!(out, "{tree:?} {next}")?,
        Err(Halt::Refused(r)) => {
            let kind = r.kind.number();
            let line = r.line;
            let word = r.word;
            write!(out, "refused {kind} line {line} word {word:?}")?;
        }
        Err(Halt::Memory) => out.push_str("memory")?,
    }
    Ok(out)
}

#[test]
fn trees(rt: HostRuntime) -> Result<(), Fail> {
    for (source, want) in [
        (
            "a - b - c",
            "Binary(1, Minus, Binary(1, Minus, Id(1, [97]), Id(1, [98])), Id(1, [99])) 5",
        ),
        (
            "(T)a",
            "Cast(1, TypeNameTree { line: 1, specs: [Name(1, [84])], stars: [] }, Id(1, [97])) 4",
        ),
        (
            "(T)-a",
            "Cast(1, TypeNameTree { line: 1, specs: [Name(1, [84])], stars: [] }, Unary(1, Minus, Id(1, [97]))) 5",
        ),
        ("(t)-a", "Binary(1, Minus, Id(1, [116]), Id(1, [97])) 5"),
        (
            "(const unsigned *const *)a",
            "Cast(1, TypeNameTree { line: 1, specs: [Word(1, Const), Word(1, Unsigned)], stars: [1, 0] }, Id(1, \
            [97])) 8",
        ),
        ("sizeof a", "SizeofExpr(1, Id(1, [97])) 2"),
        (
            "sizeof (int)",
            "SizeofType(1, TypeNameTree { line: 1, specs: [Word(1, Int)], stars: [] }) 4",
        ),
        (
            "sizeof (struct s *)",
            "SizeofType(1, TypeNameTree { line: 1, specs: [Tag(1, Struct, [115])], stars: [0] }) 6",
        ),
        (
            "sizeof (a)++",
            "SizeofExpr(1, PostIncrement(1, Id(1, [97]))) 5",
        ),
        (
            "a = b = c",
            "Assign(1, Equal, Id(1, [97]), Assign(1, Equal, Id(1, [98]), Id(1, [99]))) 5",
        ),
        (
            "a <<= b",
            "Assign(1, LeftShiftEqual, Id(1, [97]), Id(1, [98])) 3",
        ),
        (
            "a ? b : c ? d : e",
            "Conditional(1, Id(1, [97]), Id(1, [98]), Conditional(1, Id(1, [99]), Id(1, [100]), Id(1, [101]))) 9",
        ),
        (
            "a ? b = c : d",
            "Conditional(1, Id(1, [97]), Assign(1, Equal, Id(1, [98]), Id(1, [99])), Id(1, [100])) 7",
        ),
        ("-a++", "Unary(1, Minus, PostIncrement(1, Id(1, [97]))) 3"),
        ("*a++", "Unary(1, Star, PostIncrement(1, Id(1, [97]))) 3"),
        (
            "++a--",
            "Step(1, PlusPlus, PostDecrement(1, Id(1, [97]))) 3",
        ),
        (
            "a.b->c[1](2, 3)",
            "Call(1, Index(1, Arrow(1, Member(1, Id(1, [97]), [98]), [99]), Number(1, Literal { value: 1, decimal: \
            true, unsigned: false, longs: 0 })), [Number(1, Literal { value: 2, decimal: true, unsigned: false, \
            longs: 0 }), Number(1, Literal { value: 3, decimal: true, unsigned: false, longs: 0 })]) 13",
        ),
        ("(a)(b)", "Call(1, Id(1, [97]), [Id(1, [98])]) 6"),
        ("f()", "Call(1, Id(1, [102]), []) 3"),
        ("\na\n+\n(b)", "Binary(2, Plus, Id(2, [97]), Id(4, [98])) 5"),
        (
            "a || b && c | d ^ e & f == g < h << i + j * k",
            "Binary(1, BarBar, Id(1, [97]), Binary(1, AndAnd, Id(1, [98]), Binary(1, Bar, Id(1, [99]), Binary(1, \
            Caret, Id(1, [100]), Binary(1, Ampersand, Id(1, [101]), Binary(1, EqualEqual, Id(1, [102]), Binary(1, \
            Less, Id(1, [103]), Binary(1, LeftShift, Id(1, [104]), Binary(1, Plus, Id(1, [105]), Binary(1, Star, \
            Id(1, [106]), Id(1, [107]))))))))))) 21",
        ),
        (
            "a * b + c << d < e == f & g ^ h | i && j || k",
            "Binary(1, BarBar, Binary(1, AndAnd, Binary(1, Bar, Binary(1, Caret, Binary(1, Ampersand, Binary(1, \
            EqualEqual, Binary(1, Less, Binary(1, LeftShift, Binary(1, Plus, Binary(1, Star, Id(1, [97]), Id(1, \
            [98])), Id(1, [99])), Id(1, [100])), Id(1, [101])), Id(1, [102])), Id(1, [103])), Id(1, [104])), Id(1, \
            [105])), Id(1, [106])), Id(1, [107])) 21",
        ),
        ("a)", "Id(1, [97]) 1"),
        ("a]", "Id(1, [97]) 1"),
        ("a}", "Id(1, [97]) 1"),
        ("a,b", "Id(1, [97]) 1"),
        ("a;", "Id(1, [97]) 1"),
        ("a:", "Id(1, [97]) 1"),
    ] {
        assert_eq!(rt;
            read(rt.alloc(), source.as_bytes(), 0)?.as_str(),
            want,
            "{source}"
        );
    }
    assert_eq!(rt; read(rt.alloc(), b"a - b", 2)?.as_str(), "Id(1, [98]) 3");
    Ok(())
}

#[test]
fn refusals(rt: HostRuntime) -> Result<(), Fail> {
    for (source, line) in [
        ("(t)a", 1),
        ("", 1),
        ("\n", 1),
        ("a +", 1),
        ("a\n+\n", 2),
        ("a b", 1),
        ("a {", 1),
        ("a ? b", 1),
        ("a ? b ;", 1),
        ("a ? b : c = d", 1),
        ("a + b = c", 1),
        ("(T)a = b", 1),
        ("++(T)a", 1),
        ("sizeof (int) a", 1),
        ("sizeof (int)++", 1),
        ("(int char)a", 1),
        ("(long long\nlong)a", 2),
        ("(unsigned\nT)a", 2),
        ("(const)a", 1),
        ("(struct)a", 1),
        ("(struct s {", 1),
        ("(int *\nx)", 2),
        ("()", 1),
        ("f(a,)", 1),
        ("f(a", 1),
        ("a[1", 1),
        ("a.1", 1),
        ("a->", 1),
        ("int", 1),
        ("T", 1),
        (
            "a\n#if __BYTE_ORDER__ == __ORDER_LITTLE_ENDIAN__\n#endif",
            2,
        ),
    ] {
        let want = format!(in rt.alloc(); "refused 10 line {line} word None")?;
        assert_eq!(rt;
            read(rt.alloc(), source.as_bytes(), 0)?.as_str(),
            want.as_str(),
            "{source}"
        );
    }
    Ok(())
}

/// The front so many times, the middle, and the end so many times.
fn nested(
    alloc: Global,
    front: &str,
    count: u32,
    middle: &str,
    end: &str,
) -> Result<String, AllocError> {
    let mut out = String::new(alloc);
    for _ in 0..count {
        out.push_str(front)?;
    }
    out.push_str(middle)?;
    for _ in 0..count {
        out.push_str(end)?;
    }
    Ok(out)
}

#[test]
fn sixty_four_are_accepted(rt: HostRuntime) -> Result<(), Fail> {
    for (front, end, node, close, next) in [
        ("- ", "a", "Unary(1, Minus, ", ")", 65),
        ("a+", "a", "Binary(1, Plus, ", ", Id(1, [97]))", 129),
        (
            "(T)",
            "a",
            "Cast(1, TypeNameTree { line: 1, specs: [Name(1, [84])], stars: [] }, ",
            ")",
            193,
        ),
    ] {
        let source = nested(rt.alloc(), front, 64, end, "")?;
        let tree = nested(rt.alloc(), node, 64, "Id(1, [97])", close)?;
        let tree = tree.as_str();
        let want = format!(in rt.alloc(); "{tree} {next}")?;
        assert_eq!(rt;
            read(rt.alloc(), source.as_bytes(), 0)?.as_str(),
            want.as_str(),
            "{front}"
        );
    }
    let source = nested(rt.alloc(), "(", 64, "a", ")")?;
    assert_eq!(rt;
        read(rt.alloc(), source.as_bytes(), 0)?.as_str(),
        "Id(1, [97]) 129"
    );
    let source = nested(rt.alloc(), "(", 65, "", "")?;
    let source = source.as_str();
    let behind = format!(in rt.alloc(); "a, {source}")?;
    assert_eq!(rt;
        read(rt.alloc(), behind.as_bytes(), 0)?.as_str(),
        "Id(1, [97]) 1"
    );
    let behind = format!(in rt.alloc(); "a : {source}")?;
    assert_eq!(rt;
        read(rt.alloc(), behind.as_bytes(), 0)?.as_str(),
        "refused 22 line 1 word None"
    );
    Ok(())
}

#[test]
fn too_many_are_refused(rt: HostRuntime) -> Result<(), Fail> {
    for (front, count, end, kind) in [
        ("- ", 65, "\na", 22),
        ("a+", 65, "\na", 22),
        ("(T)", 65, "\na", 22),
        ("(", 64, "", 10),
        ("(", 65, "", 22),
        ("[", 65, "", 22),
        ("- ", 20000, "a", 22),
        ("a = ", 10000, "a", 22),
        ("a ? a : ", 5000, "a", 22),
        ("a ? ", 10000, "a", 10),
    ] {
        let source = nested(rt.alloc(), front, count, end, "")?;
        let source = source.as_str();
        let source = format!(in rt.alloc(); "\n{source}")?;
        let want = format!(in rt.alloc(); "refused {kind} line 2 word None")?;
        assert_eq!(rt;
            read(rt.alloc(), source.as_bytes(), 0)?.as_str(),
            want.as_str(),
            "{front} {count}"
        );
    }
    Ok(())
}

#[test]
fn type_names(rt: HostRuntime) -> Result<(), Fail> {
    let mut names = TypeNames::new(rt.alloc());
    names.add(b"mine")?;
    names.add(b"mine")?;
    for (name, want) in [
        ("int8_t", true),
        ("int16_t", true),
        ("int32_t", true),
        ("int64_t", true),
        ("uint8_t", true),
        ("uint16_t", true),
        ("uint32_t", true),
        ("uint64_t", true),
        ("size_t", true),
        ("mine", true),
        ("other", false),
        ("int", false),
    ] {
        assert_eq!(rt; names.has(name.as_bytes()), want, "{name}");
    }
    Ok(())
}
