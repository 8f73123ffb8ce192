//! Programs, read and shown.

use std::test::Fail;
use tests_outlines::{items, tree};

#[test]
fn accepted(rt: HostRuntime) -> Result<(), Fail> {
    for (source, want) in [
        ("", ""),
        (
            "typedef int T;\nint f(void) { a.T = 1; }",
            "typedef 1;function 2;",
        ),
        ("typedef int T;\nT x;", "typedef 1;declaration 2;"),
        (
            "typedef int T, *U;\nT x;\nU y;",
            "typedef 1;declaration 2;declaration 3;",
        ),
        (
            "typedef struct s { int a; } T;\nstruct s x;",
            "typedef 1;declaration 2;",
        ),
        (
            "int f(void) { for (int i = 0; i < 3; i++) a; }",
            "function 1;",
        ),
        (
            "int f(void) { for (;;) { break; continue; } do ; while (a); return; }",
            "function 1;",
        ),
        ("int x[] = { 1, { 2, 3 }, };", "declaration 1;"),
        (
            "int f(void);\nint f(int, char *a, int b[]);\nint *f();",
            "prototype 1;prototype 2;prototype 3;",
        ),
        ("int\nf(int a) { }", "function 2;"),
        (
            "const int x;\nlong unsigned int long y, *z;",
            "declaration 1;declaration 2;",
        ),
        (
            "static inline int f(void) { const int x = 1; }",
            "function 1;",
        ),
        (
            "struct s { int a; };\nstruct { int a; } x;\nunion u { int a; struct s b; };",
            "aggregate 1;declaration 2;aggregate 3;",
        ),
        (
            "struct s { uint8_t a : 3, b : 5, c; };\nstruct { int : 3; } x;\nunion u { int a : 1, : 0, *b[2]; };",
            "aggregate 1;declaration 2;aggregate 3;",
        ),
        (
            "typedef struct { int a\n: 3; } T;\nstruct s { T : 3, a : 1 ? 2 : 3; };",
            "typedef 1;aggregate 3;",
        ),
        (
            "struct s { int a : b ? 1 : 2, c : 1 ? d ? 3 : 4 : 5, : 0 || 1; };",
            "aggregate 1;",
        ),
        (
            "#if __BYTE_ORDER__ == __ORDER_LITTLE_ENDIAN__\nint f(void) { }\n#else\nstruct s { int a : 3; } f(void) { \
            }\n#endif",
            "arms 1 Little 1 1;",
        ),
        (
            "#if __BYTE_ORDER__ == __ORDER_LITTLE_ENDIAN__\nint f(void) { }\nint g(void) { }\n#else\nint f(void) { }\n\
            #endif\nint x;",
            "arms 1 Little 2 1;declaration 7;",
        ),
        (
            "#if __BYTE_ORDER__ == __ORDER_BIG_ENDIAN__\nint f(void) { }\n#endif",
            "arms 1 Big 1;",
        ),
        (
            "#if __BYTE_ORDER__ == __ORDER_BIG_ENDIAN__\n#else\n#endif",
            "arms 1 Big 0 0;",
        ),
        (
            "int f(void) {\n#if __BYTE_ORDER__ == __ORDER_LITTLE_ENDIAN__\na = 1;\n#else\na = 2;\n#endif\n}",
            "function 1;",
        ),
    ] {
        assert_eq!(rt;
            items(rt.alloc(), source.as_bytes())?.as_str(),
            want,
            "{source}"
        );
    }
    Ok(())
}

#[test]
fn refusals(rt: HostRuntime) -> Result<(), Fail> {
    for (source, kind, line) in [
        ("struct s {\nint a, b[2]\n: 3; };", 10, 3),
        ("struct s { int *a\n: 3; };", 10, 2),
        ("struct s { int *\n: 3; };", 10, 2),
        ("struct s { int a : 3; };\nint ;", 10, 2),
        ("int ;\nstruct s { int a : 3; };", 10, 1),
        ("typedef int T;\nstruct s { int\nT : 3; };", 10, 3),
        ("typedef int T;\nstruct s { int a : 1,\nT : 3; };", 10, 3),
        ("struct s { int a :\n; };", 10, 2),
        ("struct s { int :\n, b; };", 10, 2),
        ("struct s { int a : 1,\n; };", 10, 2),
        ("struct s { int a : 1\n: 2; };", 10, 2),
        ("struct s { int a : 1\n};", 10, 2),
        ("struct s { int a : 1 ? 2\n; };", 10, 2),
        ("struct s { int a : 3\nb; };", 10, 2),
        ("struct s {\n: 3; };", 10, 2),
        ("int a\n: 3;", 10, 2),
        ("typedef int a\n: 3;", 10, 2),
        ("int f(int a\n: 3) { }", 10, 2),
        ("int f(void) {\nint a\n: 3; }", 10, 3),
        ("typedef int T;\nint\nT;", 10, 3),
        ("typedef int T;\nint f(void) {\nint T; }", 10, 3),
        ("typedef int T, T;", 10, 1),
        ("T x;", 10, 1),
        ("int x[] = {\n};", 10, 2),
        ("int x = { 1,, };", 10, 1),
        ("int f(int)\n{ }", 10, 2),
        ("int f(void) {\nstatic int x; }", 10, 2),
        ("int f(void) {\nstruct s { int a; } x; }", 10, 2),
        ("const\nx;", 10, 2),
        ("long long long x;", 10, 1),
        ("struct s;", 10, 1),
        ("struct s { };", 10, 1),
        ("const struct s { int a; }\n;", 10, 2),
        ("int x, f(void);", 10, 1),
        ("int f(void) { }\n}", 10, 2),
        ("int f(void) { };", 10, 1),
        (
            "#if __BYTE_ORDER__ == __ORDER_LITTLE_ENDIAN__\nint x;\n#endif",
            10,
            2,
        ),
        (
            "int f(void) {\n#if __BYTE_ORDER__ == __ORDER_LITTLE_ENDIAN__\nint x;\n#endif\n}",
            10,
            3,
        ),
        ("int f(void) { else ; }", 10, 1),
        ("int f(void)\n{", 10, 2),
        (";", 10, 1),
        ("long struct\n;", 10, 1),
        ("int int\n{", 10, 1),
        ("int x = sizeof(int struct\n);", 10, 1),
        ("int f(void) {\nstruct s\n{ int a; } b; }", 10, 3),
        (
            "#if __BYTE_ORDER__ == __ORDER_LITTLE_ENDIAN__\nint f(int\n, int a\n)\n{ }\n#endif",
            10,
            3,
        ),
        (
            "#if __BYTE_ORDER__ == __ORDER_LITTLE_ENDIAN__\nint f(int *p[2], struct s *\n)\n;\n#endif",
            10,
            3,
        ),
        (
            "#if __BYTE_ORDER__ == __ORDER_LITTLE_ENDIAN__\nint f(int a, int\n[\n2])\n{ }\n#endif",
            10,
            3,
        ),
        (
            "#if __BYTE_ORDER__ == __ORDER_LITTLE_ENDIAN__\nint f(void\n,\n2)\n{ }\n#endif",
            10,
            3,
        ),
        (
            "#if __BYTE_ORDER__ == __ORDER_LITTLE_ENDIAN__\nint f(int a[(2)], struct s *b)\n;\n#endif",
            10,
            3,
        ),
        (
            "#if __BYTE_ORDER__ == __ORDER_LITTLE_ENDIAN__\nint f(void)\n;\n#endif",
            10,
            3,
        ),
        ("int f(int\n, int a\n)\n{ }", 10, 4),
    ] {
        let want = format!(in rt.alloc(); "refused {kind} line {line} word None")?;
        assert_eq!(rt;
            items(rt.alloc(), source.as_bytes())?.as_str(),
            want.as_str(),
            "{source}"
        );
    }
    Ok(())
}

#[test]
fn trees(rt: HostRuntime) -> Result<(), Fail> {
    for (source, want) in [
        (
            "int f(void) { if (a) if (b) c; else d; }",
            "ProgramTree { items: [Function(FunctionTree { line: 1, head: HeadTree { line: 1, specs: [Plain(Word(1, \
            Int))], stars: [], name: [102], params: Some(Void(1)) }, body: BlockTree { line: 1, items: \
            [Statement(If(1, Id(1, [97]), If(1, Id(1, [98]), Expr(1, Some(Id(1, [99]))), Some(Expr(1, Some(Id(1, \
            [100]))))), None))] } })] }",
        ),
        (
            "static int *const\nf(int a,\nchar *);",
            "ProgramTree { items: [Prototype(HeadTree { line: 2, specs: [Plain(Word(1, Static)), Plain(Word(1, Int))], \
            stars: [1], name: [102], params: Some(List(2, [ParamTree { line: 2, specs: [Word(2, Int)], stars: [], \
            name: Some([97]), bounds: [] }, ParamTree { line: 3, specs: [Word(3, Char)], stars: [0], name: None, \
            bounds: [] }])) })] }",
        ),
        (
            "struct s {\nint a, *b[c];\n};",
            "ProgramTree { items: [Aggregate(AggregateTree { line: 1, word: Struct, tag: Some([115]), members: \
            [MemberTree { line: 2, specs: [Plain(Word(2, Int))], fields: [Whole(DeclaratorTree { line: 2, \
            stars: [], name: [97], bounds: [] }), Whole(DeclaratorTree { line: 2, stars: [0], name: [98], bounds: \
            [Some(Id(2, [99]))] })] }] })] }",
        ),
        (
            "struct s {\nint a\n: b, c,\n: d ? e : f;\n};",
            "ProgramTree { items: [Aggregate(AggregateTree { line: 1, word: Struct, tag: Some([115]), members: \
            [MemberTree { line: 2, specs: [Plain(Word(2, Int))], fields: [Bits(2, Some([97]), Id(3, [98])), \
            Whole(DeclaratorTree { line: 3, stars: [], name: [99], bounds: [] }), Bits(4, None, Conditional(4, \
            Id(4, [100]), Id(4, [101]), Id(4, [102])))] }] })] }",
        ),
        (
            "int x = { a, };",
            "ProgramTree { items: [Declaration(DeclarationTree { line: 1, specs: [Plain(Word(1, Int))], inits: \
            [InitTree { line: 1, declarator: DeclaratorTree { line: 1, stars: [], name: [120], bounds: [] }, value: \
            Some(List(1, [Expr(Id(1, [97]))])) }] })] }",
        ),
    ] {
        assert_eq!(rt;
            tree(rt.alloc(), source.as_bytes())?.as_str(),
            want,
            "{source}"
        );
    }
    Ok(())
}
