//! Bit-fields: their units, reads and writes on each machine, verdicts, and what is refused.

use crate::tells::expect;
use std::alloc::Global;
use std::process::Abort;
use std::test::Fail;
use tests_calls::{Case, Status};

const CHECK: &[&str] = &["endport", "check", "file.c"];

const LAYOUT: &[&str] = &["endport", "layout", "file.c"];

const LITTLE: &[&str] = &[
    "endport", "run", "--order", "little", "--steps", "99", "file.c",
];

const BIG: &[&str] = &[
    "endport", "run", "--order", "big", "--steps", "99", "file.c",
];

const SWAPPED: &[&str] = &[
    "endport",
    "run",
    "--order",
    "swapped-words",
    "--steps",
    "99",
    "file.c",
];

/// The words, the source, the status and the text.
type Row = (&'static [&'static str], &'static str, Status, &'static str);

fn expect_all(rt: &impl Abort, alloc: Global, table: &[Row]) -> Result<(), Fail> {
    for (words, source, status, text) in table.iter() {
        let case = Case {
            words,
            ..Case::check(source.as_bytes())
        };
        expect(rt, alloc, &case, *status, text)?;
    }
    Ok(())
}

#[test]
fn units(rt: HostRuntime) -> Result<(), Fail> {
    let table: [Row; 5] = [
        (
            LAYOUT,
            "struct flags { uint8_t a : 3; uint8_t b : 5; };\nint main(void) { }\n",
            Status::Done,
            "struct flags size 1 align 1\n  : offset 0 size 1\n",
        ),
        // one that doesn't fit, another type, the end of a unit, and a member
        (
            LAYOUT,
            "struct s { uint8_t a : 3, b : 5, c : 1; uint16_t d : 9, : 0, e : 2; uint8_t f; uint8_t g : 8; };\n\
                int main(void) { }\n",
            Status::Done,
            "struct s size 8 align 2\n  : offset 0 size 1\n  : offset 1 size 1\n  : offset 2 size 2\n\
                \x20 : offset 4 size 2\n  f offset 6 size 1\n  : offset 7 size 1\n",
        ),
        (
            LAYOUT,
            "struct s { uint8_t a; uint32_t b : 1; uint8_t c : 1; };\nint main(void) { }\n",
            Status::Done,
            "struct s size 12 align 4\n  a offset 0 size 1\n  : offset 4 size 4\n  : offset 8 size 1\n",
        ),
        // the end of no unit, and bits without a name
        (
            LAYOUT,
            "struct s { uint8_t : 0; uint8_t x; };\nint main(void) { }\n",
            Status::Done,
            "struct s size 1 align 1\n  x offset 0 size 1\n",
        ),
        (
            LAYOUT,
            "struct s { uint32_t : 5; };\nint main(void) { }\n",
            Status::Done,
            "struct s size 4 align 4\n  : offset 0 size 4\n",
        ),
    ];
    expect_all(&rt, rt.alloc(), &table)
}

// Values are cut to 3 and 5 bits.
const SHORT: &str = "struct flags { uint8_t a : 3; uint8_t b : 5; };\n\
    int main(void) {\n\
    struct flags f = {0};\n\
    uint8_t x;\n\
    f.a = 13;\n\
    f.b = 33;\n\
    ep_write(&f, 1);\n\
    x = f.a;\n\
    ep_out_u8(x);\n\
    x = f.b;\n\
    ep_out_u8(x);\n\
    }\n";

const LONG: &str = "struct word { uint32_t a : 4, b : 20, c : 8; };\n\
    int main(void) {\n\
    struct word w = {0};\n\
    struct word *p = &w;\n\
    uint64_t x = 0;\n\
    p->a = 1;\n\
    w.b = 0x100002;\n\
    p->c = 0x503;\n\
    ep_write(&w, 4);\n\
    x = p->b;\n\
    ep_out_u64(x);\n\
    }\n";

#[test]
fn on_each_machine(rt: HostRuntime) -> Result<(), Fail> {
    let table: [Row; 6] = [
        (
            LITTLE,
            SHORT,
            Status::Done,
            "u8 13\nu8 5\nu8 1\ni32 0\nended\n",
        ),
        (
            BIG,
            SHORT,
            Status::Done,
            "u8 161\nu8 5\nu8 1\ni32 0\nended\n",
        ),
        (
            SWAPPED,
            SHORT,
            Status::Done,
            "u8 13\nu8 5\nu8 1\ni32 0\nended\n",
        ),
        (
            LITTLE,
            LONG,
            Status::Done,
            "u8 33\nu8 0\nu8 0\nu8 3\nu64 2\ni32 0\nended\n",
        ),
        (
            BIG,
            LONG,
            Status::Done,
            "u8 16\nu8 0\nu8 2\nu8 3\nu64 2\ni32 0\nended\n",
        ),
        (
            SWAPPED,
            LONG,
            Status::Done,
            "u8 0\nu8 3\nu8 33\nu8 0\nu64 2\ni32 0\nended\n",
        ),
    ];
    expect_all(&rt, rt.alloc(), &table)
}

const FLAGS: &str = "struct flags { uint8_t a : 3; uint8_t b : 5; };\n\
    int main(void) {\n\
    struct flags f;\n\
    uint8_t x;\n\
    memset(&f, 0, 1);\n\
    f.a = 5;\n\
    x = f.a;\n\
    ep_out_u8(x);\n\
    }\n";

const FLAGS_AS_BYTE: &str = "struct flags { uint8_t a : 3; uint8_t b : 5; };\n\
    int main(void) {\n\
    struct flags f;\n\
    uint8_t x;\n\
    memset(&f, 0, 1);\n\
    f.a = 5;\n\
    x = f.a;\n\
    ep_write(&f, 1);\n\
    }\n";

const FLAGS_IN_CALL: &str = "struct flags { uint8_t a : 3; uint8_t b : 5; };\n\
    int main(void) {\n\
    struct flags f;\n\
    uint8_t x;\n\
    memset(&f, 0, 1);\n\
    f.a = 5;\n\
    x = f.a;\n\
    ep_out_u8(f.a);\n\
    }\n";

// Some bits of the unit have no value.
const WITHOUT_VALUE: &str = "struct flags { uint8_t a : 3; uint8_t b : 5; };\n\
    int main(void) {\n\
    struct flags f;\n\
    f.a = 5;\n\
    }\n";

const STATUS_REGISTER: &str = "struct status { uint8_t ready : 1, error : 1, : 2, mode : 4; };\n\
    \n\
    int main(void) {\n\
    struct status s = {0};\n\
    uint8_t mode;\n\
    s.ready = 1;\n\
    s.mode = 5;\n\
    mode = s.mode;\n\
    ep_out_u8(mode);\n\
    }\n";

const STATUS_AS_BYTE: &str = "struct status { uint8_t ready : 1, error : 1, : 2, mode : 4; };\n\
    \n\
    int main(void) {\n\
    struct status s = {0};\n\
    uint8_t mode;\n\
    s.ready = 1;\n\
    s.mode = 5;\n\
    mode = s.mode;\n\
    ep_write(&s, 1);\n\
    }\n";

// The flags of a TCP header, in both orders of members.
const HEADER: &str =
    "struct low_first { uint8_t fin : 1, syn : 1, rst : 1, psh : 1, ack : 1, urg : 1, ece : 1, cwr : 1; };\n\
    struct high_first { uint8_t cwr : 1, ece : 1, urg : 1, ack : 1, psh : 1, rst : 1, syn : 1, fin : 1; };\n\
    #if __BYTE_ORDER__ == __ORDER_BIG_ENDIAN__\n\
    uint8_t is_syn(uint8_t *flags) {\n\
    struct high_first f;\n\
    uint8_t syn;\n\
    memcpy(&f, flags, 1);\n\
    syn = f.syn;\n\
    return syn;\n\
    }\n\
    #else\n\
    uint8_t is_syn(uint8_t *flags) {\n\
    struct low_first f;\n\
    uint8_t syn;\n\
    memcpy(&f, flags, 1);\n\
    syn = f.syn;\n\
    return syn;\n\
    }\n\
    #endif\n\
    int main(void) {\n\
    uint8_t header[20];\n\
    uint8_t syn;\n\
    ep_read(header, 20);\n\
    syn = is_syn(header + 13);\n\
    ep_out_u8(syn);\n\
    }\n";

const HEADER_IN_ONE_ORDER: &str =
    "struct low_first { uint8_t fin : 1, syn : 1, rst : 1, psh : 1, ack : 1, urg : 1, ece : 1, cwr : 1; };\n\
    uint8_t is_syn(uint8_t *flags) {\n\
    struct low_first f;\n\
    uint8_t syn;\n\
    memcpy(&f, flags, 1);\n\
    syn = f.syn;\n\
    return syn;\n\
    }\n\
    int main(void) {\n\
    uint8_t header[20];\n\
    uint8_t syn;\n\
    ep_read(header, 20);\n\
    syn = is_syn(header + 13);\n\
    ep_out_u8(syn);\n\
    }\n";

#[test]
fn verdicts(rt: HostRuntime) -> Result<(), Fail> {
    let table: [Row; 8] = [
        (CHECK, FLAGS, Status::Done, "portable\n"),
        (
            CHECK,
            FLAGS_AS_BYTE,
            Status::Alarms,
            "8: E1 output-differs left [5,5] right [160,160]\n1 alarms\n",
        ),
        (
            CHECK,
            FLAGS_IN_CALL,
            Status::Refused,
            "8: refused 51 bit-field-place\n",
        ),
        (
            CHECK,
            WITHOUT_VALUE,
            Status::Alarms,
            "4: U4 uninitialised left [0,0] right [0,0]\n1 alarms\n",
        ),
        (CHECK, STATUS_REGISTER, Status::Done, "portable\n"),
        (
            CHECK,
            STATUS_AS_BYTE,
            Status::Alarms,
            "9: E1 output-differs left [81,81] right [133,133]\n1 alarms\n",
        ),
        (CHECK, HEADER, Status::Done, "portable\n"),
        (
            CHECK,
            HEADER_IN_ONE_ORDER,
            Status::Alarms,
            "14: E1 output-differs left [0,1] right [0,1]\n1 alarms\n",
        ),
    ];
    expect_all(&rt, rt.alloc(), &table)
}

fn expect_refusals(rt: &impl Abort, alloc: Global, table: &[(&str, &str)]) -> Result<(), Fail> {
    for (source, text) in table.iter() {
        let case = Case {
            words: LAYOUT,
            ..Case::check(source.as_bytes())
        };
        expect(rt, alloc, &case, Status::Refused, text)?;
    }
    Ok(())
}

#[test]
fn no_bit_fields(rt: HostRuntime) -> Result<(), Fail> {
    let table = [
        ("struct s {\n int a : 3; };\n", "2: refused 9 bit-field\n"),
        (
            "struct s { uint64_t a : 3; };\n",
            "1: refused 9 bit-field\n",
        ),
        ("struct s { char a : 3; };\n", "1: refused 9 bit-field\n"),
        (
            "struct s { uint8_t\na : 0; };\n",
            "2: refused 9 bit-field\n",
        ),
        ("struct s { uint8_t a : 9; };\n", "1: refused 9 bit-field\n"),
        ("struct s { uint8_t : 9; };\n", "1: refused 9 bit-field\n"),
        ("struct s { uint8_t\n: -1; };\n", "2: refused 9 bit-field\n"),
        (
            "int n; struct s { uint8_t a : n; };\n",
            "1: refused 9 bit-field\n",
        ),
        ("union s { uint8_t a : 3; };\n", "1: refused 9 bit-field\n"),
        (
            "struct\ns { uint8_t : 0; uint16_t : 0; };\n",
            "1: refused 9 bit-field\n",
        ),
        // what a width mentions comes first, and then a name that is taken
        ("struct s { int a : n; };\n", "1: refused 30 unknown-name\n"),
        (
            "struct s { int a; int a : 3; };\n",
            "1: refused 9 bit-field\n",
        ),
        (
            "struct s { int a; uint8_t a : 3; };\n",
            "1: refused 31 redeclared\n",
        ),
        (
            "struct s { uint8_t a : 3; uint8_t a; };\n",
            "1: refused 31 redeclared\n",
        ),
        // no grammar of C
        ("struct s { uint8_t a : ; };\n", "1: refused 10 syntax\n"),
        ("struct s { uint8_t *a : 3; };\n", "1: refused 10 syntax\n"),
        (
            "struct s { uint8_t a[2] : 3; };\n",
            "1: refused 10 syntax\n",
        ),
        (
            "typedef int T; struct s { uint8_t T : 3; };\n",
            "1: refused 10 syntax\n",
        ),
        ("uint8_t a : 3;\n", "1: refused 10 syntax\n"),
        // the whole text is read before the types are asked
        (
            "struct s { int a : 3; };\nint ;\n",
            "2: refused 10 syntax\n",
        ),
    ];
    expect_refusals(&rt, rt.alloc(), &table)
}

#[test]
fn other_places(rt: HostRuntime) -> Result<(), Fail> {
    for (line, text) in [
        ("x =\n f.a + 1;", "5: refused 51 bit-field-place\n"),
        ("x = 1 +\n f.a;", "5: refused 51 bit-field-place\n"),
        ("f.a += 1;", "5: refused 51 bit-field-place\n"),
        ("x += f.a;", "5: refused 51 bit-field-place\n"),
        ("f.a++;", "5: refused 51 bit-field-place\n"),
        ("--p->a;", "5: refused 51 bit-field-place\n"),
        ("f.a = f.b;", "5: refused 51 bit-field-place\n"),
        ("f.a;", "5: refused 51 bit-field-place\n"),
        ("x = f.a ? 1 : 2;", "5: refused 51 bit-field-place\n"),
        ("x = (uint8_t)f.a;", "5: refused 51 bit-field-place\n"),
        ("x = sizeof f.a;", "5: refused 51 bit-field-place\n"),
        ("memset(\n&f.a, 0, 1);", "5: refused 51 bit-field-place\n"),
        ("if (\nf.a) x = 1;", "5: refused 51 bit-field-place\n"),
        ("while (p->a) x = 1;", "5: refused 51 bit-field-place\n"),
        ("do x = 1;\nwhile (f.a);", "5: refused 51 bit-field-place\n"),
        ("for (\n;f.a;) x = 1;", "5: refused 51 bit-field-place\n"),
        (
            "for (;;\nx += f.a) x = 1;",
            "5: refused 51 bit-field-place\n",
        ),
        ("return\nf.a;", "5: refused 51 bit-field-place\n"),
        ("{ int y[f.a]; }", "5: refused 51 bit-field-place\n"),
        ("{ int\ny = 1 + f.a; }", "6: refused 51 bit-field-place\n"),
        (
            "{ int\ny[1] =\n{ f.a }; }",
            "6: refused 51 bit-field-place\n",
        ),
        (
            "{ struct s\ng =\n{ 1 }; }",
            "6: refused 51 bit-field-place\n",
        ),
        (
            "{ struct s g = { 0, 0 }; }",
            "5: refused 51 bit-field-place\n",
        ),
        (
            "{ struct s g[1] = { { 1 } }; }",
            "5: refused 51 bit-field-place\n",
        ),
        ("p = f.a;", "5: refused 34 pointer-to-integer\n"),
        ("f.a = p;", "5: refused 34 pointer-to-integer\n"),
        ("f.a = f;", "5: refused 32 type-mismatch\n"),
        ("f = f.a;", "5: refused 32 type-mismatch\n"),
        ("1 = f.a;", "5: refused 41 not-an-lvalue\n"),
        ("f.a = g(1);", "5: refused 18 call-in-expression\n"),
        ("f.z = 1;", "5: refused 40 no-member\n"),
    ] {
        let source = format!(in rt.alloc();
            "struct s {{ uint8_t a : 3; uint8_t b : 5; }};\n\
            int g(int y) {{ return y; }}\n\
            int main(void) {{\n\
            struct s f; struct s *p; int x;\n\
            {line}\n\
            }}\n"
        )?;
        let case = Case {
            words: LAYOUT,
            ..Case::check(source.as_bytes())
        };
        expect(&rt, rt.alloc(), &case, Status::Refused, text)?;
    }
    Ok(())
}

// Of a global, whose first values are constants.
#[test]
fn first_values(rt: HostRuntime) -> Result<(), Fail> {
    let table: [Row; 3] = [
        (
            LAYOUT,
            "struct s { uint8_t a : 3; };\nstruct s f;\nuint8_t x = f.a;\nint main(void) { }\n",
            Status::Refused,
            "3: refused 45 not-constant\n",
        ),
        (
            LITTLE,
            "struct s { uint8_t a : 3; };\nstruct s f = {0};\nint main(void) {\nuint8_t x = f.a;\nreturn x;\n}\n",
            Status::Done,
            "i32 0\nended\n",
        ),
        (
            LITTLE,
            "struct s { uint8_t a : 3; };\nint main(void) {\nstruct s f[2] = { {0}, {0} };\nuint8_t x;\n\
                f[1].a = 3;\nx = f[1].a;\nreturn x;\n}\n",
            Status::Done,
            "i32 3\nended\n",
        ),
    ];
    expect_all(&rt, rt.alloc(), &table)
}
