//! The limits of sources, each at its edge and one past it.

use crate::tells::expect;
use std::alloc::{AllocError, Global};
use std::process::Abort;
use std::test::Fail;
use tests_calls::{Case, Status};

const CHECK: &[&str] = &["endport", "check", "file.c"];

const LAYOUT: &[&str] = &["endport", "layout", "file.c"];

/// The source, the status and the text.
type Row = (&'static str, Status, &'static str);

fn expect_layouts(rt: &impl Abort, alloc: Global, table: &[Row]) -> Result<(), Fail> {
    for (source, status, text) in table.iter() {
        let case = Case {
            words: LAYOUT,
            ..Case::check(source.as_bytes())
        };
        expect(rt, alloc, &case, *status, text)?;
    }
    Ok(())
}

#[test]
fn sizes_and_bounds(rt: HostRuntime) -> Result<(), Fail> {
    let table: [Row; 11] = [
        (
            "int main(void) { uint8_t a[65532]; return 0; }",
            Status::Done,
            "",
        ),
        (
            "int main(void) { uint8_t a[65533]; return 0; }",
            Status::Refused,
            "1: refused 37 too-large\n",
        ),
        (
            "int main(void) { uint8_t a[65537]; return 0; }",
            Status::Refused,
            "1: refused 17 array-bound\n",
        ),
        (
            "struct s { uint8_t a[65536]; };\nint main(void) { return 0; }",
            Status::Done,
            "struct s size 65536 align 1\n  a offset 0 size 65536\n",
        ),
        (
            "struct s { uint8_t a[65536], b; };\nint main(void) { return 0; }",
            Status::Refused,
            "1: refused 37 too-large\n",
        ),
        (
            "typedef uint8_t t[65536];\nint main(void) { return 0; }",
            Status::Done,
            "",
        ),
        (
            "typedef uint8_t t[65537];\nint main(void) { return 0; }",
            Status::Refused,
            "1: refused 17 array-bound\n",
        ),
        (
            "typedef uint8_t t[1];\nint main(void) { return 0; }",
            Status::Done,
            "",
        ),
        (
            "typedef uint8_t t[0];\nint main(void) { return 0; }",
            Status::Refused,
            "1: refused 17 array-bound\n",
        ),
        (
            "typedef uint16_t t[32768];\nint main(void) { return 0; }",
            Status::Done,
            "",
        ),
        (
            "typedef uint16_t t[32769];\nint main(void) { return 0; }",
            Status::Refused,
            "1: refused 37 too-large\n",
        ),
    ];
    expect_layouts(&rt, rt.alloc(), &table)
}

/// What stands in main beside an array, and whether its length is one.
type Length = (&'static str, bool);

#[test]
fn lengths(rt: HostRuntime) -> Result<(), Fail> {
    let table: [Length; 10] = [
        ("memset(a, 0, 65537);", false),
        ("memset(a, 0, 65536);", true),
        ("memset(a, 0, 0);", false),
        ("memset(a, 0, 1);", true),
        ("memcpy(a, a, 65536);", true),
        ("memcpy(a, a, 65537);", false),
        ("ep_read(a, 65536);", true),
        ("ep_read(a, 65537);", false),
        ("ep_write(a, 65536);", true),
        ("ep_write(a, 65537);", false),
    ];
    for (statement, is_length) in table.iter() {
        let mut source = String::from_str(rt.alloc(), "int main(void) { uint8_t a[4]; ")?;
        source.push_str(statement)?;
        source.push_str(" }")?;
        let case = Case {
            words: LAYOUT,
            ..Case::check(source.as_bytes())
        };
        let (status, text) = match is_length {
            true => (Status::Done, ""),
            false => (Status::Refused, "1: refused 42 length-not-constant\n"),
        };
        expect(&rt, rt.alloc(), &case, status, text)?;
    }
    Ok(())
}

// Functions that each call the one before, one a line, and main, which calls the last.
fn chain(alloc: Global, count: u32) -> Result<String, AllocError> {
    let mut source = String::from_str(alloc, "void f1(void) { }\n")?;
    for number in 1..count {
        let next = number + 1;
        let line = format!(in alloc; "void f{next}(void) {{ f{number}(); }}\n")?;
        source.push_str(line.as_str())?;
    }
    let last = format!(in alloc; "int main(void) {{ f{count}(); return 0; }}\n")?;
    source.push_str(last.as_str())?;
    Ok(source)
}

#[test]
fn statements_along_calls(rt: HostRuntime) -> Result<(), Fail> {
    let portable = "portable\n";
    let table = [
        (100, false, Status::Done, portable),
        (256, true, Status::Done, ""),
        (256, false, Status::Done, portable),
        (257, true, Status::Refused, "258: refused 48 call-depth\n"),
        (300, true, Status::Refused, "301: refused 48 call-depth\n"),
    ];
    for (count, is_layout, status, text) in table {
        let source = chain(rt.alloc(), count)?;
        let words = match is_layout {
            true => LAYOUT,
            false => CHECK,
        };
        let case = Case {
            words,
            ..Case::check(source.as_bytes())
        };
        expect(&rt, rt.alloc(), &case, status, text)?;
    }
    Ok(())
}

/// What stands before, what stands so many times, how many times, and what stands behind.
type Nest = (&'static str, &'static str, u32, &'static str);

fn nested(alloc: Global, nest: &Nest) -> Result<String, AllocError> {
    let (front, middle, count, end) = nest;
    let mut source = String::from_str(alloc, front)?;
    for _ in 0..*count {
        source.push_str(middle)?;
    }
    source.push_str(end)?;
    Ok(source)
}

// Each at its edge; once more is one past it.
#[test]
fn what_is_inside_one_another(rt: HostRuntime) -> Result<(), Fail> {
    let table: [Nest; 6] = [
        ("int main(void) { int x; x = ", "- ", 63, "1; }"),
        ("int main(void) { int x; x = 1", " + 1", 63, "; }"),
        ("int main(void) { ", "if (1) ", 63, "; }"),
        ("int main(void) { ", "if (1) ; else ", 63, "; }"),
        ("int main(void) { int ", "*", 64, "p; }"),
        ("int main(void) { int a", "[1]", 64, "; }"),
    ];
    for (front, middle, count, end) in table {
        let edge = nested(rt.alloc(), &(front, middle, count, end))?;
        let case = Case::check(edge.as_bytes());
        expect(&rt, rt.alloc(), &case, Status::Done, "portable\n")?;
        let past = nested(rt.alloc(), &(front, middle, count + 1, end))?;
        let case = Case::check(past.as_bytes());
        let text = "1: refused 22 nesting\n";
        expect(&rt, rt.alloc(), &case, Status::Refused, text)?;
    }
    Ok(())
}

// As many bytes as a source has, and one more.
#[test]
fn a_long_name(rt: HostRuntime) -> Result<(), Fail> {
    let mut name = vec![in rt.alloc(); b'a'; 1_048_576]?;
    let case = Case {
        words: LAYOUT,
        ..Case::check(&name)
    };
    let text = "1: refused 10 syntax\n";
    expect(&rt, rt.alloc(), &case, Status::Refused, text)?;
    name.push(b'a')?;
    let case = Case {
        words: LAYOUT,
        ..Case::check(&name)
    };
    expect(&rt, rt.alloc(), &case, Status::TooLong, "")
}
