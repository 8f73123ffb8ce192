//! Whole calls, over a source and a sink in memory.

use std::alloc::Global;
use std::process::Abort;
use std::test::Fail;
use tests_calls::{Case, Status, USAGE_TEXT, call};

pub(crate) const NUMBER: &str =
    "int main(void) {\n  uint32_t x;\n  x = ep_in_u32();\n  ep_out_u32(x);\n}\n";

const BYTES: &str = "int main(void) {\n  uint32_t x;\n  x = ep_in_u32();\n  ep_write(&x, 4);\n}\n";

const DIFFERS: &str = "4: E1 output-differs left [0,255] right [0,255]\n1 alarms\n";

pub(crate) fn expect(
    rt: &impl Abort,
    alloc: Global,
    case: &Case,
    status: Status,
    text: &str,
) -> Result<(), Fail> {
    expect_bytes(rt, alloc, case, status, text.as_bytes())
}

pub(crate) fn expect_bytes(
    rt: &impl Abort,
    alloc: Global,
    case: &Case,
    status: Status,
    text: &[u8],
) -> Result<(), Fail> {
    let (ended, written) = call(alloc, case)?;
    assert_eq!(rt; ended, status);
    assert_eq!(rt; written.as_slice(), text);
    Ok(())
}

#[test]
fn sources_and_their_reports(rt: HostRuntime) -> Result<(), Fail> {
    let table = [
        (NUMBER, Status::Done, "portable\n"),
        (BYTES, Status::Alarms, DIFFERS),
        (
            "int main(void) {\n  uint32_t x;\n  ep_write(&x, 4);\n}\n",
            Status::Alarms,
            "3: U4 uninitialised left [0,0] right [0,0]\n1 alarms\n",
        ),
        (
            "int main(void) {\n  uint32_t x;\n  x = 1;\n  ep_write(&x, 4);\n}\n",
            Status::Alarms,
            "4: E1 output-differs left [0,1] right [0,1]\n1 alarms\n",
        ),
        (
            "int main(void) {\n  uint32_t x;\n  x = 0;\n  ep_write(&x, 4);\n}\n",
            Status::Done,
            "portable\n",
        ),
        (
            "int main(void){uint32_t a,b;uint8_t c;a=ep_in_u32();c=a;b=c;ep_out_u32(b);ep_out_u8(a);ep_write(&c,1);}",
            Status::Done,
            "portable\n",
        ),
        (
            "int main(void){uint32_t a;uint8_t c;\nc=ep_in_u8();a=c;\nep_write(&a,4);\nep_write(&a,1);}",
            Status::Alarms,
            "3: E1 output-differs left [0,255] right [0,255]\n4: E1 output-differs left [0,255] right [0,0]\n2 alarms\n",
        ),
        (
            "int main(void){uint32_t a;a=258;\nep_write(&a,2);}",
            Status::Alarms,
            "2: E1 output-differs left [1,2] right [0,0]\n1 alarms\n",
        ),
        (
            "int main(void){uint32_t a,a;}",
            Status::Refused,
            "1: refused 31 redeclared\n",
        ),
        (
            "int main(void){a=1;uint32_t a;}",
            Status::Refused,
            "1: refused 30 unknown-name\n",
        ),
        (
            "int main(void){uint32_t a;a=1;ep_write(&a,0);}",
            Status::Refused,
            "1: refused 42 length-not-constant\n",
        ),
        (
            "int main(void){uint32_t a;a=1;\nep_write(&a,5);}",
            Status::Alarms,
            "2: U5 bounds left [0,0] right [0,0]\n1 alarms\n",
        ),
        ("", Status::Refused, "1: refused 36 no-main\n"),
    ];
    for (source, status, text) in table.iter() {
        expect(
            &rt,
            rt.alloc(),
            &Case::check(source.as_bytes()),
            *status,
            text,
        )?;
    }
    expect(
        &rt,
        rt.alloc(),
        &Case::check(b"int main(void){\xc8}"),
        Status::Refused,
        "1: refused 1 byte\n",
    )
}

/// What stands between the braces of main, from the second line on; the status and the report.
type Row = (&'static str, Status, &'static str);

#[test]
fn operators_tests_and_loops(rt: HostRuntime) -> Result<(), Fail> {
    let table: [Row; 19] = [
        (
            "uint32_t x, y;\ny = ep_in_u32();\ny = y & 3;\nx = 100 / y;\nep_out_u32(x);",
            Status::Alarms,
            "5: U2 division left [0,3] right [0,3]\n1 alarms\n",
        ),
        (
            "uint32_t x, y;\ny = ep_in_u32();\ny = y & 3;\nx = 0; if (y != 0) { x = 100 / y; }\nep_out_u32(x);",
            Status::Done,
            "portable\n",
        ),
        (
            "uint32_t i; i = 0; while (i < 10) { i = i + 1; } ep_out_u32(i);",
            Status::Done,
            "portable\n",
        ),
        (
            "uint8_t i; i = 0; while (i < 256) { i = i + 1; } ep_out_u32(i);",
            Status::Done,
            "portable\n",
        ),
        (
            "uint32_t x;\nx = 2147483647 + 1;",
            Status::Alarms,
            "3: U1 overflow left [2147483648,2147483648] right [2147483648,2147483648]\n1 alarms\n",
        ),
        (
            "uint32_t x; x = 2147483647;\nx = x + 1; ep_out_u32(x);",
            Status::Done,
            "portable\n",
        ),
        (
            "uint32_t x; uint8_t y; y = ep_in_u8();\nx = y << 24;",
            Status::Alarms,
            "3: U3 shift left [24,24] right [24,24]\n1 alarms\n",
        ),
        (
            "uint32_t x; uint8_t y; y = ep_in_u8();\nx = y; x = x << 24; ep_out_u32(x);",
            Status::Done,
            "portable\n",
        ),
        (
            "uint32_t x;\nx = x + 1;",
            Status::Alarms,
            "3: U4 uninitialised left [0,0] right [0,0]\n1 alarms\n",
        ),
        (
            "uint32_t x, y; y = ep_in_u32(); if (y == 0) { x = 1; }\nep_out_u32(x);",
            Status::Alarms,
            "3: U4 uninitialised left [0,0] right [0,0]\n1 alarms\n",
        ),
        (
            "uint32_t x, y; y = ep_in_u32(); if (y == 0) { x = 1; } else { x = 2; } ep_out_u32(x);",
            Status::Done,
            "portable\n",
        ),
        (
            "uint32_t x, y; y = ep_in_u32(); if (y == 0) { return 1; } else { x = 2; } ep_out_u32(x);",
            Status::Done,
            "portable\n",
        ),
        (
            "uint32_t x; x = ep_in_u32(); if (x > 0) { return 1; } ep_write(&x, 4);",
            Status::Done,
            "portable\n",
        ),
        (
            "uint32_t x; x = ep_in_u32(); if (x > 1) { return 1; }\nep_write(&x, 4);",
            Status::Alarms,
            "3: E1 output-differs left [0,1] right [0,1]\n1 alarms\n",
        ),
        (
            "uint32_t x; x = 0; while (1 == 1) { x = ep_in_u32(); if (x == 0) { break; } else { continue; } } ep_write(&x, 4);",
            Status::Done,
            "portable\n",
        ),
        ("break;", Status::Refused, "2: refused 47 stray-jump\n"),
        (
            "uint32_t x; x = 1; if (x) { x = 2; }",
            Status::Done,
            "portable\n",
        ),
        (
            "uint32_t x; x = 1 +;",
            Status::Refused,
            "2: refused 10 syntax\n",
        ),
        (
            "uint32_t x;\nx <<= 1;",
            Status::Alarms,
            "3: U4 uninitialised left [0,0] right [0,0]\n1 alarms\n",
        ),
    ];
    for (body, status, text) in table.iter() {
        let mut source = String::from_str(rt.alloc(), "int main(void) {\n")?;
        source.push_str(body)?;
        source.push_str("\n}\n")?;
        expect(
            &rt,
            rt.alloc(),
            &Case::check(source.as_bytes()),
            *status,
            text,
        )?;
    }
    Ok(())
}

const TEN: &str =
    "int main(void) {\n  uint8_t a[10], i;\n  for (i = 0; i < 10; i++) a[i] = i;\n  ep_write(a, 10);\n}\n";

const HALVES: &str = "int main(void) {\n  uint16_t x;\n  x = ep_in_u16();\n  ep_write(&x, 2);\n}\n";

const EVEN: &str =
    "int main(void) {\n  uint32_t x, y;\n  x = ep_in_u32();\n  y = (x | 4) & 6;\n  x = 100 / y;\n  ep_out_u32(x);\n}\n";

const UNSET: &str = "4: U4 uninitialised left [0,0] right [0,0]\n1 alarms\n";

/// The words, the source, the status and the text.
type Asked = (&'static [&'static str], &'static str, Status, &'static str);

#[test]
fn options_of_a_report(rt: HostRuntime) -> Result<(), Fail> {
    let table: [Asked; 11] = [
        (
            &["endport", "check", "file.c"],
            TEN,
            Status::Done,
            "portable\n",
        ),
        (
            &["endport", "check", "--unroll", "10", "file.c"],
            TEN,
            Status::Done,
            "portable\n",
        ),
        (
            &["endport", "check", "--unroll", "9", "file.c"],
            TEN,
            Status::Alarms,
            UNSET,
        ),
        (
            &["endport", "check", "--unroll", "007", "file.c"],
            NUMBER,
            Status::Done,
            "portable\n",
        ),
        (
            &[
                "endport", "check", "--unroll", "4096", "--model", "lp64", "file.c",
            ],
            NUMBER,
            Status::Done,
            "portable\n",
        ),
        (
            &[
                "endport",
                "check",
                "--orders",
                "little,swapped-words",
                "file.c",
            ],
            BYTES,
            Status::Alarms,
            DIFFERS,
        ),
        (
            &[
                "endport",
                "check",
                "--orders",
                "little,swapped-words",
                "file.c",
            ],
            HALVES,
            Status::Done,
            "portable\n",
        ),
        (
            &[
                "endport",
                "check",
                "--model",
                "ilp32",
                "--orders",
                "swapped-words,big",
                "--unroll",
                "0",
                "file.c",
            ],
            HALVES,
            Status::Alarms,
            DIFFERS,
        ),
        (
            &["endport", "check", "--orders", "big,little", "file.c"],
            BYTES,
            Status::Alarms,
            DIFFERS,
        ),
        (
            &["endport", "check", "file.c"],
            EVEN,
            Status::Alarms,
            "5: U2 division left [0,6] right [0,6]\n1 alarms\n",
        ),
        (
            &[
                "endport", "check", "--domain", "bits", "--unroll", "7", "file.c",
            ],
            EVEN,
            Status::Done,
            "portable\n",
        ),
    ];
    for (words, source, status, text) in table.iter() {
        let case = Case {
            words,
            ..Case::check(source.as_bytes())
        };
        expect(&rt, rt.alloc(), &case, *status, text)?;
    }
    Ok(())
}

#[test]
fn words_and_the_usage_text(rt: HostRuntime) -> Result<(), Fail> {
    let table: [&[&str]; 25] = [
        &[],
        &["endport"],
        &["endport", "--help"],
        &["endport", "check"],
        &["endport", "check", "-"],
        &["endport", "check", ""],
        &["endport", "run", "file.c"],
        &["endport", "check", "file.c", "file.c"],
        &["endport", "check", "--unroll", "4097", "file.c"],
        &["endport", "check", "--unroll", "-1", "file.c"],
        &["endport", "check", "--unroll", "", "file.c"],
        &[
            "endport", "check", "--unroll", "7", "--unroll", "7", "file.c",
        ],
        &["endport", "check", "file.c", "--unroll", "7"],
        &["endport", "check", "--orders", "big,big", "file.c"],
        &["endport", "check", "--orders", "little, big", "file.c"],
        &[
            "endport",
            "check",
            "--orders",
            "little,big,swapped-words",
            "file.c",
        ],
        &["endport", "check", "--orders", "little", "file.c"],
        &["endport", "check", "--order", "little", "file.c"],
        &["endport", "check", "--steps", "1", "file.c"],
        &["endport", "layout", "--unroll", "1", "file.c"],
        &["endport", "layout", "--domain", "bits", "file.c"],
        &["endport", "check", "--domain", "intervals", "file.c"],
        &["endport", "check", "--domain", "Bits", "file.c"],
        &[
            "endport", "check", "--domain", "bits", "--domain", "bits", "file.c",
        ],
        &[
            "endport",
            "run",
            "--order",
            "big",
            "--steps",
            "1",
            "--orders",
            "big,little",
            "file.c",
        ],
    ];
    for words in table.iter() {
        let case = Case {
            words,
            ..Case::check(b"")
        };
        expect(&rt, rt.alloc(), &case, Status::Usage, USAGE_TEXT)?;
    }
    Ok(())
}

#[test]
fn faults_of_the_source_and_the_sink(rt: HostRuntime) -> Result<(), Fail> {
    let number = Case::check(NUMBER.as_bytes());
    let begun = Case {
        failing_read: Some(0),
        ..number
    };
    expect(&rt, rt.alloc(), &begun, Status::ReadFault, "")?;
    let read = Case {
        failing_read: Some(1),
        ..number
    };
    expect(&rt, rt.alloc(), &read, Status::ReadFault, "")?;
    let written = Case {
        failing_write: Some(1),
        ..number
    };
    expect(&rt, rt.alloc(), &written, Status::WriteFault, "port")?;
    let usage = Case {
        words: &["endport"],
        failing_write: Some(2),
        ..number
    };
    expect(&rt, rt.alloc(), &usage, Status::WriteFault, "usage:\n ")
}

// 65,532 bytes of variables, which with main's result are as many as all objects may have, and one more.
const MOST: &str = "int main(void){uint32_t a[16382],b;}";

const MORE: &str = "int main(void){uint32_t a[16382],b;uint8_t c;}";

#[test]
fn as_much_as_fits_and_no_more(rt: HostRuntime) -> Result<(), Fail> {
    expect(
        &rt,
        rt.alloc(),
        &Case::check(MOST.as_bytes()),
        Status::Done,
        "portable\n",
    )?;
    expect(
        &rt,
        rt.alloc(),
        &Case::check(MORE.as_bytes()),
        Status::Refused,
        "1: refused 37 too-large\n",
    )?;
    // with the source's 69 bytes as many as a source has
    let blanks = vec![in rt.alloc(); b' '; 1_048_507]?;
    let mut long = Vec::from_slice(rt.alloc(), NUMBER.as_bytes())?;
    long.extend_from_slice(&blanks)?;
    expect(
        &rt,
        rt.alloc(),
        &Case::check(&long),
        Status::Done,
        "portable\n",
    )?;
    long.push(b' ')?;
    expect(&rt, rt.alloc(), &Case::check(&long), Status::TooLong, "")
}
