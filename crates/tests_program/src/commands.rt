//! The commands `layout`, `run` and `sample`, over a source and a sink in memory.

use crate::calls::expect;
use std::alloc::Global;
use std::process::Abort;
use std::test::Fail;
use tests_calls::{Case, Status, USAGE_TEXT};

const ITEM: &str = "struct item { uint8_t tag; uint32_t *p; };\nint main(void) { return 0; }\n";

const PACKET: &str =
    "struct packet {\n  uint8_t kind;\n  uint16_t station;\n  uint32_t stamp;\n  uint16_t level[3];\n  uint16_t sum;\n};\nint main(void) { return 0; }\n";

const SWAP: &str = "int main(void) {\n  uint32_t x;\n  x = ep_in_u32();\n  ep_write(&x, 4);\n}\n";

/// The words, the status and the text.
type Row = (&'static [&'static str], Status, &'static str);

fn expect_all(rt: &impl Abort, alloc: Global, source: &str, table: &[Row]) -> Result<(), Fail> {
    for (words, status, text) in table.iter() {
        let case = Case {
            words,
            ..Case::check(source.as_bytes())
        };
        expect(rt, alloc, &case, *status, text)?;
    }
    Ok(())
}

#[test]
fn layouts(rt: HostRuntime) -> Result<(), Fail> {
    let narrow = "struct item size 8 align 4\n  tag offset 0 size 1\n  p offset 4 size 4\n";
    let wide = "struct item size 16 align 8\n  tag offset 0 size 1\n  p offset 8 size 8\n";
    let table: [Row; 3] = [
        (&["endport", "layout", "file.c"], Status::Done, narrow),
        (
            &["endport", "layout", "--model", "ilp32", "file.c"],
            Status::Done,
            narrow,
        ),
        (
            &["endport", "layout", "--model", "lp64", "file.c"],
            Status::Done,
            wide,
        ),
    ];
    expect_all(&rt, rt.alloc(), ITEM, &table)?;
    let packet: [Row; 1] = [(
        &["endport", "layout", "file.c"],
        Status::Done,
        "struct packet size 16 align 4\n  kind offset 0 size 1\n  station offset 2 size 2\n  stamp offset 4 size 4\n  level offset 8 size 6\n  sum offset 14 size 2\n",
    )];
    expect_all(&rt, rt.alloc(), PACKET, &packet)?;
    let refused: [Row; 1] = [(
        &["endport", "layout", "file.c"],
        Status::Refused,
        "3: refused 30 unknown-name\n",
    )];
    expect_all(
        &rt,
        rt.alloc(),
        "int main(void) {\n  int x;\n  x = y;\n}\n",
        &refused,
    )
}

#[test]
fn runs(rt: HostRuntime) -> Result<(), Fail> {
    let table: [Row; 6] = [
        (
            &[
                "endport",
                "run",
                "--order",
                "little",
                "--steps",
                "5",
                "file.c",
                "168496141",
            ],
            Status::Done,
            "u8 13\nu8 12\nu8 11\nu8 10\ni32 0\nended\n",
        ),
        (
            &[
                "endport",
                "run",
                "--steps",
                "00005",
                "--order",
                "big",
                "file.c",
                "168496141",
                "7",
            ],
            Status::Done,
            "u8 10\nu8 11\nu8 12\nu8 13\ni32 0\nended\n",
        ),
        (
            &[
                "endport",
                "run",
                "--model",
                "lp64",
                "--order",
                "swapped-words",
                "--steps",
                "5",
                "file.c",
                "168496141",
            ],
            Status::Done,
            "u8 11\nu8 10\nu8 13\nu8 12\ni32 0\nended\n",
        ),
        (
            &[
                "endport", "run", "--order", "little", "--steps", "1", "file.c", "1",
            ],
            Status::StepsUsedUp,
            "running\n",
        ),
        (
            &[
                "endport", "run", "--order", "little", "--steps", "5", "file.c",
            ],
            Status::InputEnded,
            "no-input\n",
        ),
        (
            &[
                "endport", "run", "--order", "little", "--steps", "0", "file.c",
            ],
            Status::StepsUsedUp,
            "running\n",
        ),
    ];
    expect_all(&rt, rt.alloc(), SWAP, &table)?;
    let undefined: [Row; 1] = [(
        &["endport", "run", "--order", "big", "--steps", "9", "file.c"],
        Status::Undefined,
        "undefined 3 U2 division\n",
    )];
    expect_all(
        &rt,
        rt.alloc(),
        "int main(void) {\n  int x = 0;\n  x = 1 / x;\n}\n",
        &undefined,
    )
}

// The source would fail at its first call.
#[test]
fn samples(rt: HostRuntime) -> Result<(), Fail> {
    let table: [Row; 3] = [
        (
            &["endport", "sample", "7", "1"],
            Status::Done,
            "start 7\nfields 1\nlines 17\nportable\n",
        ),
        (
            &["endport", "sample", "0", "1"],
            Status::Done,
            "start 0\nfields 1\nlines 17\nportable\n",
        ),
        (
            &["endport", "sample", "007", "200"],
            Status::Done,
            "start 7\nfields 200\nlines 614\nportable\n",
        ),
    ];
    for (words, status, text) in table.iter() {
        let case = Case {
            words,
            failing_read: Some(0),
            ..Case::check(b"")
        };
        expect(&rt, rt.alloc(), &case, *status, text)?;
    }
    Ok(())
}

#[test]
fn words_that_are_not_plain(rt: HostRuntime) -> Result<(), Fail> {
    let table: [&[&str]; 20] = [
        &["endport", "layout"],
        &["endport", "layout", "-file.c"],
        &["endport", "layout", "file.c", "file.c"],
        &["endport", "layout", "--model", "lp65", "file.c"],
        &[
            "endport", "layout", "--model", "lp64", "--model", "lp64", "file.c",
        ],
        &["endport", "layout", "file.c", "--model", "lp64"],
        &["endport", "layout", "--order", "big", "file.c"],
        &["endport", "run", "--order", "big", "file.c"],
        &["endport", "run", "--steps", "5", "file.c"],
        &[
            "endport", "run", "--order", "big", "--steps", "1000001", "file.c",
        ],
        &[
            "endport", "run", "--order", "big", "--steps", "+5", "file.c",
        ],
        &[
            "endport",
            "run",
            "--order",
            "big",
            "--steps",
            "5",
            "file.c",
            "18446744073709551616",
        ],
        &[
            "endport", "run", "--order", "big", "--steps", "5", "file.c", "-1",
        ],
        &["endport", "sample", "7"],
        &["endport", "sample", "7", "0"],
        &["endport", "sample", "7", "5001"],
        &["endport", "sample", "2147483648", "1"],
        &["endport", "sample", "7", "-1"],
        &["endport", "sample", "--model", "ilp32", "7", "1"],
        &["endport", "sample", "7", "1", "file.c"],
    ];
    for words in table.iter() {
        let case = Case {
            words,
            ..Case::check(b"")
        };
        expect(&rt, rt.alloc(), &case, Status::Usage, USAGE_TEXT)?;
    }
    Ok(())
}
