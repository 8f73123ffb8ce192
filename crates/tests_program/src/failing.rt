//! A source of 69 bytes, given and taken byte by byte: each call of the source and of the sink fails in turn, the sink
//! is full after each number of bytes, and the source ends after each number of bytes.

use crate::calls::{NUMBER, expect, expect_bytes};
use std::test::Fail;
use tests_calls::{Case, Status};

const REPORT: &[u8] = b"portable\n";

fn bytewise() -> Case<'static> {
    Case {
        single_bytes: true,
        ..Case::check(NUMBER.as_bytes())
    }
}

// It is begun, each of its bytes is read, and then its end.
#[test]
fn each_call_of_the_source_fails(rt: HostRuntime) -> Result<(), Fail> {
    for number in 0..71 {
        let case = Case {
            failing_read: Some(number),
            ..bytewise()
        };
        expect(&rt, rt.alloc(), &case, Status::ReadFault, "")?;
    }
    let case = Case {
        failing_read: Some(71),
        ..bytewise()
    };
    expect_bytes(&rt, rt.alloc(), &case, Status::Done, REPORT)
}

#[test]
fn each_call_of_the_sink_fails(rt: HostRuntime) -> Result<(), Fail> {
    for number in 0..9u32 {
        let case = Case {
            failing_write: Some(number),
            ..bytewise()
        };
        let front = &REPORT[..number as usize];
        expect_bytes(&rt, rt.alloc(), &case, Status::WriteFault, front)?;
    }
    let case = Case {
        failing_write: Some(9),
        ..bytewise()
    };
    expect_bytes(&rt, rt.alloc(), &case, Status::Done, REPORT)
}

#[test]
fn the_sink_is_full(rt: HostRuntime) -> Result<(), Fail> {
    for room in 0..9u32 {
        let case = Case { room, ..bytewise() };
        let front = &REPORT[..room as usize];
        expect_bytes(&rt, rt.alloc(), &case, Status::WriteFault, front)?;
    }
    let case = Case {
        room: 9,
        ..bytewise()
    };
    expect_bytes(&rt, rt.alloc(), &case, Status::Done, REPORT)
}

/// The fewest and the most bytes, the status and the text.
type Fronts = (usize, usize, Status, &'static str);

#[test]
fn the_source_is_cut(rt: HostRuntime) -> Result<(), Fail> {
    let table: [Fronts; 6] = [
        (0, 0, Status::Refused, "1: refused 36 no-main\n"),
        (1, 19, Status::Refused, "1: refused 10 syntax\n"),
        (20, 33, Status::Refused, "2: refused 10 syntax\n"),
        (34, 52, Status::Refused, "3: refused 10 syntax\n"),
        (53, 67, Status::Refused, "4: refused 10 syntax\n"),
        (68, 69, Status::Done, "portable\n"),
    ];
    let source = NUMBER.as_bytes();
    assert_eq!(&rt; source.len(), 69);
    for (fewest, most, status, text) in table.iter() {
        for count in *fewest..=*most {
            let Some(front) = source.get(..count) else {
                return Ok(());
            };
            expect(&rt, rt.alloc(), &Case::check(front), *status, text)?;
        }
    }
    Ok(())
}
