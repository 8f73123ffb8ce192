//! The text of reports.

use ep_alarms::AlarmKind::{E1, E2, E3, E4, U1, U2, U3, U4, U5, U6, U7, U8, U9, U10};
use ep_alarms::{Alarm, AlarmKind, Alarms, report_text};
use std::process::Abort;
use std::test::Fail;

const NONE: (i128, i128) = (0, 0);

const BYTE: (i128, i128) = (0, 255);

fn alarm(line: u32, kind: AlarmKind, left: (i128, i128), right: (i128, i128)) -> Alarm {
    Alarm {
        line,
        kind,
        left,
        right,
    }
}

fn expect_text(
    rt: &(impl Abort + AllocGlobal),
    faults: &[Alarm],
    expected: &[u8],
) -> Result<(), Fail> {
    let mut alarms = Alarms::new(rt.alloc());
    for fault in faults {
        alarms.add(*fault)?;
    }
    let text = report_text(rt.alloc(), &alarms)?;
    assert_eq!(rt; text.as_slice(), expected);
    Ok(())
}

#[test]
fn no_alarm_and_one(rt: HostRuntime) -> Result<(), Fail> {
    expect_text(&rt, &[], b"portable\n")?;
    expect_text(
        &rt,
        &[alarm(4, E1, BYTE, BYTE)],
        b"4: E1 output-differs left [0,255] right [0,255]\n\
          1 alarms\n",
    )?;
    let past_int = (2147483648, 2147483648);
    expect_text(
        &rt,
        &[alarm(3, U1, past_int, past_int)],
        b"3: U1 overflow left [2147483648,2147483648] right [2147483648,2147483648]\n\
          1 alarms\n",
    )
}

#[test]
fn order_and_widening(rt: HostRuntime) -> Result<(), Fail> {
    expect_text(
        &rt,
        &[
            alarm(7, U5, (-2147483649, -1), NONE),
            alarm(7, U1, (i128::MIN, i128::MAX), BYTE),
            alarm(6, E4, NONE, NONE),
        ],
        b"6: E4 one-sided-loop left [0,0] right [0,0]\n\
          7: U1 overflow left [-170141183460469231731687303715884105728,170141183460469231731687303715884105727] right [0,255]\n\
          7: U5 bounds left [-2147483649,-1] right [0,0]\n\
          3 alarms\n",
    )?;
    expect_text(
        &rt,
        &[
            alarm(2, U3, (32, 40), (-1, 3)),
            alarm(1, U3, (64, 64), (64, 64)),
            alarm(2, U3, (35, 64), (-9, -9)),
        ],
        b"1: U3 shift left [64,64] right [64,64]\n\
          2: U3 shift left [32,64] right [-9,3]\n\
          2 alarms\n",
    )
}

#[test]
fn kinds(rt: HostRuntime) -> Result<(), Fail> {
    let mut alarms = Alarms::new(rt.alloc());
    for kind in [E2, U10, U4, E4, U1, U9, U7, E1, U3, U2, E3, U8, U6, U5] {
        alarms.add(alarm(1, kind, NONE, NONE))?;
    }
    let names = [
        "U1 overflow",
        "U2 division",
        "U3 shift",
        "U4 uninitialised",
        "U5 bounds",
        "U6 null",
        "U7 alignment",
        "U8 pointer-mix",
        "U9 overlap",
        "U10 pointer-bytes",
        "E1 output-differs",
        "E2 one-sided-io",
        "E3 one-sided-jump",
        "E4 one-sided-loop",
    ];
    assert_eq!(rt; alarms.list().len(), names.len());
    for (alarm, name) in alarms.list().iter().zip(names.iter()) {
        assert_eq!(rt; alarm.kind.name(), *name);
    }
    Ok(())
}
