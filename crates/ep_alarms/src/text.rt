//! The text of a report.

ghost use Rattle.std.specs.Prelude.{◌≡◌, List, ◌++◌, IfOk, OnOk, All};
ghost use Rattle.ep_alarms.specs.declared.types.Alarm.{Alarm};
ghost use Rattle.ep_alarms.specs.Alarm.{FitsTypes};
ghost use Rattle.ep_alarms.specs.Text.{last_line, line_text, range_text, report_text_of};

use crate::list::Alarms;
use crate::types::Alarm;
use ep_int::Memory;
use itoa::Buffer;
use std::alloc::{AllocError, Global};

/// The text of a report: a line `LINE: KIND left [a,b] right [c,d]` for each alarm, then `portable` or `N alarms`.
pub fn report_text(alloc: Global, a: &Alarms) -> Result<Vec<u8>, Memory>
    ensures text { IfOk result (λ v. v.items ≡ report_text_of a.now) }

    // Different lists of alarms have different texts.
    ensures determines { (other : List Alarm) → All FitsTypes other
        → report_text_of other ≡ report_text_of a.now → other ≡ a.now }
{
    text_of(alloc, a.list()).map_err(|_| Memory)
}

fn text_of(alloc: Global, alarms: &[Alarm]) -> Result<Vec<u8>, AllocError>
    ensures { IfOk result (λ v. v.items ≡ report_text_of alarms.now) }
{
    let mut text = Vec::new(alloc);
    for alarm in alarms {
        push_line(&mut text, alarm)?;
    }
    push_last_line(&mut text, alarms.len())?;
    Ok(text)
}

fn push_line(text: &mut Vec<u8>, alarm: &Alarm) -> Result<(), AllocError>
    ensures { OnOk result (text.new.items ≡ text.old.items ++ line_text alarm.now) }
{
    let mut line = Buffer::new();
    text.extend_from_slice(line.format(alarm.line).as_bytes())?;
    text.extend_from_slice(b": ")?;
    text.extend_from_slice(alarm.kind.name().as_bytes())?;
    text.extend_from_slice(b" left ")?;
    push_range(text, alarm.left)?;
    text.extend_from_slice(b" right ")?;
    push_range(text, alarm.right)?;
    text.extend_from_slice(b"\n")
}

fn push_range(text: &mut Vec<u8>, range: (i128, i128)) -> Result<(), AllocError>
    ensures { OnOk result (text.new.items ≡ text.old.items ++ range_text range) }
{
    let mut number = Buffer::new();
    text.extend_from_slice(b"[")?;
    text.extend_from_slice(number.format(range.0).as_bytes())?;
    text.extend_from_slice(b",")?;
    text.extend_from_slice(number.format(range.1).as_bytes())?;
    text.extend_from_slice(b"]")
}

fn push_last_line(text: &mut Vec<u8>, count: usize) -> Result<(), AllocError>
    ensures { OnOk result (text.new.items ≡ text.old.items ++ last_line count) }
{
    if count == 0 {
        return text.extend_from_slice(b"portable\n");
    }
    let mut number = Buffer::new();
    text.extend_from_slice(number.format(count).as_bytes())?;
    text.extend_from_slice(b" alarms\n")
}
