//! The text of a run.

ghost use Rattle.std.specs.Prelude.{◌≡◌, ◌++◌, IfOk, OnOk, flat_map};
ghost use Rattle.ep_core.specs.Runs.{Run};
ghost use Rattle.ep_machine.specs.Machines.{output_view};
ghost use Rattle.ep_concrete.specs.Results.{IsRun};
ghost use Rattle.ep_concrete.specs.Text.{last_line, output_line, run_text_of, type_name};

use crate::types::{Ending, RunResult};
use ep_int::{IntType, Memory};
use ep_machine::Output;
use itoa::Buffer;
use std::alloc::{AllocError, Global};

/// The text of a run: a line `TYPE VALUE` for each output, then `ended`, `running`, `no-input` or
/// `undefined LINE KIND`.
pub fn run_text(alloc: Global, r: &RunResult) -> Result<Vec<u8>, Memory>
    ensures { IfOk result (λ v. (x : Run) → IsRun r.now x → v.items ≡ run_text_of x) }
{
    match text_of(alloc, &r.outputs, r.ending) {
        Ok(text) => Ok(text),
        Err(_) => Err(Memory),
    }
}

fn text_of(alloc: Global, outputs: &[Output], ending: Ending) -> Result<Vec<u8>, AllocError>
    ensures { IfOk result (λ v. v.items
        ≡ flat_map (λ x. output_line (output_view x)) outputs.now ++ last_line ending) }
{
    let mut text = Vec::new(alloc);
    for output in outputs {
        push_output(&mut text, output)?;
    }
    push_last_line(&mut text, ending)?;
    Ok(text)
}

fn name(t: IntType) -> &'static str
    ensures { result.now ≡ type_name t }
{
    match t {
        IntType::I8 => "i8",
        IntType::U8 => "u8",
        IntType::I16 => "i16",
        IntType::U16 => "u16",
        IntType::I32 => "i32",
        IntType::U32 => "u32",
        IntType::I64 => "i64",
        IntType::U64 => "u64",
    }
}

fn push_output(text: &mut Vec<u8>, output: &Output) -> Result<(), AllocError>
    ensures { OnOk result (text.new.items ≡ text.old.items ++ output_line (output_view output.now)) }
{
    let mut number = Buffer::new();
    text.extend_from_slice(name(output.t).as_bytes())?;
    text.extend_from_slice(b" ")?;
    text.extend_from_slice(number.format(output.value).as_bytes())?;
    text.extend_from_slice(b"\n")
}

fn push_last_line(text: &mut Vec<u8>, ending: Ending) -> Result<(), AllocError>
    ensures { OnOk result (text.new.items ≡ text.old.items ++ last_line ending) }
{
    match ending {
        Ending::Running => text.extend_from_slice(b"running\n"),
        Ending::Ended => text.extend_from_slice(b"ended\n"),
        Ending::NoInput => text.extend_from_slice(b"no-input\n"),
        Ending::Undefined(line, kind) => {
            let mut number = Buffer::new();
            text.extend_from_slice(b"undefined ")?;
            text.extend_from_slice(number.format(line).as_bytes())?;
            text.extend_from_slice(b" ")?;
            text.extend_from_slice(kind.name().as_bytes())?;
            text.extend_from_slice(b"\n")
        }
    }
}
