//! What is told of a sample.

ghost use Rattle.std.specs.Prelude.{◌≡◌, ◌++◌, OnOk, IfOk};
ghost use Rattle.ep_sample.specs.Text.{last_line, lines_of, numbered, sample_text};

use ep_int::Memory;
use itoa::Buffer;
use std::alloc::{AllocError, Global};

/// What a sample is made by.
#[derive(Clone, Copy)]
pub struct Sample {
    /// The number to start with.
    pub start: u32,
    pub fields: u32,
}

/// The text of a sample: what it is made by, how many lines its source has, and the last line of the report on it.
pub fn sample_text(
    alloc: Global,
    sample: Sample,
    source: &[u8],
    report: &[u8],
) -> Result<Vec<u8>, Memory>
    ensures { IfOk result (λ v. v.items ≡ sample_text sample.start sample.fields source.now report.now) }
{
    text_of(alloc, sample, source, report).map_err(|_| Memory)
}

fn text_of(
    alloc: Global,
    sample: Sample,
    source: &[u8],
    report: &[u8],
) -> Result<Vec<u8>, AllocError>
    ensures { IfOk result (λ v. v.items ≡ sample_text sample.start sample.fields source.now report.now) }
{
    let mut text = Vec::new(alloc);
    push_number(&mut text, b"start ", sample.start as usize)?;
    push_number(&mut text, b"fields ", sample.fields as usize)?;
    push_number(&mut text, b"lines ", lines_of(source))?;
    text.extend_from_slice(last_line(report))?;
    Ok(text)
}

fn push_number(text: &mut Vec<u8>, name: &[u8], n: usize) -> Result<(), AllocError>
    ensures { OnOk result (text.new.items ≡ text.old.items ++ numbered name.now n) }
{
    let mut number = Buffer::new();
    text.extend_from_slice(name)?;
    text.extend_from_slice(number.format(n).as_bytes())?;
    text.push(b'\n')?;
    Ok(())
}

fn lines_of(source: &[u8]) -> usize
    ensures { result ≡ lines_of source.now }
{
    let mut lines = 0;
    for b in source {
        if *b == b'\n' {
            lines += 1;
        }
    }
    lines
}

fn last_line(text: &[u8]) -> &[u8]
    ensures { result.now ≡ last_line text.now }
{
    let mut from = text.len().saturating_sub(1);
    while from > 0 && text[from - 1] != b'\n' {
        from -= 1;
    }
    &text[from..]
}
