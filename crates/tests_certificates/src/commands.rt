//! Lines of the table that call the program.

use bstr::ByteSlice;
use std::alloc::Global;
use tests_calls::{Case, Status, USAGE_TEXT, call};

// What stands before the number of heads, and how long that is.
const OPENING: usize = 15;

const COUNT: usize = 8;

// A certificate in parts, with fewer than 256 heads.
#[derive(Clone, Copy)]
struct Parts<'a> {
    opening: &'a [u8],
    count: u8,
    heads: &'a [u8],
    // The source and its length.
    end: &'a [u8],
}

fn taken_apart<'a>(bytes: &'a [u8], source: &[u8]) -> Option<Parts<'a>> {
    let (opening, rest) = bytes.split_at_checked(OPENING)?;
    let (count, rest) = rest.split_at_checked(COUNT)?;
    let end = source.len().checked_add(4)?;
    let (heads, end) = rest.split_at_checked(rest.len().checked_sub(end)?)?;
    Some(Parts {
        opening,
        count: *count.first()?,
        heads,
        end,
    })
}

// The same with all heads so many times.
fn with_heads(alloc: Global, parts: &Parts, times: u8) -> Option<Vec<u8>> {
    let mut out = Vec::from_slice(alloc, parts.opening).ok()?;
    out.push(parts.count.checked_mul(times)?).ok()?;
    out.extend_from_slice(&[0; 7]).ok()?;
    for _ in 0..times {
        out.extend_from_slice(parts.heads).ok()?;
    }
    out.extend_from_slice(parts.end).ok()?;
    Some(out)
}

// The status of a call, and what it writes.
fn called(alloc: Global, command: &str, words: &str, file: &[u8]) -> Option<(Status, Vec<u8>)> {
    let mut list = Vec::new(alloc);
    list.push("endport").ok()?;
    list.push(command).ok()?;
    for word in words.split(' ') {
        list.push(word).ok()?;
    }
    let case = Case {
        words: &list,
        room: 100_000,
        ..Case::check(file)
    };
    call(alloc, &case).ok()
}

// The exit code and the text.
fn told(alloc: Global, status: Status, text: &[u8]) -> Option<String> {
    let code = status.code();
    if text == USAGE_TEXT.as_bytes() {
        return format!(in alloc; "{code} the usage text").ok();
    }
    if text.is_empty() {
        return format!(in alloc; "{code}").ok();
    }
    let text = text.replace(alloc, b"\n", b"\\n").ok()?;
    let text = String::from_utf8(text).ok()?;
    format!(in alloc; "{code} {text}").ok()
}

/// What comes of `verify` on these bytes: the exit code and the text.
pub(crate) fn verify(alloc: Global, words: &str, bytes: &[u8]) -> Option<String> {
    let (status, text) = called(alloc, "verify", words, bytes)?;
    told(alloc, status, &text)
}

fn verify_all(alloc: Global, bytes: &[u8], source: &[u8]) -> Option<String> {
    let parts = taken_apart(bytes, source)?;
    let count = parts.count;
    let whole = verify(alloc, "file.c", bytes)?;
    let without = verify(alloc, "file.c", &with_heads(alloc, &parts, 0)?)?;
    let twice = verify(alloc, "file.c", &with_heads(alloc, &parts, 2)?)?;
    let cut = verify(alloc, "file.c", bytes.split_last()?.1)?;
    format!(in alloc; "heads {count} | {whole} | {without} | {twice} | {cut}").ok()
}

/// What comes of `prove` on this source, behind each of whose lines stands `\n`: the exit code and the text, or the
/// certificate in hexadecimal.
pub(crate) fn prove(alloc: Global, words: &str, source: &str) -> Option<String> {
    let source = source.as_bytes().replace(alloc, b"\\n", b"\n").ok()?;
    let (status, written) = called(alloc, "prove", words, &source)?;
    if status != Status::Done {
        return told(alloc, status, &written);
    }
    let text = hex::encode(alloc, &written).ok()?;
    format!(in alloc; "0 {text}").ok()
}

/// How many heads `prove` writes, and what comes of `verify` on what it writes, on the same without heads, with all
/// heads twice and without its last byte.
pub(crate) fn both(alloc: Global, words: &str, source: &str) -> Option<String> {
    let source = source.as_bytes().replace(alloc, b"\\n", b"\n").ok()?;
    let (status, written) = called(alloc, "prove", words, &source)?;
    match status {
        Status::Done => verify_all(alloc, &written, &source),
        _ => told(alloc, status, &written),
    }
}

/// What comes of `verify` on so many blanks.
pub(crate) fn long(alloc: Global, count: &str) -> Option<String> {
    let count: usize = count.parse().ok()?;
    let blanks = vec![in alloc; b' '; count].ok()?;
    verify(alloc, "file.c", &blanks)
}
