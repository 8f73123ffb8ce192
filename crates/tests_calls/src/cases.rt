//! One call: what it is given, what it writes, and its status.

ghost use Rattle.std.specs.Prelude.{◌≤◌};

use endport::{Status, endport};
use ep_io::{MemSink, MemSource};
use std::alloc::{AllocError, Global};

const CHECK: &[&str] = &["endport", "check", "file.c"];

/// What is written where the words ask nothing.
pub const USAGE_TEXT: &str = "usage:
  endport check [--unroll N] [--orders A,B] [--model ilp32|lp64] [--domain bits] FILE
  endport run --order little|big|swapped-words --steps N [--model ilp32|lp64] FILE [INPUT..]
  endport layout [--model ilp32|lp64] FILE
  endport sample START FIELDS
  endport prove [--unroll N] [--orders A,B] [--model ilp32|lp64] FILE
  endport verify CERT
";

/// What a call is given: its words, what stands under `file.c`, and how the source and the sink go about it.
#[derive(Clone, Copy)]
pub struct Case<'a> {
    pub words: &'a [&'a str],
    pub source: &'a [u8],
    /// One byte at a time is given and taken; else 1,000 and four.
    pub single_bytes: bool,
    /// How many bytes the sink takes in all.
    pub room: u32,
    /// The calls of source and sink that fail.
    pub failing_read: Option<u32>,
    pub failing_write: Option<u32>,
}

impl<'a> Case<'a> {
    /// The command `check` on a source, where no call fails.
    pub fn check(source: &'a [u8]) -> Case<'a> {
        Case {
            words: CHECK,
            source,
            single_bytes: false,
            room: 1000,
            failing_read: None,
            failing_write: None,
        }
    }
}

fn numbers(alloc: Global, number: Option<u32>) -> Result<Vec<u32>, AllocError> {
    Ok(match number {
        Some(number) => vec![in alloc; number]?,
        None => Vec::new(alloc),
    })
}

// How many bytes a source gives at once, or a sink takes.
fn at_once(case: &Case, most: u32) -> u32
    requires { 1 ≤ most }
    ensures { 1 ≤ result }
{
    match case.single_bytes {
        true => 1,
        false => most,
    }
}

/// A call that is yet to be made, with all that it is given in memory.
#[derive(Drop)]
pub struct Prepared {
    words: Vec<String>,
    source: MemSource,
    sink: MemSink,
}

impl Prepared {
    /// The case, ready to be called.
    pub fn new(alloc: Global, case: &Case) -> Result<Prepared, AllocError> {
        let mut words = Vec::new(alloc);
        for word in case.words.iter() {
            words.push(String::from_str(alloc, word)?)?;
        }
        let name = Vec::from_slice(alloc, b"file.c")?;
        let content = Vec::from_slice(alloc, case.source)?;
        let failing = numbers(alloc, case.failing_read)?;
        let source = MemSource::new(name, content, failing, at_once(case, 1000));
        let failing = numbers(alloc, case.failing_write)?;
        let Ok(sink) = MemSink::new(alloc, case.room, failing, at_once(case, 4)) else {
            return Err(AllocError);
        };
        Ok(Prepared {
            words,
            source,
            sink,
        })
    }

    /// Makes the call.
    pub fn make(&mut self, alloc: Global) -> Status {
        endport(alloc, &self.words, &mut self.source, &mut self.sink)
    }

    /// What the call has written.
    pub fn written(&self) -> &[u8] {
        self.sink.bytes()
    }
}

/// The status of a call and what it wrote. Where memory runs out and nothing was written, `AllocError`.
pub fn call(alloc: Global, case: &Case) -> Result<(Status, Vec<u8>), AllocError> {
    let mut prepared = Prepared::new(alloc, case)?;
    let status = prepared.make(alloc);
    if status == Status::Memory && prepared.written().is_empty() {
        return Err(AllocError);
    }
    Ok((status, Vec::from_slice(alloc, prepared.written())?))
}
