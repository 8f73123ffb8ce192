//! A source and a sink over memory, whose calls fail where they are told to.

ghost use Rattle.std.specs.Prelude.{◌≡◌, ◌+◌, ◌<◌, ◌≤◌, ◌||◌, [], ◌++◌, length, take, drop, Some, Bool, is_err, IfOk};
ghost use Rattle.std.specs.Prelude.{List, ℕ};
ghost use Rattle.ep_io.specs.Faults.{NeverFalls};
ghost use Rattle.ep_io.specs.InMemory.{no_calls, is_to_fail, after_call, bytes_under, after_begin, read_count};
ghost use Rattle.ep_io.specs.InMemory.{after_read, is_refused, write_count, after_write};

use crate::faults::Faults;
use crate::outside::{Failed, Sink, Source};
use ep_int::Memory;
use std::alloc::Global;
use std::marker::Model;

// The calls of a source or a sink, numbered from 0.
#[derive(Drop)]
struct Calls {
    failing: Vec<u32>,
    number: u64,
    faults: Faults,
}

impl Model for Calls {
    ghost use Rattle.ep_io.specs.InMemory.{Calls};

    ghost Value = { Calls };

    ghost view = { λ calls. record
        { failing = calls.failing.items; number = calls.number; faults = calls.faults } };
}

impl Calls {
    fn new(failing: Vec<u32>) -> Self
        ensures { result ≡ no_calls failing.items }
    {
        Calls {
            failing,
            number: 0,
            faults: Faults::none(),
        }
    }

    fn is_next_to_fail(&self) -> bool
        ensures { result ≡ is_to_fail self.now }
    {
        let number = self.number;
        self.failing.iter().any(|k| u64::from(*k) == number)
    }

    // Makes the next call, which fails where it is to fail or is refused.
    fn make(&mut self, is_refused: bool) -> Result<(), Failed>
        ensures fails { is_err result ≡ (is_to_fail self.old || is_refused) }
        ensures after { self.new ≡ after_call self.old (is_to_fail self.old || is_refused) }
        ensures never_falls { NeverFalls self.old.faults self.new.faults }
    {
        let fails = self.is_next_to_fail() || is_refused;
        self.number = self.number.saturating_add(1);
        if fails {
            return Err(self.faults.raise());
        }
        Ok(())
    }
}

/// A source over memory: `content` stands under `name`, and nothing under any other name.
#[derive(Drop)]
pub struct MemSource {
    name: Vec<u8>,
    content: Vec<u8>,
    chunk: u32,
    // Where in the content the next read begins.
    at: usize,
    calls: Calls,
}

impl Model for MemSource {
    ghost use Rattle.std.specs.Prelude.{◌<◌, ◌≤◌, drop, vec_len};
    ghost use Rattle.ep_io.specs.InMemory.{SourceInMemory};

    ghost Value = { SourceInMemory };

    ghost view = { λ s. record {
      name = s.name.items;
      content = s.content.items;
      chunk = s.chunk;
      left = drop s.at s.content.items;
      calls = s.calls;
    } };

    ghost invariant = { λ s. (0 < s.chunk) × (s.at ≤ vec_len s.content) };
}

impl MemSource {
    /// Calls of `begin` and `read` are numbered together from 0, and those whose numbers are in
    /// `failing` fail. A read gives at most `chunk` bytes.
    pub fn new(name: Vec<u8>, content: Vec<u8>, failing: Vec<u32>, chunk: u32) -> MemSource
        requires { 1 ≤ chunk }
        ensures { result ≡ record {
          name = name.items;
          content = content.items;
          chunk = chunk;
          left = [];
          calls = no_calls failing.items;
        } }
    {
        let at = content.len();
        MemSource {
            name,
            content,
            chunk,
            at,
            calls: Calls::new(failing),
        }
    }
}

impl Source for MemSource {
    ghost standing = { λ s name. Some (bytes_under s.name s.content name) };

    ghost left = { λ s. Some s.left };

    ghost faults = { λ s. s.calls.faults };

    fn begin(&mut self, name: &str) -> Result<(), Failed>
        ensures fails { is_err result ≡ is_to_fail self.old.calls }
        ensures after { self.new ≡ after_begin self.old name.now }
        ensures never_falls { NeverFalls self.old.calls.faults self.new.calls.faults }
    {
        self.at = self.content.len();
        self.calls.make(false)?;
        if name.as_bytes() == self.name.as_slice() {
            self.at = 0;
        }
        Ok(())
    }

    fn read(&mut self, buf: &mut [u8]) -> Result<usize, Failed>
        ensures fails { is_err result ≡ is_to_fail self.old.calls }
        ensures count { IfOk result (λ n. n ≡ read_count self.old (length buf.old)) }
        ensures bytes { let n = read_count self.old (length buf.old) in
            buf.new ≡ take n self.old.left ++ drop n buf.old }
        ensures after { self.new ≡ after_read self.old (length buf.old) }
        ensures end { IfOk result (λ n. n ≡ 0 → 0 < length buf.old → self.new.left ≡ []) }
        ensures never_falls { NeverFalls self.old.calls.faults self.new.calls.faults }
    {
        self.calls.make(false)?;
        let left = &self.content[self.at..];
        let count = buf.len().min(left.len().min(self.chunk as usize));
        buf[..count].copy_from_slice(&left[..count]);
        self.at += count;
        Ok(count)
    }
}

/// A sink over memory.
#[derive(Drop)]
pub struct MemSink {
    written: Vec<u8>,
    room: u32,
    chunk: u32,
    calls: Calls,
}

impl Model for MemSink {
    ghost use Rattle.std.specs.Prelude.{◌<◌, ◌≤◌, vec_len, vec_capacity};
    ghost use Rattle.ep_io.specs.InMemory.{SinkInMemory};

    ghost Value = { SinkInMemory };

    ghost view = { λ s. record
        { written = s.written.items; room = s.room; chunk = s.chunk; calls = s.calls } };

    ghost invariant = { λ s. (0 < s.chunk)
        × (vec_len s.written ≤ s.room) × (s.room ≤ vec_capacity s.written) };
}

impl MemSink {
    /// Reserves `room` bytes, so that no write needs memory. Writes are numbered from 0, and those
    /// whose numbers are in `failing` fail. A write takes at most `chunk` bytes.
    pub fn new(alloc: Global, room: u32, failing: Vec<u32>, chunk: u32) -> Result<MemSink, Memory>
        requires { 1 ≤ chunk }
        ensures { IfOk result (λ sink. sink ≡ record
            { written = []; room = room; chunk = chunk; calls = no_calls failing.items }) }
    {
        let Ok(written) = Vec::with_capacity(alloc, room as usize) else {
            return Err(Memory);
        };
        Ok(MemSink {
            written,
            room,
            chunk,
            calls: Calls::new(failing),
        })
    }

    /// What was written.
    pub fn bytes(&self) -> &[u8]
        ensures { result.now ≡ self.now.written }
    {
        &self.written
    }
}

impl Sink for MemSink {
    ghost written = { λ s. Some s.written };

    ghost faults = { λ s. s.calls.faults };

    fn write(&mut self, piece: &[u8]) -> Result<usize, Failed>
        ensures fails { is_err result ≡ is_refused self.old (length piece.now) }
        ensures count { IfOk result (λ n. n ≡ write_count self.old (length piece.now)) }
        ensures after { self.new ≡ after_write self.old piece.now }
        ensures progress { IfOk result (λ n. 0 < length piece.now → 0 < n) }
        ensures never_falls { NeverFalls self.old.calls.faults self.new.calls.faults }
    {
        let room = self.room as usize - self.written.len();
        self.calls.make(room == 0 && !piece.is_empty())?;
        let count = piece.len().min(room.min(self.chunk as usize));
        self.written.extend_from_slice(&piece[..count]).unwrap();
        Ok(count)
    }
}
