//! Whole texts from a source to a sink.

ghost use Rattle.std.specs.Prelude.{◌≡◌, ◌<◌, ◌≤◌, ◌⊎◌, length, IfSome};
ghost use Rattle.ep_io.specs.Faults.{Rose};
ghost use Rattle.ep_io.specs.Bytes.{Appended, FrontAppended};

use ep_io::{Failed, MemSink, MemSource, ReadStop, Sink, Source, read_all, write_all};
use std::alloc::{AllocError, Global};
use std::test::Fail;

#[derive(Clone, Copy, Debug, PartialEq, Eq)]
enum Copied {
    Whole,
    ReadFault,
    TooLong,
    WriteFault,
    Memory,
}

// Copies what stands under a name, as a program does that reads all before it writes.
fn copy<S: Source, K: Sink>(
    alloc: Global,
    src: &mut S,
    name: &str,
    limit: u32,
    out: &mut K,
) -> Copied
    ensures standing { S.standing src.new ≡ S.standing src.old }
    ensures whole { result ≡ Copied.Whole → IfSome (S.standing src.old name.now)
        (λ bytes. Appended (K.written out.old) bytes (K.written out.new)) }
    ensures read_fault { result ≡ Copied.ReadFault → Rose (S.faults src.old) (S.faults src.new) }
    ensures too_long { result ≡ Copied.TooLong →
        IfSome (S.standing src.old name.now) (λ bytes. limit < length bytes) }
    ensures write_fault { result ≡ Copied.WriteFault → Rose (K.faults out.old) (K.faults out.new) }
    ensures front { result ≡ Copied.WriteFault → IfSome (S.standing src.old name.now)
        (λ bytes. FrontAppended (K.written out.old) bytes (K.written out.new)) }
    ensures nothing { (result ≡ Copied.ReadFault) ⊎ (result ≡ Copied.TooLong) ⊎ (result ≡ Copied.Memory)
        → K.written out.new ≡ K.written out.old }
    ensures always_too_long { IfSome (S.standing src.old name.now) (λ bytes. limit < length bytes →
        ¬ Rose (S.faults src.old) (S.faults src.new) → (result ≡ Copied.TooLong) ⊎ (result ≡ Copied.Memory)) }
{
    if src.begin(name).is_err() {
        return Copied::ReadFault;
    }
    let text = match read_all(alloc, src, limit) {
        Ok(text) => text,
        Err(ReadStop::Fault) => return Copied::ReadFault,
        Err(ReadStop::TooLong) => return Copied::TooLong,
        Err(ReadStop::Memory) => return Copied::Memory,
    };
    match write_all(out, &text) {
        Ok(()) => Copied::Whole,
        Err(Failed) => Copied::WriteFault,
    }
}

#[test]
fn copies_whole_texts(rt: HostRuntime) -> Result<(), Fail> {
    let rows = [
        // the name, the limit, the chunks of source and sink, the sink's room
        ("f", 4, 1, 1, 4, Copied::Whole, "text"),
        ("f", 99, 3, 99, 99, Copied::Whole, "text"),
        ("g", 0, 1, 1, 0, Copied::Whole, ""),
        ("f", 3, 1, 1, 4, Copied::TooLong, ""),
        ("f", 0, 99, 1, 4, Copied::TooLong, ""),
        ("f", 4, 1, 2, 3, Copied::WriteFault, "tex"),
        ("f", 4, 4, 4, 0, Copied::WriteFault, ""),
    ];
    for (name, limit, source_chunk, sink_chunk, room, copied, written) in rows {
        let (alloc, never) = (rt.alloc(), 9);
        let mut src = text_source(alloc, never, source_chunk)?;
        let mut out = MemSink::new(alloc, room, vec![in alloc; never]?, sink_chunk)?;
        assert_eq!(rt; copy(alloc, &mut src, name, limit, &mut out), copied);
        assert_eq!(rt; out.bytes(), written.as_bytes());
    }
    Ok(())
}

// Six calls of the source at a byte each: one to begin, one for each byte, one for the end.
#[test]
fn calls_fail_by_their_numbers(rt: HostRuntime) -> Result<(), Fail> {
    for (source_fails, sink_fails, copied, written) in [
        (0, 9, Copied::ReadFault, ""),
        (1, 9, Copied::ReadFault, ""),
        (4, 9, Copied::ReadFault, ""),
        (5, 9, Copied::ReadFault, ""),
        (6, 0, Copied::WriteFault, ""),
        (6, 1, Copied::WriteFault, "t"),
        (6, 3, Copied::WriteFault, "tex"),
        (6, 4, Copied::Whole, "text"),
    ] {
        let alloc = rt.alloc();
        let mut src = text_source(alloc, source_fails, 1)?;
        let mut out = MemSink::new(alloc, 4, vec![in alloc; sink_fails]?, 1)?;
        assert_eq!(rt; copy(alloc, &mut src, "f", 4, &mut out), copied);
        assert_eq!(rt; out.bytes(), written.as_bytes());
    }
    Ok(())
}

// A source with `text` under `f`, one call of which fails.
fn text_source(alloc: Global, failing: u32, chunk: u32) -> Result<MemSource, AllocError>
    requires { 1 ≤ chunk }
{
    let name = Vec::from_slice(alloc, b"f")?;
    let content = Vec::from_slice(alloc, b"text")?;
    Ok(MemSource::new(name, content, vec![in alloc; failing]?, chunk))
}
