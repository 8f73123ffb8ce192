//! Reading a source to its end, and writing a whole text.

ghost use Rattle.std.specs.Prelude.{◌≡◌, ◌<◌, ◌≤◌, length, IfSome, IfOk, OnOk, OnErr, IsErrOf, vec_len};
ghost use Rattle.ep_io.specs.Faults.{NeverFalls, Rose};
ghost use Rattle.ep_io.specs.Bytes.{SomeTaken, NoneLeft, Appended, FrontAppended};

use crate::outside::{Failed, ReadStop, Sink, Source};
use std::alloc::Global;

// How many bytes are read at a time, at most.
pub(crate) const PIECE: usize = 16384;

/// Reads all bytes left. `Fault` comes where a read failed, `TooLong` where more than `limit` bytes
/// came, `Memory` where there was no room to keep them.
pub fn read_all<S: Source>(alloc: Global, src: &mut S, limit: u32) -> Result<Vec<u8>, ReadStop>
    ensures standing { S.standing src.new ≡ S.standing src.old }
    ensures bytes { IfOk result (λ text. IfSome (S.left src.old) (λ bytes. text.items ≡ bytes)) }
    ensures end { OnOk result (NoneLeft (S.left src.new)) }
    ensures within { IfOk result (λ text. vec_len text ≤ limit) }
    ensures too_long { IsErrOf result ReadStop.TooLong →
        IfSome (S.left src.old) (λ bytes. limit < length bytes) }
    ensures taken { SomeTaken (S.left src.old) (S.left src.new) }
    ensures never_falls { NeverFalls (S.faults src.old) (S.faults src.new) }
    ensures fault { IsErrOf result ReadStop.Fault → Rose (S.faults src.old) (S.faults src.new) }
{
    let mut text = Vec::new(alloc);
    let mut piece = [0; PIECE];
    loop {
        let count = src.read(&mut piece)?;
        if count == 0 {
            return Ok(text);
        }
        if count > limit as usize - text.len() {
            return Err(ReadStop::TooLong);
        }
        text.extend_from_slice(&piece[..count])?;
    }
}

/// Writes all of `text`, in as many writes as the sink needs.
pub fn write_all<K: Sink>(out: &mut K, text: &[u8]) -> Result<(), Failed>
    ensures ok { OnOk result (Appended (K.written out.old) text.now (K.written out.new)) }
    ensures failed { OnErr result (FrontAppended (K.written out.old) text.now (K.written out.new)) }
    ensures never_falls { NeverFalls (K.faults out.old) (K.faults out.new) }
    ensures fault { OnErr result (Rose (K.faults out.old) (K.faults out.new)) }
{
    let mut done = 0;
    while done < text.len() {
        done += out.write(&text[done..])?;
    }
    Ok(())
}
