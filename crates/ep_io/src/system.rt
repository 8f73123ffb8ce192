//! A source over files, a sink over standard output, and the words of the command line. They tell nothing of the bytes.

ghost use Rattle.std.specs.Prelude.{◌≡◌, None};

use crate::engines::PIECE;
use crate::faults::Faults;
use crate::outside::{Failed, Sink, Source};
use std::alloc::AllocError;
use std::io::{ErrorKind, Read};
use std::rt::{Env, Files};
use std::{env, fs};

/// A source whose names are the paths of files.
#[derive(Drop)]
pub struct FileSource<R: Files> {
    rt: R,
    file: Option<R::File>,
    faults: Faults,
}

impl<R: Files> FileSource<R> {
    /// With no file open.
    pub fn new(rt: R) -> Self
        ensures { ⟦<FileSource<R> as Source>⟧.faults result ≡ 0 }
    {
        FileSource {
            rt,
            file: None,
            faults: Faults::none(),
        }
    }
}

impl<R: Files> Source for FileSource<R> {
    ghost standing = { λ _ _. None };

    ghost left = { λ _. None };

    ghost faults = { λ source. source.faults };

    fn begin(&mut self, name: &str) -> Result<(), Failed> {
        self.file = None;
        match fs::open(&self.rt, name) {
            Ok(file) => {
                self.file = Some(file);
                Ok(())
            }
            Err(_) => Err(self.faults.raise()),
        }
    }

    // A failed read may leave anything in what it was given, so that is a piece of its own.
    fn read(&mut self, buf: &mut [u8]) -> Result<usize, Failed> {
        let Some(file) = &mut self.file else {
            return Ok(0);
        };
        let mut piece = [0; PIECE];
        let room = buf.len().min(PIECE);
        let Ok(count) = file.read(&mut piece[..room]) else {
            return Err(self.faults.raise());
        };
        buf[..count].copy_from_slice(&piece[..count]);
        Ok(count)
    }
}

/// A sink that is standard output.
#[derive(Drop)]
pub struct StdSink<R: Print> {
    rt: R,
    faults: Faults,
}

impl<R: Print> StdSink<R> {
    /// With nothing written.
    pub fn new(rt: R) -> Self
        ensures { ⟦<StdSink<R> as Sink>⟧.faults result ≡ 0 }
    {
        StdSink {
            rt,
            faults: Faults::none(),
        }
    }
}

impl<R: Print> Sink for StdSink<R> {
    ghost written = { λ _. None };

    ghost faults = { λ sink. sink.faults };

    // No byte taken of some is an error too.
    fn write(&mut self, piece: &[u8]) -> Result<usize, Failed> {
        match self.rt.write_some(piece) {
            Ok(count) if count > 0 || piece.is_empty() => Ok(count),
            _ => Err(self.faults.raise()),
        }
    }
}

/// The words of the command line, from the program's name on. Where one of them is no text there are none, so that they
/// name no file.
pub fn command_words<R: Env + AllocGlobal>(rt: &R) -> Result<Vec<String>, AllocError> {
    match env::args(rt) {
        Ok(words) => words.collect(rt.alloc()),
        Err(error) if error.kind() == ErrorKind::OutOfMemory => Err(AllocError),
        Err(_) => Ok(Vec::new(rt.alloc())),
    }
}
