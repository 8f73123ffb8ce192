//! Files, standard output and the words of the command line.

use ep_io::{FileSource, ReadStop, Source, StdSink, command_words, read_all, write_all};
use std::cell::{Cell, RefCell};
use std::env::FillError;
use std::fmt::Display;
use std::io::ErrorKind;
use std::rt::Env;
use std::test::Fail;
use std::{fs, io};

const PATH: &str = "ep_io_test_source";

#[test]
fn reads_a_file(rt: HostRuntime) -> Result<(), Fail> {
    let text = vec![in rt.alloc(); b'a'; 100_000]?;
    fs::write(&rt, PATH, text.as_slice())?;
    let mut src = FileSource::new(rt);
    assert_eq!(rt;
        read_all(rt.alloc(), &mut src, 0)?.len(),
        0,
        "nothing is begun"
    );
    src.begin(PATH)?;
    assert!(rt; read_all(rt.alloc(), &mut src, 100_000)? == text);
    src.begin(PATH)?;
    assert_eq!(rt;
        read_all(rt.alloc(), &mut src, 99_999).err(),
        Some(ReadStop::TooLong)
    );
    fs::remove_file(&rt, PATH)?;
    assert!(rt; src.begin(PATH).is_err(), "no such file");
    assert_eq!(rt;
        read_all(rt.alloc(), &mut src, 0)?.len(),
        0,
        "a failed begin leaves nothing"
    );
    src.begin(".")?;
    assert_eq!(rt;
        read_all(rt.alloc(), &mut src, 9).err(),
        Some(ReadStop::Fault),
        "a folder"
    );
    Ok(())
}

/// A standard output of its own: it takes three bytes at once, and of its calls one may fail.
#[derive(Drop)]
struct Tape {
    taken: RefCell<Vec<u8>>,
    calls: Cell<u32>,
    failing: u32,
}

impl Print for Tape {
    fn print<D: Display + Drop>(&self, _value: D) -> io::Result<()> {
        Err(io::Error::from(ErrorKind::Unsupported))
    }

    fn println<D: Display + Drop>(&self, _value: D) -> io::Result<()> {
        Err(io::Error::from(ErrorKind::Unsupported))
    }

    fn write_all(&self, _bytes: &[u8]) -> io::Result<()> {
        Err(io::Error::from(ErrorKind::Unsupported))
    }

    fn write_some(&self, bytes: &[u8]) -> io::Result<usize> {
        let call = self.calls.get();
        self.calls.set(call.wrapping_add(1));
        if call == self.failing {
            return Err(io::Error::from(ErrorKind::BrokenPipe));
        }
        let count = bytes.len().min(3);
        match self.taken.try_borrow_mut() {
            Ok(mut taken) => taken.extend_from_slice(&bytes[..count])?,
            Err(_) => return Err(io::Error::from(ErrorKind::Other)),
        }
        Ok(count)
    }
}

#[test]
fn writes_to_standard_output(rt: HostRuntime) -> Result<(), Fail> {
    // the call that fails, whether all is written, and what is
    let rows = [
        (9, true, "portable\n"),
        (3, true, "portable\n"),
        (2, false, "portab"),
        (0, false, ""),
    ];
    for (failing, is_written, text) in rows {
        let tape = Tape {
            taken: RefCell::new(Vec::new(rt.alloc())),
            calls: Cell::new(0),
            failing,
        };
        let mut out = StdSink::new(&tape);
        assert_eq!(rt; write_all(&mut out, b"portable\n").is_ok(), is_written);
        assert_eq!(rt; tape.taken.try_borrow()?.as_slice(), text.as_bytes());
    }
    Ok(())
}

/// A command line of its own.
#[derive(Clone, Copy)]
struct Line<'a> {
    words: &'a [&'a [u8]],
}

impl<'a> Env for Line<'a> {
    fn arg(&self, i: usize, buf: &mut [u8]) -> Result<usize, FillError> {
        let Some(word) = self.words.get(i) else {
            return Err(FillError::NotPresent);
        };
        if word.len() > buf.len() {
            return Err(FillError::TooLong);
        }
        buf[..word.len()].copy_from_slice(word);
        Ok(word.len())
    }

    fn var(&self, _name: &str, _buf: &mut [u8]) -> Result<usize, FillError> {
        Err(FillError::NotPresent)
    }

    fn var_at(&self, _i: usize, _buf: &mut [u8]) -> Result<usize, FillError> {
        Err(FillError::NotPresent)
    }
}

#[test]
fn words_that_are_no_text_are_none(rt: HostRuntime) -> Result<(), Fail> {
    let rows: [(&[&[u8]], &str); 4] = [
        (&[], ""),
        (&[b"endport", b"check", b"file.c"], "endport check file.c "),
        (
            &[b"endport", b"check", b"\xc3\xa9.c"],
            "endport check \u{e9}.c ",
        ),
        (&[b"endport", b"check", b"\xe9.c"], ""),
    ];
    for (words, text) in rows {
        let mut joined = String::new(rt.alloc());
        for word in command_words(&(Line { words }, rt.alloc()))?.iter() {
            joined.push_str(word.as_str())?;
            joined.push_str(" ")?;
        }
        assert_eq!(rt; joined.as_str(), text);
    }
    Ok(())
}
