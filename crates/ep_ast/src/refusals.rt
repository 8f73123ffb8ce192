//! Refusals: what is wrong, and where.

ghost use Rattle.std.specs.Prelude.{◌≡◌, ◌++◌, IfOk, OnOk};
ghost use Rattle.ep_ast.specs.Kind.{number_of};
ghost use Rattle.ep_ast.specs.Refusal as spec;
ghost use Rattle.ep_ast.specs.Reserved.{reserved_number, reserved_word};
ghost use Rattle.ep_ast.specs.declared.refusals.Halt.TheVariants.{Memory as wanting, Refused as refused};

use crate::kinds::RefusalKind;
use crate::words::ReservedWord;
use ep_int::Memory;
use itoa::Buffer;
use std::alloc::{AllocError, AllocFailed, Global};
use std::marker::Model;

/// Why a source is refused: the kind, the line, and the reserved word where it is one.
#[derive(Clone, Copy, Debug)]
pub struct Refusal {
    pub kind: RefusalKind,
    pub line: u32,
    pub word: Option<ReservedWord>,
}

impl Model for Refusal {
    ghost use Rattle.std.proofs.Common.{ap, ◌∙◌, Option};
    ghost use Rattle.ep_ast.specs.Kind.{Refused, number_of, kind_of, kind_of_number};
    ghost use Rattle.ep_ast.specs.Reserved.{reserved_number, reserved_of, reserved_of_number};
    ghost use Rattle.ep_ast.specs.declared.kinds.RefusalKind.{RefusalKind as TheKind};
    ghost use Rattle.ep_ast.specs.declared.words.ReservedWord.{ReservedWord as TheWord};

    ghost Value = { Refused };

    ghost view = { λ r. record { kind = number_of r.kind; line = r.line; word = reserved_number r.word } };

    ghost inverse = { λ r. record { kind = kind_of r.kind; line = r.line; word = reserved_of r.word } };

    ghost inverse_ok = { λ r _.
        ap (λ (k : TheKind). record r { kind = k; word = reserved_of (reserved_number r.word) }) (kind_of_number r.kind)
        ∙ ap (λ (w : Option TheWord). record r { word = w }) (reserved_of_number r.word) };
}

impl Refusal {
    /// A refusal that names no word.
    pub fn new(kind: RefusalKind, line: u32) -> Refusal
        ensures { result ≡ record { kind = number_of kind; line = line; word = 0 } }
    {
        Refusal {
            kind,
            line,
            word: None,
        }
    }

    /// What is wrong.
    pub fn kind(&self) -> RefusalKind
        ensures { number_of result ≡ self.now.kind }
    {
        self.kind
    }
}

/// Why reading a source stopped.
#[derive(Clone, Copy, Debug)]
pub enum Halt {
    Refused(Refusal),
    Memory,
}

impl From<AllocError> for Halt {
    ghost from_gives = { λ _ e. e ≡ wanting };

    fn from(_e: AllocError) -> Halt {
        Halt::Memory
    }
}

impl<T: Drop> From<AllocFailed<T>> for Halt {
    ghost from_gives = { λ _ e. e ≡ wanting };

    fn from(_e: AllocFailed<T>) -> Halt {
        Halt::Memory
    }
}

impl From<Memory> for Halt {
    ghost from_gives = { λ _ e. e ≡ wanting };

    fn from(_e: Memory) -> Halt {
        Halt::Memory
    }
}

impl From<Refusal> for Halt {
    ghost from_gives = { λ r e. e ≡ refused r };

    fn from(r: Refusal) -> Halt {
        Halt::Refused(r)
    }
}

fn reserved_text(word: Option<ReservedWord>) -> &'static [u8]
    ensures { result.now ≡ reserved_word (reserved_number word) }
{
    match word {
        Some(word) => word.text(),
        None => b"",
    }
}

fn add_word(text: &mut Vec<u8>, r: &Refusal) -> Result<(), AllocError>
    ensures { OnOk result (text.new.items ≡ text.old.items ++ spec.word_part r.now) }
{
    if r.kind == RefusalKind::ReservedWord {
        text.extend_from_slice(b" ")?;
        text.extend_from_slice(reserved_text(r.word))?;
    }
    Ok(())
}

fn write_refusal(alloc: Global, r: &Refusal) -> Result<Vec<u8>, AllocError>
    ensures { IfOk result (λ text. text.items ≡ spec.refusal_line r.now) }
{
    let mut buffer = Buffer::new();
    let mut text = Vec::from_slice(alloc, buffer.format(r.line).as_bytes())?;
    text.extend_from_slice(b": refused ")?;
    text.extend_from_slice(buffer.format(r.kind.number()).as_bytes())?;
    text.extend_from_slice(b" ")?;
    text.extend_from_slice(r.kind.name())?;
    add_word(&mut text, r)?;
    text.extend_from_slice(b"\n")?;
    Ok(text)
}

/// The line that is written of a refusal.
pub fn refusal_text(alloc: Global, r: &Refusal) -> Result<Vec<u8>, Memory>
    ensures { IfOk result (λ text. text.items ≡ spec.refusal_line r.now) }
{
    match write_refusal(alloc, r) {
        Ok(text) => Ok(text),
        Err(_) => Err(Memory),
    }
}
