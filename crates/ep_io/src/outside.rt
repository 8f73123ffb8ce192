//! Sources and sinks, and how their calls fail.

ghost use Rattle.std.specs.Prelude.{◌≡◌, ℕ, ◌<◌, ◌≤◌, List, [], length, take, drop, Option, Some, is_some, IfSome};
ghost use Rattle.std.specs.Prelude.{IfOk, OnOk, OnErr};
ghost use Rattle.ep_io.specs.Faults.{NeverFalls, Rose};
ghost use Rattle.ep_io.specs.Bytes.{Taken, NoneLeft, Appended};
ghost use Rattle.ep_io.specs.declared.outside.ReadStop.TheVariants.{Fault, Memory};

use std::alloc::AllocError;

/// A call of a source or a sink failed.
#[derive(Clone, Copy, Debug, PartialEq, Eq)]
pub struct Failed;

/// Why a source was not read to its end.
#[derive(Clone, Copy, Debug, PartialEq, Eq)]
pub enum ReadStop {
    Fault,
    TooLong,
    Memory,
}

impl From<Failed> for ReadStop {
    ghost from_gives = { λ _ stop. stop ≡ Fault };

    fn from(_failed: Failed) -> ReadStop {
        ReadStop::Fault
    }
}

impl From<AllocError> for ReadStop {
    ghost from_gives = { λ _ stop. stop ≡ Memory };

    fn from(_error: AllocError) -> ReadStop {
        ReadStop::Memory
    }
}

/// Bytes that stand under names, read from their front on. Before the first `begin` none are left.
/// What the clauses say of bytes they say where the source tells them, as one over memory does and
/// one over files doesn't.
pub trait Source {
    // For each name the bytes that stand under it.
    ghost standing: { Self → List ℕ → Option (List ℕ) };

    // The bytes left to read.
    ghost left: { Self → Option (List ℕ) };

    // How many faults there were so far.
    ghost faults: { Self → ℕ };

    /// Goes to the front of the bytes that stand under a name.
    fn begin(&mut self, name: &str) -> Result<(), Failed>
        ensures standing { standing self.new ≡ standing self.old }
        ensures telling { is_some (left self.new) ≡ is_some (left self.old) }
        ensures begun { OnOk result
            (IfSome (standing self.old name.now) (λ bytes. left self.new ≡ Some bytes)) }
        ensures none_left { OnErr result (NoneLeft (left self.new)) }
        ensures never_falls { NeverFalls (faults self.old) (faults self.new) }
        ensures fault { OnErr result (Rose (faults self.old) (faults self.new)) };

    /// Puts some of the bytes left at the front of `buf`, and answers how many; 0 where there is room
    /// means the end. The rest of `buf` keeps what it held, as all of it does where the read fails.
    fn read(&mut self, buf: &mut [u8]) -> Result<usize, Failed>
        ensures standing { standing self.new ≡ standing self.old }
        ensures bound { IfOk result (λ n. n ≤ length buf.old) }
        ensures taken { IfOk result (λ n. Taken (left self.old) (take n buf.new) (left self.new)) }
        ensures rest { IfOk result (λ n. drop n buf.new ≡ drop n buf.old) }
        ensures end { IfOk result (λ n. n ≡ 0 → 0 < length buf.old → NoneLeft (left self.new)) }
        ensures left_on_failure { OnErr result (left self.new ≡ left self.old) }
        ensures buf_on_failure { OnErr result (buf.new ≡ buf.old) }
        ensures never_falls { NeverFalls (faults self.old) (faults self.new) }
        ensures fault { OnErr result (Rose (faults self.old) (faults self.new)) };
}

/// Takes bytes one after another. What the clauses say of bytes they say where the sink tells them.
pub trait Sink {
    // The bytes written so far.
    ghost written: { Self → Option (List ℕ) };

    // How many faults there were so far.
    ghost faults: { Self → ℕ };

    /// Appends some of the front of `piece`, at least one byte where it has any, and answers how many.
    fn write(&mut self, piece: &[u8]) -> Result<usize, Failed>
        ensures bound { IfOk result (λ n. n ≤ length piece.now) }
        ensures progress { IfOk result (λ n. 0 < length piece.now → 0 < n) }
        ensures appended { IfOk result
            (λ n. Appended (written self.old) (take n piece.now) (written self.new)) }
        ensures failed { OnErr result (written self.new ≡ written self.old) }
        ensures never_falls { NeverFalls (faults self.old) (faults self.new) }
        ensures fault { OnErr result (Rose (faults self.old) (faults self.new)) };
}
