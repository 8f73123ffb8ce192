//! What is still to do.

ghost use Rattle.std.specs.Prelude.{◌≡◌, ◌+◌, OnOk};
ghost use Rattle.ep_core.specs.Exec.{Outcome};
ghost use Rattle.ep_machine.specs.declared.setting.Setting.{Setting};
ghost use Rattle.ep_frames.specs.Stack.{framed, piled, FrameFits, PileFits};
ghost use Rattle.ep_frames.specs.Heft.{heft_all, heft_in};

use ep_core::program::Function;
use ep_core::tree::{Dest, Expr, Stmt};
use ep_int::Memory;
use ep_machine::Fault;

/// How a statement is left.
#[derive(Debug, Clone, Copy, Drop)]
pub enum Way {
    On,
    Broken,
    Continued,
    Returned,
}

/// A loop, in the function of this number.
#[derive(Clone, Copy, Drop)]
pub struct Round<'p> {
    pub here: u32,
    pub line: u32,
    pub test: &'p Expr,
    pub body: &'p [Stmt],
    pub next: &'p [Stmt],
}

/// So many bytes from an offset of a block on.
#[derive(Debug, Clone, Copy, Drop)]
pub struct Bytes {
    pub block: u32,
    pub here: u32,
    pub count: u32,
}

/// What is still to do once what is inside is left.
#[derive(Clone, Copy, Drop)]
pub enum Frame<'p> {
    /// The rest of a list.
    Rest(u32, &'p [Stmt]),
    /// The step part of a loop, and what comes after it.
    Turn(Round<'p>),
    /// The test of a loop, and what comes after it.
    Again(Round<'p>),
    /// The end of a scope.
    Scope(&'p [u32]),
    /// The end of an arm of a byte-order conditional, before which so many joint tests were listed.
    Arm(usize),
    /// The end of a call.
    Call(&'p Function, &'p Option<Dest>, u32),
}

/// What is to be done now.
#[derive(Clone, Copy, Drop)]
pub enum Now<'p> {
    List(u32, &'p [Stmt]),
    /// A statement that takes a step.
    Statement(u32, &'p Stmt),
    /// A turn of a loop, with the step that it takes.
    Turn(Round<'p>),
    /// Bytes to be taken from the inputs, a step for each.
    Reads(Bytes),
    /// Bytes to be put out, a step for each, by the statement of a line.
    Writes(Bytes, u32),
    Leave(Way),
    Starve,
    Faulty(u32, Fault),
}

/// Puts a frame onto the stack.
pub fn push<'p>(stack: &mut Vec<Frame<'p>>, frame: &Frame<'p>) -> Result<(), Memory>
    ensures pile { OnOk result ((on : Setting) (x : Outcome) → piled on stack.new.items x
        ≡ piled on stack.old.items (framed on frame.now x)) }
    ensures heft { OnOk result (heft_all stack.new.items ≡ heft_all stack.old.items + heft_in frame.now) }
    ensures fits { OnOk result ((on : Setting) → PileFits on stack.old.items → FrameFits on frame.now
        → PileFits on stack.new.items) }
{
    match stack.push(*frame) {
        Ok(_) => Ok(()),
        Err(_) => Err(Memory),
    }
}
