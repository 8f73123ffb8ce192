//! What a run is.

use ep_alarms::AlarmKind;
use ep_machine::Output;

/// How a run is found after its steps.
#[derive(Debug, Clone, Copy, PartialEq, Eq)]
pub enum Ending {
    /// There are no more steps.
    Running,
    Ended,
    /// An input is wanted, and there is none.
    NoInput,
    /// The line of the statement, and what is undefined there.
    Undefined(u32, AlarmKind),
}

/// A run.
#[derive(Debug, Drop)]
pub struct RunResult {
    pub ending: Ending,
    pub outputs: Vec<Output>,
    /// A test is 1 or 0; the way out of a byte-order conditional is 2 at its end, 3 by break, 4 by continue and 5 by
    /// return.
    pub tests: Vec<u8>,
    /// How many inputs were taken.
    pub used: u64,
}
