//! Values of both machines, and faults.

use ep_alarms::AlarmKind;
use ep_bitslice::Form;
use ep_cells::Value;

/// Which of the two machines run.
#[derive(Clone, Copy, Debug, PartialEq, Eq)]
pub enum Mode {
    Both,
    Left,
    Right,
}

/// Where a machine may be undefined, or the two may part.
#[derive(Clone, Copy, Debug, PartialEq, Eq)]
pub struct Fault {
    pub kind: AlarmKind,
    /// The least and the greatest number that the kind shows, on the left machine.
    pub left: (i128, i128),
    /// The same on the right machine.
    pub right: (i128, i128),
}

/// What is known of a value on one machine.
#[derive(Drop)]
pub struct SideValue<N> {
    /// None on a machine that doesn't run or can't come to a value.
    pub value: Option<Value<N>>,
    /// The bits of the number, where they are known.
    pub form: Option<Form>,
}

/// What is known of a value on both machines.
#[derive(Drop)]
pub struct PairValue<N> {
    pub left: SideValue<N>,
    pub right: SideValue<N>,
    /// Whether both surely have the same value.
    pub equal: bool,
}
