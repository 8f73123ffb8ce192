//! What an expression stands for.

use crate::value::Value;
use ep_core::tree::Place;
use ep_int::IntType;
use ep_typing::CType;

/// What can be called: a function by its number, or a built-in one.
#[derive(Clone, Copy, Debug)]
pub enum Callee {
    Declared(u32),
    Input(IntType),
    Output(IntType),
    CopyBytes,
    FillBytes,
    ReadBytes,
    WriteBytes,
}

/// An object, a value, or a function by its name.
#[derive(Debug, Drop)]
pub enum Operand {
    Place(Place, CType),
    Value(Value),
    Function(Callee),
}
