//! Integer types, scalar types, byte orders, data models, operators, and what is undefined.

/// An integer type by its width in bits and whether it is signed. Types of one size and sign are one type.
#[derive(Clone, Copy, Debug, PartialEq, Eq)]
pub enum IntType {
    I8,
    U8,
    I16,
    U16,
    I32,
    U32,
    I64,
    U64,
}

/// What a scalar object holds.
#[derive(Clone, Copy, Debug, PartialEq, Eq)]
pub enum Scalar {
    Int(IntType),
    Pointer,
}

/// The byte order of a machine.
#[derive(Clone, Copy, Debug, PartialEq, Eq)]
pub enum Order {
    Little,
    Big,
    /// Units of 16 bits, the highest first, and in each the lower byte first.
    SwappedWords,
}

/// The sizes of `long` and of pointers.
#[derive(Clone, Copy, Debug, PartialEq, Eq)]
pub enum Model {
    /// `int`, `long` and pointers have 32 bits.
    Ilp32,
    /// `long` and pointers have 64 bits.
    Lp64,
}

/// An operator on two numbers: `+`, `-`, `*`, `/`, `%`, `&`, `|`, `^`, `<<` and `>>` of C.
#[derive(Clone, Copy, Debug, PartialEq, Eq)]
pub enum BinOp {
    Add,
    Sub,
    Mul,
    Div,
    Rem,
    And,
    Or,
    Xor,
    Shl,
    Shr,
}

/// A comparison of two numbers: `==`, `!=`, `<`, `<=`, `>` and `>=` of C.
#[derive(Clone, Copy, Debug, PartialEq, Eq)]
pub enum Cmp {
    Eq,
    Ne,
    Lt,
    Le,
    Gt,
    Ge,
}

/// Why the behaviour of an operator on two numbers is undefined.
#[derive(Clone, Copy, Debug, PartialEq, Eq)]
pub enum Undef {
    /// A signed sum, difference or product that is out of range.
    Overflow,
    /// A divisor of zero, or a quotient that is out of range.
    Division,
    /// A negative amount, one that isn't below the width, or to the left a negative number or a signed result that is
    /// out of range.
    Shift,
}

/// Want of memory.
#[derive(Clone, Copy, Debug, PartialEq, Eq)]
pub struct Memory;
