//! Expressions, places and statements.

use ep_int::{BinOp, Cmp, IntType, Order, Scalar};

/// An expression, typed: a number of an integer type, or a pointer.
#[derive(Debug, Drop)]
#[cycle(expressions)]
pub enum Expr {
    /// A number of the type.
    Const(IntType, i128),
    /// The null pointer.
    Null,
    /// The value of a place.
    Load(Scalar, Box<Place>),
    /// The address of a place.
    AddrOf(Box<Place>),
    /// An operator on two numbers of the type; the amount of a shift may be of any type.
    Bin(BinOp, IntType, Box<Expr>, Box<Expr>),
    /// A number, converted to the type.
    Convert(IntType, Box<Expr>),
    /// 1 where two numbers of the type compare so, else 0, as an int.
    Compare(Cmp, IntType, Box<Expr>, Box<Expr>),
    /// The same of two pointers.
    PtrCompare(Cmp, Box<Expr>, Box<Expr>),
    /// `&&`: the second operand is evaluated only where the first is true.
    And(Box<Expr>, Box<Expr>),
    /// `||`: the second operand is evaluated only where the first is false.
    Or(Box<Expr>, Box<Expr>),
    /// `!`.
    Not(Box<Expr>),
    /// `? :`: the second operand where the first is true, else the third.
    Cond(Box<Expr>, Box<Expr>, Box<Expr>),
    /// A pointer moved by units of so many bytes, back where that is true: the pointer, and how many units.
    PtrAdd(u32, bool, Box<Expr>, Box<Expr>),
    /// The same pointer, to another type.
    Cast(Box<Expr>),
}

/// An object, or a part of one.
#[derive(Debug, Drop)]
#[cycle(expressions)]
pub enum Place {
    /// The object of a block, by the block's number.
    Block(u32),
    /// What a pointer points to.
    Deref(Box<Expr>),
    /// The member at so many bytes of an aggregate.
    Member(Box<Place>, u32),
    /// An element of an array in place, by the array's bound, the element's size in bytes, and its index.
    Element(Box<Place>, u32, u32, Box<Expr>),
}

/// Where an input or the result of a call goes.
#[derive(Debug, Drop)]
pub struct Dest {
    pub what: Scalar,
    /// Whether what comes is a pointer to another type than the place's pointers are.
    pub cast: bool,
    pub place: Place,
}

/// A statement, at the line of its first token, a declaration at that of its name.
#[derive(Debug, Drop)]
#[cycle(statements)]
pub struct Stmt {
    pub line: u32,
    pub what: What,
}

/// What a statement does. Types, functions and blocks go by their numbers, lengths in bytes.
#[derive(Debug, Drop)]
#[cycle(statements)]
pub enum What {
    Nothing,
    /// Evaluates an expression, whose value goes nowhere.
    Eval(Expr),
    /// Stores a value of the place's type.
    Assign(Scalar, Place, Expr),
    /// Makes each scalar of a place of the type 0 or null, and all its other bytes undefined.
    Clear(Place, u32),
    /// Copies an aggregate of the type to the first place, from the second.
    CopyAggregate(Place, Place, u32),
    /// Copies so many bytes to the first address, from the second.
    CopyBytes(Expr, Expr, u32),
    /// Stores an unsigned char in each of so many bytes from an address on.
    Fill(Expr, Expr, u32),
    /// Calls a function with arguments, one for each parameter. Its result may go to a place.
    Call(u32, Vec<Expr>, Option<Dest>),
    /// Takes the next input as a number of the type, which may go to a place.
    Input(IntType, Option<Dest>),
    /// Puts out a number of the type.
    Output(IntType, Expr),
    /// Takes so many inputs, as bytes from an address on.
    ReadBytes(Expr, u32),
    /// Puts out so many bytes from an address on.
    WriteBytes(Expr, u32),
    /// A test, what is done where it is true, and what is done else.
    If(Expr, Vec<Stmt>, Vec<Stmt>),
    /// Whether the test comes before the first turn, the test, the body, and the step part, done after each turn.
    Loop(bool, Expr, Vec<Stmt>, Vec<Stmt>),
    Break,
    Continue,
    /// Leaves the function, with its result where it has one.
    Return(Option<Expr>),
    /// A byte order, what is done on a machine of this order, and what is done on every other.
    ByOrder(Order, Vec<Stmt>, Vec<Stmt>),
    /// The blocks of objects that are there while the statements are done.
    Scope(Vec<u32>, Vec<Stmt>),
}
