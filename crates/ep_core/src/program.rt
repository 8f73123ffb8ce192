//! Whole programs.

ghost use Rattle.std.specs.Prelude.{◌≡◌, IsTrue};
ghost use Rattle.ep_core.specs.View.{parts_view};
ghost use Rattle.ep_core.specs.WellFormed.{is_well_formed};

use crate::tree::Stmt;
use ep_int::{IntType, Scalar};
use ep_layout::Types;

/// An object with a place of its own in memory.
#[derive(Debug, Drop)]
pub struct BlockInfo {
    /// In bytes.
    pub size: u32,
    /// The number of its type.
    pub ty: u32,
    pub global: bool,
}

/// The first value of a scalar in a global block.
#[derive(Debug, Drop)]
pub struct InitByte {
    pub block: u32,
    /// In bytes, from the block's start.
    pub offset: u32,
    pub t: IntType,
    pub value: i128,
}

/// A function, at the line of its name. Blocks go by their numbers.
#[derive(Debug, Drop)]
pub struct Function {
    pub name: Vec<u8>,
    pub line: u32,
    pub params: Vec<(u32, Scalar)>,
    pub result: Option<(u32, Scalar)>,
    pub locals: Vec<u32>,
    pub body: Vec<Stmt>,
}

/// A whole program, well formed: what it names is there, each expression is typed, and each block has one place in the
/// text. A function calls only those before it.
#[derive(Drop)]
pub struct CoreProgram {
    pub types: Types,
    pub blocks: Vec<BlockInfo>,
    pub init: Vec<InitByte>,
    pub functions: Vec<Function>,
    /// The number of main in `functions`.
    pub main: u32,
    ghost well_formed: { IsTrue (is_well_formed (parts_view types blocks.items init.items functions.items main)) },
}
