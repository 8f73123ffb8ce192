//! Types, members, leaves, and why a type cannot be made.

use ep_int::{IntType, Scalar, bytes, is_signed};
use std::hash::{Hash, Hasher};

/// A type. Types and aggregates are named by their numbers in a [`Types`](crate::Types).
#[derive(Clone, Copy, Debug)]
pub enum Ty {
    Void,
    Int(IntType),
    /// A pointer to a type, which may be incomplete.
    Ptr(u32),
    /// An array: the type of its elements, and how many it has.
    Array(u32, u32),
    /// A struct or a union.
    Aggregate(u32),
}

impl PartialEq for Ty {
    ghost use Rattle.ep_layout.specs.SameTypes.{is_same_type, partial};

    ghost eq = { is_same_type };

    ghost laws = { partial };

    fn eq(&self, other: &Ty) -> bool {
        match (*self, *other) {
            (Ty::Void, Ty::Void) => true,
            (Ty::Int(s), Ty::Int(t)) => bytes(s) == bytes(t) && is_signed(s) == is_signed(t),
            (Ty::Ptr(d), Ty::Ptr(e)) => d == e,
            (Ty::Array(d, m), Ty::Array(e, n)) => d == e && m == n,
            (Ty::Aggregate(a), Ty::Aggregate(b)) => a == b,
            _ => false,
        }
    }
}

impl Eq for Ty {
    ghost use Rattle.ep_layout.specs.SameTypes.{equivalence};

    ghost laws = { equivalence };
}

impl Hash for Ty {
    ghost use Rattle.ep_layout.specs.SameTypes.{hashed, alike};

    ghost hash_input = { hashed };

    ghost respects_eq = { alike };

    fn hash<H: Hasher>(&self, state: &mut H) {
        match *self {
            Ty::Void => state.write_u8(0),
            Ty::Int(t) => {
                state.write_u8(1);
                state.write_u32(bytes(t));
            }
            Ty::Ptr(e) => {
                state.write_u8(2);
                state.write_u32(e);
            }
            Ty::Array(e, n) => {
                state.write_u8(3);
                state.write_u32(e);
                state.write_u32(n);
            }
            Ty::Aggregate(a) => {
                state.write_u8(4);
                state.write_u32(a);
            }
        }
    }
}

/// A row of a table, and how many pointers over it are meant.
#[derive(Clone, Copy, Debug, PartialEq, Eq)]
pub struct PointedRow {
    pub row: u32,
    pub stars: u32,
}

/// How many types, aggregates and completions a table has.
#[derive(Clone, Copy, Debug)]
pub struct TableMark {
    pub types: usize,
    pub aggregates: usize,
    pub completed: usize,
}

/// A member of an aggregate, and where it lies in it, in bytes.
#[derive(Debug, Drop)]
pub struct Member {
    pub name: Vec<u8>,
    pub ty: u32,
    pub offset: u32,
}

/// A scalar of a type, and where it lies in it, in bytes.
#[derive(Clone, Copy, Debug, PartialEq, Eq)]
pub struct Leaf {
    pub offset: u32,
    pub what: Scalar,
}

/// Why a type can't be made or completed.
#[derive(Clone, Copy, Debug, PartialEq, Eq)]
pub enum LayoutStop {
    /// A member or element has no size.
    Incomplete,
    /// A size passes 65,536 bytes.
    TooLarge,
    Memory,
}
