//! Types of C.

use ep_int::{IntType, bytes, is_signed};

/// What is left of a type without its outermost stars. Arrays are named by their numbers among the types of a
/// [`Types`](ep_layout::Types), and structs and unions by their numbers among its aggregates.
#[derive(Clone, Copy, Debug)]
pub enum Base {
    Void,
    Int(IntType),
    Array(u32),
    Aggregate(u32),
}

impl PartialEq for Base {
    ghost use Rattle.ep_typing.specs.Types.{is_same_base};
    ghost use Rattle.ep_typing.specs.SameTypes.{base_partial};

    ghost eq = { is_same_base };

    ghost laws = { base_partial };

    fn eq(&self, other: &Base) -> bool {
        match (*self, *other) {
            (Base::Void, Base::Void) => true,
            (Base::Int(t), Base::Int(u)) => bytes(t) == bytes(u) && is_signed(t) == is_signed(u),
            (Base::Array(m), Base::Array(n)) => m == n,
            (Base::Aggregate(a), Base::Aggregate(b)) => a == b,
            _ => false,
        }
    }
}

impl Eq for Base {
    ghost use Rattle.ep_typing.specs.SameTypes.{base_equivalence};

    ghost laws = { base_equivalence };
}

/// A type of C: so many pointers, one to the other, to what its base is. Two types are the same where both parts are.
#[derive(Clone, Copy, Debug)]
pub struct CType {
    pub base: Base,
    pub stars: u32,
}

impl PartialEq for CType {
    ghost use Rattle.ep_typing.specs.Types.{is_same};
    ghost use Rattle.ep_typing.specs.SameTypes.{partial};

    ghost eq = { is_same };

    ghost laws = { partial };

    fn eq(&self, other: &CType) -> bool {
        if self.stars == other.stars {
            self.base == other.base
        } else {
            false
        }
    }
}

impl Eq for CType {
    ghost use Rattle.ep_typing.specs.SameTypes.{equivalence};

    ghost laws = { equivalence };
}

/// A bit-field in its unit: the number of the unit among its aggregate's members, the unit's type, how many of its bits
/// are used before the field, and how many the field has (C11 6.7.2.1p9).
#[derive(Clone, Copy, Debug)]
pub struct FieldRow {
    pub unit: u32,
    pub t: IntType,
    pub used: u32,
    pub width: u32,
}
