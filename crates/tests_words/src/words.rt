//! Words of the tables of tests.

use ep_congruence::Congruence;
use ep_int::{BinOp, Cmp, IntType};

/// The least and the greatest number of a range.
pub type Ends = (i128, i128);

/// An integer type, as `u8`.
pub fn int_type(word: &str) -> Option<IntType> {
    match word {
        "i8" => Some(IntType::I8),
        "u8" => Some(IntType::U8),
        "i16" => Some(IntType::I16),
        "u16" => Some(IntType::U16),
        "i32" => Some(IntType::I32),
        "u32" => Some(IntType::U32),
        "i64" => Some(IntType::I64),
        "u64" => Some(IntType::U64),
        _ => None,
    }
}

/// An operator of arithmetic.
pub fn operator(word: &str) -> Option<BinOp> {
    match word {
        "+" => Some(BinOp::Add),
        "-" => Some(BinOp::Sub),
        "*" => Some(BinOp::Mul),
        "/" => Some(BinOp::Div),
        "%" => Some(BinOp::Rem),
        "&" => Some(BinOp::And),
        "|" => Some(BinOp::Or),
        "^" => Some(BinOp::Xor),
        "<<" => Some(BinOp::Shl),
        ">>" => Some(BinOp::Shr),
        _ => None,
    }
}

/// A comparison.
pub fn comparison(word: &str) -> Option<Cmp> {
    match word {
        "==" => Some(Cmp::Eq),
        "!=" => Some(Cmp::Ne),
        "<" => Some(Cmp::Lt),
        "<=" => Some(Cmp::Le),
        ">" => Some(Cmp::Gt),
        ">=" => Some(Cmp::Ge),
        _ => None,
    }
}

/// Two ends, as `1..8`.
pub fn ends(word: &str) -> Option<Ends> {
    let (lo, hi) = word.split_once("..")?;
    Some((lo.parse().ok()?, hi.parse().ok()?))
}

/// Two ends, or `none`.
pub fn maybe_ends(word: &str) -> Option<Option<Ends>> {
    if word == "none" {
        Some(None)
    } else {
        Some(Some(ends(word)?))
    }
}

/// A remainder and a modulus, as `3%8`.
pub fn class(word: &str) -> Option<Congruence> {
    let (remainder, modulus) = word.split_once('%')?;
    Congruence::of(remainder.parse().ok()?, modulus.parse().ok()?)
}

/// A class, or `none`.
pub fn maybe_class(word: &str) -> Option<Option<Congruence>> {
    if word == "none" {
        Some(None)
    } else {
        Some(Some(class(word)?))
    }
}
