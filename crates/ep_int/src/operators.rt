//! C's operators on numbers.

ghost use Rattle.std.specs.Prelude.{◌≡◌, if◌then◌else◌, unsigned_abs};
ghost use Rattle.ep_int.specs.Types.{InRange};
ghost use Rattle.ep_int.specs.Arith.{promoted, common_of, IsRightOperand, settled, is_divisible, is_amount, arith_of};

use crate::numbers::{
    bits, from_representation, in_range, is_signed, mask, to_representation, wrap,
};
use crate::{BinOp, IntType, Undef};

/// The type that a number of type `t` is converted to before anything is computed with it: the integer promotions of
/// C11 6.3.1.1.
pub fn promote(t: IntType) -> IntType
    ensures { result ≡ promoted t }
{
    match t {
        IntType::I8 | IntType::U8 | IntType::I16 | IntType::U16 => IntType::I32,
        IntType::I32 | IntType::U32 | IntType::I64 | IntType::U64 => t,
    }
}

/// The type in which an operator computes with operands of two types, after the promotion of both: the usual arithmetic
/// conversions of C11 6.3.1.8.
pub fn common(a: IntType, b: IntType) -> IntType
    ensures { result ≡ common_of a b }
{
    match (promote(a), promote(b)) {
        (IntType::U64, _) | (_, IntType::U64) => IntType::U64,
        (IntType::I64, _) | (_, IntType::I64) => IntType::I64,
        (IntType::U32, _) | (_, IntType::U32) => IntType::U32,
        _ => IntType::I32,
    }
}

/// What an operator gives at two numbers of type `t`, or why its behaviour is undefined, by C11 6.5.5 to 6.5.12. The
/// amount of a shift may be of another type. A negative number is shifted to the right arithmetically.
pub fn arith(op: BinOp, t: IntType, x: i128, y: i128) -> Result<i128, Undef>
    requires left { InRange t x }
    requires right { IsRightOperand op t y }
    ensures { result ≡ arith_of op t x y }
{
    match op {
        BinOp::Add => settle(Undef::Overflow, t, x + y),
        BinOp::Sub => settle(Undef::Overflow, t, x - y),
        BinOp::Mul => multiply(t, x, y),
        BinOp::Div => divide(t, x, y),
        BinOp::Rem => remainder(t, x, y),
        BinOp::And => Ok(from_representation(t, to_representation(t, x) & to_representation(t, y))),
        BinOp::Or => Ok(from_representation(t, to_representation(t, x) | to_representation(t, y))),
        BinOp::Xor => Ok(from_representation(t, to_representation(t, x) ^ to_representation(t, y))),
        BinOp::Shl => shift_left(t, x, y),
        BinOp::Shr => shift_right(t, x, y),
    }
}

// An exact result as the type has it, or the fault where a signed type hasn't got it.
fn settle(fault: Undef, t: IntType, v: i128) -> Result<i128, Undef>
    ensures { result ≡ settled fault t v }
{
    if !is_signed(t) {
        Ok(wrap(t, v))
    } else if in_range(t, v) {
        Ok(v)
    } else {
        Err(fault)
    }
}

// A product of unsigned numbers can have all 128 bits.
fn multiply(t: IntType, x: i128, y: i128) -> Result<i128, Undef>
    requires left { InRange t x }
    requires right { InRange t y }
    ensures { result ≡ arith_of BinOp.Mul t x y }
{
    if is_signed(t) {
        settle(Undef::Overflow, t, x * y)
    } else {
        let product = x as u128 * y as u128;
        Ok(from_representation(t, product & mask(t)))
    }
}

fn divide(t: IntType, x: i128, y: i128) -> Result<i128, Undef>
    requires left { InRange t x }
    requires right { InRange t y }
    ensures { result ≡ arith_of BinOp.Div t x y }
{
    if is_divisible(t, x, y) {
        Ok(x / y)
    } else {
        Err(Undef::Division)
    }
}

fn remainder(t: IntType, x: i128, y: i128) -> Result<i128, Undef>
    requires left { InRange t x }
    requires right { InRange t y }
    ensures { result ≡ arith_of BinOp.Rem t x y }
{
    if is_divisible(t, x, y) {
        Ok(x % y)
    } else {
        Err(Undef::Division)
    }
}

fn is_divisible(t: IntType, x: i128, y: i128) -> bool
    requires left { InRange t x }
    requires right { InRange t y }
    ensures { result ≡ is_divisible t x y }
{
    y != 0 && in_range(t, x / y)
}

fn shift_left(t: IntType, x: i128, y: i128) -> Result<i128, Undef>
    requires { InRange t x }
    ensures { result ≡ arith_of BinOp.Shl t x y }
{
    let by = amount(t, y)?;
    if x < 0 {
        return Err(Undef::Shift);
    }
    settle(Undef::Shift, t, x << by)
}

fn shift_right(t: IntType, x: i128, y: i128) -> Result<i128, Undef>
    ensures { result ≡ arith_of BinOp.Shr t x y }
{
    let by = amount(t, y)?;
    Ok(x >> by)
}

// The amount of a shift, if it is from 0 to the width less one.
fn amount(t: IntType, y: i128) -> Result<u32, Undef>
    ensures { result ≡ (if is_amount t y then Ok (unsigned_abs y) else Err Undef.Shift) }
{
    if 0 <= y && y < i128::from(bits(t)) {
        Ok(y as u32)
    } else {
        Err(Undef::Shift)
    }
}
