//! Operators of two values, by their marks.

ghost use Rattle.std.specs.Prelude.{◌≡◌};
ghost use Rattle.ep_ast.specs.Mark.{mark_number};
ghost use Rattle.ep_typing.specs.Operators as rule;
ghost use Rattle.ep_typing.specs.Results.{at};
ghost use Rattle.ep_operands.specs.Refinement.{Refines};
ghost use Rattle.ep_operands.specs.View as view;

use crate::numbers::{arithmetic, shifted};
use ep_ast::{Halt, Mark};
use ep_comparisons::{both, either, equated, ordered};
use ep_int::{BinOp, Cmp};
use ep_layout::Types;
use ep_operands::{Value, is_integer, is_pointer};
use ep_places::moved;
use std::alloc::Global;

// `+`, with the pointer on either side.
#[tactic(auto, unfolding(ep_typing::specs::Operators::added))]
fn added(alloc: Global, types: &Types, line: u32, a: Value, b: Value) -> Result<Value, Halt>
    ensures { Refines view.value (at line (rule.added types.now (view.value a) (view.value b))) result }
{
    if is_pointer(a.ty) & is_integer(b.ty) {
        return moved(alloc, types, line, a, b, false);
    }
    if is_integer(a.ty) & is_pointer(b.ty) {
        return moved(alloc, types, line, b, a, false);
    }
    arithmetic(alloc, line, BinOp::Add, a, b)
}

// `-`, with the pointer on the left.
#[tactic(auto, unfolding(ep_typing::specs::Operators::subtracted))]
fn subtracted(alloc: Global, types: &Types, line: u32, a: Value, b: Value) -> Result<Value, Halt>
    ensures { Refines view.value (at line (rule.subtracted types.now (view.value a) (view.value b))) result }
{
    if is_pointer(a.ty) & is_integer(b.ty) {
        return moved(alloc, types, line, a, b, true);
    }
    arithmetic(alloc, line, BinOp::Sub, a, b)
}

fn binary_of(mark: Mark) -> BinOp
    ensures { result ≡ rule.binary_of (mark_number mark) }
{
    match mark {
        Mark::Star => BinOp::Mul,
        Mark::Slash => BinOp::Div,
        Mark::Percent => BinOp::Rem,
        Mark::Ampersand => BinOp::And,
        Mark::Bar => BinOp::Or,
        _ => BinOp::Xor,
    }
}

fn is_ordering(mark: Mark) -> bool
    ensures { result ≡ rule.is_ordering (mark_number mark) }
{
    matches!(
        mark,
        Mark::Less | Mark::Greater | Mark::LessEqual | Mark::GreaterEqual
    )
}

fn ordering_of(mark: Mark) -> Cmp
    ensures { result ≡ rule.ordering_of (mark_number mark) }
{
    match mark {
        Mark::Less => Cmp::Lt,
        Mark::Greater => Cmp::Gt,
        Mark::LessEqual => Cmp::Le,
        _ => Cmp::Ge,
    }
}

// An operator that takes numbers alone.
#[tactic(auto, unfolding(ep_typing::specs::Operators::operated_on_numbers))]
fn operated_on_numbers(
    alloc: Global,
    line: u32,
    mark: Mark,
    a: Value,
    b: Value,
) -> Result<Value, Halt>
    ensures { Refines view.value (at line
        (rule.operated_on_numbers (mark_number mark) (view.value a) (view.value b))) result }
{
    if mark == Mark::LeftShift {
        return shifted(alloc, line, BinOp::Shl, a, b);
    }
    if mark == Mark::RightShift {
        return shifted(alloc, line, BinOp::Shr, a, b);
    }
    arithmetic(alloc, line, binary_of(mark), a, b)
}

// An operator that compares, or joins truths.
#[tactic(auto, unfolding(ep_typing::specs::Operators::decided))]
fn decided(alloc: Global, line: u32, mark: Mark, a: Value, b: Value) -> Result<Value, Halt>
    ensures { Refines view.value (at line (rule.decided (mark_number mark) (view.value a) (view.value b))) result }
{
    if mark == Mark::EqualEqual {
        return equated(alloc, line, Cmp::Eq, a, b);
    }
    if mark == Mark::NotEqual {
        return equated(alloc, line, Cmp::Ne, a, b);
    }
    if mark == Mark::AndAnd {
        return both(alloc, line, a, b);
    }
    if mark == Mark::BarBar {
        return either(alloc, line, a, b);
    }
    ordered(alloc, line, ordering_of(mark), a, b)
}

fn decides(mark: Mark) -> bool
    ensures { result ≡ rule.decides (mark_number mark) }
{
    matches!(
        mark,
        Mark::EqualEqual | Mark::NotEqual | Mark::AndAnd | Mark::BarBar
    ) | is_ordering(mark)
}

/// An operator of two values, by its mark.
#[tactic(auto, unfolding(ep_typing::specs::Operators::operated))]
pub fn operated(
    alloc: Global,
    types: &Types,
    line: u32,
    mark: Mark,
    a: Value,
    b: Value,
) -> Result<Value, Halt>
    ensures { Refines view.value (at line
        (rule.operated types.now (mark_number mark) (view.value a) (view.value b))) result }
{
    if mark == Mark::Plus {
        return added(alloc, types, line, a, b);
    }
    if mark == Mark::Minus {
        return subtracted(alloc, types, line, a, b);
    }
    if decides(mark) {
        return decided(alloc, line, mark, a, b);
    }
    operated_on_numbers(alloc, line, mark, a, b)
}
