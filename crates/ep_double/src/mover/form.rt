//! Which texts movers have.

ghost use Rattle.std.specs.Prelude.{◌≡◌, ◌&&◌, ◌||◌, ℕ, map, slice_get, Some, false};
ghost use Rattle.std.specs.Option.{option_map, option_map_or};
ghost use Rattle.ep_core.specs.Program.{Stmts, addr_of, block, element, load, more};
ghost use Rattle.ep_core.specs.Runs.{is_result as is_result_of};
ghost use Rattle.ep_core.specs.ProgramView.{program_view};
ghost use Rattle.ep_core.specs.View.{block_view, dest_view, expr_view, function_view, place_view, stmts_view};
ghost use Rattle.ep_core.specs.View.{what_view};
ghost use Rattle.ep_movers.specs.Forms as form;
ghost use Rattle.ep_movers.specs.Symbols as symbol;

use crate::mover::numbers::{is_byte_amount, is_mask};
use ep_core::program::{BlockInfo, CoreProgram, Function};
use ep_core::tree::{Dest, Expr, Place, Stmt, What};
use ep_int::{BinOp, IntType, Scalar, bytes, is_signed, wrap};
use ep_layout::{Ty, Types};

/// Whether main is alone, and has blocks, statements and expressions that movers have, also those that no machine
/// comes to.
pub(crate) fn has_moving_form(p: &CoreProgram) -> bool
    ensures { result ≡ form.has_moving_form (program_view p.now) }
{
    if p.functions.len() != 1 {
        return false;
    }
    has_moving_main(p, &p.functions[0])
}

fn has_moving_main(p: &CoreProgram, main: &Function) -> bool
    ensures { result ≡ (form.are_moved_blocks p.now.types main.now.result 0 (program_view p.now).blocks
        && form.are_moving (program_view p.now) (function_view main.now).body) }
{
    are_moved_blocks(&p.types, main.result, &p.blocks) && are_moving(p, &main.body)
}

fn are_moved_blocks(
    types: &Types,
    result_block: Option<(u32, Scalar)>,
    blocks: &[BlockInfo],
) -> bool
    ensures { result ≡ form.are_moved_blocks types.now result_block 0 (map block_view blocks.now) }
{
    for (n, b) in blocks.iter().enumerate() {
        if !is_result_or_moved(types, result_block, n, b.ty) {
            return false;
        }
    }
    true
}

fn is_result_or_moved(types: &Types, result_block: Option<(u32, Scalar)>, n: usize, ty: u32) -> bool
    ensures { result ≡ (is_result_of result_block n
        || option_map_or (form.is_moved_type types.now) (slice_get types.now.types ty) false) }
{
    is_result(result_block, n) || is_moved_block(types, ty)
}

pub(crate) fn is_result(result_block: Option<(u32, Scalar)>, block: usize) -> bool
    ensures { result ≡ is_result_of result_block block }
{
    match result_block {
        None => false,
        Some((b, _)) => b as usize == block,
    }
}

fn type_at(types: &Types, ty: u32) -> Option<Ty>
    ensures { result ≡ slice_get types.now.types ty }
{
    if ty < types.type_count() {
        Some(*types.ty(ty))
    } else {
        None
    }
}

fn is_moved_block(types: &Types, ty: u32) -> bool
    ensures { result ≡ option_map_or (form.is_moved_type types.now) (slice_get types.now.types ty) false }
{
    match type_at(types, ty) {
        None => false,
        Some(t) => is_moved_type(types, t),
    }
}

fn is_moved_type(types: &Types, t: Ty) -> bool
    ensures { result ≡ form.is_moved_type types.now t }
{
    match t {
        Ty::Void => false,
        Ty::Int(t) => !is_signed(t),
        Ty::Ptr(_) => false,
        Ty::Array(element, _) => is_unsigned_at(types, element),
        Ty::Aggregate(_) => false,
    }
}

fn is_unsigned_at(types: &Types, ty: u32) -> bool
    ensures { result ≡ option_map_or form.is_unsigned (slice_get types.now.types ty) false }
{
    match type_at(types, ty) {
        None => false,
        Some(t) => is_unsigned(t),
    }
}

fn is_unsigned(t: Ty) -> bool
    ensures { result ≡ form.is_unsigned t }
{
    match t {
        Ty::Void => false,
        Ty::Int(t) => !is_signed(t),
        Ty::Ptr(_) => false,
        Ty::Array(_, _) => false,
        Ty::Aggregate(_) => false,
    }
}

/// A constant, converted or not.
pub(crate) fn constant(e: &Expr) -> Option<i128>
    ensures { result ≡ form.constant (expr_view e.now) }
{
    match e {
        Expr::Const(_, v) => Some(*v),
        Expr::Convert(t, e) => match constant(e) {
            None => None,
            Some(v) => Some(wrap(*t, v)),
        },
        _ => None,
    }
}

/// The number of a block, where the place is a block.
pub(crate) fn block_number(a: &Place) -> Option<u32>
    ensures { result ≡ form.block_of (addr_of (place_view a.now)) }
{
    match a {
        Place::Block(b) => Some(*b),
        _ => None,
    }
}

/// The block that a pointer is to, at its begin.
pub(crate) fn block_of(e: &Expr) -> Option<u32>
    ensures { result ≡ form.block_of (expr_view e.now) }
{
    match e {
        Expr::AddrOf(a) => block_number(a),
        _ => None,
    }
}

fn is_moved_place(a: &Place) -> bool
    ensures { result ≡ form.is_moved_place (place_view a.now) }
{
    match a {
        Place::Block(_) => true,
        Place::Element(a, _, _, i) => is_moved_element(a, i),
        _ => false,
    }
}

fn is_moved_element(a: &Place, i: &Expr) -> bool
    ensures { (bound unit : ℕ) → result
        ≡ form.is_moved_place (element (place_view a.now) bound unit (expr_view i.now)) }
{
    match a {
        Place::Block(_) => constant(i).is_some(),
        _ => false,
    }
}

fn is_operated_in(t: IntType) -> bool
    ensures { result ≡ form.is_operated_in t }
{
    match t {
        IntType::U32 | IntType::U64 => true,
        IntType::I8 | IntType::U8 | IntType::I16 | IntType::U16 | IntType::I32 | IntType::I64 =>
            false,
    }
}

fn is_moving_op(op: BinOp, t: IntType, left: Option<i128>, right: Option<i128>) -> bool
    ensures { result ≡ form.is_moving_op op t left right }
{
    match op {
        BinOp::Add => is_operated_in(t),
        BinOp::Or => is_operated_in(t),
        BinOp::Xor => is_operated_in(t),
        BinOp::And => is_operated_in(t) && is_one_mask(left, right),
        BinOp::Shl => is_operated_in(t) && is_byte_amount(t, right),
        BinOp::Shr => is_operated_in(t) && is_byte_amount(t, right),
        BinOp::Sub => false,
        BinOp::Mul => false,
        BinOp::Div => false,
        BinOp::Rem => false,
    }
}

fn is_one_mask(left: Option<i128>, right: Option<i128>) -> bool
    ensures { result ≡ (symbol.is_mask right || symbol.is_mask left) }
{
    is_mask(right) || is_mask(left)
}

fn is_small(t: IntType) -> bool
    ensures { result ≡ form.is_small t }
{
    !is_signed(t) && bytes(t) <= 2
}

fn has_small_type(e: &Expr) -> bool
    ensures { result ≡ form.has_small_type (expr_view e.now) }
{
    match e {
        Expr::Const(t, _) => is_small(*t),
        Expr::Load(what, a) => is_small_load(*what, a),
        Expr::Bin(_, t, _, _) => is_small(*t),
        Expr::Convert(t, _) => is_small(*t),
        _ => false,
    }
}

fn is_small_load(what: Scalar, a: &Place) -> bool
    ensures { result ≡ form.has_small_type (load what (place_view a.now)) }
{
    match what {
        Scalar::Int(t) => is_small(t),
        Scalar::Pointer => false,
    }
}

fn may_convert(t: IntType, e: &Expr) -> bool
    ensures { result ≡ form.may_convert t (expr_view e.now) }
{
    match t {
        IntType::U8 | IntType::U16 | IntType::U32 | IntType::U64 => true,
        IntType::I32 => has_small_type(e),
        IntType::I8 | IntType::I16 | IntType::I64 => false,
    }
}

// A chain of conversions is read once more where an operator asks whether it is a constant.
fn is_moving(e: &Expr) -> bool
    ensures { result ≡ form.is_moving (expr_view e.now) }
{
    match e {
        Expr::Const(_, v) => 0 <= *v,
        Expr::Load(what, a) => is_moved_load(*what, a),
        Expr::Bin(op, t, a, b) => {
            is_moving_op(*op, *t, constant(a), constant(b)) && (is_moving(a) && is_moving(b))
        }
        Expr::Convert(t, e) => may_convert(*t, e) && is_moving(e),
        _ => false,
    }
}

fn is_moved_load(what: Scalar, a: &Place) -> bool
    ensures { result ≡ form.is_moving (load what (place_view a.now)) }
{
    match what {
        Scalar::Int(_) => is_moved_place(a),
        Scalar::Pointer => false,
    }
}

fn is_moved_pointer(e: &Expr) -> bool
    ensures { result ≡ form.is_moved_pointer (expr_view e.now) }
{
    match e {
        Expr::AddrOf(a) => block_number(a).is_some(),
        Expr::PtrAdd(_, back, e, n) => block_of(e).is_some() && (constant(n).is_some() && !*back),
        _ => false,
    }
}

fn is_moved_assignment(what: Scalar, a: &Place, e: &Expr) -> bool
    ensures { result ≡ form.is_moved_assignment what (place_view a.now) (expr_view e.now) }
{
    match what {
        Scalar::Int(_) => is_moved_place(a) && is_moving(e),
        Scalar::Pointer => false,
    }
}

fn are_assignments(body: &[Stmt]) -> bool
    ensures { result ≡ form.are_assignments (stmts_view body.now) }
{
    for s in body {
        if !is_assignment(&s.what) {
            return false;
        }
    }
    true
}

fn is_assignment(what: &What) -> bool
    ensures { (l : ℕ) (rest : Stmts) → form.are_assignments (more l (what_view what.now) rest)
        ≡ (result && form.are_assignments rest) }
{
    match what {
        What::Assign(what, a, e) => is_moved_assignment(*what, a, e),
        _ => false,
    }
}

fn are_moving(p: &CoreProgram, body: &[Stmt]) -> bool
    ensures { result ≡ form.are_moving (program_view p.now) (stmts_view body.now) }
{
    for s in body {
        if !is_moving_what(p, &s.what) {
            return false;
        }
    }
    true
}

fn is_moving_what(p: &CoreProgram, what: &What) -> bool
    ensures { result ≡ form.is_moving_what (program_view p.now) (what_view what.now) }
{
    match what {
        What::Nothing => true,
        What::Assign(what, a, e) => is_moved_assignment(*what, a, e),
        What::Input(t, d) => takes_whole(p, *t, d),
        What::Output(t, e) => !is_signed(*t) && is_moving(e),
        What::ReadBytes(e, n) => is_whole(p, block_of(e), *n),
        What::WriteBytes(e, _) => is_moved_pointer(e),
        What::ByOrder(_, a, b) => two_are_assignments(a, b),
        _ => false,
    }
}

fn two_are_assignments(a: &[Stmt], b: &[Stmt]) -> bool
    ensures { result ≡ (form.are_assignments (stmts_view a.now) && form.are_assignments (stmts_view b.now)) }
{
    are_assignments(a) && are_assignments(b)
}

fn takes_whole(p: &CoreProgram, t: IntType, dest: &Option<Dest>) -> bool
    ensures { result ≡ form.takes_whole (program_view p.now) t (option_map dest_view dest.now) }
{
    match dest {
        None => false,
        Some(d) => !d.cast && is_block_of(p, t, &d.place),
    }
}

fn block_at(p: &CoreProgram, b: u32) -> Option<&BlockInfo>
    ensures { option_map (λ d. block_view d.now) result ≡ slice_get (program_view p.now).blocks b }
{
    p.blocks.get(b as usize)
}

// Whether a place is a block of this type.
fn is_block_of(p: &CoreProgram, t: IntType, a: &Place) -> bool
    ensures { result ≡ form.is_block_of (program_view p.now) t (place_view a.now) }
{
    match a {
        Place::Block(b) => has_int_type(p, t, *b),
        _ => false,
    }
}

fn has_int_type(p: &CoreProgram, t: IntType, b: u32) -> bool
    ensures { result ≡ form.is_block_of (program_view p.now) t (block b) }
{
    match block_at(p, b) {
        None => false,
        Some(d) => is_int_type_at(&p.types, t, d.ty),
    }
}

fn is_int_type_at(types: &Types, t: IntType, ty: u32) -> bool
    ensures { result ≡ option_map_or (form.is_int_type t) (slice_get types.now.types ty) false }
{
    match type_at(types, ty) {
        None => false,
        Some(of) => is_int_type(t, of),
    }
}

fn is_int_type(t: IntType, of: Ty) -> bool
    ensures { result ≡ form.is_int_type t of }
{
    match of {
        Ty::Void => false,
        Ty::Int(k) => bytes(t) == bytes(k) && (!is_signed(t) && !is_signed(k)),
        Ty::Ptr(_) => false,
        Ty::Array(_, _) => false,
        Ty::Aggregate(_) => false,
    }
}

// Whether so many bytes are all of a block.
fn is_whole(p: &CoreProgram, b: Option<u32>, n: u32) -> bool
    ensures { result ≡ form.is_whole (program_view p.now) b n }
{
    match b {
        None => false,
        Some(b) => has_size(p, b, n),
    }
}

fn has_size(p: &CoreProgram, b: u32, n: u32) -> bool
    ensures { result ≡ form.is_whole (program_view p.now) (Some b) n }
{
    match block_at(p, b) {
        None => false,
        Some(d) => d.size == n,
    }
}
