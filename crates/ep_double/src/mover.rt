//! Byte movers.

ghost use Rattle.std.specs.Prelude.{◌≡◌, IfOk, Ok};
ghost use Rattle.std.specs.Option.{option_map};
ghost use Rattle.ep_core.specs.Exec.{is_order};
ghost use Rattle.ep_core.specs.ProgramView.{program_view};
ghost use Rattle.ep_core.specs.View.{dest_view, expr_view, place_view, stmts_view, what_view};
ghost use Rattle.ep_movers.specs.Forms.{block_of};
ghost use Rattle.ep_movers.specs.Movers as move;
ghost use Rattle.ep_movers.specs.Symbols.{goes_on};
ghost use Rattle.ep_double.specs.ByteStates as rule;

mod bytes;
mod form;
mod memory;
mod numbers;

use crate::mover::bytes::{ByteState, NumberBytes, fixed, moved, operated};
use crate::mover::form::{block_of, constant, has_moving_form};
use crate::mover::memory::{ByteHeld, Memory, first_memory, load, place_of, show, take, write};
use crate::mover::numbers::bits_of;
use ep_core::program::CoreProgram;
use ep_core::tree::{Dest, Expr, Place, Stmt, What};
use ep_int::{IntType, Order, Scalar};
use ep_movers::Stop;
use std::alloc::{AllocError, Global};

/// Whether all that a program does, on machines of these orders, is to put the bytes of its inputs together anew and to
/// put them out, and no byte is written twice. Memory is in proportion to the objects' bytes, and time to these, the
/// text, and the bytes that each `ep_read` and `ep_write` names.
pub fn is_mover(alloc: Global, p: &CoreProgram, a: Order, b: Order) -> Result<bool, AllocError>
    ensures { IfOk result (λ r. r ≡ move.is_mover_text (program_view p.now) a b) }
{
    if !has_moving_form(p) {
        return Ok(false);
    }
    let first = moves_on(alloc, p, a)?;
    if !first {
        return Ok(false);
    }
    let second = moves_on(alloc, p, b)?;
    Ok(second)
}

// Whether a machine of this order does nothing that movers don't do.
fn moves_on(alloc: Global, p: &CoreProgram, order: Order) -> Result<bool, AllocError>
    ensures { IfOk result (λ r. r ≡ move.moves_on order (program_view p.now)) }
{
    let at = p.main as usize;
    if at >= p.functions.len() {
        return Ok(false);
    }
    let main = &p.functions[at];
    let mut m = first_memory(alloc, order, p, main.result)?;
    let end = do_all(order, &mut m, &main.body);
    Ok(is_moved(end))
}

fn is_moved(end: Result<(), Stop>) -> bool
    ensures { (m : rule.States) → result ≡ rule.is_moved (rule.left end m) }
{
    match end {
        Ok(()) => true,
        Err(stop) => match stop {
            Stop::Foreign => false,
            Stop::Faulty => true,
        },
    }
}

#[cycle(statements)]
fn do_all(order: Order, m: &mut Memory, body: &[Stmt]) -> Result<(), Stop>
    ensures { rule.left result (rule.states_in m.new.items)
        ≡ rule.move_all order (stmts_view body.now) (rule.states_in m.old.items) }
{
    for s in body {
        do_one(order, m, &s.what)?;
    }
    Ok(())
}

#[cycle(statements)]
fn do_one(order: Order, m: &mut Memory, what: &What) -> Result<(), Stop>
    ensures { rule.left result (rule.states_in m.new.items)
        ≡ rule.move_what order (what_view what.now) (rule.states_in m.old.items) }
{
    match what {
        What::Nothing => Ok(()),
        What::Assign(what, a, e) => assign(order, m, *what, a, e),
        What::Input(t, d) => input(order, m, *t, d),
        What::Output(_, e) => output(order, m, e),
        What::ReadBytes(e, n) => read_bytes(m, e, *n),
        What::WriteBytes(e, n) => show(m, e, *n),
        What::ByOrder(named, a, b) => {
            if is_same_order(order, *named) {
                do_all(order, m, a)
            } else {
                do_all(order, m, b)
            }
        }
        _ => Err(Stop::Foreign),
    }
}

fn is_same_order(a: Order, b: Order) -> bool
    ensures { result ≡ is_order a b }
{
    a == b
}

fn assign(order: Order, m: &mut Memory, what: Scalar, a: &Place, e: &Expr) -> Result<(), Stop>
    ensures { rule.left result (rule.states_in m.new.items)
        ≡ rule.assign_states order what (place_view a.now) (expr_view e.now) (rule.states_in m.old.items) }
{
    match what {
        Scalar::Pointer => Err(Stop::Foreign),
        Scalar::Int(t) => {
            let at = place_of(a)?;
            let value = number(order, m, e)?;
            let value = moved(&value, 0, 0, ep_int::bytes(t) as usize);
            write(order, m, t, at, &value)
        }
    }
}

fn input(order: Order, m: &mut Memory, t: IntType, dest: &Option<Dest>) -> Result<(), Stop>
    ensures { rule.left result (rule.states_in m.new.items)
        ≡ rule.take_input order t (option_map dest_view dest.now) (rule.states_in m.old.items) }
{
    match dest {
        None => Err(Stop::Foreign),
        Some(d) => {
            let at = place_of(&d.place)?;
            let value = [ByteState::Other; 8];
            write(order, m, t, at, &value[..ep_int::bytes(t) as usize])
        }
    }
}

fn output(order: Order, m: &[Vec<ByteHeld>], e: &Expr) -> Result<(), Stop>
    ensures { rule.left result (rule.states_in m.now)
        ≡ goes_on (rule.states order (rule.states_in m.now) (expr_view e.now)) (λ xs. Ok (rule.states_in m.now)) }
{
    let _value = number(order, m, e)?;
    Ok(())
}

fn read_bytes(m: &mut Memory, e: &Expr, count: u32) -> Result<(), Stop>
    ensures { rule.left result (rule.states_in m.new.items)
        ≡ goes_on (move.block_at (block_of (expr_view e.now)))
        (λ b. rule.take_states b 0 count (rule.states_in m.old.items)) }
{
    match block_of(e) {
        None => Err(Stop::Foreign),
        Some(b) => take(m, b, count),
    }
}

// The bytes of an expression.
fn number(order: Order, m: &[Vec<ByteHeld>], e: &Expr) -> Result<NumberBytes, Stop>
    ensures { rule.shown_number result ≡ rule.states order (rule.states_in m.now) (expr_view e.now) }
{
    match e {
        Expr::Const(t, v) => Ok(fixed(bits_of(*v), ep_int::bytes(*t))),
        Expr::Load(what, a) => loaded(order, m, *what, a),
        Expr::Bin(op, _, a, b) => {
            let xs = number(order, m, a)?;
            let ys = number(order, m, b)?;
            operated(*op, (constant(a), constant(b)), &xs, &ys)
        }
        Expr::Convert(t, e) => {
            let xs = number(order, m, e)?;
            Ok(moved(&xs, 0, 0, ep_int::bytes(*t) as usize))
        }
        _ => Err(Stop::Foreign),
    }
}

fn loaded(order: Order, m: &[Vec<ByteHeld>], what: Scalar, a: &Place) -> Result<NumberBytes, Stop>
    ensures { rule.shown_number result
        ≡ rule.loaded_states_from order (rule.states_in m.now) what (place_view a.now) }
{
    match what {
        Scalar::Pointer => Err(Stop::Foreign),
        Scalar::Int(t) => {
            let at = place_of(a)?;
            load(order, m, t, at)
        }
    }
}
