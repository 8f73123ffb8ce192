//! Rounds of one operation.

ghost use Rattle.std.specs.Prelude.{◌≡◌, IsTrue};
ghost use Rattle.ep_int.specs.declared.types.Model.TheVariants.{Ilp32};
ghost use Rattle.ep_int.specs.declared.types.Order.TheVariants.{Little, Big};

use crate::making::{Numbers, OTHER_BLOCK, cell, place, single, state, states, weaken, write};
use crate::rows::{Operation, Row};
use ep_bitslice::Side;
use ep_cells::ByteRange;
use ep_int::{Memory, Model, Order};
use ep_state_steps::reshare_all;
use ep_state_synthesis::{split, unify};
use ep_states::State;
use std::alloc::Global;
use std::mem;

#[derive(Drop)]
pub(crate) struct Work {
    first: State<Numbers>,
    second: State<Numbers>,
}

pub(crate) fn begin(alloc: Global, row: &Row) -> Result<Work, Memory> {
    let (first, second) = states(alloc, row)?;
    Ok(Work { first, second })
}

fn write_all(state: &mut State<Numbers>, row: &Row, i: u32) -> Result<(), Memory> {
    for at in 0..row.cells {
        write(state, cell(row.lay, Side::Shared, at, single(i)))?;
    }
    Ok(())
}

fn weaken_all(state: &mut State<Numbers>, row: &Row, i: u32) -> Result<(), Memory> {
    for at in 0..row.cells {
        weaken(state, &cell(row.lay, Side::Shared, at, single(i)))?;
    }
    Ok(())
}

// As all states of the rows are made.
fn is_usual(state: &State<Numbers>) -> bool
    ensures orders { IsTrue result → state.now.orders ≡ (Little, Big) }
    ensures model { IsTrue result → state.now.model ≡ Ilp32 }
{
    let orders = state.orders();
    matches!(state.model(), Model::Ilp32)
        & (matches!(orders.0, Order::Little) & matches!(orders.1, Order::Big))
}

fn unify_join(first: &State<Numbers>, second: &State<Numbers>) -> Result<(), Memory> {
    let mut a = first.copy()?;
    let mut b = second.copy()?;
    if !(is_usual(&a) && is_usual(&b)) {
        return Err(Memory);
    }
    unify(&mut a, &mut b)?;
    a.join(&b)?;
    Ok(())
}

// With the test that both have cells alike, which joins ask for.
fn unite(a: &State<Numbers>, b: &State<Numbers>, widens: bool) -> Result<(), Memory> {
    if !(is_usual(a) && is_usual(b) && a.is_like(b)) {
        return Err(Memory);
    }
    if widens {
        a.widen(b)?;
    } else {
        a.join(b)?;
    }
    Ok(())
}

fn split_copy(state: &State<Numbers>, row: &Row, at: u32) -> Result<(), Memory> {
    let mut copy = state.copy()?;
    let (block, offset) = place(row.lay, at);
    split(&mut copy, Side::Left, block, offset, 1)
}

fn reshare_copy(state: &State<Numbers>) -> Result<(), Memory> {
    reshare_all(state.copy()?)?;
    Ok(())
}

fn reshare_own(work: &mut Work) -> Result<(), Memory> {
    let alloc = work.first.allocator();
    let none = State::empty(alloc, (Order::Little, Order::Big), Model::Ilp32);
    let state = mem::replace(&mut work.first, none);
    work.first = reshare_all(state)?;
    Ok(())
}

fn blur_copy(state: &State<Numbers>, row: &Row) -> Result<(), Memory> {
    let mut copy = state.copy()?;
    copy.blur(ByteRange {
        side: Side::Shared,
        block: 0,
        offset: 0,
        bytes: row.cells,
    })
}

fn kill_copy(state: &State<Numbers>, block: u32, bytes: u32) -> Result<(), Memory> {
    let mut copy = state.copy()?;
    copy.kill_block(Side::Shared, block, &[], bytes)
}

fn said(truth: bool) -> Result<(), Memory> {
    if truth { Ok(()) } else { Err(Memory) }
}

fn once(work: &mut Work, row: &Row, i: u32) -> Result<(), Memory> {
    let at = (i.wrapping_mul(7919)) % row.cells.max(1);
    let c = cell(row.lay, Side::Shared, at, single(i));
    match row.operation {
        Operation::Hold => Ok(()),
        Operation::Make => {
            state(work.first.allocator(), row)?;
            Ok(())
        }
        Operation::Copy => {
            work.first.copy()?;
            Ok(())
        }
        Operation::Write => write(&mut work.first, c),
        Operation::WriteAll => write_all(&mut work.first, row, i),
        Operation::Weaken => weaken(&mut work.first, &c),
        Operation::WeakenAll => weaken_all(&mut work.first, row, i),
        Operation::Blur => blur_copy(&work.first, row),
        Operation::Enter => kill_copy(&work.first, OTHER_BLOCK, row.cells),
        Operation::KillSmall => kill_copy(&work.first, OTHER_BLOCK, 4),
        Operation::KillBlock => kill_copy(&work.first, 0, row.cells),
        Operation::Split => split_copy(&work.first, row, at),
        Operation::Reshare => reshare_copy(&work.first),
        Operation::ReshareOwn => reshare_own(work),
        Operation::Join => unite(&work.first, &work.second, false),
        Operation::Widen => unite(&work.first, &work.second, true),
        Operation::UnifyJoin => unify_join(&work.first, &work.second),
        Operation::Leq => said(work.first.leq(&work.second)),
        Operation::Like => said(work.first.is_like(&work.second)),
        Operation::Same => said(work.first.is_same(&work.second)),
        Operation::CanWrite => said(work.first.can_write(&c)?),
    }
}

/// How many rounds went well.
pub(crate) fn run(work: &mut Work, row: &Row) -> u32 {
    let mut done = 0;
    for i in 0..row.rounds {
        if once(work, row, i).is_ok() {
            done += 1;
        }
    }
    done
}
