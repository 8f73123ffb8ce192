//! Shared cells of two states that face cells of one side come apart, by turns.

ghost use Rattle.std.specs.Prelude.{◌≡◌, ◌+◌, ◌++◌, [], length, IsTrue, IfOk};
ghost use Rattle.ep_reads.specs.Unify.{parted_both};
ghost use Rattle.ep_reads.specs.StepLaws.{Turning};
ghost use Rattle.ep_state_steps.specs.Rounds.{IsTurned};

use crate::parting::part_facing;
use crate::two::States;
use ep_cell_rows::cell::copy_cell;
use ep_cell_rows::rows::push;
use ep_cells::Cell;
use ep_domain::Num;
use ep_int::Memory;
use ep_state_looks::beside::differences;
use ep_states::State;

fn push_all<N: Num>(out: &mut Vec<Cell<N>>, more: &[Cell<N>]) -> Result<(), Memory>
    ensures { IfOk result (λ _. out.new.items ≡ out.old.items ++ more.now) }
{
    for c in more {
        push(out, copy_cell(c)?)?;
    }
    Ok(())
}

// Two states, and cells for which each is still to be looked at.
#[derive(Drop)]
struct Round<N> {
    left: State<N>,
    right: State<N>,
    for_left: Vec<Cell<N>>,
    for_right: Vec<Cell<N>>,
}

// The first state is looked at for its cells, then the second for its own and for those that came apart. Those that
// came apart then are for the first.
fn turn<N: Num>(now: Round<N>) -> Result<Round<N>, Memory>
    ensures turned { IfOk result (λ t. IsTurned now.left now.right now.for_left.items now.for_right.items t.left t.right
        t.for_left.items) }
    ensures none { IfOk result (λ t. t.for_right.items ≡ []) }
{
    let alloc = now.left.allocator();
    let mut for_right = now.for_right;
    let first = part_facing(now.left, &now.for_left)?;
    push_all(&mut for_right, &first.lefts)?;
    let second = part_facing(now.right, &for_right)?;
    Ok(Round {
        left: first.state,
        right: second.state,
        for_left: second.lefts,
        for_right: Vec::new(alloc),
    })
}

pub(crate) fn are_none<N: Num>(xs: &[Cell<N>], ys: &[Cell<N>]) -> bool
    ensures first { IsTrue result → xs.now ≡ [] }
    ensures second { IsTrue result → ys.now ≡ [] }
{
    if !xs.is_empty() {
        return false;
    }
    ys.is_empty()
}

fn part_by_turns<N: Num>(start: Round<N>, times: usize) -> Result<States<N>, Memory>
    requires model { start.left.model ≡ start.right.model }
    requires times { times ≡ length start.left.cells + length start.right.cells }
    requires turning { Turning start.left.model start.left.cells start.right.cells start.for_left.items
        start.for_right.items }
    ensures first { IfOk result (λ s. s.left ≡ record start.left {
      cells
          = (parted_both start.left.model (start.left.cells, start.right.cells)).0;
    }) }
    ensures second { IfOk result (λ s. s.right ≡ record start.right {
      cells
          = (parted_both start.left.model (start.left.cells, start.right.cells)).1;
    }) }
{
    let mut sofar = start;
    for _ in 0..times {
        if are_none(&sofar.for_left, &sofar.for_right) {
            return Ok(States {
                left: sofar.left,
                right: sofar.right,
            });
        }
        let next = turn(sofar)?;
        sofar = next;
    }
    Ok(States {
        left: sofar.left,
        right: sofar.right,
    })
}

/// Each Shared cell of both that faces a cell of one side of the other state comes apart, again until none does. Costs
/// a look at all cells, and a step for each run of such cells of one side that lie next to one another.
pub fn part_both<N: Num>(a: State<N>, b: State<N>) -> Result<States<N>, Memory>
    requires { a.model ≡ b.model }
    ensures first { IfOk result (λ s. s.left ≡ record a { cells = (parted_both a.model (a.cells, b.cells)).0 }) }
    ensures second { IfOk result (λ s. s.right ≡ record b { cells = (parted_both a.model (a.cells, b.cells)).1 }) }
{
    a.model();
    b.model();
    let lacked = differences(&a, &b)?;
    let start = Round {
        left: a,
        right: b,
        for_left: lacked.right,
        for_right: lacked.left,
    };
    let after = part_by_turns(start, lacked.count)?;
    Ok(after)
}
