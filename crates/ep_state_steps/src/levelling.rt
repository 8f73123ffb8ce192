//! Cells of two states that cells of the other one cross, and those that it lacks.

ghost use Rattle.std.specs.Prelude.{◌≡◌, IfOk};
ghost use Rattle.ep_reads.specs.Unify.{uncrossed, had_by_both};
ghost use Rattle.ep_reads.specs.Single.{without_like};

use crate::crossing::cross_all;
use crate::lacking::drop_all;
use crate::turns::are_none;
use crate::two::States;
use ep_domain::Num;
use ep_int::Memory;
use ep_state_looks::beside::{LackedCells, differences};
use ep_state_looks::looking::crossed;
use ep_states::State;

fn drop_these<N: Num>(
    a: State<N>,
    b: State<N>,
    lacked: &LackedCells<N>,
) -> Result<States<N>, Memory>
    requires first { lacked.now.left.items ≡ without_like b.cells a.cells }
    requires second { lacked.now.right.items ≡ without_like a.cells b.cells }
    ensures first { IfOk result (λ s. s.left ≡ record a { cells = had_by_both b.cells a.cells }) }
    ensures second { IfOk result (λ s. s.right ≡ record b { cells = had_by_both a.cells b.cells }) }
{
    a.model();
    b.model();
    let left = drop_all(a, &lacked.left)?;
    let right = drop_all(b, &lacked.right)?;
    Ok(States { left, right })
}

fn drop_both<N: Num>(a: State<N>, b: State<N>) -> Result<States<N>, Memory>
    ensures first { IfOk result (λ s. s.left ≡ record a { cells = had_by_both b.cells a.cells }) }
    ensures second { IfOk result (λ s. s.right ≡ record b { cells = had_by_both a.cells b.cells }) }
{
    let lacked = differences(&a, &b)?;
    let both = drop_these(a, b, &lacked)?;
    Ok(both)
}

/// Each cell of both that cells of the other one cross comes apart, or is gone. Then cells of both that the other one
/// lacks are gone. Costs a look at all cells, and a step for each of those.
pub fn level_both<N: Num>(a: State<N>, b: State<N>) -> Result<States<N>, Memory>
    requires { a.model ≡ b.model }
    ensures first { IfOk result (λ s. s.left ≡ record a {
      cells
          = had_by_both (uncrossed N.ops b a.cells b.cells) (uncrossed N.ops a b.cells a.cells);
    }) }
    ensures second { IfOk result (λ s. s.right ≡ record b {
      cells
          = had_by_both (uncrossed N.ops a b.cells a.cells) (uncrossed N.ops b a.cells b.cells);
    }) }
{
    a.model();
    b.model();
    let lacked = differences(&a, &b)?;
    let lefts = crossed(&b, &lacked.left)?;
    let rights = crossed(&a, &lacked.right)?;
    if are_none(&lefts, &rights) {
        let same = drop_these(a, b, &lacked)?;
        return Ok(same);
    }
    let left = cross_all(a, &lefts)?;
    let right = cross_all(b, &rights)?;
    let both = drop_both(left, right)?;
    Ok(both)
}
