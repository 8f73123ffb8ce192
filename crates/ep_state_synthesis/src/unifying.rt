//! Two states come to have cells of the same sides, places and types.

ghost use Rattle.std.specs.Prelude.{◌≡◌, IfOk, OnOk, OnErr, IsTrue};
ghost use Rattle.ep_cells.specs.States.{HaveCellsAlike};
ghost use Rattle.ep_reads.specs.Unify.{unified};
ghost use Rattle.ep_state_synthesis.specs.Calls.{StaysIn};

use ep_domain::Num;
use ep_int::Memory;
use ep_reads::unify_laws;
use ep_state_steps::{States, level_both, part_both, reshare_all};
use ep_states::State;

// Whether both have cells alike of which none are to be reshared, so that they stay.
fn are_unified<N: Num>(a: &State<N>, b: &State<N>) -> Result<bool, Memory>
    requires { a.now.model ≡ b.now.model }
    ensures { IfOk result (λ t. IsTrue t → unified N.ops a.now b.now ≡ (a.now.cells, b.now.cells)) }
{
    a.model();
    b.model();
    match a.left_places_alike(b)? {
        None => Ok(false),
        Some(places) => {
            if !a.is_reshared_at(&places) {
                return Ok(false);
            }
            let is_so = b.is_reshared_at(&places);
            Ok(is_so)
        }
    }
}

fn unified_states<N: Num>(a: State<N>, b: State<N>) -> Result<States<N>, Memory>
    requires orders { a.orders ≡ b.orders }
    requires model { a.model ≡ b.model }
    ensures left { IfOk result (λ s. s.left ≡ record a { cells = (unified N.ops a b).0 }) }
    ensures right { IfOk result (λ s. s.right ≡ record b { cells = (unified N.ops a b).1 }) }
{
    let left = reshare_all(a)?;
    let right = reshare_all(b)?;
    left.model();
    right.model();
    if left.is_like(&right) {
        return Ok(States { left, right });
    }
    let parted = part_both(left, right)?;
    let both = level_both(parted.left, parted.right)?;
    Ok(both)
}

fn unified_copies<N: Num>(a: &State<N>, b: &State<N>) -> Result<States<N>, Memory>
    requires orders { a.now.orders ≡ b.now.orders }
    requires model { a.now.model ≡ b.now.model }
    ensures left { IfOk result (λ s. s.left ≡ record a.now { cells = (unified N.ops a.now b.now).0 }) }
    ensures right { IfOk result (λ s. s.right ≡ record b.now { cells = (unified N.ops a.now b.now).1 }) }
{
    let first = a.copy()?;
    let second = b.copy()?;
    let both = unified_states(first, second)?;
    Ok(both)
}

/// The two states with cells of the same sides, places and types. Where they have such already, and none are to be
/// reshared, both are as they were. Costs a look at all cells of both, and a step for each cell that changes.
pub fn unified<N: Num>(a: State<N>, b: State<N>) -> Result<States<N>, Memory>
    requires orders { a.orders ≡ b.orders }
    requires model { a.model ≡ b.model }
    ensures first { IfOk result (λ s. s.left ≡ record a { cells = (unified N.ops a b).0 }) }
    ensures second { IfOk result (λ s. s.right ≡ record b { cells = (unified N.ops a b).1 }) }
    ensures alike { IfOk result (λ s. HaveCellsAlike s.left.cells s.right.cells) }
    ensures first_holds { IfOk result (λ s. StaysIn N.ops a s.left) }
    ensures second_holds { IfOk result (λ s. StaysIn N.ops b s.right) }
{
    unify_laws::<N>();
    a.model();
    b.model();
    if are_unified(&a, &b)? {
        return Ok(States { left: a, right: b });
    }
    let after = unified_states(a, b)?;
    Ok(after)
}

/// The same, in place. After an error both are as before. Takes a count for each part of both more.
pub fn unify<N: Num>(a: &mut State<N>, b: &mut State<N>) -> Result<(), Memory>
    requires orders { a.old.orders ≡ b.old.orders }
    requires model { a.old.model ≡ b.old.model }
    ensures first { OnOk result (a.new ≡ record a.old { cells = (unified N.ops a.old b.old).0 }) }
    ensures second { OnOk result (b.new ≡ record b.old { cells = (unified N.ops a.old b.old).1 }) }
    ensures alike { OnOk result (HaveCellsAlike a.new.cells b.new.cells) }
    ensures first_holds { OnOk result (StaysIn N.ops a.old a.new) }
    ensures second_holds { OnOk result (StaysIn N.ops b.old b.new) }
    ensures first_err { OnErr result (a.new ≡ a.old) }
    ensures second_err { OnErr result (b.new ≡ b.old) }
{
    unify_laws::<N>();
    a.model();
    b.model();
    if are_unified(a, b)? {
        return Ok(());
    }
    let after = unified_copies(a, b)?;
    *a = after.left;
    *b = after.right;
    Ok(())
}
