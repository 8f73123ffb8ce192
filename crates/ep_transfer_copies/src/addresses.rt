//! A copy between the places of two addresses, and what may go wrong with it.

ghost use Rattle.std.specs.Prelude.{◌≡◌, ◌&&◌, ◌++◌, IfOk, OnOk, IfSome};
ghost use Rattle.std.specs.Option.{option_map};
ghost use Rattle.ep_cells.specs.Kill.{AreLeavesIn};
ghost use Rattle.ep_equalities.specs.Same.{is_same};
ghost use Rattle.ep_transfers.specs.Copies.{overlap_faults};
ghost use Rattle.ep_transfers.specs.Places.{range_faults};
ghost use Rattle.ep_transfers.specs.Transfers as spec;

use crate::copies::{copied, is_aggregate};
use ep_domain::Num;
use ep_equalities::{Fault, Mode, PairValue, same};
use ep_int::Memory;
use ep_layout::Leaf;
use ep_states::State;
use ep_transfer_overlaps::{can_copy, overlap_faults};
use ep_transfer_places::faults::range_faults;
use ep_transfer_places::places::run_places;

// Those of the target, of the source, and that both may overlap.
fn copy_faults<N: Num>(
    mode: Mode,
    sizes: &[u32],
    bytes: u32,
    aggregate: bool,
    to: &PairValue<N>,
    from: &PairValue<N>,
    faults: &mut Vec<Fault>,
) -> Result<(), Memory>
    ensures { IfOk result (λ _. faults.new.items ≡ faults.old.items
        ++ (range_faults N.ops sizes.now mode bytes to.now ++ (range_faults N.ops sizes.now mode bytes from.now
        ++ overlap_faults N.ops sizes.now mode aggregate bytes to.now from.now))) }
{
    range_faults(mode, sizes, bytes, to, faults)?;
    range_faults(mode, sizes, bytes, from, faults)?;
    overlap_faults(mode, aggregate, bytes, to, from, faults)
}

fn are_same<N: Num>(to: &PairValue<N>, from: &PairValue<N>) -> bool
    ensures { result ≡ (is_same N.ops to.now && is_same N.ops from.now) }
{
    same(to) && same(from)
}

/// Bytes go from the places of one address to those of another: of an aggregate with its leaves, of bytes with none.
/// None is left where on a running side no place that is written and no place that is read are apart. The faults are
/// added to those that are there. From one place to one it costs in proportion to the bytes; an aggregate at several
/// places costs a write for each leaf or byte.
pub fn copy<N: Num>(
    mode: Mode,
    sizes: &[u32],
    bytes: u32,
    leaves: Option<&[Leaf]>,
    to: &PairValue<N>,
    from: &PairValue<N>,
    state: State<N>,
    faults: &mut Vec<Fault>,
) -> Result<Option<State<N>>, Memory>
    requires leaves { IfSome leaves (λ ls. AreLeavesIn state.model 0 bytes ls.now) }
    ensures next { IfOk result (λ r. r ≡ (spec.copy N.ops sizes.now mode bytes (option_map (λ ls. ls.now) leaves.entry)
        to.now from.now state).next) }
    ensures faults { OnOk result (faults.new.items ≡ faults.old.items
        ++ (spec.copy N.ops sizes.now mode bytes (option_map (λ ls. ls.now) leaves.entry) to.now from.now
        state).faults) }
{
    let aggregate = is_aggregate(leaves);
    copy_faults(mode, sizes, bytes, aggregate, to, from, faults)?;
    let written = run_places(state.allocator(), sizes, bytes, to)?;
    let read = run_places(state.allocator(), sizes, bytes, from)?;
    if !can_copy::<N>(mode, aggregate, bytes, &written, &read) {
        return Ok(None);
    }
    let joint = are_same(to, from);
    let after = copied(mode, joint, leaves, &written, &read, bytes, state)?;
    Ok(Some(after))
}
