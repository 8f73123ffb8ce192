//! Left and Right cells of a state that begin at one offset and are surely the same.

ghost use Rattle.std.specs.Prelude.{◌≡◌, Some, map, IfOk};
ghost use Rattle.std.specs.Option.{option_map};
ghost use Rattle.ep_state_looks.specs.Looks.{same_twins as twins_of, twins_at};

use ep_bitslice::Side;
use ep_cell_changes::reshare::are_same;
use ep_cell_rows::cell::copy_cell;
use ep_cells::Cell;
use ep_domain::Num;
use ep_int::Memory;
use ep_states::State;

/// A Left and a Right cell that begin at one offset and are surely the same.
#[derive(Drop)]
pub struct Twins<N> {
    pub left: Cell<N>,
    pub right: Cell<N>,
}

fn both_same<N: Num>(l: &Cell<N>, r: &Cell<N>) -> Result<Option<Twins<N>>, Memory>
    ensures { IfOk result (λ o. o ≡ twins_of N.ops (Some l.now) (Some r.now)) }
{
    if are_same(l, r) {
        Ok(Some(Twins {
            left: copy_cell(l)?,
            right: copy_cell(r)?,
        }))
    } else {
        Ok(None)
    }
}

fn same_as<N: Num>(l: &Cell<N>, r: Option<&Cell<N>>) -> Result<Option<Twins<N>>, Memory>
    ensures { IfOk result (λ o. o ≡ twins_of N.ops (Some l.now) (option_map (λ c. c.now) r.entry)) }
{
    match r {
        None => Ok(None),
        Some(r) => both_same(l, r),
    }
}

fn same_twins<N: Num>(l: Option<&Cell<N>>, r: Option<&Cell<N>>) -> Result<Option<Twins<N>>, Memory>
    ensures { IfOk result (λ o. o
        ≡ twins_of N.ops (option_map (λ c. c.now) l.entry) (option_map (λ c. c.now) r.entry)) }
{
    match l {
        None => Ok(None),
        Some(l) => same_as(l, r),
    }
}

/// The Left and the Right cell that begin at an offset, if both are there and surely the same. Costs a search for
/// each.
pub fn twins_at<N: Num>(
    state: &State<N>,
    block: u32,
    offset: u32,
) -> Result<Option<Twins<N>>, Memory>
    ensures { IfOk result (λ o. o ≡ twins_at N.ops block offset state.now.cells) }
{
    let l = state.cell_from(Side::Left, block, offset);
    let r = state.cell_from(Side::Right, block, offset);
    let twins = same_twins(l, r)?;
    Ok(twins)
}
