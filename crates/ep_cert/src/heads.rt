//! Reading heads.

ghost use Rattle.ep_cert.specs.Reading.{IsStateOf, IsHeadAt, AreHeadsAt};

use crate::opening::Opening;
use ep_cell_changes::check::are_in_order;
use ep_cells::Cell;
use ep_cert_cells::{Numbers, Unread, cells_at, four};
use ep_states::State;
use std::alloc::Global;

// The state of these cells, if they are those of one, as they stand.
fn state_of(
    alloc: Global,
    opening: &Opening,
    cells: Vec<Cell<Numbers>>,
) -> Result<State<Numbers>, Unread>
    ensures { IsStateOf opening.now cells.items result }
{
    if !are_in_order(&cells) {
        return Err(Unread::Misspelled);
    }
    match State::of_cells(alloc, opening.orders, opening.model, cells)? {
        None => Err(Unread::Misspelled),
        Some(state) => {
            state.model();
            Ok(state)
        }
    }
}

fn head_at<'a>(
    alloc: Global,
    opening: &Opening,
    bytes: &'a [u8],
) -> Result<(State<Numbers>, &'a [u8]), Unread>
    ensures { IsHeadAt opening.now (λ p. p.0) (λ p. p.1.now) bytes.now result }
{
    let Some((count, rest)) = four(bytes) else {
        return Err(Unread::Misspelled);
    };
    match cells_at(alloc, count, rest) {
        Err(why) => Err(why),
        Ok((cells, rest)) => match state_of(alloc, opening, cells) {
            Err(why) => Err(why),
            Ok(state) => Ok((state, rest)),
        },
    }
}

/// So many heads as the opening says.
pub(crate) fn heads_at<'a>(
    alloc: Global,
    opening: &Opening,
    bytes: &'a [u8],
) -> Result<(Vec<State<Numbers>>, &'a [u8]), Unread>
    ensures { AreHeadsAt opening.now (λ p. p.0.items) (λ p. p.1.now) opening.now.count bytes.now result }
{
    let mut heads = Vec::new(alloc);
    let mut rest = bytes;
    for _ in 0..opening.count {
        match head_at(alloc, opening, rest) {
            Err(why) => return Err(why),
            Ok((one, behind)) => {
                heads.push(one)?;
                rest = behind;
            }
        }
    }
    Ok((heads, rest))
}
