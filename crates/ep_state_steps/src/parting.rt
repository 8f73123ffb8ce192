//! Shared cells of a state come apart.

ghost use Rattle.std.specs.Prelude.{◌≡◌, ◌++◌, map, IfOk};
ghost use Rattle.ep_reads.specs.Single.{facing, shared_where, on_left_alone};
ghost use Rattle.ep_state_looks.specs.Looks.{met_by};
ghost use Rattle.ep_state_steps.specs.Met.{met_by_any};
ghost use Rattle.ep_state_steps.specs.Ones.{parted_at};
ghost use Rattle.ep_state_steps.specs.Rounds.{FacesMore};

use crate::runs::places_facing;
use ep_bicells::changes::Step;
use ep_bitslice::Side;
use ep_cell_rows::rows::push;
use ep_cell_rows::values::{copy_boxed, copy_value};
use ep_cells::{ByteRange, Cell};
use ep_domain::Num;
use ep_int::Memory;
use ep_state_looks::looking::met;
use ep_states::State;

fn part<N: Num>(state: State<N>, p: ByteRange) -> Result<State<N>, Memory>
    ensures { IfOk result (λ s. s ≡ parted_at (met_by state.model p) state) }
{
    state.model();
    let step = Step::Unshare(p);
    let none = Vec::new(state.allocator());
    let after = state.after(&step, none)?;
    Ok(after)
}

fn left_alone<N: Num>(x: &Cell<N>) -> Result<Cell<N>, Memory>
    ensures { IfOk result (λ c. c ≡ on_left_alone x.now) }
{
    Ok(Cell {
        side: Side::Left,
        block: x.block,
        offset: x.offset,
        what: x.what,
        value: copy_value(&x.value)?,
        maybe: x.maybe,
        form: copy_boxed(&x.form)?,
    })
}

fn push_lefts<N: Num>(out: &mut Vec<Cell<N>>, zs: &[Cell<N>]) -> Result<(), Memory>
    ensures { IfOk result (λ _. out.new.items ≡ out.old.items ++ map on_left_alone zs.now) }
{
    for z in zs {
        push(out, left_alone(z)?)?;
    }
    Ok(())
}

/// A state whose cells came apart, and those of them as cells of the left side.
#[derive(Drop)]
pub struct Parted<N> {
    pub state: State<N>,
    pub lefts: Vec<Cell<N>>,
}

fn part_at<N: Num>(sofar: Parted<N>, p: &ByteRange) -> Result<Parted<N>, Memory>
    ensures state { IfOk result (λ n. n.state ≡ parted_at (met_by sofar.state.model p.now) sofar.state) }
    ensures lefts { IfOk result (λ n. n.lefts.items ≡ sofar.lefts.items
        ++ map on_left_alone (shared_where (met_by sofar.state.model p.now) sofar.state.cells)) }
{
    let mut lefts = sofar.lefts;
    let zs = met(&sofar.state, p)?;
    push_lefts(&mut lefts, &zs)?;
    let state = part(sofar.state, *p)?;
    Ok(Parted { state, lefts })
}

fn part_at_each<N: Num>(state: State<N>, places: &[ByteRange]) -> Result<Parted<N>, Memory>
    ensures state { IfOk result (λ p. p.state ≡ parted_at (met_by_any state.model places.now) state) }
    ensures faces { IfOk result (λ p. FacesMore state.model state.cells p.state.cells p.lefts.items) }
{
    let lefts = Vec::new(state.allocator());
    let mut sofar = Parted { state, lefts };
    for p in places {
        let next = part_at(sofar, p)?;
        sofar = next;
    }
    sofar.state.model();
    Ok(sofar)
}

/// Parts each Shared cell that faces one of these cells: at once where those lie next to one another.
pub fn part_facing<N: Num>(state: State<N>, ys: &[Cell<N>]) -> Result<Parted<N>, Memory>
    ensures state { IfOk result (λ p. p.state ≡ parted_at (facing state.model ys.now) state) }
    ensures faces { IfOk result (λ p. FacesMore state.model state.cells p.state.cells p.lefts.items) }
{
    let model = state.model();
    let places = places_facing(state.allocator(), model, ys)?;
    let parted = part_at_each(state, &places)?;
    Ok(parted)
}
