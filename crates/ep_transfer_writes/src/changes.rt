//! A cell is written at its place, or may be written at each of several.

ghost use Rattle.std.specs.Prelude.{◌≡◌, ◌++◌, ◌∷◌, [], IfOk, None, true, slice_index_or};
ghost use Rattle.ep_cell_ranges.specs.Sound.{FitEach};
ghost use Rattle.ep_state_ranges.specs.HeldForms.{at_spot};
ghost use Rattle.ep_transfers.specs.Writes as spec;
ghost use Rattle.ep_transfer_writes.specs.Waiting.{view, item_view, with_forms, CanStand, Keeps};

use crate::cells::place_of;
use crate::item::{Item, Underway};
use ep_bitslice::{BoxedForm, Form, Side};
use ep_cell_ranges::{replace_laws, weak_each_laws};
use ep_cell_rows::values::{boxed, copy_form, form_of};
use ep_cells::Cell;
use ep_domain::Num;
use ep_equalities::{PairValue, SideValue};
use ep_int::Memory;
use ep_state_ranges::{replace, weaken_each};
use std::alloc::Global;

// ---- forms that are held

fn push_form(
    out: &mut Vec<Option<BoxedForm>>,
    alloc: Global,
    form: &Option<Form>,
) -> Result<(), Memory>
    ensures { IfOk result (λ _. out.new.items ≡ out.old.items ++ form.now ∷ []) }
{
    let held = boxed(alloc, copy_form(form))?;
    out.push(held).map_err(|_| Memory)
}

/// The forms of both sides.
pub(crate) fn forms<N: Num>(
    alloc: Global,
    pair: &PairValue<N>,
) -> Result<Vec<Option<BoxedForm>>, Memory>
    ensures { IfOk result (λ v. v.items ≡ pair.now.left.form ∷ pair.now.right.form ∷ []) }
{
    let mut out = Vec::new(alloc);
    push_form(&mut out, alloc, &pair.left.form)?;
    push_form(&mut out, alloc, &pair.right.form)?;
    Ok(out)
}

fn form_at(held: &[Option<BoxedForm>], i: usize) -> Option<Form>
    ensures { result ≡ slice_index_or held.now i None }
{
    match held.get(i) {
        None => None,
        Some(f) => form_of(f),
    }
}

/// The item with the first two of these forms.
pub(crate) fn with_forms<N: Num>(item: Item<N>, held: &[Option<BoxedForm>]) -> Item<N>
    ensures { item_view result ≡ with_forms held.now (item_view item) }
{
    let left = form_at(held, 0);
    let right = form_at(held, 1);
    let pair = item.pair;
    Item {
        pair: PairValue {
            left: SideValue {
                value: pair.left.value,
                form: left,
            },
            right: SideValue {
                value: pair.right.value,
                form: right,
            },
            equal: pair.equal,
        },
        left_maybe: item.left_maybe,
        right_maybe: item.right_maybe,
        same: item.same,
    }
}

// ---- cells

fn one<N: Num>(alloc: Global, c: Cell<N>) -> Result<Vec<Cell<N>>, Memory>
    ensures { IfOk result (λ v. v.items ≡ c ∷ []) }
{
    let mut out = Vec::new(alloc);
    out.push(c).map_err(|_| Memory)?;
    Ok(out)
}

/// A cell is written at its place.
pub(crate) fn strongly<N: Num>(c: Cell<N>, u: Underway<N>) -> Result<Underway<N>, Memory>
    requires { CanStand u.state c }
    ensures value { IfOk result (λ r. view r ≡ spec.strongly N.ops c (view u)) }
    ensures keeps { IfOk result (λ r. Keeps (view u) (view r)) }
{
    replace_laws::<N>();
    let alloc = u.state.allocator();
    let place = place_of(u.state.model(), &c);
    let held = forms(alloc, &u.item.pair)?;
    let new = one(alloc, c)?;
    let after = replace(u.state, place, new, held)?;
    let item = with_forms(u.item, &after.1);
    Ok(Underway {
        state: after.0,
        item,
    })
}

/// A cell may be written at each of several places.
pub(crate) fn weakly_each<N: Num>(
    c: &Cell<N>,
    shared_stays: bool,
    spots: &[(u32, u32)],
    u: Underway<N>,
) -> Result<Underway<N>, Memory>
    requires fits { FitEach u.state.model (at_spot c.now) shared_stays spots.now }
    requires stays { shared_stays ≡ true → c.now.side ≡ Side.Shared }
    ensures value { IfOk result (λ r. view r
        ≡ spec.weakly_each N.ops (at_spot c.now) shared_stays spots.now (view u)) }
    ensures keeps { IfOk result (λ r. Keeps (view u) (view r)) }
{
    weak_each_laws::<N>();
    u.state.model();
    let held = forms(u.state.allocator(), &u.item.pair)?;
    let after = weaken_each(u.state, c, shared_stays, spots, held)?;
    let item = with_forms(u.item, &after.1);
    Ok(Underway {
        state: after.0,
        item,
    })
}
