//! Whether a cell stays as it is, where one of another state is joined or widened in.

ghost use Rattle.std.specs.Prelude.{◌≡◌, ◌↔◌, ◌||◌, IsTrue, IfOk};
ghost use Rattle.ep_cells.specs.Both.{value_of_both, cell_of_both};
ghost use Rattle.ep_cells.specs.Forms.{common_form};
ghost use Rattle.ep_cell_rows.specs.Parts.{united};

use ep_bitslice::BoxedForm;
use ep_cell_rows::values::{Union, is_same_value, keep_same_form};
use ep_cells::{Cell, Value};
use ep_domain::Num;
use ep_int::Memory;

fn value_stays<N: Num>(
    union: Union,
    u: &Option<Value<N>>,
    v: &Option<Value<N>>,
) -> Result<bool, Memory>
    ensures { IfOk result (λ b. IsTrue b ↔ (value_of_both (united N.ops union) u.now v.now ≡ u.now)) }
{
    let both = union.values(u, v)?;
    Ok(is_same_value(&both, u))
}

fn maybe_stays(a: bool, b: bool) -> bool
    ensures { IsTrue result ↔ ((a || b) ≡ a) }
{
    a | !b
}

fn form_stays(f: &Option<BoxedForm>, g: &Option<BoxedForm>) -> bool
    ensures { IsTrue result ↔ (common_form f.now g.now ≡ f.now) }
{
    match f {
        None => true,
        Some(_) => keep_same_form(f, g),
    }
}

/// Whether the first cell says all that both say: it does where its value isn't narrowed by this, either. Takes no
/// memory but for pointers.
pub fn cell_stays<N: Num>(union: Union, x: &Cell<N>, y: &Cell<N>) -> Result<bool, Memory>
    ensures { IfOk result (λ b. IsTrue b ↔ (cell_of_both (united N.ops union) x.now y.now ≡ x.now)) }
{
    let value = value_stays(union, &x.value, &y.value)?;
    Ok(value & maybe_stays(x.maybe, y.maybe) & form_stays(&x.form, &y.form))
}

/// Whether two cells have the values of others, of which the first stays, and the first of them stays too. Takes no
/// memory, and no union of values.
pub fn stays_as<N: Num>(
    union: Union,
    first: &Cell<N>,
    second: &Cell<N>,
    x: &Cell<N>,
    y: &Cell<N>,
) -> bool
    requires { value_of_both (united N.ops union) first.now.value second.now.value ≡ first.now.value }
    ensures { IsTrue result ↔ ((x.now.value ≡ first.now.value) × (y.now.value ≡ second.now.value)
        × (cell_of_both (united N.ops union) x.now y.now ≡ x.now)) }
{
    let _union = union;
    let values = is_same_value(&x.value, &first.value) & is_same_value(&y.value, &second.value);
    values & maybe_stays(x.maybe, y.maybe) & form_stays(&x.form, &y.form)
}
