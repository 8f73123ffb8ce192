//! Forms that are held outside of a state while it changes.

ghost use Rattle.std.specs.Prelude.{◌≡◌, ◌++◌, ◌∷◌, [], map, Some, IfOk};
ghost use Rattle.ep_bicells.specs.Steps.{fate_of_step};
ghost use Rattle.ep_cells.specs.Forms.{form_after};
ghost use Rattle.ep_cell_ranges.specs.Ranges.{with_form};
ghost use Rattle.ep_cell_rows.specs.Parts.{fate_of};

use ep_bicells::changes::Step;
use ep_bitslice::{BoxedForm, Side};
use ep_cell_rows::change::Change;
use ep_cell_rows::rows::push;
use ep_cells::Cell;
use ep_domain::Num;
use ep_int::{IntType, Memory, Model, Scalar};
use std::alloc::Global;

/// Forms that are held.
pub type Held = Vec<Option<BoxedForm>>;

fn push_form(out: &mut Held, f: Option<BoxedForm>) -> Result<(), Memory>
    ensures { IfOk result (λ _. out.new.items ≡ out.old.items ++ f ∷ []) }
{
    out.push(f).map_err(|_| Memory)
}

/// What becomes of forms by a change.
pub fn changed(alloc: Global, change: Change, held: Held) -> Result<Held, Memory>
    ensures { IfOk result (λ v. v.items ≡ map (form_after (fate_of change)) held.items) }
{
    let mut out = Vec::new(alloc);
    for f in held {
        push_form(&mut out, change.form_there(f))?;
    }
    Ok(out)
}

// ---- by a step

// That of a cell with no more than the form.
fn some_by_step<N: Num>(
    alloc: Global,
    model: Model,
    step: &Step<N>,
    form: BoxedForm,
) -> Result<Option<BoxedForm>, Memory>
    ensures { IfOk result (λ f. f ≡ form_after (fate_of_step model step.now) (Some form)) }
{
    let mut cells = Vec::new(alloc);
    let alone = Cell {
        side: Side::Left,
        block: 0,
        offset: 0,
        what: Scalar::Int(IntType::U8),
        value: None,
        maybe: true,
        form: Some(form),
    };
    push(&mut cells, alone)?;
    let mut after = step.all_reformed(alloc, model, &cells)?;
    match after.pop() {
        None => Ok(None),
        Some(c) => Ok(c.form),
    }
}

fn by_step<N: Num>(
    alloc: Global,
    model: Model,
    step: &Step<N>,
    form: Option<BoxedForm>,
) -> Result<Option<BoxedForm>, Memory>
    ensures { IfOk result (λ f. f ≡ form_after (fate_of_step model step.now) form) }
{
    match form {
        None => Ok(None),
        Some(form) => some_by_step(alloc, model, step, form),
    }
}

/// What becomes of forms by a step.
pub fn all_by_step<N: Num>(
    alloc: Global,
    model: Model,
    step: &Step<N>,
    held: Held,
) -> Result<Held, Memory>
    ensures { IfOk result (λ v. v.items ≡ map (form_after (fate_of_step model step.now)) held.items) }
{
    let mut out = Vec::new(alloc);
    for f in held {
        push_form(&mut out, by_step(alloc, model, step, f)?)?;
    }
    Ok(out)
}

fn cell_by_step<N: Num>(
    alloc: Global,
    model: Model,
    step: &Step<N>,
    c: Cell<N>,
) -> Result<Cell<N>, Memory>
    ensures { IfOk result (λ y. y ≡ with_form (form_after (fate_of_step model step.now)) c) }
{
    Ok(Cell {
        side: c.side,
        block: c.block,
        offset: c.offset,
        what: c.what,
        value: c.value,
        maybe: c.maybe,
        form: by_step(alloc, model, step, c.form)?,
    })
}

/// Cells that aren't yet of the state, with what becomes of their forms by a step.
pub fn cells_by_step<N: Num>(
    alloc: Global,
    model: Model,
    step: &Step<N>,
    cells: Vec<Cell<N>>,
) -> Result<Vec<Cell<N>>, Memory>
    ensures { IfOk result (λ v. v.items ≡ map (with_form (form_after (fate_of_step model step.now))) cells.items) }
{
    let mut out = Vec::new(alloc);
    for c in cells {
        push(&mut out, cell_by_step(alloc, model, step, c)?)?;
    }
    Ok(out)
}
