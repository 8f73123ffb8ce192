//! Operands on one side that are loaded or converted, with their cells.

ghost use Rattle.std.specs.Prelude.{◌≡◌, ◌++◌, IfOk, IfSome, OnOk};
ghost use Rattle.ep_cells.specs.States.{IsOfSort};
ghost use Rattle.ep_core.specs.View.{expr_view};
ghost use Rattle.ep_core.specs.WellFormed as well_formed;
ghost use Rattle.ep_evaluation.specs.Evaluation as spec;
ghost use Rattle.ep_evaluation.specs.Evaluation.{expression};
ghost use Rattle.ep_evaluation.specs.Given.{alone, on};
ghost use Rattle.ep_evaluation.specs.Narrowed as narrowed;
ghost use Rattle.ep_eval_fits.specs.Fitting.{ExprIsFit};
ghost use Rattle.ep_eval_sides.specs.Sides.{faultless};
ghost use Rattle.ep_eval_parts.specs.Running.{side_of};

use ep_core::tree::Expr;
use ep_domain::Num;
use ep_equalities::{Fault, PairValue};
use ep_eval_parts::operands::{Operand, kept_cell, load_cell};
use ep_eval_parts::typed::converted;
use ep_eval_parts::{Running, load};
use ep_int::{IntType, Memory, Scalar};
use ep_states::State;

/// What is loaded from an address that is sure or not. Faults are added to those that are there.
pub fn loaded<N: Num>(
    sizes: &[u32],
    state: &State<N>,
    side: Running,
    what: Scalar,
    sure: bool,
    x: &PairValue<N>,
    faults: &mut Vec<Fault>,
) -> Result<Operand<N>, Memory>
    ensures value { IfOk result (λ r. r.value
        ≡ (spec.load_given N.ops sizes.now what (alone (side_of side)) state.now (faultless x.now)).pair) }
    ensures faults { OnOk result (faults.new.items ≡ faults.old.items
        ++ (spec.load_given N.ops sizes.now what (alone (side_of side)) state.now (faultless x.now)).faults) }
    ensures cell { IfOk result (λ r. r.cell ≡ spec.cell_if N.ops sizes.now sure
        (narrowed.cell_of state.now (side_of side)
        what (spec.places_at N.ops sizes.now what state.now (on x.now (side_of side))))) }
    ensures sort { IfOk result (λ r. IfSome r.cell (λ c. IsOfSort c.what c.value)) }
{
    let cell = load_cell(sizes, state, side, what, sure, x)?;
    let value = load(side.mode(), sizes, state, what, x, faults)?;
    Ok(Operand { value, cell })
}

/// An operand, converted: it keeps its cell where its new type has all numbers of the cell's.
pub fn converted_operand<N: Num>(
    a: &Expr,
    sizes: &[u32],
    state: &State<N>,
    side: Running,
    t: IntType,
    x: Operand<N>,
) -> Operand<N>
    requires fit { ExprIsFit (expr_view a.now) }
    requires first { x.value
        ≡ ((expression N.ops sizes.now (expr_view a.now)).gives (alone (side_of side)) state.now).pair }
    requires sort { IfSome x.cell (λ c. IsOfSort c.what c.value) }
    ensures value { result.value ≡ (spec.convert_given N.ops (well_formed.int_type_of (expr_view a.now)) t
        (alone (side_of side)) (faultless x.value)).pair }
    ensures cell { result.cell ≡ narrowed.if_kept t x.cell }
    ensures sort { IfSome result.cell (λ c. IsOfSort c.what c.value) }
{
    let value = converted(a, sizes, state, side.mode(), t, &x.value);
    let cell = kept_cell(t, x.cell);
    Operand { value, cell }
}
