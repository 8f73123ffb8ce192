//! Operators on the values of expressions, whose forms are as wide as their types.

ghost use Rattle.std.specs.Prelude.{◌≡◌, ◌++◌, IfOk, OnOk, Some};
ghost use Rattle.ep_core.specs.View.{expr_view};
ghost use Rattle.ep_core.specs.WellFormed as well_formed;
ghost use Rattle.ep_evaluation.specs.Evaluation as spec;
ghost use Rattle.ep_evaluation.specs.Evaluation.{expression};
ghost use Rattle.ep_eval_fits.specs.Fitting.{ExprIsFit};
ghost use Rattle.ep_eval_sides.specs.Sides.{faultless};

use crate::own_types::int_type_of;
use ep_core::tree::Expr;
use ep_domain::Num;
use ep_equalities::{Fault, Mode, PairValue};
use ep_eval_sides::operators::{binary, conversion};
use ep_int::{BinOp, IntType, Memory};
use ep_reads::read_laws;
use ep_states::State;

/// An operator on two values, the first of which is that of an expression.
pub fn computed<N: Num>(
    a: &Expr,
    sizes: &[u32],
    state: &State<N>,
    mode: Mode,
    op: BinOp,
    t: IntType,
    x: &PairValue<N>,
    y: &PairValue<N>,
    faults: &mut Vec<Fault>,
) -> Result<PairValue<N>, Memory>
    requires fit { ExprIsFit (expr_view a.now) }
    requires typed { well_formed.int_type_of (expr_view a.now) ≡ Some t }
    requires first { x.now ≡ ((expression N.ops sizes.now (expr_view a.now)).gives mode state.now).pair }
    ensures value { IfOk result (λ r. r
        ≡ (spec.binary_given N.ops op t mode (faultless x.now) (faultless y.now)).pair) }
    ensures faults { OnOk result (faults.new.items ≡ faults.old.items
        ++ (spec.binary_given N.ops op t mode (faultless x.now) (faultless y.now)).faults) }
{
    read_laws::<N>();
    state.model();
    binary(mode, op, t, x, y, faults)
}

/// The value of an expression, converted.
pub fn converted<N: Num>(
    a: &Expr,
    sizes: &[u32],
    state: &State<N>,
    mode: Mode,
    t: IntType,
    x: &PairValue<N>,
) -> PairValue<N>
    requires fit { ExprIsFit (expr_view a.now) }
    requires first { x.now ≡ ((expression N.ops sizes.now (expr_view a.now)).gives mode state.now).pair }
    ensures { result
        ≡ (spec.convert_given N.ops (well_formed.int_type_of (expr_view a.now)) t mode (faultless x.now)).pair }
{
    read_laws::<N>();
    state.model();
    conversion(mode, int_type_of(a), t, x)
}
