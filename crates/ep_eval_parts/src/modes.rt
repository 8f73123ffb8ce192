//! Where a next operand is evaluated.

ghost use Rattle.std.specs.Prelude.{◌≡◌};
ghost use Rattle.ep_evaluation.specs.Given as given;
ghost use Rattle.ep_evaluation.specs.Operators as operators;

use ep_domain::Num;
use ep_equalities::{Mode, PairValue};
use ep_eval_loads::After;
use ep_eval_sides::sides::may_be;

/// A first operand, and for each truth that is asked for the sides that may have it, and what is left for the next one.
#[derive(Drop)]
pub struct First<N> {
    pub value: PairValue<N>,
    pub mode_true: Option<Mode>,
    pub when_true: After<N>,
    pub mode_false: Option<Mode>,
    pub when_false: After<N>,
}

fn mode_by(left: bool, right: bool) -> Option<Mode>
    ensures { result ≡ given.mode_by left right }
{
    if left {
        if right {
            return Some(Mode::Both);
        }
        return Some(Mode::Left);
    }
    if right {
        return Some(Mode::Right);
    }
    None
}

/// The running sides on which a value may be of a truth.
pub fn mode_where<N: Num>(mode: Mode, x: &PairValue<N>, truth: bool) -> Option<Mode>
    ensures { result ≡ given.mode_where mode (λ s. operators.may_be N.ops (given.on x.now s).value truth) }
{
    let left = may_be(&x.left.value, truth);
    let right = may_be(&x.right.value, truth);
    match mode {
        Mode::Both => mode_by(left, right),
        Mode::Left => mode_by(left, false),
        Mode::Right => mode_by(false, right),
    }
}
