//! What is left of a state.

ghost use Rattle.std.specs.Prelude.{◌≡◌, IfOk, IfSome, Some};
ghost use Rattle.ep_cells.specs.States.{Known};
ghost use Rattle.ep_evaluation.specs.Narrowed as narrowed;
ghost use Rattle.ep_eval_fits.specs.Likeness.{IfLike};
ghost use Rattle.ep_eval_loads.specs.After.{left_of};

use ep_domain::Num;
use ep_int::Memory;
use ep_state_synthesis::unify;
use ep_states::State;

/// What is left of a state where something is assumed.
#[derive(Drop)]
pub enum After<N> {
    /// Nothing.
    Nothing,
    /// All of it.
    Unchanged,
    /// Another state.
    Changed(State<N>),
}

impl<N: Num> After<N> {
    /// What is left of this state, on its own.
    pub fn state(self, of: &State<N>) -> Result<Option<State<N>>, Memory>
        ensures { IfOk result (λ r. r ≡ left_of of.now self) }
    {
        match self {
            After::Nothing => Ok(None),
            After::Unchanged => {
                let same = of.copy()?;
                Ok(Some(same))
            }
            After::Changed(s) => Ok(Some(s)),
        }
    }
}

// What both say.
fn both<N: Num>(mut a: State<N>, mut b: State<N>) -> Result<State<N>, Memory>
    requires orders { a.orders ≡ b.orders }
    requires model { a.model ≡ b.model }
    ensures { IfOk result (λ r. r ≡ narrowed.both N.ops a b) }
{
    unify(&mut a, &mut b)?;
    let joined = a.join(&b)?;
    Ok(joined)
}

fn either_with<N: Num>(a: State<N>, b: Option<State<N>>) -> Result<State<N>, Memory>
    requires { IfLike a b }
    ensures { IfOk result (λ r. Some r ≡ narrowed.either_of N.ops (Some a) b) }
{
    match b {
        None => Ok(a),
        Some(b) => both(a, b),
    }
}

fn either_state<N: Num>(
    a: Option<State<N>>,
    b: Option<State<N>>,
) -> Result<Option<State<N>>, Memory>
    requires { IfSome a (λ a. IfLike a b) }
    ensures { IfOk result (λ r. r ≡ narrowed.either_of N.ops a b) }
{
    match a {
        None => Ok(b),
        Some(a) => {
            let left = either_with(a, b)?;
            Ok(Some(left))
        }
    }
}

fn after_state<N>(s: Option<State<N>>) -> After<N>
    ensures { (k : Known N) → left_of k result ≡ s }
{
    match s {
        None => After::Nothing,
        Some(s) => After::Changed(s),
    }
}

/// What is left of a state where something or something else is assumed. Where both leave something, at the cost of
/// making them alike and joining them.
pub fn either<N: Num>(of: &State<N>, x: After<N>, y: After<N>) -> Result<After<N>, Memory>
    requires left { IfLike of.now (left_of of.now x) }
    requires right { IfLike of.now (left_of of.now y) }
    ensures { IfOk result (λ r. left_of of.now r
        ≡ narrowed.either_of N.ops (left_of of.now x) (left_of of.now y)) }
{
    let a = x.state(of)?;
    let b = y.state(of)?;
    let left = either_state(a, b)?;
    Ok(after_state(left))
}
