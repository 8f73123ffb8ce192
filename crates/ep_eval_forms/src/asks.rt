//! For which truths of operands it is asked what they leave.

ghost use Rattle.std.specs.Prelude.{◌≡◌, true};

use ep_eval_parts::left::Wants;

/// Where it is true, too.
pub fn with_true(wants: Wants) -> Wants
    ensures yes { result.yes ≡ true }
    ensures no { result.no ≡ wants.no }
{
    Wants {
        yes: true,
        no: wants.no,
    }
}

/// Where it is false, too.
pub fn with_false(wants: Wants) -> Wants
    ensures yes { result.yes ≡ wants.yes }
    ensures no { result.no ≡ true }
{
    Wants {
        yes: wants.yes,
        no: true,
    }
}

/// For the opposite of it.
pub fn turned(wants: Wants) -> Wants
    ensures yes { result.yes ≡ wants.no }
    ensures no { result.no ≡ wants.yes }
{
    Wants {
        yes: wants.no,
        no: wants.yes,
    }
}
