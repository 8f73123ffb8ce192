//! Comparisons of pointers.

ghost use Rattle.std.specs.Prelude.{◌≡◌, ◌≤◌, ◌<◌, ◌||◌, drop, length};
ghost use Rattle.ep_pointers.specs.Value.{IsRising};
ghost use Rattle.ep_pointers.specs.Compare.{opposite, allows, in_one_block, in_two_blocks, when_alike, when_apart};
ghost use Rattle.ep_pointers.specs.Parts.{with_cases};

use crate::merge::{offset_there, place_from};
use ep_domain::Num;
use ep_int::Cmp;

/// What a comparison of pointers may answer.
#[derive(Clone, Copy, Debug, PartialEq, Eq)]
pub struct Truths {
    /// It may be true.
    pub yes: bool,
    /// It may be false.
    pub no: bool,
    /// It may be undefined, since it asks for an order of pointers that are not into one block.
    pub mixed: bool,
}

/// Whether some target of the first is into another block than some target of the second.
pub fn in_two_blocks<N: Num>(x: &[(u32, N)], y: &[(u32, N)]) -> bool
    requires left { IsRising x.now }
    requires right { IsRising y.now }
    ensures { result ≡ in_two_blocks x.now y.now }
{
    let Some(s) = x.first() else {
        return false;
    };
    let Some(t) = y.first() else {
        return false;
    };
    (s.0 != t.0) | (x.len() > 1) | (y.len() > 1)
}

/// Whether the offsets at some block may compare so, and whether they may not.
pub fn in_one_block<N: Num>(c: Cmp, x: &[(u32, N)], y: &[(u32, N)]) -> (bool, bool)
    requires left { IsRising x.now }
    requires right { IsRising y.now }
    ensures { result ≡ (in_one_block N.ops c x.now y.now, in_one_block N.ops (opposite c) x.now y.now) }
{
    let mut yes = false;
    let mut no = false;
    let mut at = 0;
    for t in x {
        at = place_from(y, at, t.0);
        let offset = offset_there(y, at, t.0);
        yes |= allows(c, &t.1, offset);
        no |= allows(opposite(c), &t.1, offset);
    }
    (yes, no)
}

fn allows<N: Num>(c: Cmp, x: &N, y: Option<N>) -> bool
    ensures { result ≡ allows N.ops c x.now y }
{
    match y {
        Some(y) => N::filter(c, x, &y).is_some(),
        None => false,
    }
}

// The comparison that is true where the other is false.
fn opposite(c: Cmp) -> Cmp
    ensures { result ≡ opposite c }
{
    match c {
        Cmp::Eq => Cmp::Ne,
        Cmp::Ne => Cmp::Eq,
        Cmp::Lt => Cmp::Ge,
        Cmp::Le => Cmp::Gt,
        Cmp::Gt => Cmp::Le,
        Cmp::Ge => Cmp::Lt,
    }
}

/// What a comparison answers of pairs that are both null, of pairs that are not into one block, and of such that are.
pub fn answers(c: Cmp, both_null: bool, apart: bool, yes: bool, no: bool) -> Truths
    ensures { result ≡ with_cases c both_null apart yes no }
{
    match c {
        Cmp::Eq => Truths {
            yes: both_null | yes,
            no: apart | no,
            mixed: false,
        },
        Cmp::Ne => Truths {
            yes: apart | yes,
            no: both_null | no,
            mixed: false,
        },
        Cmp::Lt | Cmp::Le | Cmp::Gt | Cmp::Ge => Truths {
            yes,
            no,
            mixed: both_null | apart,
        },
    }
}
