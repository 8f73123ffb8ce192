//! The operations of a reduced product: those of both parts, narrowed.

ghost use Rattle.std.specs.Prelude.{◌≡◌, ◌&&◌, IfSome};
ghost use Rattle.ep_range_laws.specs.Ranges.{IsRange};
ghost use Rattle.ep_range_laws.specs.Faults.{range_fault_of};
ghost use Rattle.ep_domain.specs.Common.{common_part, common_range, common_edges, edges_between, may_pair};
ghost use Rattle.ep_domain.specs.Pairs.{cut_to, narrowed, narrowed_both, no_outcome, outcome_with, outcome_between};
ghost use Rattle.ep_domain.specs.Pairs.{outcome_of, pairs_of, filter_of, settled, conversion_of, join_of, edges_of};
ghost use Rattle.ep_domain.specs.Pairs.{cut_of};

use crate::{Num, Outcome, Pair, range_fault};
use ep_int::{BinOp, Cmp, IntType};

type Ends = (i128, i128);

// The ends of what two ranges have in common, out of order where there is nothing.
fn common(x: Ends, y: Ends) -> Ends
    ensures { result ≡ common_part x y }
{
    (x.0.max(y.0), x.1.min(y.1))
}

// What the ranges of two values have in common.
pub(crate) fn common_range<A: Num, B: Num>(left: &A, right: &B) -> Ends
    ensures { result ≡ common_range A.ops B.ops left.now right.now }
{
    common(left.range(), right.range())
}

// Whether two values can be a pair.
pub(crate) fn may_pair<A: Num, B: Num>(left: &A, right: &B) -> bool
    ensures { result ≡ may_pair A.ops B.ops left.now right.now }
{
    let (lo, hi) = common_range(left, right);
    lo < hi || lo == hi && both_hold(left, right, lo)
}

pub(crate) fn both_hold<A: Num, B: Num>(left: &A, right: &B, v: i128) -> bool
    ensures { result ≡ (A.ops.holds left.now v && B.ops.holds right.now v) }
{
    left.holds(v) && right.holds(v)
}

// The edges of both parts in a range.
fn edges_between<A: Num, B: Num>(left: &A, right: &B, range: Ends) -> Option<Ends>
    ensures { result ≡ edges_between A.ops B.ops left.now right.now range }
{
    let (lo, hi) = left.edges(range.0, range.1)?;
    right.edges(lo, hi)
}

// The edges of both parts in what their ranges have in common.
fn common_edges<A: Num, B: Num>(left: &A, right: &B) -> Option<Ends>
    ensures value { result ≡ common_edges A.ops B.ops left.now right.now }
    ensures ends { IfSome result (λ e. IsRange e.0 e.1) }
{
    edges_between(left, right, common_range(left, right))
}

// Both parts cut to a range.
fn cut_to<A: Num, B: Num>(left: &A, right: &B, range: Ends) -> Option<Pair<A, B>>
    ensures { result ≡ cut_to left.now right.now range }
{
    Pair::of(left.cut(range.0, range.1)?, right.cut(range.0, range.1)?)
}

// Both parts cut to the edges of what their ranges have in common.
pub(crate) fn narrowed<A: Num, B: Num>(left: &A, right: &B) -> Option<Pair<A, B>>
    ensures { result ≡ narrowed left.now right.now }
{
    let range = common_edges(left, right)?;
    cut_to(left, right, range)
}

pub(crate) fn narrowed_both<A: Num, B: Num>(left: Option<A>, right: Option<B>) -> Option<Pair<A, B>>
    ensures { result ≡ narrowed_both left right }
{
    match (left, right) {
        (Some(a), Some(b)) => narrowed(&a, &b),
        _ => None,
    }
}

// The results of an operator on narrowed operands, of which the ranges are what the fault is about.
fn outcome_between<A: Num, B: Num>(
    op: BinOp,
    t: IntType,
    range: Option<Ends>,
    x: Option<Pair<A, B>>,
    y: Option<Pair<A, B>>,
) -> Outcome<Pair<A, B>>
    ensures { result ≡ outcome_between op t range x y }
{
    match (x, y) {
        (Some(p), Some(q)) => {
            let left = A::op(op, t, &p.left, &q.left);
            let right = B::op(op, t, &p.right, &q.right);
            outcome_with(range, left, right)
        }
        _ => no_outcome(),
    }
}

fn outcome_with<A: Num, B: Num>(
    range: Option<Ends>,
    left: Outcome<A>,
    right: Outcome<B>,
) -> Outcome<Pair<A, B>>
    ensures { result ≡ outcome_with range left right }
{
    Outcome {
        value: narrowed_both(left.value, right.value),
        fault: left.fault && right.fault && range.is_some(),
        shown: range.unwrap_or((0, 0)),
    }
}

fn no_outcome<A: Num, B: Num>() -> Outcome<Pair<A, B>>
    ensures { result ≡ no_outcome }
{
    Outcome {
        value: None,
        fault: false,
        shown: (0, 0),
    }
}

pub(crate) fn outcome<A: Num, B: Num>(
    op: BinOp,
    t: IntType,
    x: &Pair<A, B>,
    y: &Pair<A, B>,
) -> Outcome<Pair<A, B>>
    ensures { result ≡ outcome_of op t x.now y.now }
{
    match (
        common_edges(&x.left, &x.right),
        common_edges(&y.left, &y.right),
    ) {
        (Some(r), Some(s)) => outcome_between(
            op,
            t,
            range_fault(op, t, r, s),
            cut_to(&x.left, &x.right, r),
            cut_to(&y.left, &y.right, s),
        ),
        _ => no_outcome(),
    }
}

fn pairs_of<A: Num, B: Num>(
    left: Option<(A, A)>,
    right: Option<(B, B)>,
) -> Option<(Pair<A, B>, Pair<A, B>)>
    ensures { result ≡ pairs_of left right }
{
    match (left, right) {
        (Some((a, c)), Some((b, d))) => narrowed(&a, &b).zip(narrowed(&c, &d)),
        _ => None,
    }
}

pub(crate) fn filtered<A: Num, B: Num>(
    c: Cmp,
    x: &Pair<A, B>,
    y: &Pair<A, B>,
) -> Option<(Pair<A, B>, Pair<A, B>)>
    ensures { result ≡ filter_of c x.now y.now }
{
    match (narrowed(&x.left, &x.right), narrowed(&y.left, &y.right)) {
        (Some(p), Some(q)) => pairs_of(
            A::filter(c, &p.left, &q.left),
            B::filter(c, &p.right, &q.right),
        ),
        _ => None,
    }
}

// A pair whose range is one number has that number alone in both parts.
fn settled<A: Num, B: Num>(x: &Pair<A, B>) -> Pair<A, B>
    ensures { result ≡ settled x.now }
{
    let (lo, hi) = common_range(&x.left, &x.right);
    if lo == hi {
        narrowed(&x.left, &x.right).unwrap_or(*x)
    } else {
        *x
    }
}

pub(crate) fn converted<A: Num, B: Num>(x: &Pair<A, B>, t: IntType) -> Pair<A, B>
    ensures { result ≡ conversion_of x.now t }
{
    let p = settled(x);
    narrowed(&p.left.convert(t), &p.right.convert(t)).unwrap_or(*x)
}

pub(crate) fn joined<A: Num, B: Num>(x: &Pair<A, B>, y: &Pair<A, B>) -> Pair<A, B>
    ensures { result ≡ join_of x.now y.now }
{
    narrowed(&x.left.join(&y.left), &x.right.join(&y.right)).unwrap_or(*x)
}

pub(crate) fn edges<A: Num, B: Num>(x: &Pair<A, B>, lo: i128, hi: i128) -> Option<Ends>
    ensures { result ≡ edges_of x.now lo hi }
{
    let range = common_range(&x.left, &x.right);
    edges_between(&x.left, &x.right, common(range, (lo, hi)))
}

pub(crate) fn cut<A: Num, B: Num>(x: &Pair<A, B>, lo: i128, hi: i128) -> Option<Pair<A, B>>
    ensures { result ≡ cut_of x.now lo hi }
{
    let p = narrowed(&x.left, &x.right)?;
    narrowed_both(p.left.cut(lo, hi), p.right.cut(lo, hi))
}
