//! What becomes of intervals paired with congruence classes.

use ep_congruence::Congruence;
use ep_domain::{Num, Pair};
use ep_int::{IntType, greatest, least};
use ep_intervals::Interval;
use tests_words::{Ends, class, comparison, ends, int_type, maybe_class, maybe_ends, operator};

type Numbers = Pair<Interval, Congruence>;

// The range of the interval and the class.
type Parts = (Ends, Congruence);

// An interval, a class, and the range of their pair.
const MADE: &str = "\
0..10 0%4 0..10
5..7 0%4 5..7
5..5 0%4 none
4..4 0%4 4..4
0..10 11%0 none
0..10 10%0 10..10
1..2 0%1 1..2
";

// A pair, a range, the edges there, and what is left of the pair.
const CUTS: &str = "\
0..10/0%4 0..10 0..8 0..8/0%4
0..10/0%4 1..10 4..8 4..8/0%4
0..10/0%4 1..7 4..4 4..4/4%0
0..10/0%4 5..7 none none
0..10/0%4 -5..3 0..0 0..0/0%0
0..10/0%4 9..20 none none
0..10/0%4 4..8 4..8 4..8/0%4
0..10/3%8 4..20 none none
0..10/3%8 0..20 3..3 3..3/3%0
-9..9/0%1 2..2 2..2 2..2/2%0
-9..9/0%1 2..3 2..3 2..3/0%1
3..3/3%0 0..5 3..3 3..3/3%0
3..3/3%0 4..5 none none
";

// The comparison, two pairs, and what it leaves of them.
const COMPARISONS: &str = "\
< 0..10/0%4 5..5/5%0 0..4/0%4 5..5/5%0
< 0..10/0%4 8..8/8%0 0..4/0%4 8..8/8%0
< 0..10/0%4 1..1/1%0 0..0/0%0 1..1/1%0
< 0..10/0%4 0..0/0%0 none none
<= 0..10/0%4 7..7/7%0 0..4/0%4 7..7/7%0
> 0..10/0%4 3..3/3%0 4..8/0%4 3..3/3%0
> 0..10/0%4 7..7/7%0 8..8/8%0 7..7/7%0
> 0..10/0%4 8..8/8%0 none none
>= 0..10/0%4 5..5/5%0 8..8/8%0 5..5/5%0
>= 0..10/0%4 9..9/9%0 none none
== 0..10/0%4 4..4/4%0 4..4/4%0 4..4/4%0
== 0..10/0%4 5..5/5%0 none none
== 0..10/0%4 0..10/2%6 2..8/2%6 2..8/2%6
== 0..10/0%4 3..20/1%2 none none
!= 0..10/0%4 0..0/0%0 4..8/0%4 0..0/0%0
!= 0..10/0%4 8..8/8%0 0..4/0%4 8..8/8%0
!= 0..10/0%4 4..4/4%0 0..8/0%4 4..4/4%0
!= 0..10/0%4 10..10/10%0 0..8/0%4 10..10/10%0
!= 4..4/4%0 4..4/4%0 none none
< 0..10/0%4 0..20/2%5 0..8/0%4 2..17/2%5
";

// Two pairs and their join.
const JOINS: &str = "\
0..0/0%0 8..8/8%0 0..8/0%8
3..3/3%0 3..3/3%0 3..3/3%0
0..10/0%4 4..4/4%0 0..8/0%4
0..10/0%4 6..6/6%0 0..10/0%2
0..10/0%4 12..12/12%0 0..12/0%4
0..10/0%4 0..10/1%4 0..10/0%1
-4..-4/-4%0 4..4/4%0 -4..4/4%8
0..10/3%8 0..100/7%8 3..99/3%4
";

// Two pairs and their meet.
const MEETS: &str = "\
0..10/0%4 5..20/0%6 6..6/6%0
0..10/0%4 5..7/0%1 none
0..10/0%4 3..9/0%1 4..8/0%4
0..10/0%4 0..10/2%4 none
4..4/4%0 0..10/0%4 4..4/4%0
6..6/6%0 0..10/0%4 none
0..10/0%4 0..10/0%4 0..8/0%4
";

// Two pairs, the first widened by the second, and the ranks before and after.
const WIDENINGS: &str = "\
0..0/0%0 4..4/4%0 0..127/0%4 77 13
0..10/0%4 0..12/0%4 0..127/0%4 14 13
0..10/0%4 0..10/0%4 0..10/0%4 14 14
0..10/0%4 0..8/0%4 0..10/0%4 14 14
0..10/0%4 -1..11/3%4 -128..127/0%1 14 10
0..127/0%4 0..128/0%4 0..255/0%4 13 12
0..10/0%4 6..6/6%0 0..10/0%2 14 13
";

// The operator, the type, two pairs, the results, and the range that the fault shows.
const OPERATORS: &str = "\
+ i32 0..10/0%4 1..1/1%0 1..9/1%4 none
+ i32 0..10/0%4 0..10/0%4 0..16/0%4 none
+ u8 0..10/0%4 250..255/0%1 0..255/0%1 none
+ u32 4294967280..4294967295/0%4 0..16/0%4 0..4294967292/0%4 none
+ u32 4294967280..4294967295/0%12 0..16/0%12 0..4294967292/0%4 none
+ i32 2147483640..2147483647/0%8 7..7/7%0 2147483647..2147483647/2147483647%0 none
+ i32 2147483640..2147483647/0%8 8..8/8%0 none 2147483648..2147483648
+ i32 2147483640..2147483645/0%4 0..6/0%4 2147483640..2147483644/0%4 2147483640..2147483648
- i32 0..10/0%4 0..10/0%4 -8..8/0%4 none
- u32 0..10/0%4 4..4/4%0 0..4294967292/0%4 none
- u32 4..10/0%4 4..4/4%0 0..4/0%4 none
* i32 0..10/0%4 4..4/4%0 0..32/0%16 none
* i64 0..100/0%1 4..4/4%0 0..400/0%4 none
* i32 0..30000/0%4 0..80000/0%3 0..2147483640/0%12 0..2399940000
* i32 0..40000/0%4 0..53690/0%4 0..2147483632/0%16 0..2147520000
<< i32 0..5/0%1 3..3/3%0 0..40/0%8 none
<< i32 0..2147483647/0%1 1..1/1%0 0..2147483646/0%2 1..1
+ i32 3..3/3%0 4..4/4%0 7..7/7%0 none
+ i32 2147483647..2147483647/2147483647%0 1..1/1%0 none 2147483648..2147483648
+ i8 100..200/0%100 27..27/27%0 127..127/127%0 127..154
+ i8 100..200/0%100 28..28/28%0 none 128..155
";

// A pair, a type, and what the pair is converted to.
const CONVERSIONS: &str = "\
0..10/0%4 u8 0..8/0%4
0..300/0%4 u8 0..252/0%4
0..300/0%12 u8 0..252/0%4
256..511/3%8 u8 3..251/3%8
-4..4/0%4 u32 0..4294967292/0%4
250..260/0%100 i8 -4..4/0%4
297..303/0%100 i8 44..44/44%0
300..300/300%0 i8 44..44/44%0
";

fn number(v: i128) -> Option<Interval> {
    if least(IntType::I64) <= v && v <= greatest(IntType::U64) {
        Some(Interval::single(v))
    } else {
        None
    }
}

fn interval(ends: Ends) -> Option<Interval> {
    Some(number(ends.0)?.join(&number(ends.1)?))
}

fn parts(pair: &Numbers) -> Parts {
    (pair.left().range(), *pair.right())
}

fn pair(word: &str) -> Option<Numbers> {
    let (left, right) = word.split_once('/')?;
    Pair::of(interval(ends(left)?)?, class(right)?)
}

fn wanted(word: &str) -> Option<Option<Parts>> {
    if word == "none" {
        return Some(None);
    }
    let (left, right) = word.split_once('/')?;
    Some(Some((ends(left)?, class(right)?)))
}

fn made(line: &str) -> Option<bool> {
    let mut words = line.split_whitespace();
    let left = interval(ends(words.next()?)?)?;
    let right = maybe_class(words.next()?)??;
    let range = Pair::of(left, right).map(|p: Numbers| p.range());
    Some(range == maybe_ends(words.next()?)?)
}

#[test]
fn pairs_are_made_of_the_table(rt: HostRuntime) {
    assert_eq!(rt; Numbers::HEIGHT, 79);
    for line in MADE.lines() {
        assert_eq!(rt; made(line), Some(true), "{line}");
    }
}

fn cut(line: &str) -> Option<bool> {
    let mut words = line.split_whitespace();
    let x = pair(words.next()?)?;
    let (lo, hi) = ends(words.next()?)?;
    let has_edges = x.edges(lo, hi) == maybe_ends(words.next()?)?;
    let left = x.cut(lo, hi).map(|p| parts(&p));
    Some(has_edges && left == wanted(words.next()?)?)
}

#[test]
fn cuts_give_the_table(rt: HostRuntime) {
    for line in CUTS.lines() {
        assert_eq!(rt; cut(line), Some(true), "{line}");
    }
}

fn compared(line: &str) -> Option<bool> {
    let mut words = line.split_whitespace();
    let c = comparison(words.next()?)?;
    let x = pair(words.next()?)?;
    let y = pair(words.next()?)?;
    let left = wanted(words.next()?)?;
    let right = wanted(words.next()?)?;
    let kept = Numbers::filter(c, &x, &y).map(|k| (parts(&k.0), parts(&k.1)));
    Some(kept == left.zip(right))
}

#[test]
fn comparisons_give_the_table(rt: HostRuntime) {
    for line in COMPARISONS.lines() {
        assert_eq!(rt; compared(line), Some(true), "{line}");
    }
}

fn joined(line: &str) -> Option<bool> {
    let mut words = line.split_whitespace();
    let x = pair(words.next()?)?;
    let y = pair(words.next()?)?;
    let both = x.join(&y);
    Some(Some(parts(&both)) == wanted(words.next()?)?)
}

#[test]
fn joins_give_the_table(rt: HostRuntime) {
    for line in JOINS.lines() {
        assert_eq!(rt; joined(line), Some(true), "{line}");
    }
}

fn met(line: &str) -> Option<bool> {
    let mut words = line.split_whitespace();
    let x = pair(words.next()?)?;
    let y = pair(words.next()?)?;
    Some(x.meet(&y).map(|p| parts(&p)) == wanted(words.next()?)?)
}

#[test]
fn meets_give_the_table(rt: HostRuntime) {
    for line in MEETS.lines() {
        assert_eq!(rt; met(line), Some(true), "{line}");
    }
}

fn widened(line: &str) -> Option<bool> {
    let mut words = line.split_whitespace();
    let x = pair(words.next()?)?;
    let y = pair(words.next()?)?;
    let w = x.widen(&y);
    let is_widened = Some(parts(&w)) == wanted(words.next()?)?;
    let ranks: (u32, u32) = (words.next()?.parse().ok()?, words.next()?.parse().ok()?);
    Some(is_widened && (x.rank(), w.rank()) == ranks)
}

#[test]
fn widenings_give_the_table(rt: HostRuntime) {
    for line in WIDENINGS.lines() {
        assert_eq!(rt; widened(line), Some(true), "{line}");
    }
}

fn calculated(line: &str) -> Option<bool> {
    let mut words = line.split_whitespace();
    let op = operator(words.next()?)?;
    let t = int_type(words.next()?)?;
    let x = pair(words.next()?)?;
    let y = pair(words.next()?)?;
    let outcome = Numbers::op(op, t, &x, &y);
    let has_value = outcome.value.map(|p| parts(&p)) == wanted(words.next()?)?;
    let shown = if outcome.fault {
        Some(outcome.shown)
    } else {
        None
    };
    Some(has_value && shown == maybe_ends(words.next()?)?)
}

#[test]
fn operators_give_the_table(rt: HostRuntime) {
    for line in OPERATORS.lines() {
        assert_eq!(rt; calculated(line), Some(true), "{line}");
    }
}

fn converted(line: &str) -> Option<bool> {
    let mut words = line.split_whitespace();
    let x = pair(words.next()?)?;
    let t = int_type(words.next()?)?;
    Some(Some(parts(&x.convert(t))) == wanted(words.next()?)?)
}

#[test]
fn conversions_give_the_table(rt: HostRuntime) {
    for line in CONVERSIONS.lines() {
        assert_eq!(rt; converted(line), Some(true), "{line}");
    }
}

#[test]
fn pairs_hold_what_both_parts_do(rt: HostRuntime) {
    let x = Numbers::single(4).join(&Numbers::single(8));
    assert!(rt; x.holds(4) && x.holds(8) && !x.holds(6) && !x.holds(12));
    let all = Numbers::top(IntType::U8);
    assert_eq!(rt; all.range(), (0, 255));
    assert!(rt; x.within(&all) && !all.within(&x));
}
