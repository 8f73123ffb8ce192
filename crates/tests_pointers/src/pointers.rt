//! What becomes of pointers, over intervals.

use ep_domain::Num;
use ep_int::{Cmp, IntType, greatest, least};
use ep_intervals::Interval;
use ep_pointers::PtrValue;
use std::alloc::Global;
use std::test::Fail;

// A pointer, what is done with so many units, the unit, and the sizes of the blocks; then the pointer after it, whether
// the first may be null, and the offsets that are shown where some may be outside.
const SUMS: &str = "\
0:0..0 + 8..8 1 8,4 = 0:8..8 - inside
0:0..0 + 9..9 1 8,4 = none - 9..9
0:0..4 + 0..1 4 8,4 = 0:0..8 - inside
0:0..4 + 0..2 4 8,4 = 0:0..8 - 0..12
0:0..4,1:0..4 + 1..1 4 8,4 = 0:4..8,1:4..4 - 4..8
0:0..0,1:4..4 + 1..1 1 8,4 = 0:1..1 - 1..5
0:8..8 - 1..2 4 8,4 = 0:0..4 - inside
0:4..4 - 1..2 4 8,4 = 0:0..0 - -4..0
0:0..0 - -1..-1 1 8,4 = 0:1..1 - inside
null + 1..1 1 8,4 = none null inside
null,0:4..4 + 1..1 4 8,4 = 0:8..8 null inside
2:0..0 + 0..0 1 8,4 = none - 0..0
0:0..65536 + 1..1 65536 131072 = 0:65536..131072 - inside
0:0..65536 + 1..2 65536 131072 = 0:65536..131072 - 65536..196608
0:131072..131072 - 1..2 65536 131072 = 0:0..65536 - inside
0:65536..65536 - 1..1 65536 131072 = 0:0..0 - inside
0:65535..65535 - 1..1 65536 131072 = none - -1..-1
0:0..0 + 0..18446744073709551615 1 8,4 = 0:0..8 - 0..18446744073709551615
0:0..0 + -9223372036854775808..-9223372036854775808 2 8,4 = none - -18446744073709551616..-18446744073709551616
0:4294967295..4294967295 + 0..0 4294967295 4294967295 = 0:4294967295..4294967295 - inside
0:4294967295..4294967295 + 1..1 1 4294967295 = none - 4294967296..4294967296
";

// Two pointers, their join, the first widened by the second, and whether the first is within the second.
const UNIONS: &str = "\
null 0:0..0 = null,0:0..0 null,0:0..0 no
0:0..0 0:4..4 = 0:0..4 0:0..127 no
0:1..1,2:0..0 1:5..5,2:8..8 = 0:1..1,1:5..5,2:0..8 0:1..1,1:5..5,2:0..127 no
0:4..4 0:0..8 = 0:0..8 0:0..127 yes
0:4..4 0:0..8,1:0..0 = 0:0..8,1:0..0 0:0..127,1:0..0 yes
null,0:4..4 0:0..8 = null,0:0..8 null,0:0..127 no
0:4..4 null,0:0..8 = null,0:0..8 null,0:0..127 yes
0:0..8,1:0..0 0:0..8 = 0:0..8,1:0..0 0:0..8,1:0..0 no
3:0..0 1:0..0 = 1:0..0,3:0..0 1:0..0,3:0..0 no
0:0..0,2:0..0,4:0..0 1:0..0,3:0..0 = 0:0..0,1:0..0,2:0..0,3:0..0,4:0..0 0:0..0,1:0..0,2:0..0,3:0..0,4:0..0 no
1:0..0,3:0..0 1:0..0,2:0..0,3:0..0 = 1:0..0,2:0..0,3:0..0 1:0..0,2:0..0,3:0..0 yes
1:0..0 empty = 1:0..0 1:0..0 no
empty null = null null yes
";

// A comparison of two pointers, and which answers it may have: yes, no, or mixed.
const COMPARISONS: &str = "\
== null null = y
!= null null = n
< null null = m
== null 0:0..0 = n
!= 0:0..0 null = y
>= null 0:0..0 = m
== 0:0..0 1:0..0 = n
!= 0:0..0 1:0..0 = y
<= 0:0..0 1:0..0 = m
== 0:4..4 0:4..4 = y
< 0:0..0 0:4..4 = y
>= 0:0..0 0:4..4 = n
== 0:0..4 0:4..4 = yn
< 0:0..8 0:4..4 = yn
> 0:0..3 0:4..8 = n
== 0:0..0,1:0..0 0:0..0 = yn
< 0:0..0,1:0..0 0:0..0 = nm
== 0:0..0,1:0..0 0:8..8,1:0..0 = yn
== null,0:0..0 null = yn
< null,0:0..0 0:8..8 = ym
== null,0:0..0 0:8..8 = n
!= 0:0..0 empty = -
";

// A pointer, a block, and the pointer without it.
const FORGOTTEN: &str = "\
0:0..0,1:4..4 0 = 1:4..4
0:0..0,1:4..4,2:0..0 1 = 0:0..0,2:0..0
null,1:4..4 1 = null
1:4..4 0 = 1:4..4
1:4..4 1 = empty
null 0 = null
";

fn ends(word: &str) -> Option<(i128, i128)> {
    let (lo, hi) = word.split_once("..")?;
    Some((lo.parse().ok()?, hi.parse().ok()?))
}

fn number(v: i128) -> Option<Interval> {
    if least(IntType::I64) <= v && v <= greatest(IntType::U64) {
        Some(Interval::single(v))
    } else {
        None
    }
}

fn interval(word: &str) -> Option<Interval> {
    let (lo, hi) = ends(word)?;
    Some(number(lo)?.join(&number(hi)?))
}

// Null, one target, or nothing.
fn part(alloc: Global, word: &str) -> Option<PtrValue<Interval>> {
    if word == "null" {
        return Some(PtrValue::null(alloc));
    }
    if word == "empty" {
        let mut none = PtrValue::to(alloc, 7, Interval::single(0)).ok()?;
        none.forget(7);
        return Some(none);
    }
    let (block, offset) = word.split_once(':')?;
    PtrValue::to(alloc, block.parse().ok()?, interval(offset)?).ok()
}

fn pointer(alloc: Global, word: &str) -> Option<PtrValue<Interval>> {
    let mut words = word.split(',');
    let mut all = part(alloc, words.next()?)?;
    for word in words {
        all = all.join(&part(alloc, word)?).ok()?;
    }
    Some(all)
}

fn is_same(x: &PtrValue<Interval>, y: &PtrValue<Interval>) -> bool {
    x.may_be_null() == y.may_be_null() && x.targets() == y.targets()
}

fn sizes(alloc: Global, word: &str) -> Option<Vec<u32>> {
    let mut sizes = Vec::new(alloc);
    for size in word.split(',') {
        sizes.push(size.parse().ok()?).ok()?;
    }
    Some(sizes)
}

fn sum_is_right(alloc: Global, line: &str) -> Option<bool> {
    let (left, right) = line.split_once(" = ")?;
    let mut words = left.split_whitespace();
    let from = pointer(alloc, words.next()?)?;
    let subtract = words.next()? == "-";
    let delta = interval(words.next()?)?;
    let unit: u32 = words.next()?.parse().ok()?;
    let sizes = sizes(alloc, words.next()?)?;
    if unit == 0 {
        return None;
    }
    let sum = from.add(&delta, unit, subtract, &sizes).ok()?;
    let mut words = right.split_whitespace();
    let to = words.next()?;
    let is_value = match &sum.value {
        Some(value) => is_same(value, &pointer(alloc, to)?),
        None => to == "none",
    };
    let null = words.next()? == "null";
    let shown = words.next()?;
    let is_shown = if sum.out {
        ends(shown) == Some(sum.shown)
    } else {
        shown == "inside"
    };
    Some(is_value && sum.null == null && is_shown)
}

#[test]
fn sums_give_the_table(rt: HostRuntime) -> Result<(), Fail> {
    let mut rows = 0u32;
    for line in SUMS.lines() {
        assert_eq!(rt; sum_is_right(rt.alloc(), line), Some(true), "{line}");
        rows = rows.wrapping_add(1);
    }
    assert_eq!(rt; rows, 21);
    Ok(())
}

fn union_is_right(alloc: Global, line: &str) -> Option<bool> {
    let (left, right) = line.split_once(" = ")?;
    let (x, y) = left.split_once(' ')?;
    let x = pointer(alloc, x)?;
    let y = pointer(alloc, y)?;
    let mut words = right.split_whitespace();
    let join = pointer(alloc, words.next()?)?;
    let widening = pointer(alloc, words.next()?)?;
    let within = words.next()? == "yes";
    let copy = x.copy().ok()?;
    Some(
        is_same(&x.join(&y).ok()?, &join)
            && is_same(&x.widen(&y).ok()?, &widening)
            && x.within(&y) == within
            && is_same(&copy, &x),
    )
}

#[test]
fn unions_give_the_table(rt: HostRuntime) -> Result<(), Fail> {
    let mut rows = 0u32;
    for line in UNIONS.lines() {
        assert_eq!(rt; union_is_right(rt.alloc(), line), Some(true), "{line}");
        rows = rows.wrapping_add(1);
    }
    assert_eq!(rt; rows, 13);
    Ok(())
}

fn comparison(word: &str) -> Option<Cmp> {
    match word {
        "==" => Some(Cmp::Eq),
        "!=" => Some(Cmp::Ne),
        "<" => Some(Cmp::Lt),
        "<=" => Some(Cmp::Le),
        ">" => Some(Cmp::Gt),
        ">=" => Some(Cmp::Ge),
        _ => None,
    }
}

fn comparison_is_right(alloc: Global, line: &str) -> Option<bool> {
    let (left, right) = line.split_once(" = ")?;
    let mut words = left.split_whitespace();
    let c = comparison(words.next()?)?;
    let x = pointer(alloc, words.next()?)?;
    let y = pointer(alloc, words.next()?)?;
    let truths = PtrValue::compare(c, &x, &y);
    let yes = right.contains('y');
    let no = right.contains('n');
    let mixed = right.contains('m');
    Some(truths.yes == yes && truths.no == no && truths.mixed == mixed)
}

#[test]
fn comparisons_give_the_table(rt: HostRuntime) -> Result<(), Fail> {
    let mut rows = 0u32;
    for line in COMPARISONS.lines() {
        assert_eq!(rt; comparison_is_right(rt.alloc(), line), Some(true), "{line}");
        rows = rows.wrapping_add(1);
    }
    assert_eq!(rt; rows, 22);
    Ok(())
}

fn forgotten_is_right(alloc: Global, line: &str) -> Option<bool> {
    let (left, right) = line.split_once(" = ")?;
    let (x, block) = left.split_once(' ')?;
    let mut x = pointer(alloc, x)?;
    x.forget(block.parse().ok()?);
    Some(is_same(&x, &pointer(alloc, right)?))
}

#[test]
fn forgotten_blocks_are_gone(rt: HostRuntime) -> Result<(), Fail> {
    let mut rows = 0u32;
    for line in FORGOTTEN.lines() {
        assert_eq!(rt; forgotten_is_right(rt.alloc(), line), Some(true), "{line}");
        rows = rows.wrapping_add(1);
    }
    assert_eq!(rt; rows, 6);
    Ok(())
}
