//! What becomes of intervals.

use ep_domain::Num;
use ep_int::{BinOp, IntType, greatest, least};
use ep_intervals::Interval;
use std::test::Fail;
use tests_words::{Ends, comparison, ends, int_type, maybe_ends, operator};

// The operator, the type, two intervals, the results, and the range that the fault shows.
const OPERATORS: &str = "\
+ i32 0..2147483647 1..1 1..2147483647 1..2147483648
+ i32 -2147483648..0 -1..5 -2147483648..5 -2147483649..5
+ i32 2147483647..2147483647 1..2 none 2147483648..2147483649
+ i32 2147483647..2147483647 1..1 none 2147483648..2147483648
+ u8 250..255 6..8 0..7 none
+ u8 250..255 0..1 0..255 none
+ u8 -5..3 300..400 none none
+ u64 0..18446744073709551615 1..1 0..18446744073709551615 none
+ u64 18446744073709551615..18446744073709551615 1..2 0..1 none
- u8 0..3 4..9 247..255 none
- u8 0..4 4..9 0..255 none
- i64 -9223372036854775808..0 1..1 -9223372036854775808..-1 -9223372036854775809..-1
* i32 -3..5 -7..2 -35..21 none
* i64 -9223372036854775808..9223372036854775807 -9223372036854775808..9223372036854775807 -9223372036854775808..9223372036854775807 -85070591730234615856620279821087277056..85070591730234615865843651857942052864
* u8 16..17 16..17 0..33 none
* u8 16..17 15..16 0..255 none
* u64 18446744073709551614..18446744073709551615 18446744073709551614..18446744073709551615 0..18446744073709551615 none
* u64 4294967296..4294967297 4294967296..4294967297 0..8589934593 none
/ i32 -7..7 2..3 -3..3 none
/ i32 -7..7 -3..2 -7..7 -3..2
/ i8 -128..-120 -1..0 120..127 -1..0
/ i8 -128..-128 -1..0 none -1..0
/ u32 10..20 0..0 none 0..0
/ u32 10..20 0..3 3..20 0..3
% i32 -7..5 -3..2 -2..2 -3..2
% i32 -2..5 10..20 -2..5 none
% u8 0..255 0..0 none 0..0
% i32 7..7 -3..-3 1..1 none
& i32 -8..100 3..12 0..12 none
& i32 -8..-1 -4..5 -2147483648..2147483647 none
& u8 6..10 4..20 0..10 none
& i32 -8..-8 5..5 0..0 none
| i32 3..9 4..6 4..15 none
| i32 -3..9 4..6 -2147483648..2147483647 none
| u64 0..1 9223372036854775808..18446744073709551615 9223372036854775808..18446744073709551615 none
^ u8 3..9 4..16 0..31 none
^ i8 0..0 0..1 0..1 none
<< i32 1..3 0..4 1..48 none
<< i32 1..3 30..40 1073741824..2147483647 30..40
<< i32 -1..3 1..1 -2..6 1..1
<< u8 128..129 1..1 0..2 none
<< u8 1..2 3..7 0..255 none
<< u64 18446744073709551615..18446744073709551615 62..63 0..18446744073709551615 none
<< i32 1..1 32..40 none 32..40
>> i32 -7..9 1..2 -4..4 none
>> i32 -1..-1 0..31 -1..-1 none
>> u64 18446744073709551615..18446744073709551615 -1..63 1..18446744073709551615 -1..63
>> i8 5..5 8..9 none 8..9
";

// An interval, a type, and what the interval is converted to.
const CONVERSIONS: &str = "\
-1..-1 u8 255..255
128..200 i8 -128..-56
127..128 i8 -128..127
256..511 u8 0..255
255..256 u8 0..255
-10..-3 u32 4294967286..4294967293
9223372036854775808..18446744073709551615 i64 -9223372036854775808..-1
-9223372036854775808..18446744073709551615 i16 -32768..32767
";

// The comparison, two intervals, and what it leaves of them.
const COMPARISONS: &str = "\
< 0..10 3..7 0..6 3..7
< 7..10 3..7 none none
<= 7..10 3..7 7..7 7..7
> 0..10 3..12 4..10 3..9
>= 0..10 11..12 none none
== 0..10 3..12 3..10 3..10
!= 3..10 3..3 4..10 3..3
!= 3..10 5..5 3..10 5..5
!= 3..3 3..3 none none
";

// Two intervals, the first widened by the second, and the ranks before and after.
const WIDENINGS: &str = "\
0..10 0..11 0..127 12 11
0..10 -1..10 -128..10 12 11
5..5 4..300 0..32767 13 9
0..127 0..128 0..255 11 10
-128..4294967295 -129..4294967296 -32768..9223372036854775807 5 3
3..4 3..4 3..4 13 13
";

#[derive(Clone, Copy)]
struct Row {
    op: BinOp,
    t: IntType,
    x: Ends,
    y: Ends,
    value: Option<Ends>,
    shown: Option<Ends>,
}

fn parsed(line: &str) -> Option<Row> {
    let mut words = line.split_whitespace();
    Some(Row {
        op: operator(words.next()?)?,
        t: int_type(words.next()?)?,
        x: ends(words.next()?)?,
        y: ends(words.next()?)?,
        value: maybe_ends(words.next()?)?,
        shown: maybe_ends(words.next()?)?,
    })
}

fn number(v: i128) -> Option<Interval> {
    if least(IntType::I64) <= v && v <= greatest(IntType::U64) {
        Some(Interval::single(v))
    } else {
        None
    }
}

fn interval(ends: Ends) -> Option<Interval> {
    Some(number(ends.0)?.join(&number(ends.1)?))
}

#[test]
fn operators_give_the_table(rt: HostRuntime) -> Result<(), Fail> {
    let mut rows = 0u32;
    for line in OPERATORS.lines() {
        let row = parsed(line).ok_or(line)?;
        let x = interval(row.x).ok_or(line)?;
        let y = interval(row.y).ok_or(line)?;
        let outcome = Interval::op(row.op, row.t, &x, &y);
        assert_eq!(rt; outcome.value, row.value.and_then(interval), "{line}");
        assert_eq!(rt; outcome.fault, row.shown.is_some(), "{line}");
        assert_eq!(rt; outcome.shown, row.shown.unwrap_or((0, 0)), "{line}");
        rows = rows.wrapping_add(1);
    }
    assert_eq!(rt; rows, 48);
    Ok(())
}

fn converted(line: &str) -> Option<bool> {
    let mut words = line.split_whitespace();
    let x = interval(ends(words.next()?)?)?;
    let t = int_type(words.next()?)?;
    Some(x.convert(t).range() == ends(words.next()?)?)
}

#[test]
fn conversions_give_the_table(rt: HostRuntime) {
    for line in CONVERSIONS.lines() {
        assert_eq!(rt; converted(line), Some(true), "{line}");
    }
}

fn compared(line: &str) -> Option<bool> {
    let mut words = line.split_whitespace();
    let c = comparison(words.next()?)?;
    let x = interval(ends(words.next()?)?)?;
    let y = interval(ends(words.next()?)?)?;
    let left = maybe_ends(words.next()?)?.and_then(interval);
    let right = maybe_ends(words.next()?)?.and_then(interval);
    Some(Interval::filter(c, &x, &y) == left.zip(right))
}

#[test]
fn comparisons_give_the_table(rt: HostRuntime) {
    for line in COMPARISONS.lines() {
        assert_eq!(rt; compared(line), Some(true), "{line}");
    }
}

fn widened(line: &str) -> Option<bool> {
    let mut words = line.split_whitespace();
    let x = interval(ends(words.next()?)?)?;
    let y = interval(ends(words.next()?)?)?;
    let w = x.widen(&y);
    let is_widened = w.range() == ends(words.next()?)?;
    let ranks: (u32, u32) = (words.next()?.parse().ok()?, words.next()?.parse().ok()?);
    Some(is_widened && (x.rank(), w.rank()) == ranks)
}

#[test]
fn widenings_give_the_table(rt: HostRuntime) {
    assert_eq!(rt; Interval::HEIGHT, 14);
    for line in WIDENINGS.lines() {
        assert_eq!(rt; widened(line), Some(true), "{line}");
    }
}

#[test]
fn intervals_are_joined_and_cut(rt: HostRuntime) {
    let a = Interval::single(3).join(&Interval::single(-5));
    assert_eq!(rt; a.range(), (-5, 3));
    assert!(rt; a.holds(0) && !a.holds(4) && a.within(&Interval::top(IntType::I8)));
    assert_eq!(rt; a.meet(&Interval::top(IntType::U8)), interval((0, 3)));
    assert_eq!(rt; a.edges(2, 9), Some((2, 3)));
    assert_eq!(rt; a.cut(3, 3), Some(Interval::single(3)));
    assert_eq!(rt; a.cut(4, 9), None);
    assert_eq!(rt; a.cut(1, 0), None);
}
