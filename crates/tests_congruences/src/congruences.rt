//! What becomes of congruence classes. A class is written as its remainder and its modulus.

use ep_congruence::Congruence;
use ep_domain::Num;
use ep_int::{BinOp, IntType};
use std::test::Fail;
use tests_words::{Ends, class, comparison, ends, int_type, maybe_class, maybe_ends, operator};

// A remainder and a modulus, and whether there is such a class.
const MADE: &str = "\
0 1 some
0 0 some
5 0 some
-1 0 some
-9223372036854775808 0 some
-9223372036854775809 0 none
18446744073709551615 0 some
18446744073709551616 0 none
0 -1 none
5 -6 none
-1 4 none
4 4 none
3 4 some
0 36893488147419103231 some
36893488147419103230 36893488147419103231 some
0 36893488147419103232 none
18446744073709551615 36893488147419103231 some
18446744073709551616 36893488147419103231 none
27670116110564327422 36893488147419103231 none
27670116110564327423 36893488147419103231 some
18446744073709551616 18446744073709551617 some
18446744073709551616 27670116110564327424 some
18446744073709551616 27670116110564327425 none
0 85070591730234615865843651857942052864 none
85070591730234615865843651857942052864 0 none
0 170141183460469231731687303715884105727 none
-170141183460469231731687303715884105728 0 none
0 -170141183460469231731687303715884105728 none
";

// Two classes, their join, and the ranks of the first and of the join.
const JOINS: &str = "\
5%0 5%0 5%0 65 65
5%0 9%0 1%4 65 2
-1%0 18446744073709551615%0 18446744073709551615%18446744073709551616 65 64
-9223372036854775808%0 18446744073709551615%0 18446744073709551615%27670116110564327423 65 64
3%8 7%12 3%4 3 2
3%8 11%0 3%8 3 3
1%6 4%9 1%3 2 1
0%4 0%8 0%4 2 2
2%4 0%8 0%2 2 1
0%1 7%0 0%1 0 0
5%36893488147419103231 5%0 5%36893488147419103231 64 64
5%36893488147419103231 6%36893488147419103231 0%1 64 0
0%18446744073709551616 0%9223372036854775808 0%9223372036854775808 64 63
-9223372036854775808%0 0%1099511627776 0%1099511627776 65 40
7%10 7%10 7%10 3 3
";

// The operator, the type, two classes, the results, and the range that the fault shows.
const OPERATORS: &str = "\
+ i32 5%0 7%0 12%0 none
+ i32 2147483647%0 1%0 none 2147483648..2147483648
+ u32 4294967295%0 1%0 0%0 none
+ i32 1%6 2%9 0%3 -4294967296..4294967294
+ i32 3%0 2%8 5%8 -2147483645..2147483650
+ u32 1%6 2%9 0%1 none
+ u32 1%12 2%20 3%4 none
+ u32 0%3000000000 1%3000000000 1%512 none
+ u32 0%2147483648 1%2147483648 1%2147483648 none
+ u32 5%3000000000 7%0 12%3000000000 none
+ u8 0%100 10%100 2%4 none
+ u8 0%100 3%150 1%2 none
+ u64 1%9223372036854775808 1%9223372036854775808 2%9223372036854775808 none
+ u64 0%24 8%0 8%24 none
+ i64 1%9223372036854775808 1%9223372036854775808 2%9223372036854775808 -18446744073709551616..18446744073709551614
+ i8 300%1000 1%2 none none
+ i8 300%0 1%2 none none
+ i8 100%200 1%2 1%2 -256..254
+ i64 5%36893488147419103231 1%36893488147419103231 6%0 none
+ u64 9223372036854775808%36893488147419103231 1%36893488147419103231 9223372036854775809%0 none
+ i64 9223372036854775808%36893488147419103231 1%2 none none
+ i64 -9%0 5%10 6%10 -9223372036854775817..9223372036854775798
+ i64 3%1099511627776 5%2199023255552 8%1099511627776 -18446744073709551616..18446744073709551614
- i32 1%6 2%9 2%3 -4294967295..4294967295
- u32 9%12 0%0 9%12 none
- u32 9%12 10%0 3%4 none
- u8 250%0 0%100 50%100 none
- u8 250%0 51%100 3%4 none
- i64 -9223372036854775808%0 1%2 1%2 -18446744073709551615..0
- u64 5%6 0%0 5%6 none
* i64 1%6 2%9 2%3 -85070591730234615856620279821087277056..85070591730234615865843651857942052864
* i64 0%1 16%0 0%16 -147573952589676412928..147573952589676412912
* i64 3%8 -12%0 60%96 -110680464442257309684..110680464442257309696
* u32 3%8 12%0 4%32 none
* u32 0%1 12%0 0%4 none
* u8 1%50 2%0 2%4 none
* u8 1%100 3%0 3%4 none
* u64 0%1099511627776 0%1099511627776 0%18446744073709551616 none
* u64 0%4294967296 2147483648%4294967296 0%9223372036854775808 none
* u64 0%9223372036854775808 0%9223372036854775808 0%18446744073709551616 none
* u64 0%9223372036854775808 0%13835058055282163712 0%1 none
* i64 0%1099511627776 0%1099511627776 0%1 -85070591730234615856620279821087277056..85070591730234615865843651857942052864
* i64 3%9223372036854775808 5%9223372036854775808 15%9223372036854775808 -85070591730234615856620279821087277056..85070591730234615865843651857942052864
* i64 0%9223372036854775808 0%9223372036854775808 0%1 -85070591730234615856620279821087277056..85070591730234615865843651857942052864
* i64 0%4611686018427387904 0%2 0%9223372036854775808 -85070591730234615856620279821087277056..85070591730234615865843651857942052864
* i64 0%4611686018427387904 0%4 0%18446744073709551616 -85070591730234615856620279821087277056..85070591730234615865843651857942052864
* i64 0%4611686018427387904 0%8 0%1 -85070591730234615856620279821087277056..85070591730234615865843651857942052864
* i64 0%4611686018427387904 4%0 0%18446744073709551616 -36893488147419103232..36893488147419103228
* i64 0%4611686018427387904 8%0 0%8 -73786976294838206464..73786976294838206456
* i64 0%4611686018427387904 12%0 0%12 -110680464442257309696..110680464442257309684
* i64 1%4611686018427387904 12%0 0%12 -110680464442257309696..110680464442257309684
* i64 0%4611686018427387904 -12%0 0%12 -110680464442257309684..110680464442257309696
* u64 0%4611686018427387904 12%0 0%18446744073709551616 none
* u64 1%9223372036854775808 12%0 12%18446744073709551616 none
* u64 1%9223372036854775808 9223372036854775808%0 9223372036854775808%18446744073709551616 none
* i64 0%4611686018427387904 0%0 0%0 none
* i64 7%0 1%2305843009213693952 7%16140901064495857664 -64563604257983430656..64563604257983430649
* i64 1%2305843009213693952 1%2305843009213693952 1%2305843009213693952 -85070591730234615856620279821087277056..85070591730234615865843651857942052864
* i32 7%0 -6%0 -42%0 none
* i32 65536%0 65536%0 none 4294967296..4294967296
* u32 65537%0 65537%0 131073%0 none
* i64 0%1 9223372036854775807%0 0%9223372036854775807 -85070591730234615856620279821087277056..85070591730234615847396907784232501249
* u64 0%3 18446744073709551615%0 0%1 none
* i64 1%18446744073709551616 1%2 1%2 none
/ i32 -7%0 2%0 -3%0 none
/ i32 7%0 0%0 none 0..0
/ i32 -2147483648%0 -1%0 none -1..-1
/ i32 0%6 2%0 0%1 none
/ i32 0%6 0%4 0%1 -2147483648..2147483647
/ i32 6%0 1%4 0%1 -2147483648..2147483647
% i32 -7%0 2%0 -1%0 none
% i32 0%6 3%0 0%1 none
% u32 0%6 0%0 0%1 0..0
& i32 -4%0 7%0 4%0 none
& u32 0%8 7%0 0%1 none
| u32 8%0 7%0 15%0 none
| i32 0%8 1%0 0%1 none
^ u8 255%0 15%0 240%0 none
^ i32 0%8 0%8 0%1 none
<< i32 3%0 4%0 48%0 none
<< i32 3%0 32%0 none 32..32
<< i32 -3%0 1%0 none 1..1
<< u32 1%3 4%0 0%16 none
<< u32 0%1 4%0 0%16 none
<< i64 1%3 4%0 16%48 4..4
<< i64 0%1 62%0 0%4611686018427387904 62..62
<< u64 0%1 63%0 0%9223372036854775808 none
<< u64 1%2 0%0 1%2 none
<< u64 1%2 64%0 0%1 64..64
<< u64 1%2 -1%0 0%1 -1..-1
<< u64 4%0 0%2 0%1 -9223372036854775808..18446744073709551615
<< u8 0%32 3%0 0%256 none
<< u8 0%16 3%0 0%128 none
<< u64 1%9223372036854775808 63%0 9223372036854775808%18446744073709551616 none
<< i64 0%4611686018427387904 3%0 0%8 3..3
>> i32 -7%0 1%0 -4%0 none
>> u32 0%8 3%0 0%1 none
>> u32 7%0 33%0 none 33..33
";

// A class, a type, and what the class is converted to.
const CONVERSIONS: &str = "\
-1%0 u8 255%0
300%0 i8 44%0
18446744073709551615%0 i64 -1%0
5%6 u8 1%2
5%12 i32 1%4
100%1099511627776 u32 100%4294967296
1099511627876%2199023255552 u32 100%4294967296
3%18446744073709551616 i64 3%18446744073709551616
7%36893488147419103231 u64 0%1
7%300 i8 3%4
0%1 i16 0%1
2%3072 u8 2%256
";

// Two classes and their meet.
const MEETS: &str = "\
5%0 1%4 5%0
1%4 5%0 5%0
6%0 1%4 none
5%0 5%0 5%0
5%0 6%0 none
1%4 3%6 3%6
1%6 3%4 1%6
1%4 1%8 1%8
1%4 2%6 none
0%6 3%9 3%9
0%1 3%9 3%9
5%36893488147419103231 4%36893488147419103231 none
1%6 3%6 none
3%6 3%6 3%6
";

// The comparison, two classes, and what it leaves of them.
const COMPARISONS: &str = "\
== 5%0 1%4 5%0 5%0
== 6%0 1%4 none none
== 1%4 3%6 3%6 3%6
!= 5%0 5%0 none none
!= 5%0 6%0 5%0 6%0
!= 1%4 1%4 1%4 1%4
!= 5%0 1%4 5%0 1%4
< 5%0 6%0 5%0 6%0
< 6%0 6%0 none none
<= 6%0 6%0 6%0 6%0
<= 7%0 6%0 none none
> 6%0 6%0 none none
> 7%0 6%0 7%0 6%0
>= 5%0 6%0 none none
>= 6%0 6%0 6%0 6%0
< 1%4 0%0 1%4 0%0
== 5%0 6%0 none none
== 6%0 6%0 6%0 6%0
";

// A class, a range, the least and the greatest member there, and what is left of the class.
const CUTS: &str = "\
1%4 0..10 1..9 1%4
1%4 2..4 none none
1%4 2..5 5..5 5%0
1%4 6..8 none none
1%4 9..2 none none
5%0 0..10 5..5 5%0
5%0 6..10 none none
5%0 5..5 5..5 5%0
3%10 -20..-1 -17..-7 3%10
3%10 -7..-7 -7..-7 -7%0
0%8 -9223372036854775809..18446744073709551616 -9223372036854775808..18446744073709551608 0%8
5%36893488147419103231 -9223372036854775808..18446744073709551615 5..5 5%0
5%36893488147419103231 6..18446744073709551615 none none
36893488147419103230%36893488147419103231 -9223372036854775808..18446744073709551615 -1..-1 -1%0
7%18446744073709551616 -9223372036854775808..18446744073709551615 7..7 7%0
9223372036854775808%18446744073709551616 -9223372036854775808..18446744073709551615 -9223372036854775808..9223372036854775808 9223372036854775808%18446744073709551616
0%1 -3..3 -3..3 0%1
0%1 4..4 4..4 4%0
";

#[derive(Clone, Copy)]
struct Row {
    op: BinOp,
    t: IntType,
    x: Congruence,
    y: Congruence,
    value: Option<Congruence>,
    shown: Option<Ends>,
}

fn made(line: &str) -> Option<bool> {
    let mut words = line.split_whitespace();
    let remainder: i128 = words.next()?.parse().ok()?;
    let modulus: i128 = words.next()?.parse().ok()?;
    let parts = Congruence::of(remainder, modulus).map(|c| (c.remainder(), c.modulus()));
    if words.next()? == "some" {
        Some(parts == Some((remainder, modulus)))
    } else {
        Some(parts.is_none())
    }
}

#[test]
fn classes_are_made_of_the_table(rt: HostRuntime) {
    for line in MADE.lines() {
        assert_eq!(rt; made(line), Some(true), "{line}");
    }
}

fn joined(line: &str) -> Option<bool> {
    let mut words = line.split_whitespace();
    let x = class(words.next()?)?;
    let y = class(words.next()?)?;
    let both = class(words.next()?)?;
    let ranks: (u32, u32) = (words.next()?.parse().ok()?, words.next()?.parse().ok()?);
    let is_joined = x.join(&y) == both && x.widen(&y) == both;
    let is_inside = x.within(&both) && y.within(&both) && both.within(&x) == (both == x);
    Some(is_joined && is_inside && (x.rank(), both.rank()) == ranks)
}

#[test]
fn joins_give_the_table(rt: HostRuntime) {
    assert_eq!(rt; Congruence::HEIGHT, 65);
    for line in JOINS.lines() {
        assert_eq!(rt; joined(line), Some(true), "{line}");
    }
}

fn parsed(line: &str) -> Option<Row> {
    let mut words = line.split_whitespace();
    Some(Row {
        op: operator(words.next()?)?,
        t: int_type(words.next()?)?,
        x: class(words.next()?)?,
        y: class(words.next()?)?,
        value: maybe_class(words.next()?)?,
        shown: maybe_ends(words.next()?)?,
    })
}

#[test]
fn operators_give_the_table(rt: HostRuntime) -> Result<(), Fail> {
    let mut rows = 0u32;
    for line in OPERATORS.lines() {
        let row = parsed(line).ok_or(line)?;
        let outcome = Congruence::op(row.op, row.t, &row.x, &row.y);
        assert_eq!(rt; outcome.value, row.value, "{line}");
        assert_eq!(rt; outcome.fault, row.shown.is_some(), "{line}");
        assert_eq!(rt; outcome.shown, row.shown.unwrap_or((0, 0)), "{line}");
        rows = rows.wrapping_add(1);
    }
    assert_eq!(rt; rows, 98);
    Ok(())
}

fn converted(line: &str) -> Option<bool> {
    let mut words = line.split_whitespace();
    let x = class(words.next()?)?;
    let t = int_type(words.next()?)?;
    Some(x.convert(t) == class(words.next()?)?)
}

#[test]
fn conversions_give_the_table(rt: HostRuntime) {
    for line in CONVERSIONS.lines() {
        assert_eq!(rt; converted(line), Some(true), "{line}");
    }
}

fn met(line: &str) -> Option<bool> {
    let mut words = line.split_whitespace();
    let x = class(words.next()?)?;
    let y = class(words.next()?)?;
    Some(x.meet(&y) == maybe_class(words.next()?)?)
}

#[test]
fn meets_give_the_table(rt: HostRuntime) {
    for line in MEETS.lines() {
        assert_eq!(rt; met(line), Some(true), "{line}");
    }
}

fn compared(line: &str) -> Option<bool> {
    let mut words = line.split_whitespace();
    let c = comparison(words.next()?)?;
    let x = class(words.next()?)?;
    let y = class(words.next()?)?;
    let left = maybe_class(words.next()?)?;
    let right = maybe_class(words.next()?)?;
    Some(Congruence::filter(c, &x, &y) == left.zip(right))
}

#[test]
fn comparisons_give_the_table(rt: HostRuntime) {
    for line in COMPARISONS.lines() {
        assert_eq!(rt; compared(line), Some(true), "{line}");
    }
}

fn cut(line: &str) -> Option<bool> {
    let mut words = line.split_whitespace();
    let x = class(words.next()?)?;
    let (lo, hi) = ends(words.next()?)?;
    let has_edges = x.edges(lo, hi) == maybe_ends(words.next()?)?;
    Some(has_edges && x.cut(lo, hi) == maybe_class(words.next()?)?)
}

#[test]
fn cuts_give_the_table(rt: HostRuntime) {
    for line in CUTS.lines() {
        assert_eq!(rt; cut(line), Some(true), "{line}");
    }
}

#[test]
fn classes_hold_their_members(rt: HostRuntime) -> Result<(), Fail> {
    let x = class("3%8").ok_or("3%8")?;
    assert!(rt; x.holds(3) && x.holds(-5) && !x.holds(4) && !x.holds(1 << 64));
    assert_eq!(rt; x.range(), (-(1 << 63), (1 << 64) - 1));
    let one = Congruence::single(-7);
    assert!(rt; one.holds(-7) && !one.holds(7));
    assert_eq!(rt; one.range(), (-7, -7));
    let all = Congruence::top(IntType::U8);
    assert!(rt; all.holds(-1) && one.within(&all) && !all.within(&one));
    Ok(())
}
