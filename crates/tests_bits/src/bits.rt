//! What becomes of known bits. A value is written as its bits, of which the first stands for all up to bit 64.

use crate::Numbers;
use ep_bits::KnownBits;
use ep_domain::Num;
use ep_int::{BinOp, IntType, greatest, least};
use std::test::Fail;
use tests_words::{comparison, ends, int_type, maybe_ends, operator};

// The operator, the type, two values and the results, gone through one by one.
const OPERATORS: &str = "\
& u8 0?1?0 0110 01?0
& u8 0??1? 0?1?1 0????
& i8 ?1?? 01?1 01??
& i8 1?1?1 01?0 01?0
& i8 ?010 1??1 ?0?0
& u8 0?0101010 01111 01010
& u8 01?????????? 0111 none
& i8 01?? 0?? 0??
| u8 0?0? 0100 010?
| i8 ?0?1 0?10 ?11
| i8 10?? 0?1 10?1
| u8 0?? 01000 010??
| i8 ?? ? ?
^ u8 0?1? 01?1 0???
^ i8 ?01 ?10 ?11
^ i8 ?01 01? ?1?
^ u8 011 01 010
^ i16 1?0? 1?1? 0?1?
<< u8 0?1? 010 0?1?00
<< u8 0??????? 0100 0????0000
<< u8 01? 0? 0????????
<< i8 01? 01 ?
<< u8 01? 01000 none
<< u8 01? 11 none
<< i8 1? 01 ?
>> u8 0?1?1?1 010 0?1?1
>> i8 ?0?1?1 011 ?0?
>> i8 1?1?1 010 1?1
>> i8 1?1?1 0?0 ?
>> u8 0?1?1 01000 none
>> i16 ?1?0 0111 ?
+ u8 0?10 0?01 0??????11
+ u8 0?101 0?0?1 0???????0
+ u8 0???????1 01 0???????0
+ i8 ?01 ?11 ?00
+ i8 01111111 01 none
+ u8 01? 0?11 0????????
- u8 0?00 0?01 0??????11
- i8 0?10 0?11 ?11
- u8 0 01 011111111
* u8 0?11 0?10 0??????10
* i8 ?01 ?11 ?11
* i8 0?0 011 ?0
* u8 0???? 0 0????????
/ u8 0?? 0? 0????????
/ i8 11001 010 101
/ u8 011 0 none
% i8 ?1 011 ?
% u8 0111 010 01
";

// A value, a type, and what the value is converted to.
const CONVERSIONS: &str = "\
1?1 u8 0111111?1
?0?1 u8 0?????0?1
?0?1 u64 0?????????????????????????????????????????????????????????????0?1
1?0? u32 011111111111111111111111111111?0?
0?10?????1 u8 010?????1
10 i8 10
0? i16 ?
? u16 0????????????????
011111111 i8 1
";

// Two values, their join and their meet, and how many bits are known of the first and of the join.
const JOINS: &str = "\
0110 0100 01?0 none 65 64
01 10 ? none 65 0
0?1 011 0?1 011 64 64
1?1 10 1?? none 64 63
0 1 ? none 65 0
0?0?0 010?1 0?0?? none 63 62
0101 0101 0101 0101 65 65
";

// A value, a range, the least and the greatest member there, and what is left of the value.
const CUTS: &str = "\
0?1?0 -5..100 4..14 0?1?0
0?1?0 5..13 6..12 0?1?0
0?1?0 5..6 6..6 0110
0?1?0 7..11 none none
0?1?0 15..20 none none
1?1?0 -20..-5 -12..-10 1?1?0
1?1?0 -9..-6 none none
1?0 -9..9 -4..-2 1?0
01?0? 0..7 none none
010 0..5 2..2 010
010 3..9 none none
0?0?0?1 10..40 11..35 0?0?0?1
";

// The comparison, two values, and what it leaves of them.
const COMPARISONS: &str = "\
< 0?1 01 none none
< 0?1 010 0?1 010
<= 01?1 0?01 01?1 0?01
<= 01?1 011 none none
> 0?? 011 none none
> 01?? 011 01?? 011
>= 0? 010 none none
>= 1? 1 1? 1
== 0?1 01? 011 011
== 0?1 0?0 none none
!= 011 011 none none
!= 01? 011 01? 011
!= 010 011 010 011
";

fn single(v: i128) -> Option<KnownBits> {
    if least(IntType::I64) <= v && v <= greatest(IntType::U64) {
        Some(KnownBits::single(v))
    } else {
        None
    }
}

// The number that has 65 bits.
fn number(bits: u128) -> i128 {
    (bits << 63).cast_signed() >> 63
}

// Bit k of a word, as it is written.
fn written(word: &str, k: u32) -> Option<u8> {
    let bytes = word.as_bytes();
    let place = bytes.len().checked_sub(1)?.checked_sub(k as usize);
    bytes.get(place.unwrap_or(0)).copied()
}

// The value of a word: one number, joined with those that differ from it in one bit that isn't known.
fn value(word: &str) -> Option<KnownBits> {
    let mut ones: u128 = 0;
    for k in 0..65u32 {
        if written(word, k)? == b'1' {
            ones |= 1 << k;
        }
    }
    let mut all = single(number(ones))?;
    for k in 0..65u32 {
        if written(word, k)? == b'?' {
            let sign = if k == 64 { 1 << 63 } else { 0 };
            all = all.join(&single(number(ones | sign | 1 << k))?);
        }
    }
    Some(all)
}

fn maybe_value(word: &str) -> Option<Option<KnownBits>> {
    if word == "none" {
        Some(None)
    } else {
        Some(Some(value(word)?))
    }
}

// Whether each bit is known as it is written.
fn is_written(x: &KnownBits, word: &str) -> Option<bool> {
    for k in 0..65u32 {
        let bit = match written(word, k)? {
            b'1' => Some(true),
            b'0' => Some(false),
            _ => None,
        };
        if x.bit(k) != bit {
            return Some(false);
        }
    }
    Some(true)
}

fn calculated(line: &str) -> Option<bool> {
    let mut words = line.split_whitespace();
    let op = operator(words.next()?)?;
    let t = int_type(words.next()?)?;
    let x = value(words.next()?)?;
    let y = value(words.next()?)?;
    let word = words.next()?;
    match KnownBits::op(op, t, &x, &y).value {
        Some(z) => is_written(&z, word),
        None => Some(word == "none"),
    }
}

#[test]
fn operators_give_the_table(rt: HostRuntime) {
    let mut rows = 0u32;
    for line in OPERATORS.lines() {
        assert_eq!(rt; calculated(line), Some(true), "{line}");
        rows = rows.wrapping_add(1);
    }
    assert_eq!(rt; rows, 49);
}

fn converted(line: &str) -> Option<bool> {
    let mut words = line.split_whitespace();
    let x = value(words.next()?)?;
    let t = int_type(words.next()?)?;
    is_written(&x.convert(t), words.next()?)
}

#[test]
fn conversions_give_the_table(rt: HostRuntime) {
    for line in CONVERSIONS.lines() {
        assert_eq!(rt; converted(line), Some(true), "{line}");
    }
}

fn joined(line: &str) -> Option<bool> {
    let mut words = line.split_whitespace();
    let x = value(words.next()?)?;
    let y = value(words.next()?)?;
    let both = value(words.next()?)?;
    let common = maybe_value(words.next()?)?;
    let ranks: (u32, u32) = (words.next()?.parse().ok()?, words.next()?.parse().ok()?);
    let is_joined = x.join(&y) == both && x.widen(&y) == both && x.meet(&y) == common;
    let is_inside = x.within(&both) && y.within(&both) && both.within(&x) == (both == x);
    Some(is_joined && is_inside && (x.rank(), both.rank()) == ranks)
}

#[test]
fn joins_give_the_table(rt: HostRuntime) {
    assert_eq!(rt; KnownBits::HEIGHT, 65);
    for line in JOINS.lines() {
        assert_eq!(rt; joined(line), Some(true), "{line}");
    }
}

fn cut(line: &str) -> Option<bool> {
    let mut words = line.split_whitespace();
    let x = value(words.next()?)?;
    let (lo, hi) = ends(words.next()?)?;
    let has_edges = x.edges(lo, hi) == maybe_ends(words.next()?)?;
    Some(has_edges && x.cut(lo, hi) == maybe_value(words.next()?)?)
}

#[test]
fn cuts_give_the_table(rt: HostRuntime) {
    for line in CUTS.lines() {
        assert_eq!(rt; cut(line), Some(true), "{line}");
    }
}

fn compared(line: &str) -> Option<bool> {
    let mut words = line.split_whitespace();
    let c = comparison(words.next()?)?;
    let x = value(words.next()?)?;
    let y = value(words.next()?)?;
    let left = maybe_value(words.next()?)?;
    let right = maybe_value(words.next()?)?;
    Some(KnownBits::filter(c, &x, &y) == left.zip(right))
}

#[test]
fn comparisons_give_the_table(rt: HostRuntime) {
    for line in COMPARISONS.lines() {
        assert_eq!(rt; compared(line), Some(true), "{line}");
    }
}

#[test]
fn a_bit_that_is_set_and_masked_is_known(rt: HostRuntime) -> Result<(), Fail> {
    let four = KnownBits::single(4);
    let x = KnownBits::op(
        BinOp::Or,
        IntType::U32,
        &KnownBits::top(IntType::U32),
        &four,
    );
    let y = KnownBits::op(
        BinOp::And,
        IntType::U32,
        &x.value.ok_or("x")?,
        &KnownBits::single(6),
    );
    let masked = y.value.ok_or("y")?;
    assert_eq!(rt; masked.range(), (4, 6));
    assert!(rt; masked.holds(4) && masked.holds(6) && !masked.holds(2) && !masked.holds(5));
    assert_eq!(rt; masked.bit(1), None);
    Ok(())
}

// So a division by it has no fault, also in the product with intervals and congruences, of which alone it has one.
#[test]
fn a_divisor_with_a_known_bit_is_not_zero(rt: HostRuntime) -> Result<(), Fail> {
    let t = IntType::U32;
    let x = Numbers::op(BinOp::Or, t, &Numbers::top(t), &Numbers::single(4));
    let y = Numbers::op(BinOp::And, t, &x.value.ok_or("x")?, &Numbers::single(6));
    let divisor = y.value.ok_or("y")?;
    assert_eq!(rt; divisor.range(), (4, 6));
    let quotient = Numbers::op(BinOp::Div, t, &Numbers::single(100), &divisor);
    assert!(rt; !quotient.fault);
    assert_eq!(rt; quotient.value.ok_or("quotient")?.range(), (16, 25));
    Ok(())
}
