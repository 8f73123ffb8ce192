//! Where two ranges hold numbers of which arithmetic is undefined.

ghost use Rattle.std.specs.Prelude.{◌↔◌, IsTrue};
ghost use Rattle.ep_range_laws.specs.Ranges.{IsRange};

use ep_domain::range_fault;
use ep_int::{BinOp, IntType, greatest, least};
use std::test::Fail;
use tests_words::{Ends, ends, int_type, maybe_ends, operator};

// The operator, the type, two ranges, and the range that is shown.
const FAULTS: &str = "\
+ i32 0..2147483647 1..1 1..2147483648
+ i32 0..2147483646 1..1 none
- i8 -128..0 -3..1 -129..3
- u8 0..3 4..9 none
+ i8 200..300 1..1 none
* i64 -9223372036854775808..9223372036854775807 -9223372036854775808..9223372036854775807 -85070591730234615856620279821087277056..85070591730234615865843651857942052864
* i32 -3..5 -7..2 none
* u64 0..18446744073709551615 0..18446744073709551615 none
/ u32 0..4294967295 0..6 0..6
/ i32 -2147483648..5 -1..-1 -1..-1
/ i32 -2147483647..5 -1..-1 none
% i32 -2147483648..-2147483648 -3..-1 -3..-1
% u32 5..9 -3..0 0..0
& i32 -5..5 0..9 none
| u64 0..1 0..1 none
^ i8 0..1 0..1 none
<< i32 0..1 0..31 0..31
<< i32 0..1 0..30 none
<< u32 0..4294967295 0..31 none
<< i32 -1..0 0..1 0..1
<< u8 0..1 3..8 3..8
>> i64 -5..5 0..63 none
>> i64 -5..5 -1..63 -1..63
>> u16 0..1 16..9223372036854775808 16..9223372036854775808
";

#[derive(Clone, Copy)]
struct Row {
    op: BinOp,
    t: IntType,
    x: Ends,
    y: Ends,
    shown: Option<Ends>,
}

fn parsed(line: &str) -> Option<Row> {
    let mut words = line.split_whitespace();
    Some(Row {
        op: operator(words.next()?)?,
        t: int_type(words.next()?)?,
        x: ends(words.next()?)?,
        y: ends(words.next()?)?,
        shown: maybe_ends(words.next()?)?,
    })
}

fn is_range(ends: Ends) -> bool
    ensures { IsTrue result ↔ IsRange ends.0 ends.1 }
{
    least(IntType::I64) <= ends.0 && ends.0 <= ends.1 && ends.1 <= greatest(IntType::U64)
}

#[test]
fn faults_give_the_table(rt: HostRuntime) -> Result<(), Fail> {
    let mut rows = 0u32;
    for line in FAULTS.lines() {
        let Row { op, t, x, y, shown } = parsed(line).ok_or(line)?;
        assert!(rt; is_range(x) && is_range(y), "{line}");
        assert_eq!(rt; range_fault(op, t, x, y), shown, "{line}");
        rows = rows.wrapping_add(1);
    }
    assert_eq!(rt; rows, 24);
    Ok(())
}
