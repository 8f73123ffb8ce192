//! What C's operators give at the edges of the types.

use ep_int::{BinOp, IntType, Undef, arith, common, promote, wrap};
use std::test::Fail;
use tests_words::{int_type, operator};

// What C gives at the edges of the types: computed by gcc 12, and where behaviour is undefined named by its sanitizer.
const ROWS: &str = "\
i8 -128 + i8 -128 = -256
u8 255 + u8 255 = 510
i16 -32768 + i16 -1 = -32769
u16 65535 + i16 32767 = 98302
i32 2147483647 + i32 1 = overflow
i32 -2147483648 + i32 -1 = overflow
i32 -2147483648 + i32 -2147483648 = overflow
u32 4294967295 + u32 1 = 0
u32 0 + i8 -1 = 4294967295
u32 4294967295 + i64 -9223372036854775808 = -9223372032559808513
i64 9223372036854775807 + i8 1 = overflow
i64 -9223372036854775808 + u8 1 = -9223372036854775807
u64 18446744073709551615 + u64 18446744073709551615 = 18446744073709551614
u64 0 + i32 1 = 1
i8 -128 - i8 -128 = 0
u8 255 - u8 255 = 0
i16 -32768 - i16 -1 = -32767
u16 65535 - i16 32767 = 32768
i32 2147483647 - i32 1 = 2147483646
i32 -2147483648 - i32 -1 = -2147483647
i32 -2147483648 - i32 -2147483648 = 0
u32 4294967295 - u32 1 = 4294967294
u32 0 - i8 -1 = 1
u32 4294967295 - i64 -9223372036854775808 = overflow
i64 9223372036854775807 - i8 1 = 9223372036854775806
i64 -9223372036854775808 - u8 1 = overflow
u64 18446744073709551615 - u64 18446744073709551615 = 0
u64 0 - i32 1 = 18446744073709551615
i8 -128 * i8 -128 = 16384
u16 65535 * u16 65535 = overflow
i16 -32768 * u16 65535 = -2147450880
i32 -2147483648 * i32 -1 = overflow
i32 65536 * i32 32768 = overflow
i32 65536 * i32 -32768 = -2147483648
u32 4294967295 * u32 4294967295 = 1
u32 4294967295 * i8 -1 = 1
i64 -9223372036854775808 * i64 -1 = overflow
i64 3037000500 * i64 3037000500 = overflow
i64 4294967296 * i32 -2147483648 = -9223372036854775808
u64 18446744073709551615 * u64 18446744073709551615 = 1
u64 9223372036854775808 * i8 2 = 0
i8 -128 / i8 -1 = 128
u8 255 / u8 0 = division
i16 -32768 / i16 7 = -4681
i32 -7 / i32 2 = -3
i32 7 / i32 -2 = -3
i32 -7 / i32 -2 = 3
i32 -2147483648 / i32 -1 = division
u32 4294967295 / i32 -1 = 1
i32 -7 / u32 2 = 2147483644
u32 4294967295 / i64 -2 = -2147483647
i64 -9223372036854775808 / i64 -1 = division
i64 -9223372036854775808 / i64 10 = -922337203685477580
i64 0 / i64 0 = division
u64 18446744073709551615 / u64 10 = 1844674407370955161
i8 -128 % i8 -1 = 0
u8 255 % u8 0 = division
i16 -32768 % i16 7 = -1
i32 -7 % i32 2 = -1
i32 7 % i32 -2 = 1
i32 -7 % i32 -2 = -1
i32 -2147483648 % i32 -1 = division
u32 4294967295 % i32 -1 = 0
i32 -7 % u32 2 = 1
u32 4294967295 % i64 -2 = 1
i64 -9223372036854775808 % i64 -1 = division
i64 -9223372036854775808 % i64 10 = -8
i64 0 % i64 0 = division
u64 18446744073709551615 % u64 10 = 5
i8 -128 & u8 255 = 128
i16 -32768 & i8 -1 = -32768
u16 65535 & i16 -32768 = 32768
i32 -2147483648 & i32 2147483647 = 0
i32 -2 & i32 1 = 0
i32 -256 & u16 65535 = 65280
u32 4294967295 & i32 -2 = 4294967294
u32 252645135 & u32 16711935 = 983055
i64 -9223372036854775808 & i32 -2147483648 = -9223372036854775808
i64 -1 & u32 4294967295 = 4294967295
u64 18446744073709551615 & i8 -128 = 18446744073709551488
u64 81985529216486895 & u64 18374966859414961920 = 72133462638775552
i8 -128 | u8 255 = -1
i16 -32768 | i8 -1 = -1
u16 65535 | i16 -32768 = -1
i32 -2147483648 | i32 2147483647 = -1
i32 -2 | i32 1 = -1
i32 -256 | u16 65535 = -1
u32 4294967295 | i32 -2 = 4294967295
u32 252645135 | u32 16711935 = 268374015
i64 -9223372036854775808 | i32 -2147483648 = -2147483648
i64 -1 | u32 4294967295 = -1
u64 18446744073709551615 | i8 -128 = 18446744073709551615
u64 81985529216486895 | u64 18374966859414961920 = 18384818925992673263
i8 -128 ^ u8 255 = -129
i16 -32768 ^ i8 -1 = 32767
u16 65535 ^ i16 -32768 = -32769
i32 -2147483648 ^ i32 2147483647 = -1
i32 -2 ^ i32 1 = -1
i32 -256 ^ u16 65535 = -65281
u32 4294967295 ^ i32 -2 = 1
u32 252645135 ^ u32 16711935 = 267390960
i64 -9223372036854775808 ^ i32 -2147483648 = 9223372034707292160
i64 -1 ^ u32 4294967295 = -4294967296
u64 18446744073709551615 ^ i8 -128 = 127
u64 81985529216486895 ^ u64 18374966859414961920 = 18312685463353897711
i8 127 << i8 24 = 2130706432
u8 255 << u8 24 = shift
i16 -1 << i8 0 = shift
i32 1 << i32 30 = 1073741824
i32 1 << i32 31 = shift
i32 1 << u64 32 = shift
i32 0 << i32 31 = 0
i32 -2147483648 << i8 1 = shift
u32 4294967295 << u8 31 = 2147483648
u32 1 << i64 32 = shift
u32 1 << i8 -1 = shift
i64 1 << i8 62 = 4611686018427387904
i64 1 << i8 63 = shift
u64 18446744073709551615 << i8 63 = 9223372036854775808
u64 1 << u64 64 = shift
i8 -128 >> i8 3 = -16
u8 255 >> u8 31 = 0
i16 -32768 >> i8 15 = -1
i32 -7 >> i32 1 = -4
i32 -2147483648 >> i32 31 = -1
i32 2147483647 >> u64 32 = shift
i32 1 >> i32 -1 = shift
u32 4294967295 >> u8 31 = 1
u32 4294967295 >> i64 -9223372036854775808 = shift
i64 -9223372036854775808 >> i8 63 = -1
i64 -1 >> u8 1 = -1
i64 1 >> i8 64 = shift
u64 18446744073709551615 >> i8 63 = 1
u64 18446744073709551615 >> u64 18446744073709551615 = shift
";

#[derive(Drop)]
struct Row {
    left: IntType,
    x: i128,
    op: BinOp,
    right: IntType,
    y: i128,
    answer: Result<i128, Undef>,
}

fn parsed(line: &str) -> Option<Row> {
    let mut words = line.split_whitespace();
    let left = int_type(words.next()?)?;
    let x = words.next()?.parse().ok()?;
    let op = operator(words.next()?)?;
    let right = int_type(words.next()?)?;
    let y = words.next()?.parse().ok()?;
    let _equals = words.next()?;
    let answer = answer(words.next()?)?;
    Some(Row {
        left,
        x,
        op,
        right,
        y,
        answer,
    })
}

fn answer(word: &str) -> Option<Result<i128, Undef>> {
    match word {
        "overflow" => Some(Err(Undef::Overflow)),
        "division" => Some(Err(Undef::Division)),
        "shift" => Some(Err(Undef::Shift)),
        _ => Some(Ok(word.parse().ok()?)),
    }
}

// What the operator gives after the conversions of its operands.
fn computed(row: &Row) -> Result<i128, Undef> {
    match row.op {
        BinOp::Shl => {
            let t = promote(row.left);
            arith(BinOp::Shl, t, wrap(t, row.x), wrap(row.right, row.y))
        }
        BinOp::Shr => {
            let t = promote(row.left);
            arith(BinOp::Shr, t, wrap(t, row.x), wrap(row.right, row.y))
        }
        op => {
            let t = common(row.left, row.right);
            arith(op, t, wrap(t, row.x), wrap(t, row.y))
        }
    }
}

#[test]
fn operators_give_what_c_gives(rt: HostRuntime) -> Result<(), Fail> {
    let mut rows = 0u32;
    for line in ROWS.lines() {
        let row = parsed(line).ok_or(line)?;
        assert_eq!(rt; computed(&row), row.answer, "{line}");
        rows = rows.wrapping_add(1);
    }
    assert_eq!(rt; rows, 134);
    Ok(())
}
