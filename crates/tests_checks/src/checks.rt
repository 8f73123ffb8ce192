//! The command `check` on sources of the whole language: reports and refusals.

use std::alloc::Global;
use std::process::Abort;
use std::test::Fail;
use tests_calls::{Case, Status, call};

/// The source, the status and the text.
type Row = (&'static str, Status, &'static str);

fn expect(
    rt: &impl Abort,
    alloc: Global,
    case: &Case,
    status: Status,
    text: &str,
) -> Result<(), Fail> {
    let (ended, written) = call(alloc, case)?;
    assert_eq!(rt; ended, status);
    assert_eq!(rt; written.as_slice(), text.as_bytes());
    Ok(())
}

fn expect_all(rt: &impl Abort, alloc: Global, table: &[Row]) -> Result<(), Fail> {
    for (source, status, text) in table.iter() {
        expect(rt, alloc, &Case::check(source.as_bytes()), *status, text)?;
    }
    Ok(())
}

#[test]
fn numbers_and_their_types(rt: HostRuntime) -> Result<(), Fail> {
    let table: [Row; 14] = [
        (
            "int main(void) {\n  int32_t level = 2147483647;\n  level = level + 1;\n  ep_out_i32(level);\n}\n",
            Status::Alarms,
            "3: U1 overflow left [2147483648,2147483648] right [2147483648,2147483648]\n1 alarms\n",
        ),
        (
            "int main(void) {\n  uint32_t level = 4294967295u;\n  level = level + 1;\n  ep_out_u32(level);\n}\n",
            Status::Done,
            "portable\n",
        ),
        (
            "int main(void) {\n  long level = 2147483647;\n  level = level + 1;\n  ep_out_i32(level);\n}\n",
            Status::Alarms,
            "3: U1 overflow left [2147483648,2147483648] right [2147483648,2147483648]\n1 alarms\n",
        ),
        (
            "int main(void) {\n  int64_t level = ep_in_i64();\n  level *= 2;\n}\n",
            Status::Alarms,
            "3: U1 overflow left [-18446744073709551616,18446744073709551614] right [-18446744073709551616,18446744073709551614]\n1 alarms\n",
        ),
        (
            "int main(void) {\n  uint32_t rest;\n  ep_out_u32(rest);\n}\n",
            Status::Alarms,
            "3: U4 uninitialised left [0,0] right [0,0]\n1 alarms\n",
        ),
        (
            "int main(void) {\n  int32_t parts = ep_in_i32();\n  ep_out_i32(100 / parts);\n}\n",
            Status::Alarms,
            "3: U2 division left [-2147483648,2147483647] right [-2147483648,2147483647]\n1 alarms\n",
        ),
        (
            "int main(void) {\n  uint32_t share, parts = ep_in_u32();\n  parts &= 3;\n  share = 0; if (parts != 0) share = 100 / parts;\n  ep_out_u32(share);\n}\n",
            Status::Done,
            "portable\n",
        ),
        (
            "int main() {\n  int8_t a = ep_in_i8(); uint8_t b = ep_in_u8();\n  int16_t c = ep_in_i16(); uint16_t d = ep_in_u16();\n  int32_t e = ep_in_i32(); uint32_t f = ep_in_u32();\n  int64_t g = ep_in_i64(); uint64_t h = ep_in_u64();\n  ep_out_i8(a); ep_out_u8(b); ep_out_i16(c); ep_out_u16(d);\n  ep_out_i32(e); ep_out_u32(f); ep_out_i64(g); ep_out_u64(h);\n}\n",
            Status::Done,
            "portable\n",
        ),
        (
            "int main() {\n  int16_t c = ep_in_i16(); uint64_t h = ep_in_u64();\n  ep_write(&c, 2);\n  ep_write(&h, 8);\n}\n",
            Status::Alarms,
            "3: E1 output-differs left [0,255] right [0,255]\n4: E1 output-differs left [0,255] right [0,255]\n2 alarms\n",
        ),
        (
            "int main(void) {\n  int16_t ones = -1;\n  int8_t b = 5;\n  ep_write(&ones, 2);\n  ep_write(&b, 1);\n}\n",
            Status::Done,
            "portable\n",
        ),
        (
            "uint16_t g = 258, h;\nint main(void) {\n  ep_out_u16(h);\n  ep_write(&g, 1);\n}\n",
            Status::Alarms,
            "4: E1 output-differs left [2,2] right [1,1]\n1 alarms\n",
        ),
        (
            "int main(void) {\n  int32_t x = ep_in_i8();\n  ep_out_i32(-x); ep_out_i32(~x); ep_out_i32(+x);\n  ep_out_u8((uint8_t)x);\n}\n",
            Status::Done,
            "portable\n",
        ),
        (
            "int main(void) {\n  uint32_t x = ep_in_u32();\n  x += 5; x++; --x; x <<= 1; x %= 7;\n  ep_in_u8();\n  return x & 1;\n}\n",
            Status::Done,
            "portable\n",
        ),
        (
            "int main(void) {\n  unsigned long size = sizeof(int);\n  char c = 'a';\n  ep_out_u32(size + c);\n}\n",
            Status::Done,
            "portable\n",
        ),
    ];
    expect_all(&rt, rt.alloc(), &table)
}

#[test]
fn statements_and_what_stands_round_them(rt: HostRuntime) -> Result<(), Fail> {
    let table: [Row; 14] = [
        (
            "int main(void) {\n  int32_t i;\n  for (i = 0; i < 10; i++) ep_out_i32(i);\n}\n",
            Status::Done,
            "portable\n",
        ),
        (
            "int main(void) {\n  for (uint8_t i = 0; i != 9; i += 1) {\n    if (i == 1) continue;\n    ep_out_u8(i);\n  }\n}\n",
            Status::Done,
            "portable\n",
        ),
        (
            "int main(void) {\n  for (int32_t i = 0; ; i++)\n    if (i == 33) break;\n}\n",
            Status::Alarms,
            "2: U1 overflow left [33,2147483648] right [33,2147483648]\n1 alarms\n",
        ),
        (
            "int main(void) {\n  uint8_t n = 0;\n  do { n = n + 1; if (n == 7) break; } while (n < 10);\n  ep_out_u8(n);\n}\n",
            Status::Done,
            "portable\n",
        ),
        (
            "int main(void) {\n  uint8_t n = 3;\n  while (n) n--;\n  if (n == 0) ; else { ep_out_u8(n); }\n}\n",
            Status::Done,
            "portable\n",
        ),
        (
            "int main(void) {\n  uint8_t x = 1;\n  { uint8_t x = 2; ep_out_u8(x); }\n  ep_out_u8(x);\n}\n",
            Status::Done,
            "portable\n",
        ),
        (
            "int main(void) {\n  uint8_t n = 0;\n  while (n < 2) {\n    uint8_t y;\n    if (n == 1) ep_out_u8(y);\n    y = 1; n = n + 1;\n  }\n}\n",
            Status::Alarms,
            "5: U4 uninitialised left [0,0] right [0,0]\n1 alarms\n",
        ),
        (
            "typedef uint16_t word;\ntypedef struct { word low, high; } *pair;\nint main(void) {\n  word w = 7;\n  pair p;\n  ep_out_u16(w);\n}\n",
            Status::Done,
            "portable\n",
        ),
        (
            "#include <stdint.h>\n#include \"ep.h\"\n#define MOST 0x7F\n/* two\n   lines */\nint main(void) {\n  uint8_t x; // to the end\n  x = MOST + 'a';\n  ep_out_u8(x);\n}\n",
            Status::Done,
            "portable\n",
        ),
        (
            "int next(int n);\nint next(int n) { return n + 1; }\nint last(int n);\nint main(void) { ep_out_i32(3); }\n",
            Status::Done,
            "portable\n",
        ),
        (
            "uint8_t table[3] = {1, 2};\nint *place;\nint main(void) {\n  uint8_t row[9];\n  return 0;\n}\n",
            Status::Done,
            "portable\n",
        ),
        (
            "int main(void) { int x; x = (((((((((((((((((((((((((((((((((((((((((((((((((((((((((((((((1))))))))))))))))))))))))))))))))))))))))))))))))))))))))))))))); }\n",
            Status::Done,
            "portable\n",
        ),
        (
            "int main(void) { int x; x = ((((((((((((((((((((((((((((((((((((((((((((((((((((((((((((((((1)))))))))))))))))))))))))))))))))))))))))))))))))))))))))))))))); }\n",
            Status::Refused,
            "1: refused 22 nesting\n",
        ),
        (
            "int main(void) {\n  uint8_t n = 1;\n  return n;\n  ep_write(&n, 1); }\n",
            Status::Done,
            "portable\n",
        ),
    ];
    expect_all(&rt, rt.alloc(), &table)
}

#[test]
fn the_whole_language(rt: HostRuntime) -> Result<(), Fail> {
    let table: [Row; 16] = [
        (
            "uint8_t one(void) { return 1; }\nint main(void) {\n  uint8_t x;\n  x = one();\n  ep_out_u8(x);\n}\n",
            Status::Done,
            "portable\n",
        ),
        (
            "void none(void) { }\nint main(void) {\n  none();\n}\n",
            Status::Done,
            "portable\n",
        ),
        (
            "int main(void) {\n  uint32_t x;\n  uint8_t b[4];\n  x = ep_in_u32();\n  b[0] = x >> 24; b[1] = x >> 16;\n  ep_write(b, 4);\n}\n",
            Status::Alarms,
            "6: U4 uninitialised left [0,0] right [0,0]\n1 alarms\n",
        ),
        (
            "int main(void) {\n  uint16_t x = 1;\n  ep_write(&x, 2);\n  ep_write(&x, 3);\n}\n",
            Status::Alarms,
            "3: E1 output-differs left [0,1] right [0,1]\n4: U5 bounds left [0,0] right [0,0]\n2 alarms\n",
        ),
        (
            "int main(void) {\n  uint16_t x = ep_in_u16();\n#if __BYTE_ORDER__ == __ORDER_LITTLE_ENDIAN__\n  ep_out_u16(x);\n#endif\n}\n",
            Status::Alarms,
            "4: E2 one-sided-io left [0,0] right [0,0]\n1 alarms\n",
        ),
        (
            "\n#if __BYTE_ORDER__ == __ORDER_BIG_ENDIAN__\nint f(void) { return 1; }\n#else\nint f(void) { return 2; }\n#endif\nint main(void) { }\n",
            Status::Done,
            "portable\n",
        ),
        (
            "int main(void) {\n  uint32_t x = 1;\n  uint32_t *p = &x;\n  *p = 2;\n}\n",
            Status::Done,
            "portable\n",
        ),
        (
            "int *p;\nint main(void) {\n  *p = 2;\n}\n",
            Status::Alarms,
            "3: U6 null left [0,0] right [0,0]\n1 alarms\n",
        ),
        (
            "struct s { int a; };\nint main(void) {\n  struct s v;\n  v.a = 1;\n}\n",
            Status::Done,
            "portable\n",
        ),
        (
            "struct s { int a; } v, w;\nint main(void) {\n  v = w;\n}\n",
            Status::Done,
            "portable\n",
        ),
        (
            "int main(void) {\n  uint8_t a[3] = {1, 2};\n  ep_write(a, 3);\n}\n",
            Status::Done,
            "portable\n",
        ),
        (
            "int main(void) {\n  uint32_t x;\n  memset(&x, 0, 4);\n  ep_write(&x, 4);\n}\n",
            Status::Done,
            "portable\n",
        ),
        (
            "int main(void) {\n  uint32_t x, y;\n  memcpy(&x, &y, 4);\n}\n",
            Status::Done,
            "portable\n",
        ),
        (
            "int main(void) {\n  uint32_t x;\n  ep_read(&x, 4);\n  ep_out_u32(x);\n}\n",
            Status::Alarms,
            "4: E1 output-differs left [0,4294967295] right [0,4294967295]\n1 alarms\n",
        ),
        (
            "int main(void) {\n  uint8_t x = 1;\n  if (x > 0 && x < 2) x = 2;\n  x = x > 0 || x < 2;\n  while (x) x = !x;\n  return x ? 1 : 2;\n}\n",
            Status::Done,
            "portable\n",
        ),
        (
            "void f(void) {\n  uint8_t a[2];\n  a[0] = 1;\n}\nint main(void) {\n  uint8_t a[3], i;\n  for (i = 0; i < 3; i++)\n    a[i] = 1;\n  f();\n  ep_write(a, 3);\n}\n",
            Status::Done,
            "portable\n",
        ),
    ];
    expect_all(&rt, rt.alloc(), &table)
}

/// A refused source, and its line.
type Refused = (&'static str, &'static str);

#[test]
fn sources_that_mean_nothing(rt: HostRuntime) -> Result<(), Fail> {
    let table: [Refused; 16] = [
        (
            "int main(void) { return 0; } /* to the end\n",
            "1: refused 2 comment\n",
        ),
        ("9223372036854775808\n", "1: refused 3 number\n"),
        ("\"text\"\n", "1: refused 4 string-literal\n"),
        ("#include <stdio.h>\n", "1: refused 6 include\n"),
        ("#if __BYTE_ORDER__ == 1\n", "1: refused 7 conditional\n"),
        ("goto\n", "1: refused 8 reserved-word goto\n"),
        (
            "int main(void) {\n  int x = 0;\n  goto out;\n}\n",
            "3: refused 8 reserved-word goto\n",
        ),
        ("struct s { int a : 3; };\n", "1: refused 9 bit-field\n"),
        (
            "int main(void) {\n  uint32_t x;\n  x = ep_in_u32();\n",
            "3: refused 10 syntax\n",
        ),
        ("int main(void) {};\n", "1: refused 10 syntax\n"),
        (
            "int main(void) {\n  uint8_t a[2];\n  a[0] = 1;\n  y = 1;\n}\n",
            "4: refused 30 unknown-name\n",
        ),
        (
            "int main(void) {\n  uint32_t memcpy;\n}\n",
            "2: refused 31 redeclared\n",
        ),
        (
            "int main(void) { uint32_t x; uint32_t *p = &x; x = (uint32_t)p; }\n",
            "1: refused 34 pointer-to-integer\n",
        ),
        (
            "int even(int n);\nint odd(int n) { int r; r = even(n); return r; }\nint even(int n) { int r; r = odd(n); return r; }\nint main(void) { return 0; }\n",
            "2: refused 35 recursion\n",
        ),
        ("int mains(void) { }\n", "1: refused 36 no-main\n"),
        (
            "int main(void) {\n  while (1 < 2) { }\n  continue;\n}\n",
            "3: refused 47 stray-jump\n",
        ),
    ];
    for (source, text) in table.iter() {
        let case = Case::check(source.as_bytes());
        expect(&rt, rt.alloc(), &case, Status::Refused, text)?;
    }
    Ok(())
}

// A name that isn't called, arguments without a parameter, arrays of no size.
#[test]
fn types_that_are_refused(rt: HostRuntime) -> Result<(), Fail> {
    let table: [Refused; 9] = [
        (
            "void f(void) { }\nint main(void) {\nf\n= y;\n}\n",
            "3: refused 32 type-mismatch\n",
        ),
        (
            "int f(void) { return 1; }\nint main(void) {\nint x;\nx = 1 +\nf;\n}\n",
            "5: refused 32 type-mismatch\n",
        ),
        (
            "void f(void) { }\nint z[\nf];\nint main(void) { }\n",
            "3: refused 32 type-mismatch\n",
        ),
        (
            "struct s { int a; } s;\nvoid f(int a) { }\nint main(void) {\nf(1, s);\n}\n",
            "4: refused 32 type-mismatch\n",
        ),
        (
            "struct s { int a; } s;\nint main(void) {\nep_write(&s, 4, s);\n}\n",
            "3: refused 32 type-mismatch\n",
        ),
        (
            "int x;\nvoid f(int a) { }\nint main(void) {\nf(1, &x);\n}\n",
            "4: refused 39 arity\n",
        ),
        (
            "int x;\nvoid f(int a) { }\nint main(void) {\nf(&x, 1);\n}\n",
            "4: refused 34 pointer-to-integer\n",
        ),
        (
            "void f(void\na[]);\nint main(void) { }\n",
            "2: refused 33 incomplete-type\n",
        ),
        (
            "struct s *p;\nvoid f(struct s a[2]);\nint main(void) { }\n",
            "2: refused 33 incomplete-type\n",
        ),
    ];
    for (source, text) in table.iter() {
        let case = Case::check(source.as_bytes());
        expect(&rt, rt.alloc(), &case, Status::Refused, text)?;
    }
    Ok(())
}

/// A main of so many tests inside one another.
fn nested(alloc: Global, depth: u32) -> Result<String, Fail> {
    let mut source = String::from_str(alloc, "int main(void) {\n")?;
    for _ in 0..depth {
        source.push_str("if (1 < 2) {")?;
    }
    for _ in 0..depth {
        source.push_str("}")?;
    }
    source.push_str("}")?;
    Ok(source)
}

#[test]
fn statements_inside_one_another(rt: HostRuntime) -> Result<(), Fail> {
    let table = [
        (32, Status::Done, "portable\n"),
        (33, Status::Refused, "2: refused 22 nesting\n"),
        (20000, Status::Refused, "2: refused 22 nesting\n"),
    ];
    for (depth, status, text) in table {
        let source = nested(rt.alloc(), depth)?;
        let case = Case::check(source.as_bytes());
        expect(&rt, rt.alloc(), &case, status, text)?;
    }
    Ok(())
}
