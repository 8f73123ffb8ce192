//! Sources at the limits of depth, and past them.

use std::alloc::{AllocError, Global};
use std::fmt::Write;
use std::test::Fail;
use tests_outlines::items;

/// A program that reads a packet, changes it and writes it, on a machine of either byte order.
const PACKET: &str = "#include <stdint.h>
#include <string.h>
#include \"ep.h\"
#define FRAME 16
#define MAGIC 0x5a
struct packet {
    uint8_t kind;
    uint16_t station;
    uint32_t stamp;
    uint16_t level[3];
    uint16_t sum;
};
#if __BYTE_ORDER__ == __ORDER_LITTLE_ENDIAN__
static uint32_t to_wire(uint32_t v)
{
    return (v >> 24) | ((v >> 8) & 0xff00u) | ((v << 8) & 0xff0000u) | (v << 24);
}
#else
static uint32_t to_wire(uint32_t v)
{
    return v;
}
#endif
static uint16_t get16(const uint8_t *p)
{
    return (uint16_t)((p[0] << 8) | p[1]);
}
static uint32_t get32(const uint8_t *p)
{
    return ((uint32_t)p[0] << 24) | ((uint32_t)p[1] << 16)
         | ((uint32_t)p[2] << 8) | (uint32_t)p[3];
}
static void put16(uint8_t *p, uint16_t v)
{
    p[0] = (uint8_t)(v >> 8);
    p[1] = (uint8_t)v;
}
/* The sum of the bytes before the last two. */
static uint16_t checksum(const uint8_t *p)
{
    uint32_t total = 0;
    uint32_t i;
    for (i = 0; i < FRAME - 2; i++)
        total += p[i];
    return (uint16_t)total;
}
static void decode(const uint8_t *f, struct packet *q)
{
    uint32_t i;
    q->kind = f[1];
    q->station = get16(f + 2);
    q->stamp = get32(f + 4);
    for (i = 0; i < 3; i++)
        q->level[i] = get16(f + 8 + 2 * i);
    q->sum = get16(f + 14);
}
static void encode(const struct packet *q, uint8_t *f)
{
    uint32_t i;
    uint32_t w;
    uint16_t s;
    f[0] = MAGIC;
    f[1] = q->kind;
    put16(f + 2, q->station);
    w = to_wire(q->stamp);
    memcpy(f + 4, &w, 4);
    for (i = 0; i < 3; i++)
        put16(f + 8 + 2 * i, q->level[i]);
    s = checksum(f);
    put16(f + 14, s);
}
int main(void)
{
    uint8_t frame[FRAME];
    uint8_t reply[FRAME];
    struct packet pkt;
    uint16_t want;
    uint16_t have;
    uint32_t i;
    ep_read(frame, FRAME);
    want = checksum(frame);
    have = get16(frame + 14);
    if (frame[0] != MAGIC || have != want) {
        ep_out_u8(0);
        return 1;
    }
    decode(frame, &pkt);
    for (i = 0; i < 3; i++)
        pkt.level[i] = (uint16_t)(pkt.level[i] + 1);
    encode(&pkt, reply);
    ep_out_u16(pkt.station);
    ep_write(reply, FRAME);
    return 0;
}
";

/// A program to be cut short.
const SHORT: &str = "int main(void) {
  uint32_t x;
  x = ep_in_u32();
  ep_out_u32(x);
}
";

#[test]
fn packets(rt: HostRuntime) -> Result<(), Fail> {
    assert_eq!(rt;
        items(rt.alloc(), PACKET.as_bytes())?.as_str(),
        "aggregate 6;arms 13 Little 1 1;function 24;function 28;function 33;function 39;function 47;function 57;\
        function 72;"
    );
    Ok(())
}

/// The first bytes of a source, so many.
fn front(source: &[u8], count: usize) -> &[u8] {
    if count <= source.len() {
        source.split_at(count).0
    } else {
        source
    }
}

#[test]
fn cut_short(rt: HostRuntime) -> Result<(), Fail> {
    for count in 0..70 {
        let want = match count {
            0 => "",
            1..=19 => "refused 10 line 1 word None",
            20..=33 => "refused 10 line 2 word None",
            34..=52 => "refused 10 line 3 word None",
            53..=67 => "refused 10 line 4 word None",
            _ => "function 1;",
        };
        let source = front(SHORT.as_bytes(), count);
        assert_eq!(rt; items(rt.alloc(), source)?.as_str(), want, "{count}");
    }
    Ok(())
}

/// The first lines of a source, so many.
fn first_lines(alloc: Global, source: &[u8], count: u32) -> Result<Vec<u8>, AllocError> {
    let mut out = Vec::new(alloc);
    let mut ends = 0;
    for byte in source {
        if ends < count {
            out.push(*byte)?;
            if *byte == b'\n' {
                ends += 1;
            }
        }
    }
    Ok(out)
}

/// Where a function begins and ends in the packet program.
const FUNCTIONS: [(u32, u32); 7] = [
    (24, 27),
    (28, 32),
    (33, 37),
    (39, 46),
    (47, 56),
    (57, 71),
    (72, 94),
];

/// What comes of the packet program's first lines.
fn of_first_lines(alloc: Global, count: u32) -> Result<String, AllocError> {
    let mut out = String::new(alloc);
    if 6 <= count && count < 12 {
        write!(out, "refused 10 line {count} word None")?;
        return Ok(out);
    }
    if 13 <= count && count < 23 {
        out.push_str("no tokens")?;
        return Ok(out);
    }
    for (first, last) in FUNCTIONS {
        if first <= count && count < last {
            write!(out, "refused 10 line {count} word None")?;
            return Ok(out);
        }
    }
    if count >= 12 {
        out.push_str("aggregate 6;")?;
    }
    if count >= 23 {
        out.push_str("arms 13 Little 1 1;")?;
    }
    for (first, last) in FUNCTIONS {
        if count >= last {
            write!(out, "function {first};")?;
        }
    }
    Ok(out)
}

#[test]
fn cut_after_each_line(rt: HostRuntime) -> Result<(), Fail> {
    for count in 0..95 {
        let source = first_lines(rt.alloc(), PACKET.as_bytes(), count)?;
        let want = of_first_lines(rt.alloc(), count)?;
        assert_eq!(rt;
            items(rt.alloc(), source.as_slice())?.as_str(),
            want.as_str(),
            "{count}"
        );
    }
    Ok(())
}

/// The front, then the middle so many times, and the end.
fn nested(
    alloc: Global,
    front: &str,
    middle: &str,
    count: u32,
    end: &str,
) -> Result<String, AllocError> {
    let mut out = String::new(alloc);
    out.push_str(front)?;
    for _ in 0..count {
        out.push_str(middle)?;
    }
    out.push_str(end)?;
    Ok(out)
}

#[test]
fn limits(rt: HostRuntime) -> Result<(), Fail> {
    for (front, middle, count, end, want) in [
        ("int f(void) {\n", "while (a)\n", 63, ";}", "function 1;"),
        (
            "int f(void) {\n",
            "while (a)\n",
            64,
            ";}",
            "refused 22 line 2 word None",
        ),
        (
            "int f(void) {\n",
            "if (a)\n",
            20000,
            ";}",
            "refused 22 line 2 word None",
        ),
        (
            "int f(void) {\n",
            "if (a) ; else\n",
            63,
            ";}",
            "function 1;",
        ),
        (
            "int f(void) {\n",
            "if (a) ; else\n",
            64,
            ";}",
            "refused 22 line 2 word None",
        ),
        (
            "int f(void) {\n",
            "if (a) ; else\n",
            20000,
            ";}",
            "refused 22 line 2 word None",
        ),
        (
            "int f(void)\n",
            "{\n",
            65,
            "",
            "refused 22 line 66 word None",
        ),
        ("int f(void)\n", "{", 64, "", "refused 10 line 2 word None"),
        ("int ;\n", "(\n", 65, "", "refused 22 line 66 word None"),
        ("int x =\n", "- ", 64, "a;", "declaration 1;"),
        ("int\nx\n= ", "- ", 65, "a;", "refused 22 line 2 word None"),
        (
            "int x =\n",
            "- ",
            65,
            "a;\nint ;",
            "refused 10 line 3 word None",
        ),
        ("int\n", "*", 64, "x;", "declaration 1;"),
        ("int\n", "*", 65, "x;", "refused 22 line 2 word None"),
        ("int ", "*", 65, "\nf(void);", "refused 22 line 2 word None"),
        ("int x", "[1]", 65, ";", "refused 22 line 1 word None"),
        (
            "typedef int\n",
            "*",
            65,
            "T;\nT x;",
            "refused 22 line 2 word None",
        ),
        (
            "struct s { int\n",
            "*",
            65,
            "x; };",
            "refused 22 line 2 word None",
        ),
        ("struct s {\nint\nx :\n", "- ", 64, "1; };", "aggregate 1;"),
        (
            "struct s {\nint\nx :\n",
            "- ",
            65,
            "1; };",
            "refused 22 line 3 word None",
        ),
        (
            "struct s { int x : 1,\n:\n",
            "- ",
            65,
            "1; };",
            "refused 22 line 2 word None",
        ),
        (
            "struct s { int x :\n",
            "- ",
            65,
            "1; };\nint ;",
            "refused 10 line 3 word None",
        ),
        (
            "struct s { int :\n",
            "(\n",
            64,
            "",
            "refused 22 line 65 word None",
        ),
        (
            "int f(int\n",
            "*",
            65,
            "x) { }",
            "refused 22 line 2 word None",
        ),
    ] {
        let source = nested(rt.alloc(), front, middle, count, end)?;
        assert_eq!(rt;
            items(rt.alloc(), source.as_bytes())?.as_str(),
            want,
            "{front} {middle} {count}"
        );
    }
    let source = nested(
        rt.alloc(),
        "int f(void) {\ndo\nx =\n",
        "- ",
        65,
        "a;\nwhile (\n",
    )?;
    let source = nested(rt.alloc(), source.as_str(), "- ", 65, "a); }")?;
    assert_eq!(rt;
        items(rt.alloc(), source.as_bytes())?.as_str(),
        "refused 22 line 2 word None"
    );
    let source = nested(rt.alloc(), "int x = ", "(", 64, "a")?;
    let source = nested(rt.alloc(), source.as_str(), ")", 64, ";")?;
    assert_eq!(rt;
        items(rt.alloc(), source.as_bytes())?.as_str(),
        "declaration 1;"
    );
    Ok(())
}
