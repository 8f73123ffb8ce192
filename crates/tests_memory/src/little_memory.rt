//! Calls that find so many bytes of memory and no more, from none on: each ends for want of memory with nothing
//! written, or answers as it does with enough. All other memory that the system gives is held meanwhile, untouched.
//! (Not for `rt try`, whose sanitizer wants memory of its own.)

use std::alloc::{AllocError, Global};
use std::test::Fail;
use tests_calls::{Case, Prepared, Status};

const NUMBER: &str = "int main(void) {\n  uint32_t x;\n  x = ep_in_u32();\n  ep_out_u32(x);\n}\n";

const SWAPPED: &str =
    "#if __BYTE_ORDER__ == __ORDER_LITTLE_ENDIAN__\nuint16_t ntohs_(uint16_t v) { return (v >> 8) | (v << 8); }\n#else\nuint16_t ntohs_(uint16_t v) { return v; }\n#endif\nint main(void) {\n  uint16_t x, y;\n  ep_read(&x, 2);\n  y = ntohs_(x);\n  ep_out_u16(y);\n}\n";

const ONE_SIDED: &str =
    "union word { uint32_t w; uint8_t b[4]; };\nint main(void) {\n  union word u;\n  uint32_t n, t;\n  u.w = ep_in_u32();\n  n = u.b[0] & 15;\n  t = 0;\n  while (n) { n = n - 1; t = t + 1; }\n  t = 5;\n  ep_out_u32(t);\n}\n";

const PORTABLE: &[u8] = b"portable\n";

// So many calls find a block more than the one before, each of so many bytes: so small that they lie side by side, and
// so great that they are joined again once they are free.
const COUNT: usize = 4000;

const BLOCK: usize = 144;

// Statements inside one another, which take far more of the stack than the sources above: once all memory is taken, the
// stack can't grow.
fn grow_stack(alloc: Global) -> Result<bool, AllocError> {
    let mut source = String::from_str(alloc, "int main(void) { ")?;
    for _ in 0..63 {
        source.push_str("if (1) ")?;
    }
    source.push_str("; }")?;
    let mut call = Prepared::new(alloc, &Case::check(source.as_bytes()))?;
    let status = call.make(alloc);
    Ok(status == Status::Done)
}

fn blocks(alloc: Global) -> Result<Vec<Vec<u8>>, AllocError> {
    let mut blocks = Vec::new(alloc);
    for _ in 0..COUNT {
        blocks.push(Vec::with_capacity(alloc, BLOCK)?)?;
    }
    Ok(blocks)
}

// Takes blocks of a size until there are none.
fn take(alloc: Global, held: &mut Vec<Vec<u8>>, size: usize) {
    for _ in held.len()..held.capacity() {
        let Ok(block) = Vec::with_capacity(alloc, size) else {
            return;
        };
        if held.push(block).is_err() {
            return;
        }
    }
}

// Takes all memory, from the greatest blocks that the system gives to the least.
fn take_all(alloc: Global) -> Result<Vec<Vec<u8>>, AllocError> {
    let mut held = Vec::with_capacity(alloc, 200_000)?;
    let mut size = 1_099_511_627_776;
    for _ in 0..36 {
        take(alloc, &mut held, size);
        size /= 2;
    }
    for step in 1..65 {
        take(alloc, &mut held, 16 * step);
    }
    Ok(held)
}

fn prepared(alloc: Global, source: &str) -> Result<Vec<Prepared>, AllocError> {
    let case = Case::check(source.as_bytes());
    let mut calls = Vec::new(alloc);
    for _ in 0..COUNT {
        calls.push(Prepared::new(alloc, &case)?)?;
    }
    Ok(calls)
}

/// Whether calls ended for want of memory, whether some answered, and whether there were others.
#[derive(Drop)]
struct Outcomes {
    refused: bool,
    answered: bool,
    others: bool,
}

// The first call that answers is the last.
fn tried(alloc: Global, source: &str) -> Result<Outcomes, AllocError> {
    let mut calls = prepared(alloc, source)?;
    let mut blocks = blocks(alloc)?;
    let held = take_all(alloc)?;
    let mut outcomes = Outcomes {
        refused: false,
        answered: false,
        others: false,
    };
    for call in calls.iter_mut() {
        match call.make(alloc) {
            Status::Memory if call.written().is_empty() => outcomes.refused = true,
            Status::Done if call.written() == PORTABLE => {
                outcomes.answered = true;
                break;
            }
            _ => outcomes.others = true,
        }
        drop(blocks.pop());
    }
    drop(held);
    Ok(outcomes)
}

#[test]
fn memory_runs_out(rt: HostRuntime) -> Result<(), Fail> {
    assert!(&rt; grow_stack(rt.alloc())?);
    for source in [NUMBER, SWAPPED, ONE_SIDED] {
        let outcomes = tried(rt.alloc(), source)?;
        assert!(&rt; outcomes.refused);
        assert!(&rt; outcomes.answered);
        assert!(&rt; !outcomes.others);
    }
    Ok(())
}
