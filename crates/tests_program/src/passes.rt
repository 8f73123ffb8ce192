//! How many passes through bodies of loops an analysis counts, and how many heads it keeps.

use crate::calls::NUMBER;
use ep_congruence::Congruence;
use ep_domain::Pair;
use ep_int::{Model, Order};
use ep_intervals::Interval;
use ep_iterator::analyse;
use ep_source::read;
use std::alloc::Global;
use std::test::Fail;

const COPY: &str =
    "int main(void) {\n  uint32_t a[8];\n  uint32_t *p;\n  uint32_t i;\n  p = a;\n  for (i = 0; i < 8; i++) p[i] = i;\n  for (i = 0; i < 8; i++) ep_out_u32(a[i]);\n}\n";

const NESTED: &str = "int main(void){uint8_t i,j;for(i=0;i<3;i++)for(j=0;j<2;j++)ep_out_u8(j);}";

const ARMS: &str = "int main(void){uint8_t i;
#if __BYTE_ORDER__ == __ORDER_LITTLE_ENDIAN__
for(i=0;i<3;i++);
#else
for(i=0;i<5;i++);
#endif
}";

const CALLED: &str =
    "void f(void){uint8_t i;for(i=0;i<3;i++);}int main(void){f();f();do f();while(0);}";

const LEFT: &str = "int main(void){while(1)break;}";

const WAITS: &str = "int main(void){uint8_t c;c=1;while(c)c=ep_in_u8();}";

const WAITS_TWICE: &str =
    "int main(void){uint8_t c,d;c=1;d=0;while(c){c=ep_in_u8();d=ep_in_u8();while(d)d=ep_in_u8();}}";

/// What a counter that stood at `before` comes to, and how many heads are kept. `None` where the source is refused, or
/// memory runs out.
fn counted(alloc: Global, source: &[u8], unroll: u32, before: u64) -> Option<(u64, usize)> {
    if source.len() >= 1_048_576 {
        return None;
    }
    let program = read(alloc, source, Model::Ilp32).ok()?;
    let orders = (Order::Little, Order::Big);
    let mut turns = before;
    let report = analyse::<Pair<Interval, Congruence>>(
        alloc, &program, orders, unroll, true, &mut turns,
    ).ok()?;
    Some((turns, report.heads.len()))
}

#[test]
fn passes_and_heads(rt: HostRuntime) -> Result<(), Fail> {
    let table = [
        (NUMBER, 32, 0, 0),
        (COPY, 32, 16, 0),
        (NESTED, 32, 9, 0),
        // Each side by itself.
        (ARMS, 32, 8, 0),
        (CALLED, 32, 10, 0),
        // A body that is left at once was entered.
        (LEFT, 32, 1, 0),
        // From the first head `c` is 1, and that pass is dropped.
        (WAITS, 0, 2, 1),
        (WAITS, 3, 4, 1),
        // A dropped pass counts with all passes inside it.
        (WAITS_TWICE, 0, 4, 2),
    ];
    for (source, unroll, passes, heads) in table {
        let found = counted(rt.alloc(), source.as_bytes(), unroll, 0);
        assert_eq!(rt; found, Some((passes, heads)));
    }
    Ok(())
}

#[test]
fn a_counter_goes_on_from_what_it_was(rt: HostRuntime) -> Result<(), Fail> {
    for (before, after) in [(5, 21), (u64::MAX - 3, u64::MAX)] {
        let found = counted(rt.alloc(), COPY.as_bytes(), 32, before);
        assert_eq!(rt; found, Some((after, 0)));
    }
    Ok(())
}
