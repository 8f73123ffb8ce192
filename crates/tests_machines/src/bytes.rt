//! The byte memory: the bytes of numbers, worked out by hand from their hexadecimal digits, and what calls answer.

ghost use Rattle.std.specs.Prelude.{◌≡◌, ◌↔◌, ◌<◌, IsTrue, IfSome};
ghost use Rattle.ep_bytes.specs.View.{Fits};
ghost use Rattle.ep_bytes.specs.StoreView.{count_of};

use ep_alarms::AlarmKind;
use ep_bytes::{Datum, Store, decode, encode};
use ep_int::{IntType, Model, Order, Scalar, bytes, in_range};
use std::alloc::Global;
use std::test::Fail;

// An order, a type and a number; then its bytes, by rising address.
const NUMBERS: &str = "\
little u32 168496141 = 13,12,11,10
big u32 168496141 = 10,11,12,13
swapped u32 168496141 = 11,10,13,12
little u64 72623859790382856 = 8,7,6,5,4,3,2,1
big u64 72623859790382856 = 1,2,3,4,5,6,7,8
swapped u64 72623859790382856 = 2,1,4,3,6,5,8,7
little i16 -2 = 254,255
big i16 -2 = 255,254
swapped i16 -2 = 254,255
swapped i32 -2147483648 = 0,128,0,0
big i64 -9223372036854775808 = 128,0,0,0,0,0,0,0
little i8 -128 = 128
big u8 255 = 255
swapped i8 -1 = 255
";

// Machines, each with the sizes of its blocks, and after each machine calls at places (block:offset) with their
// answers. A pointer is a block + an offset; a copy and an assignment name the place that is written first.
const CALLS: &str = "\
machine little ilp32 16,12,4
load 0:0 u32 = U4
load 0:13 u32 = U5
load 0:9 u32 = U7
load 0:-4 u32 = U5
load 0:16 u8 = U5
load 0:15 u8 = U4
store 0:13 u32 1 = U5
store 0:9 u32 1 = U7
store 0:-1 u8 1 = U5
load 0:8 u8 = U4
store 0:8 u32 168496141 = ok
load 0:8 u32 = 168496141
load 0:8 u8 = 13
load 0:10 u16 = 2571
store 0:8 i32 -2 = ok
load 0:8 u32 = 4294967294
load 0:8 i8 = -2
store 0:12 u8 7 = ok
load 0:12 u16 = U4
store 0:0 pointer null = ok
load 0:0 u32 = 0
load 0:0 pointer = null
store 0:4 pointer 1+3 = ok
load 0:4 pointer = 1+3
load 0:4 u32 = U10
load 0:7 u8 = U10
load 0:5 pointer = U7
load 0:8 pointer = U10
copy 1:1 0:4 4 = ok
load 1:0 pointer = U4
load 1:4 pointer = U4
fill 1:5 3 0 = ok
load 1:4 pointer = U10
load 1:4 u32 = U10
copy 1:5 0:4 4 = ok
load 1:4 pointer = U10
copy 2:0 1:1 4 = ok
load 2:0 pointer = 1+3
copy 2:0 1:1 3 = ok
load 2:0 u8 = U4
load 2:3 u8 = U4
load 1:1 u8 = U10
store 1:2 u8 9 = ok
load 1:1 u8 = U4
load 1:2 u8 = 9
load 1:5 u8 = U10
copy 0:0 0:3 4 = U9
copy 0:0 0:0 4 = U9
assign 0:0 0:3 4 = U9
assign 0:0 0:0 4 = ok
assign 0:0 1:0 4 = ok
load 0:2 u8 = 9
load 0:4 pointer = 1+3
copy 0:14 0:13 4 = U5
copy 0:0 2:1 4 = U5
copy 2:0 0:8 4 = ok
load 2:0 i32 = -2
fill 0:14 3 1 = U5
fill 0:-1 1 1 = U5
clear 0:8 4 = ok
load 0:8 u32 = U4
clear 0:13 4 = U5
check 2:0 4 = ok
check 2:1 4 = U5
check 2:4 1 = U5
zero 2:0 = ok
load 2:0 u32 = 0
load 2:0 pointer = null
store 0:0 pointer 1+0 = ok
store 0:4 pointer 2+1 = ok
copy 1:1 0:4 4 = ok
kill 2:0 = ok
load 0:0 pointer = 1+0
load 0:4 u8 = U4
load 1:1 u8 = U4
load 2:0 u8 = U4
store 2:0 pointer 2+0 = ok
kill 2:0 = ok
load 2:0 u8 = U4
machine big lp64 24,16
store 0:12 pointer 1+5 = U7
store 0:20 pointer 1+5 = U5
store 0:8 pointer 1+5 = ok
load 0:8 pointer = 1+5
load 0:12 u32 = U10
load 0:16 pointer = U4
copy 1:0 0:8 4 = ok
load 1:0 u32 = U4
copy 1:0 0:8 8 = ok
load 1:0 pointer = 1+5
store 0:15 u8 1 = ok
load 0:8 u8 = U4
load 0:15 u8 = 1
store 0:8 u32 168496141 = ok
load 0:8 u16 = 2571
load 0:8 u8 = 10
kill 1:0 = ok
load 1:0 pointer = U4
machine swapped ilp32 8
store 0:0 u32 168496141 = ok
load 0:0 u8 = 11
load 0:0 u16 = 2571
load 0:2 u16 = 3085
store 0:0 u64 72623859790382856 = ok
load 0:0 u32 = 16909060
load 0:7 u8 = 7
fill 0:0 4 1 = ok
load 0:0 u32 = 16843009
machine swapped lp64 8
store 0:0 pointer 0+8 = ok
load 0:0 pointer = 0+8
load 0:0 u64 = U10
";

#[derive(Drop)]
struct Machine {
    order: Order,
    blocks: u32,
    store: Store,
    ghost counted: { count_of store ≡ blocks },
}

fn order(word: &str) -> Option<Order> {
    match word {
        "little" => Some(Order::Little),
        "big" => Some(Order::Big),
        "swapped" => Some(Order::SwappedWords),
        _ => None,
    }
}

fn int_type(word: &str) -> Option<IntType> {
    match word {
        "i8" => Some(IntType::I8),
        "u8" => Some(IntType::U8),
        "i16" => Some(IntType::I16),
        "u16" => Some(IntType::U16),
        "i32" => Some(IntType::I32),
        "u32" => Some(IntType::U32),
        "i64" => Some(IntType::I64),
        "u64" => Some(IntType::U64),
        _ => None,
    }
}

fn scalar(word: &str) -> Option<Scalar> {
    if word == "pointer" {
        return Some(Scalar::Pointer);
    }
    Some(Scalar::Int(int_type(word)?))
}

fn datum(word: &str) -> Option<Datum> {
    if word == "null" {
        return Some(Datum::Null);
    }
    match word.split_once('+') {
        Some((block, offset)) => Some(Datum::Pointer(block.parse().ok()?, offset.parse().ok()?)),
        None => Some(Datum::Int(word.parse().ok()?)),
    }
}

fn fault(word: &str) -> Option<AlarmKind> {
    match word {
        "U4" => Some(AlarmKind::U4),
        "U5" => Some(AlarmKind::U5),
        "U7" => Some(AlarmKind::U7),
        "U9" => Some(AlarmKind::U9),
        "U10" => Some(AlarmKind::U10),
        _ => None,
    }
}

fn fits(what: Scalar, d: Datum) -> bool
    ensures { IsTrue result ↔ Fits what d }
{
    match what {
        Scalar::Int(t) => match d {
            Datum::Int(v) => in_range(t, v),
            Datum::Null | Datum::Pointer(_, _) => false,
        },
        Scalar::Pointer => match d {
            Datum::Int(_) => false,
            Datum::Null | Datum::Pointer(_, _) => true,
        },
    }
}

fn number_is_right(alloc: Global, line: &str) -> Option<bool> {
    let (left, right) = line.split_once(" = ")?;
    let mut words = left.split_whitespace();
    let order = order(words.next()?)?;
    let t = int_type(words.next()?)?;
    let v: i128 = words.next()?.parse().ok()?;
    let mut expected = Vec::new(alloc);
    for word in right.split(',') {
        expected.push(word.parse::<u8>().ok()?).ok()?;
    }
    let width = bytes(t) as usize;
    if !in_range(t, v) || expected.len() != width {
        return None;
    }
    let given = encode(order, t, v);
    Some(given[..width] == expected[..] && decode(order, t, &expected) == v)
}

#[test]
fn numbers_give_the_table(rt: HostRuntime) -> Result<(), Fail> {
    let mut rows = 0u32;
    for line in NUMBERS.lines() {
        assert_eq!(rt; number_is_right(rt.alloc(), line), Some(true), "{line}");
        rows = rows.wrapping_add(1);
    }
    assert_eq!(rt; rows, 14);
    Ok(())
}

fn machine_of(alloc: Global, line: &str) -> Option<Machine> {
    let mut words = line.split_whitespace();
    let order = order(words.next()?)?;
    let model = if words.next()? == "lp64" {
        Model::Lp64
    } else {
        Model::Ilp32
    };
    let mut sizes = Vec::new(alloc);
    for size in words.next()?.split(',') {
        sizes.push(size.parse::<u32>().ok()?).ok()?;
    }
    let blocks = u32::try_from(sizes.len()).ok()?;
    let store = Store::new(alloc, &sizes, model).ok()?;
    Some(Machine {
        order,
        blocks,
        store,
    })
}

// A place of one of so many blocks.
fn place(blocks: u32, word: &str) -> Option<(u32, i64)>
    ensures { IfSome result (λ p. p.0 < blocks) }
{
    let (block, offset) = word.split_once(':')?;
    let block: u32 = block.parse().ok()?;
    if block >= blocks {
        return None;
    }
    Some((block, offset.parse().ok()?))
}

impl Machine {
    fn load(&self, rest: &str) -> Option<Result<Datum, AlarmKind>> {
        let (at, what) = rest.split_once(' ')?;
        let at = place(self.blocks, at)?;
        Some(self.store.load(self.order, scalar(what)?, at.0, at.1))
    }

    fn store(&mut self, at: (u32, i64), rest: &str) -> Option<Result<(), AlarmKind>>
        requires { at.0 < self.old.blocks }
    {
        let (what, d) = rest.split_once(' ')?;
        let what = scalar(what)?;
        let d = datum(d)?;
        if !fits(what, d) {
            return None;
        }
        Some(self.store.store(self.order, what, at.0, at.1, d))
    }

    fn copy(
        &mut self,
        to: (u32, i64),
        rest: &str,
        same_place: bool,
    ) -> Option<Result<(), AlarmKind>>
        requires { to.0 < self.old.blocks }
    {
        let (from, n) = rest.split_once(' ')?;
        let from = place(self.blocks, from)?;
        Some(self.store.copy(to, from, n.parse().ok()?, same_place))
    }

    fn fill(&mut self, to: (u32, i64), rest: &str) -> Option<Result<(), AlarmKind>>
        requires { to.0 < self.old.blocks }
    {
        let (n, value) = rest.split_once(' ')?;
        Some(self.store.fill(to, value.parse().ok()?, n.parse().ok()?))
    }

    fn zero(&mut self, block: u32)
        requires { block < self.old.blocks }
    {
        self.store.zero(block);
    }

    fn kill(&mut self, block: u32)
        requires { block < self.old.blocks }
    {
        self.store.kill(block);
    }

    fn change(&mut self, name: &str, rest: &str) -> Option<Result<(), AlarmKind>> {
        let (at, rest) = rest.split_once(' ').unwrap_or((rest, ""));
        let at = place(self.blocks, at)?;
        match name {
            "store" => self.store(at, rest),
            "copy" => self.copy(at, rest, false),
            "assign" => self.copy(at, rest, true),
            "fill" => self.fill(at, rest),
            "clear" => Some(self.store.clear(at, rest.parse().ok()?)),
            "check" => Some(self.store.check(at, rest.parse().ok()?)),
            "zero" => {
                self.zero(at.0);
                Some(Ok(()))
            }
            "kill" => {
                self.kill(at.0);
                Some(Ok(()))
            }
            _ => None,
        }
    }
}

fn call_is_right(machine: &mut Machine, line: &str) -> Option<bool> {
    let (call, answer) = line.split_once(" = ")?;
    let (name, rest) = call.split_once(' ')?;
    if name == "load" {
        let expected = match fault(answer) {
            Some(kind) => Err(kind),
            None => Ok(datum(answer)?),
        };
        return Some(machine.load(rest)? == expected);
    }
    let expected = if answer == "ok" {
        Ok(())
    } else {
        Err(fault(answer)?)
    };
    Some(machine.change(name, rest)? == expected)
}

#[test]
fn calls_give_the_table(rt: HostRuntime) -> Result<(), Fail> {
    let mut now = machine_of(rt.alloc(), "little ilp32 1").ok_or("machine")?;
    let mut rows = 0u32;
    for line in CALLS.lines() {
        match line.strip_prefix("machine ") {
            Some(words) => now = machine_of(rt.alloc(), words).ok_or("machine")?,
            None => assert_eq!(rt; call_is_right(&mut now, line), Some(true), "{line}"),
        }
        rows = rows.wrapping_add(1);
    }
    assert_eq!(rt; rows, 113);
    Ok(())
}
