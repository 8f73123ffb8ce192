//! What comes when a statement begins, once its step is taken.

ghost use Rattle.std.specs.Prelude.{◌≡◌, ◌+◌, ◌<◌, ◌≤◌, ◌^◌, ◌&&◌, ℕ, IfOk, IfSome, length, nat_eq, pos};
ghost use Rattle.std.specs.Option.{option_map};
ghost use Rattle.ep_int.specs.declared.types.IntType.TheVariants.{U8};
ghost use Rattle.ep_int.specs.Memory.{filled, int, range_fault};
ghost use Rattle.ep_int.specs.Types.{representation, wrapped};
ghost use Rattle.ep_bytes.specs.StoreView.{memory_in};
ghost use Rattle.ep_bytes.specs.View.{value_in};
ghost use Rattle.ep_core.specs.Exec.{State, Outcome, at_place, change, copy_at, given, put_result, returned_with};
ghost use Rattle.ep_core.specs.Exec.{unless};
ghost use Rattle.ep_core.specs.Program.{eval, assign, clear, copy_aggregate, copy_bytes, fill, input, output};
ghost use Rattle.ep_core.specs.Program.{read_bytes};
ghost use Rattle.ep_core.specs.Program.{write_bytes, Program};
ghost use Rattle.ep_core.specs.Typed.{ValueSatisfies, IsAddress, ReturnFits, ValueFits};
ghost use Rattle.ep_core.specs.View.{dest_view, expr_view, place_view};
ghost use Rattle.ep_machine.specs.Settings.{program_in, size_on, value_on, ExprFits};
ghost use Rattle.ep_simple_steps.specs.Found.{at_found};
ghost use Rattle.ep_machine.specs.Machines.{state_in, Runs};
ghost use Rattle.ep_frames.specs.Stack.{now_of, plainly, NowFits, PlainFits};

use crate::clearing::clear_place;
use ep_bytes::Datum;
use ep_core::tree::{Dest, Expr, Place};
use ep_frames::{Bytes, Now, Way, left_by, put_dest, put_to, read_byte, write_byte};
use ep_int::{IntType, Memory, Scalar, wrap};
use ep_machine::{Fault, Machine, Setting, bytes_in, check};

// The place that a value points to.
fn pointed(v: Datum) -> Result<(u32, u32), Fault>
    ensures there { (p : Program) → IsAddress p (value_in v) → IfOk result (λ at. at.0 < length p.blocks) }
    ensures at { (l : ℕ) (s : State) (go : ℕ → ℕ → Outcome) → at_place (value_in v) l s go ≡ at_found result l s go }
{
    match v {
        Datum::Int(_) => Err(Fault::NullPointer),
        Datum::Null => Err(Fault::NullPointer),
        Datum::Pointer(b, q) => Ok((b, q)),
    }
}

/// An expression whose value goes nowhere.
pub fn eval<'p>(on: &Setting<'p>, machine: &Machine, e: &Expr, line: u32) -> Now<'p>
    requires runs { Runs on.now machine.now }
    requires typed { PlainFits on.now (memory_in machine.now.store) (eval (expr_view e.now)) }
    ensures comes { (left : ℕ) → now_of on.now result left (state_in machine.now)
        ≡ plainly on.now (eval (expr_view e.now)) line left (state_in machine.now) }
    ensures fits { NowFits on.now result }
{
    match machine.value(on, e) {
        Err(k) => Now::Faulty(line, k),
        Ok(_) => Now::Leave(Way::On),
    }
}

/// A value that is stored at a place, whose address is found first.
pub fn assign<'p>(
    on: &Setting<'p>,
    machine: &mut Machine,
    what: Scalar,
    a: &Place,
    e: &Expr,
    line: u32,
) -> Now<'p>
    requires runs { Runs on.now machine.old }
    requires typed { PlainFits on.now (memory_in machine.old.store)
        (assign what (place_view a.now) (expr_view e.now)) }
    ensures comes { (left : ℕ) → now_of on.now result left (state_in machine.new)
        ≡ plainly on.now (assign what (place_view a.now) (expr_view e.now)) line left (state_in machine.old) }
    ensures runs { Runs on.now machine.new }
    ensures fits { NowFits on.now result }
{
    match machine.address(on, a) {
        Err(k) => Now::Faulty(line, k),
        Ok(at) => match machine.value(on, e) {
            Err(k) => Now::Faulty(line, k),
            Ok(v) => left_by(put_to(on, machine, what, at, v), Way::On, line),
        },
    }
}

/// A place of a type whose scalars become 0 or null.
pub fn clear<'p>(
    on: &Setting<'p>,
    machine: &mut Machine,
    a: &Place,
    ty: u32,
    line: u32,
) -> Result<Now<'p>, Memory>
    requires runs { Runs on.now machine.old }
    requires typed { PlainFits on.now (memory_in machine.old.store) (clear (place_view a.now) ty) }
    ensures comes { IfOk result (λ n. (left : ℕ) → now_of on.now n left (state_in machine.new)
        ≡ plainly on.now (clear (place_view a.now) ty) line left (state_in machine.old)) }
    ensures runs { IfOk result (λ n. Runs on.now machine.new) }
    ensures fits { IfOk result (λ n. NowFits on.now n) }
{
    match machine.address(on, a) {
        Err(k) => Ok(Now::Faulty(line, k)),
        Ok(v) => match pointed(v) {
            Err(k) => Ok(Now::Faulty(line, k)),
            Ok(at) => {
                let cleared = clear_place(on, machine, ty, at.0, at.1)?;
                Ok(left_by(cleared, Way::On, line))
            }
        },
    }
}

// Bytes from one address to another.
fn copy<'p>(
    on: &Setting<'p>,
    machine: &mut Machine,
    to: Datum,
    from: Datum,
    n: u32,
    is_assignment: bool,
    line: u32,
) -> Now<'p>
    requires runs { Runs on.now machine.old }
    requires to { IsAddress (program_in on.now) (value_in to) }
    requires from { IsAddress (program_in on.now) (value_in from) }
    ensures comes { (left : ℕ) → now_of on.now result left (state_in machine.new) ≡ at_place (value_in to) line
        (state_in machine.old) (λ b q. at_place (value_in from) line (state_in machine.old)
        (λ c r. copy_at on.now.order (program_in on.now) b q c r n (is_assignment &&
        (nat_eq b c && nat_eq q r)) line left (state_in machine.old))) }
    ensures runs { Runs on.now machine.new }
    ensures fits { NowFits on.now result }
{
    match pointed(to) {
        Err(k) => Now::Faulty(line, k),
        Ok(target) => match pointed(from) {
            Err(k) => Now::Faulty(line, k),
            Ok(source) => left_by(
                machine.copy(on, target, source, n, is_assignment),
                Way::On,
                line,
            ),
        },
    }
}

/// An assignment of a structure or union.
pub fn copy_aggregate<'p>(
    on: &Setting<'p>,
    machine: &mut Machine,
    to: &Place,
    from: &Place,
    ty: u32,
    line: u32,
) -> Now<'p>
    requires runs { Runs on.now machine.old }
    requires typed { PlainFits on.now (memory_in machine.old.store)
        (copy_aggregate (place_view to.now) (place_view from.now) ty) }
    ensures comes { (left : ℕ) → now_of on.now result left (state_in machine.new) ≡ plainly on.now
        (copy_aggregate (place_view to.now) (place_view from.now) ty) line left (state_in machine.old) }
    ensures runs { Runs on.now machine.new }
    ensures fits { NowFits on.now result }
{
    match machine.address(on, to) {
        Err(k) => Now::Faulty(line, k),
        Ok(target) => match machine.address(on, from) {
            Err(k) => Now::Faulty(line, k),
            Ok(source) => copy(on, machine, target, source, bytes_in(on, ty), true, line),
        },
    }
}

/// A `memcpy` of so many bytes.
pub fn copy_bytes<'p>(
    on: &Setting<'p>,
    machine: &mut Machine,
    to: &Expr,
    from: &Expr,
    n: u32,
    line: u32,
) -> Now<'p>
    requires runs { Runs on.now machine.old }
    requires typed { PlainFits on.now (memory_in machine.old.store)
        (copy_bytes (expr_view to.now) (expr_view from.now) n) }
    ensures comes { (left : ℕ) → now_of on.now result left (state_in machine.new)
        ≡ plainly on.now (copy_bytes (expr_view to.now) (expr_view from.now) n) line left (state_in machine.old) }
    ensures runs { Runs on.now machine.new }
    ensures fits { NowFits on.now result }
{
    match machine.value(on, to) {
        Err(k) => Now::Faulty(line, k),
        Ok(target) => match machine.value(on, from) {
            Err(k) => Now::Faulty(line, k),
            Ok(source) => copy(on, machine, target, source, n, false, line),
        },
    }
}

// One number in each of so many bytes from an address on.
fn fill_with<'p>(
    on: &Setting<'p>,
    machine: &mut Machine,
    to: Datum,
    byte: i128,
    n: u32,
    line: u32,
) -> Now<'p>
    requires runs { Runs on.now machine.old }
    requires to { IsAddress (program_in on.now) (value_in to) }
    ensures comes { (left : ℕ) → now_of on.now result left (state_in machine.new) ≡ at_place (value_in to) line
        (state_in machine.old) (λ b q. change on.now.order (program_in on.now) b q n
        (filled machine.old.store.model (memory_in machine.old.store) b q n (representation U8 byte)) line left
        (state_in machine.old)) }
    ensures runs { Runs on.now machine.new }
    ensures fits { NowFits on.now result }
{
    match pointed(to) {
        Err(k) => Now::Faulty(line, k),
        Ok(at) => left_by(
            machine.fill(on, at.0, at.1, n, wrap(IntType::U8, byte) as u8),
            Way::On,
            line,
        ),
    }
}

/// A `memset` of so many bytes.
pub fn fill<'p>(
    on: &Setting<'p>,
    machine: &mut Machine,
    to: &Expr,
    byte: &Expr,
    n: u32,
    line: u32,
) -> Now<'p>
    requires runs { Runs on.now machine.old }
    requires typed { PlainFits on.now (memory_in machine.old.store) (fill (expr_view to.now) (expr_view byte.now) n) }
    ensures comes { (left : ℕ) → now_of on.now result left (state_in machine.new)
        ≡ plainly on.now (fill (expr_view to.now) (expr_view byte.now) n) line left (state_in machine.old) }
    ensures runs { Runs on.now machine.new }
    ensures fits { NowFits on.now result }
{
    match machine.value(on, to) {
        Err(k) => Now::Faulty(line, k),
        Ok(target) => match machine.value(on, byte) {
            Err(k) => Now::Faulty(line, k),
            Ok(Datum::Int(v)) => fill_with(on, machine, target, v, n, line),
            Ok(Datum::Null) => Now::Faulty(line, Fault::PointerPart),
            Ok(Datum::Pointer(_, _)) => Now::Faulty(line, Fault::PointerPart),
        },
    }
}

// An input as a number of a type.
fn number_of(t: IntType, v: u64) -> Datum
    ensures { value_in result ≡ int (wrapped t (pos v)) }
{
    Datum::Int(wrap(t, i128::from(v)))
}

/// The next input, as a number of a type.
pub fn input<'p>(
    on: &Setting<'p>,
    machine: &mut Machine,
    t: IntType,
    dest: &Option<Dest>,
    line: u32,
) -> Now<'p>
    requires runs { Runs on.now machine.old }
    requires typed { PlainFits on.now (memory_in machine.old.store) (input t (option_map dest_view dest.now)) }
    ensures comes { (left : ℕ) → now_of on.now result left (state_in machine.new)
        ≡ plainly on.now (input t (option_map dest_view dest.now)) line left (state_in machine.old) }
    ensures runs { Runs on.now machine.new }
    ensures fits { NowFits on.now result }
{
    match machine.take() {
        None => Now::Starve,
        Some(v) => {
            let number = number_of(t, v);
            put_dest(on, machine, dest, number, line)
        }
    }
}

/// A number of a type that is put out.
pub fn output<'p>(
    on: &Setting<'p>,
    machine: &mut Machine,
    t: IntType,
    e: &Expr,
    line: u32,
) -> Result<Now<'p>, Memory>
    requires runs { Runs on.now machine.old }
    requires typed { PlainFits on.now (memory_in machine.old.store) (output t (expr_view e.now)) }
    ensures comes { IfOk result (λ n. (left : ℕ) → now_of on.now n left (state_in machine.new)
        ≡ plainly on.now (output t (expr_view e.now)) line left (state_in machine.old)) }
    ensures runs { IfOk result (λ n. Runs on.now machine.new) }
    ensures fits { IfOk result (λ n. NowFits on.now n) }
{
    match machine.value(on, e) {
        Err(k) => Ok(Now::Faulty(line, k)),
        Ok(Datum::Int(v)) => {
            machine.put_out(t, v)?;
            Ok(Now::Leave(Way::On))
        }
        Ok(Datum::Null) => Ok(Now::Faulty(line, Fault::PointerPart)),
        Ok(Datum::Pointer(_, _)) => Ok(Now::Faulty(line, Fault::PointerPart)),
    }
}

// So many bytes at an address, which lie in their block.
fn range(on: &Setting, machine: &Machine, e: &Expr, n: u32) -> Result<(u32, u32), Fault>
    requires runs { Runs on.now machine.now }
    requires typed { ValueSatisfies on.now.order (program_in on.now) (memory_in machine.now.store) (expr_view e.now)
        (IsAddress (program_in on.now)) }
    ensures comes { (l : ℕ) (go : ℕ → ℕ → Outcome) → given (value_on on.now (expr_view e.now)
        (memory_in machine.now.store)) l (state_in machine.now) (λ w. at_place w l (state_in machine.now)
        (λ b q. unless (range_fault (size_on on.now b) q n) l (state_in machine.now) (go b q)))
        ≡ at_found result l (state_in machine.now) go }
    ensures inside { IfOk result (λ at. at.1 + n ≤ size_on on.now at.0) }
    ensures small { IfOk result (λ at. at.1 + n < 2 ^ 32) }
    ensures there { IfOk result (λ at. at.0 < length (program_in on.now).blocks) }
{
    match machine.value(on, e) {
        Err(k) => Err(k),
        Ok(v) => match pointed(v) {
            Err(k) => Err(k),
            Ok(at) => match check(on, at.0, at.1, n) {
                Err(k) => Err(k),
                Ok(_) => Ok(at),
            },
        },
    }
}

/// The first byte of an `ep_read`; the others come after it, each with a step.
pub fn read_bytes<'p>(
    on: &Setting<'p>,
    machine: &mut Machine,
    to: &Expr,
    n: u32,
    line: u32,
) -> Now<'p>
    requires runs { Runs on.now machine.old }
    requires typed { PlainFits on.now (memory_in machine.old.store) (read_bytes (expr_view to.now) n) }
    ensures comes { (left : ℕ) → now_of on.now result left (state_in machine.new)
        ≡ plainly on.now (read_bytes (expr_view to.now) n) line left (state_in machine.old) }
    ensures runs { Runs on.now machine.new }
    ensures fits { NowFits on.now result }
{
    match range(on, machine, to, n) {
        Err(k) => Now::Faulty(line, k),
        Ok(at) => {
            if n == 0 {
                return Now::Leave(Way::On);
            }
            let all = Bytes {
                block: at.0,
                here: at.1,
                count: n,
            };
            read_byte(on, machine, all)
        }
    }
}

/// The first byte of an `ep_write`; the others come after it, each with a step.
pub fn write_bytes<'p>(
    on: &Setting<'p>,
    machine: &mut Machine,
    from: &Expr,
    n: u32,
    line: u32,
) -> Result<Now<'p>, Memory>
    requires runs { Runs on.now machine.old }
    requires typed { PlainFits on.now (memory_in machine.old.store) (write_bytes (expr_view from.now) n) }
    ensures comes { IfOk result (λ x. (left : ℕ) → now_of on.now x left (state_in machine.new)
        ≡ plainly on.now (write_bytes (expr_view from.now) n) line left (state_in machine.old)) }
    ensures runs { IfOk result (λ n. Runs on.now machine.new) }
    ensures fits { IfOk result (λ n. NowFits on.now n) }
{
    match range(on, machine, from, n) {
        Err(k) => Ok(Now::Faulty(line, k)),
        Ok(at) => {
            if n == 0 {
                return Ok(Now::Leave(Way::On));
            }
            let all = Bytes {
                block: at.0,
                here: at.1,
                count: n,
            };
            let next = write_byte(on, machine, all, line)?;
            Ok(next)
        }
    }
}

// A value becomes the result of a function.
fn put_result<'p>(
    on: &Setting<'p>,
    machine: &mut Machine,
    given: Option<(u32, Scalar)>,
    v: Datum,
    line: u32,
) -> Now<'p>
    requires runs { Runs on.now machine.old }
    requires fits { IfSome given (λ r. ValueFits (program_in on.now) r.1 (value_in v)) }
    ensures comes { (left : ℕ) → now_of on.now result left (state_in machine.new)
        ≡ put_result on.now.order (program_in on.now) given (value_in v) line left (state_in machine.old) }
    ensures runs { Runs on.now machine.new }
    ensures fits { NowFits on.now result }
{
    match given {
        None => Now::Faulty(line, Fault::PointerPart),
        Some(r) => left_by(machine.put(on, r.1, r.0, 0, v), Way::Returned, line),
    }
}

/// A `return`, whose value goes to where the result of the function stands.
pub fn give_back<'p>(
    on: &Setting<'p>,
    machine: &mut Machine,
    given: Option<(u32, Scalar)>,
    e: &Option<Expr>,
    line: u32,
) -> Now<'p>
    requires runs { Runs on.now machine.old }
    requires typed { ReturnFits on.now.order (program_in on.now) (memory_in machine.old.store) given
        (option_map expr_view e.now) }
    ensures comes { (left : ℕ) → now_of on.now result left (state_in machine.new) ≡ returned_with on.now.order
        (program_in on.now) given (option_map expr_view e.now) line left (state_in machine.old) }
    ensures runs { Runs on.now machine.new }
    ensures fits { NowFits on.now result }
{
    match e {
        None => Now::Leave(Way::Returned),
        Some(e) => match machine.value(on, e) {
            Err(k) => Now::Faulty(line, k),
            Ok(v) => put_result(on, machine, given, v, line),
        },
    }
}
