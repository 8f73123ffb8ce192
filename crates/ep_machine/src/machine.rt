//! A machine in a run.

ghost use Rattle.std.specs.Prelude.{◌≡◌, ◌+◌, ◌<◌, ◌≤◌, ◌^◌, ◌&&◌, ◌++◌, [], ◌∷◌, ℕ, ℤ, Bool, Option, IfOk, OnOk, drop};
ghost use Rattle.std.specs.Prelude.{length, map};
ghost use Rattle.std.specs.Prelude.{nat_eq, take as front, unwrap_or, vec_len, slice_get};
ghost use Rattle.ep_int.specs.Memory.{filled, replaced, undefined};
ghost use Rattle.ep_bytes.specs.StoreView.{memory_in};
ghost use Rattle.ep_bytes.specs.View.{value_in, written_as};
ghost use Rattle.ep_core.specs.Exec.{State, Outcome, Output as PlainOutput, leaves, on as at_end, byte_out};
ghost use Rattle.ep_core.specs.Exec.{bytes_in as bytes_of_type};
ghost use Rattle.ep_core.specs.Exec.{change, cleared, copy_at, first_of, listed, put_at, put_out, taken, unless};
ghost use Rattle.ep_core.specs.Exec.{without};
ghost use Rattle.ep_core.specs.Typed.{ValueFits};
ghost use Rattle.ep_core.specs.View.{expr_view, place_view};
ghost use Rattle.ep_int.specs.Memory.{range_fault, Kind};
ghost use Rattle.ep_machine.specs.Faults.{found_by};
ghost use Rattle.ep_machine.specs.Settings.{address_on, loaded_on, program_in, size_on, value_on, ExprFits, PlaceFits};
ghost use Rattle.ep_machine.specs.Machines.{after_input, begun, done, fault_by, state_in};
ghost use Rattle.ep_machine.specs.Machines.{Changes, Copies, MachineView, Puts, Runs};

use crate::evaluate::{address, value};
use crate::fault::{Fault, fault_of};
use crate::output::Output;
use crate::reads::{load, size_of_block};
use crate::setting::Setting;
use ep_alarms::AlarmKind;
use ep_bytes::{Datum, Store};
use ep_core::tree::{Expr, Place};
use ep_int::{IntType, Memory, Scalar};
use std::alloc::Global;
use std::marker::Model;

/// A machine: its memory, the inputs and how many of them were taken, the outputs, the tests, and the joint tests,
/// which are those that were listed while no byte-order conditional was running.
#[derive(Drop)]
pub struct Machine {
    store: Store,
    inputs: Vec<u64>,
    used: usize,
    outputs: Vec<Output>,
    tests: Vec<u8>,
    joint_tests: Vec<u8>,
}

impl Model for Machine {
    ghost use Rattle.std.specs.Prelude.{◌≤◌, drop, vec_len};
    ghost use Rattle.ep_machine.specs.Machines.{MachineView};

    ghost Value = { MachineView };

    ghost view = { λ m. record {
      store = m.store;
      inputs = drop m.used m.inputs.items;
      used = m.used;
      outputs = m.outputs.items;
      tests = m.tests.items;
      joint_tests = m.joint_tests.items;
    } };

    ghost invariant = { λ m. m.used ≤ vec_len m.inputs };
}

impl Machine {
    /// A machine with this memory, which has taken no input and put out nothing.
    pub fn new(alloc: Global, store: Store, inputs: &[u64]) -> Result<Machine, Memory>
        ensures store { IfOk result (λ m. m.store ≡ store) }
        ensures state { IfOk result (λ m. state_in m ≡ begun (memory_in store) inputs.now) }
    {
        let inputs = Vec::from_slice(alloc, inputs).map_err(|_| Memory)?;
        Ok(Machine {
            store,
            inputs,
            used: 0,
            outputs: Vec::new(alloc),
            tests: Vec::new(alloc),
            joint_tests: Vec::new(alloc),
        })
    }

    /// The value of an expression.
    pub fn value(&self, on: &Setting, e: &Expr) -> Result<Datum, Fault>
        requires runs { Runs on.now self.now }
        requires typed { ExprFits on.now (memory_in self.now.store) (expr_view e.now) }
        ensures { found_by result ≡ value_on on.now (expr_view e.now) (memory_in self.now.store) }
    {
        value(on, &self.store, e)
    }

    /// The address of a place.
    pub fn address(&self, on: &Setting, a: &Place) -> Result<Datum, Fault>
        requires runs { Runs on.now self.now }
        requires typed { PlaceFits on.now (memory_in self.now.store) (place_view a.now) }
        ensures { found_by result ≡ address_on on.now (place_view a.now) (memory_in self.now.store) }
    {
        address(on, &self.store, a)
    }

    /// The scalar at an offset of a block.
    pub fn load(&self, on: &Setting, what: Scalar, block: u32, here: u32) -> Result<Datum, Fault>
        requires { Runs on.now self.now }
        ensures { found_by result ≡ loaded_on on.now (memory_in self.now.store) what block here }
    {
        load(on, &self.store, what, block, here)
    }

    /// Stores a value at a place.
    pub fn put(
        &mut self,
        on: &Setting,
        what: Scalar,
        block: u32,
        here: u32,
        v: Datum,
    ) -> Result<(), Fault>
        requires runs { Runs on.now self.old }
        requires fits { ValueFits (program_in on.now) what (value_in v) }
        ensures runs { Runs on.now self.new }
        ensures puts { Puts on.now (state_in self.old) result (state_in self.new) what block here (value_in v) }
    {
        if block as usize >= on.program.blocks.len() {
            return Err(Fault::Bounds);
        }
        written(self.store.store(on.order, what, block, i64::from(here), v))
    }

    /// Puts one number into each of so many bytes.
    pub fn fill(
        &mut self,
        on: &Setting,
        block: u32,
        here: u32,
        n: u32,
        byte: u8,
    ) -> Result<(), Fault>
        requires runs { Runs on.now self.old }
        requires there { block < length (program_in on.now).blocks }
        ensures runs { Runs on.now self.new }
        ensures fills { Changes on.now (state_in self.old) result (state_in self.new) block here n
            (filled self.old.store.model (memory_in self.old.store) block here n byte) }
    {
        written(self.store.fill((block, i64::from(here)), byte, n))
    }

    /// Copies so many bytes. An assignment between equal places changes nothing.
    pub fn copy(
        &mut self,
        on: &Setting,
        to: (u32, u32),
        from: (u32, u32),
        n: u32,
        is_assignment: bool,
    ) -> Result<(), Fault>
        requires runs { Runs on.now self.old }
        requires to { to.0 < length (program_in on.now).blocks }
        requires from { from.0 < length (program_in on.now).blocks }
        ensures runs { Runs on.now self.new }
        ensures copies { Copies on.now (state_in self.old) result (state_in self.new) to from n
            (is_assignment && (nat_eq to.0 from.0 && nat_eq to.1 from.1)) }
    {
        let target = (to.0, i64::from(to.1));
        let source = (from.0, i64::from(from.1));
        written(self.store.copy(target, source, n, is_assignment))
    }

    /// Makes so many bytes undefined.
    pub fn clear(&mut self, on: &Setting, block: u32, here: u32, n: u32) -> Result<(), Fault>
        requires runs { Runs on.now self.old }
        requires there { block < length (program_in on.now).blocks }
        ensures runs { Runs on.now self.new }
        ensures clears { Changes on.now (state_in self.old) result (state_in self.new) block here n
            (replaced self.old.store.model (memory_in self.old.store) block here n (λ k. undefined)) }
    {
        written(self.store.clear((block, i64::from(here)), n))
    }

    /// Makes a block undefined, and every pointer to it.
    pub fn kill_one(&mut self, on: &Setting, block: u32)
        requires { Runs on.now self.old }
        ensures runs { Runs on.now self.new }
        ensures killed { state_in self.new ≡ without (block ∷ []) (state_in self.old) }
    {
        if (block as usize) < on.program.blocks.len() {
            self.store.kill(block);
        }
    }

    /// Makes blocks undefined, and every pointer to them.
    pub fn kill(&mut self, on: &Setting, blocks: &[u32])
        requires { Runs on.now self.old }
        ensures runs { Runs on.now self.new }
        ensures killed { state_in self.new ≡ without blocks.now (state_in self.old) }
    {
        for b in blocks {
            self.kill_one(on, *b);
        }
    }

    /// The same of the blocks of parameters.
    pub fn kill_parameters(&mut self, on: &Setting, parameters: &[(u32, Scalar)])
        requires { Runs on.now self.old }
        ensures runs { Runs on.now self.new }
        ensures killed { state_in self.new ≡ without (first_of parameters.now) (state_in self.old) }
    {
        for p in parameters {
            self.kill_one(on, p.0);
        }
    }

    /// The next input.
    pub fn take(&mut self) -> Option<u64>
        ensures store { self.new.store ≡ self.old.store }
        ensures takes { (go : ℕ → State → Outcome) → taken self.old.inputs (state_in self.old) go
            ≡ after_input result (state_in self.new) go }
    {
        if self.used >= self.inputs.len() {
            return None;
        }
        let v = self.inputs[self.used];
        self.used += 1;
        Some(v)
    }

    /// Puts a number out.
    pub fn put_out(&mut self, t: IntType, value: i128) -> Result<(), Memory>
        ensures store { OnOk result (self.new.store ≡ self.old.store) }
        ensures puts { OnOk result (state_in self.new ≡ put_out t value (state_in self.old)) }
    {
        let output = Output { t, value };
        self.outputs.push(output).map_err(|_| Memory)
    }

    /// Puts out a byte of a block.
    pub fn put_byte(
        &mut self,
        on: &Setting,
        block: u32,
        here: u32,
    ) -> Result<Result<(), Fault>, Memory>
        requires runs { Runs on.now self.old }
        requires inside { here < size_on on.now block }
        ensures store { IfOk result (λ r. self.new.store ≡ self.old.store) }
        ensures puts { IfOk result (λ r. (l : ℕ) (go : State → Outcome)
            → byte_out (memory_in self.old.store block here) l (state_in self.old) go
            ≡ done r l (state_in self.new) (go (state_in self.new))) }
    {
        match self.load(on, Scalar::Int(IntType::U8), block, here) {
            Err(k) => Ok(Err(k)),
            Ok(Datum::Int(v)) => {
                self.put_out(IntType::U8, v)?;
                Ok(Ok(()))
            }
            Ok(Datum::Null) => Ok(Err(Fault::PointerPart)),
            Ok(Datum::Pointer(_, _)) => Ok(Err(Fault::PointerPart)),
        }
    }

    /// Lists a test.
    pub fn list(&mut self, code: u8) -> Result<(), Memory>
        ensures store { OnOk result (self.new.store ≡ self.old.store) }
        ensures lists { OnOk result (state_in self.new ≡ listed code (state_in self.old)) }
    {
        self.tests.push(code).map_err(|_| Memory)?;
        self.joint_tests.push(code).map_err(|_| Memory)
    }

    /// How many joint tests were listed.
    pub fn joint_count(&self) -> usize
        ensures { result ≡ length self.now.joint_tests }
    {
        self.joint_tests.len()
    }

    /// Lists the way out of an arm. Of the joint tests since the arm began it alone stays.
    pub fn leave_arm(&mut self, count: usize, code: u8) -> Result<(), Memory>
        ensures store { OnOk result (self.new.store ≡ self.old.store) }
        ensures lists { OnOk result (state_in self.new ≡ record (state_in self.old) {
          tests = self.old.tests ++ code ∷ [];
          joint_tests = front count self.old.joint_tests ++ code ∷ [];
        }) }
    {
        self.tests.push(code).map_err(|_| Memory)?;
        self.joint_tests.truncate(count);
        self.joint_tests.push(code).map_err(|_| Memory)
    }

    /// What was put out, what was tested, and how many inputs were taken.
    pub fn told(self) -> (Vec<Output>, Vec<u8>, u64)
        ensures outputs { result.0.items ≡ self.outputs }
        ensures tests { result.1.items ≡ self.tests }
        ensures used { result.2 ≡ self.used }
    {
        (self.outputs, self.tests, self.used as u64)
    }
}

// The answer of a write.
fn written(answer: Result<(), AlarmKind>) -> Result<(), Fault>
    ensures { (f : Option Kind) → answer ≡ written_as f → fault_by result ≡ f }
{
    match answer {
        Ok(_) => Ok(()),
        Err(k) => Err(fault_of(k)),
    }
}

/// Whether so many bytes lie in their block.
pub fn check(on: &Setting, block: u32, here: u32, n: u32) -> Result<(), Fault>
    ensures answer { (l : ℕ) (s : State) (x : Outcome)
        → unless (range_fault (size_on on.now block) here n) l s x ≡ done result l s x }
    ensures inside { OnOk result (here + n ≤ size_on on.now block) }
    ensures small { OnOk result (here + n < 2 ^ 32) }
{
    if u64::from(size_of_block(on, block)) < u64::from(here) + u64::from(n) {
        return Err(Fault::Bounds);
    }
    Ok(())
}

/// How many bytes a type has; one that has no size has none.
pub fn bytes_in(on: &Setting, ty: u32) -> u32
    ensures { result ≡ bytes_of_type on.now.order (program_in on.now) ty }
{
    if ty >= on.program.types.type_count() {
        return 0;
    }
    match on.program.types.size(ty) {
        None => 0,
        Some(n) => n,
    }
}
