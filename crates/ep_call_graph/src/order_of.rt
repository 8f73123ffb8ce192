//! The order of functions.

ghost use Rattle.std.specs.Prelude.{◌≡◌, ℕ, ◌+◌, ◌<◌, ◌++◌, [], ◌∷◌, List, Some, None, true, OnOk, IfOk, vec_len};
ghost use Rattle.std.specs.Prelude.{slice_get, length, map, drop, All};
ghost use Rattle.ep_int.specs.Memory.{contains};
ghost use Rattle.ep_elaboration.specs.Calls as rule;
ghost use Rattle.ep_elaboration.specs.Leads as laws;
ghost use Rattle.ep_call_graph.specs.View as view;
ghost use Rattle.ep_call_graph.specs.Search.{AreAll};
ghost use Rattle.ep_call_graph.specs.Visit as visits;

use crate::places::{CallSite, callees};
use std::alloc::{AllocError, Global};

/// A function that is visited, and which of its calls comes next.
#[derive(Clone, Copy, Debug)]
pub(crate) struct Frame {
    pub function: u32,
    pub call: usize,
}

/// Functions in order so far, each behind those that it calls.
#[derive(Drop)]
pub(crate) struct Order {
    pub done: Vec<u32>,
    /// A flag for each function, set where it is done.
    pub has: Vec<bool>,
    pub stack: Vec<Frame>,
}

/// A flag for each of so many functions, none of them set.
pub fn flags(alloc: Global, count: usize) -> Result<Vec<bool>, AllocError>
    ensures { IfOk result (λ v. visits.AreFlags count v.items []) }
{
    let mut all = Vec::new(alloc);
    for i in 0..count {
        all.push(false)?;
    }
    Ok(all)
}

fn number_at(numbers: &[u32], i: usize) -> Option<u32>
    ensures { result ≡ slice_get numbers.now i }
{
    match numbers.get(i) {
        Some(number) => Some(*number),
        None => None,
    }
}

fn callee_at(callees: &[Vec<u32>], frame: Frame) -> Option<u32>
    ensures { result ≡ slice_get (view.listed callees.now frame.function) frame.call }
{
    match callees.get(frame.function as usize) {
        Some(list) => number_at(list, frame.call),
        None => None,
    }
}

impl Order {
    fn has(&self, f: u32) -> bool
        requires { visits.AreFlags (vec_len self.now.has) self.now.has.items self.now.done.items }
        ensures { result ≡ contains f self.now.done.items }
    {
        match self.has.get(f as usize) {
            Some(flag) => *flag,
            None => false,
        }
    }

    // A function comes behind the others.
    fn add(&mut self, f: u32) -> Result<(), AllocError>
        requires flags { visits.AreFlags (vec_len self.old.has) self.old.has.items self.old.done.items }
        requires inside { f < vec_len self.old.has }
        ensures flags { OnOk result (visits.AreFlags (vec_len self.old.has) self.new.has.items self.new.done.items) }
        ensures done { OnOk result (self.new.done.items ≡ self.old.done.items ++ f ∷ []) }
        ensures stack { OnOk result (self.new.stack ≡ self.old.stack) }
    {
        self.done.push(f)?;
        self.has[f as usize] = true;
        Ok(())
    }

    // A call of a function is followed, and its next one waits.
    fn follow(&mut self, frame: Frame, callee: u32) -> Result<(), AllocError>
        requires flags { visits.AreFlags (vec_len self.old.has) self.old.has.items self.old.done.items }
        ensures done { OnOk result (self.new.done ≡ self.old.done) }
        ensures has { OnOk result (self.new.has ≡ self.old.has) }
        ensures stack { OnOk result (visits.frames self.new.stack.items ≡ visits.entered callee self.old.done.items
            (visits.next_call frame ∷ visits.frames self.old.stack.items)) }
    {
        let Some(call) = frame.call.checked_add(1) else {
            return Err(AllocError);
        };
        self.stack.push(Frame {
            function: frame.function,
            call,
        })?;
        self.enter(callee)
    }

    // The next call of a function, or the function itself where none is left.
    fn step(&mut self, callees: &[Vec<u32>], frame: Frame) -> Result<(), AllocError>
        requires order { visits.IsOrder (vec_len self.old.has) (view.listed callees.now) self.old }
        requires inside { frame.function < vec_len self.old.has }
        requires all { AreAll (vec_len self.old.has) (view.listed callees.now) }
        ensures order { OnOk result (visits.IsOrder (vec_len self.old.has) (view.listed callees.now) self.new) }
        ensures finishes { OnOk result ((visit : List ℕ → ℕ → List ℕ)
            → visits.IsVisit (view.listed callees.now) visit
            → visits.finished (view.listed callees.now) visit
            (visits.frames self.new.stack.items) self.new.done.items
            ≡ visits.finished (view.listed callees.now) visit
            (frame ∷ visits.frames self.old.stack.items) self.old.done.items) }
    {
        match callee_at(callees, frame) {
            None => self.add(frame.function),
            Some(callee) => self.follow(frame, callee),
        }
    }

    // A function is visited, unless it has come.
    fn enter(&mut self, f: u32) -> Result<(), AllocError>
        requires flags { visits.AreFlags (vec_len self.old.has) self.old.has.items self.old.done.items }
        ensures done { OnOk result (self.new.done ≡ self.old.done) }
        ensures has { OnOk result (self.new.has ≡ self.old.has) }
        ensures stack { OnOk result (visits.frames self.new.stack.items
            ≡ visits.entered f self.old.done.items (visits.frames self.old.stack.items)) }
    {
        if self.has(f) {
            return Ok(());
        }
        self.stack.push(Frame {
            function: f,
            call: 0,
        })?;
        Ok(())
    }

    fn visit(&mut self, callees: &[Vec<u32>], f: u32) -> Result<(), AllocError>
        requires order { visits.IsOrder (vec_len self.old.has) (view.listed callees.now) self.old }
        requires none { self.old.stack.items ≡ [] }
        requires inside { f < vec_len self.old.has }
        requires all { AreAll (vec_len self.old.has) (view.listed callees.now) }
        ensures order { OnOk result (visits.IsOrder (vec_len self.old.has) (view.listed callees.now) self.new) }
        ensures none { OnOk result (self.new.stack.items ≡ []) }
        ensures visits { OnOk result ((visit : List ℕ → ℕ → List ℕ)
            → visits.IsVisit (view.listed callees.now) visit → self.new.done.items
            ≡ visit self.old.done.items f) }
    {
        self.enter(f)?;
        for turn in 0..u64::MAX {
            match self.stack.pop() {
                None => return Ok(()),
                Some(frame) => self.step(callees, frame)?,
            }
        }
        Err(AllocError)
    }
}

/// Functions with those that they call, each behind those that it calls, else in the order in which they stand.
pub fn functions_in_order(
    alloc: Global,
    count: usize,
    places: &[CallSite],
    functions: &[u32],
) -> Result<Vec<u32>, AllocError>
    requires within { view.AreWithin count (view.call_sites places.now) }
    requires functions { view.AreBelow count functions.now }
    requires ranked { (rank : ℕ → ℕ) × laws.Descends (rule.calls_of (view.call_sites places.now)) count rank }
    ensures below { IfOk result (λ v. view.AreBelow count v.items) }
    ensures order { IfOk result (λ v. v.items ≡ rule.one_after_another (rule.with_function (rule.calls_of
        (view.call_sites places.now)) count) [] functions.now) }
{
    let lists = callees(alloc, count, places)?;
    let has = flags(alloc, count)?;
    let mut order = Order {
        done: Vec::new(alloc),
        has,
        stack: Vec::new(alloc),
    };
    for f in functions {
        order.visit(&lists, *f)?;
    }
    Ok(order.done)
}
