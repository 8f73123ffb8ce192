//! What calls are passed, and what they do.

ghost use Rattle.std.specs.Prelude.{◌≡◌, ℕ, ◌+◌, map, min, slice_get, IfOk, List, Option, Result, Some};
ghost use Rattle.std.specs.Option.{option_map};
ghost use Rattle.ep_ast.specs.Kind.{number_of};
ghost use Rattle.ep_ast.specs.declared.refusals.Halt.TheVariants as halts;
ghost use Rattle.ep_ast.specs.declared.refusals.Refusal.{Refusal};
ghost use Rattle.ep_core.specs.Program as core;
ghost use Rattle.ep_core.specs.View.{expr_view, what_view, dest_view};
ghost use Rattle.ep_typing.specs.Calls as rule;
ghost use Rattle.ep_typing.specs.Results.{at, lowest};
ghost use Rattle.ep_operands.specs.Refinement.{Refines};
ghost use Rattle.ep_stores.specs.Passing.{after, lower, passed_to};
ghost use Rattle.ep_stores.specs.View as view;

use ep_ast::{Halt, RefusalKind};
use ep_core::tree::{Dest, Expr, What};
use ep_int::{IntType, Memory};
use ep_operands::{
    Value, bare, count_of, fitted, int_type, is_aggregate, is_pointer, is_scalar, refused,
    void_type,
};
use ep_typing::CType;
use std::alloc::Global;

/// What a parameter asks: a value of a type, a pointer of any type, or a length.
#[derive(Clone, Copy, Debug)]
pub enum Parameter {
    OfType(CType),
    AnyPointer,
    Length,
}

/// What a built-in function does that gives nothing. Lengths are in bytes.
#[derive(Debug, Drop)]
pub enum Action {
    Output(IntType, Expr),
    CopyBytes(Expr, Expr, u32),
    FillBytes(Expr, Expr, u32),
    ReadBytes(Expr, u32),
    WriteBytes(Expr, u32),
}

/// What a call does: a function by its number with its arguments and the type of its result, an input, or an action.
#[derive(Debug, Drop)]
pub enum Called {
    Function(u32, Vec<Expr>, CType),
    Input(IntType),
    Action(Action),
}

fn as_any_pointer(line: u32, v: Value) -> Result<Expr, Halt>
    ensures { Refines expr_view (at line (rule.as_any_pointer (view.value v))) result }
{
    if !is_scalar(v.ty) {
        return Err(refused(RefusalKind::TypeMismatch, line));
    }
    if is_pointer(v.ty) {
        return Ok(bare(v));
    }
    if v.is_null {
        return Ok(Expr::Null);
    }
    Err(refused(RefusalKind::PointerToInteger, line))
}

fn as_length(line: u32, v: Value) -> Result<Expr, Halt>
    ensures { Refines expr_view (at line (rule.as_length (view.value v))) result }
{
    if !is_scalar(v.ty) {
        return Err(refused(RefusalKind::TypeMismatch, line));
    }
    if is_pointer(v.ty) {
        return Err(refused(RefusalKind::PointerToInteger, line));
    }
    match count_of(&v) {
        Some(_) => Ok(v.expr),
        None => Err(refused(RefusalKind::LengthNotConstant, line)),
    }
}

// A value as what a parameter asks.
#[tactic(auto, unfolding(ep_typing::specs::Calls::passed))]
fn passed(alloc: Global, line: u32, parameter: Parameter, v: Value) -> Result<Expr, Halt>
    ensures { Refines expr_view (at line (rule.passed (view.parameter parameter) (view.value v))) result }
{
    match parameter {
        Parameter::OfType(c) => fitted(alloc, line, c, v),
        Parameter::AnyPointer => as_any_pointer(line, v),
        Parameter::Length => as_length(line, v),
    }
}

// A value that has no parameter.
fn surplus(line: u32, v: Value) -> Result<Expr, Halt>
    ensures { Refines expr_view (at line (rule.surplus (view.value v))) result }
{
    if is_aggregate(v.ty) {
        return Err(refused(RefusalKind::TypeMismatch, line));
    }
    Err(refused(RefusalKind::Arity, line))
}

// A value as its parameter asks, where it has one.
fn passed_to(alloc: Global, line: u32, parameter: Option<Parameter>, v: Value) -> Result<Expr, Halt>
    ensures { Refines expr_view (at line (passed_to (option_map view.parameter parameter) (view.value v))) result }
{
    match parameter {
        Some(parameter) => passed(alloc, line, parameter, v),
        None => surplus(line, v),
    }
}

fn lower(kind: Option<RefusalKind>, other: RefusalKind) -> RefusalKind
    ensures { number_of result ≡ lower (option_map number_of kind) (number_of other) }
{
    match kind {
        None => other,
        Some(k) => {
            if k.number() < other.number() {
                k
            } else {
                other
            }
        }
    }
}

// The lowest kind so far, where an argument isn't passed.
fn stopped(kind: Option<RefusalKind>, halt: Halt) -> Result<Option<RefusalKind>, Memory>
    ensures { IfOk result (λ k. (r : Refusal) × (halt ≡ halts.Refused r)
        × (option_map number_of k ≡ Some (lower (option_map number_of kind) r.kind))) }
{
    match halt {
        Halt::Refused(refusal) => Ok(Some(lower(kind, refusal.kind()))),
        Halt::Memory => Err(Memory),
    }
}

// One argument more, or the lowest kind so far.
fn pass(
    alloc: Global,
    line: u32,
    parameter: Option<Parameter>,
    value: Value,
    arguments: &mut Vec<Expr>,
    kind: Option<RefusalKind>,
) -> Result<Option<RefusalKind>, Memory>
    ensures { IfOk result (λ k. (rest : Result (List core.Expr) ℕ)
        → after (option_map number_of kind) (map expr_view arguments.old.items)
        (lowest (passed_to (option_map view.parameter parameter) (view.value value)) rest)
        ≡ after (option_map number_of k) (map expr_view arguments.new.items) rest) }
{
    match passed_to(alloc, line, parameter, value) {
        Ok(argument) => match arguments.push(argument) {
            Ok(()) => Ok(kind),
            Err(_) => Err(Memory),
        },
        Err(halt) => stopped(kind, halt),
    }
}

fn parameter_at(parameters: &[Parameter], place: usize) -> Option<Parameter>
    ensures { result ≡ slice_get parameters.now place }
{
    match parameters.get(place) {
        Some(parameter) => Some(*parameter),
        None => None,
    }
}

// The place behind this one, and no place behind the last.
fn place_after(place: usize, count: usize) -> usize
    ensures { result ≡ min (place + 1) count }
{
    if place < count { place + 1 } else { count }
}

/// An argument for each parameter, or the lowest kind of all that is wrong.
pub fn all_passed(
    alloc: Global,
    line: u32,
    parameters: &[Parameter],
    values: Vec<Value>,
) -> Result<Vec<Expr>, Halt>
    ensures { Refines (λ v. map expr_view v.items)
        (at line (rule.all_passed (map view.parameter parameters.now) (map view.value values.items))) result }
{
    let mut arguments = Vec::new(alloc);
    let mut kind = None;
    let mut place: usize = 0;
    for value in values {
        let parameter = parameter_at(parameters, place);
        kind = pass(alloc, line, parameter, value, &mut arguments, kind)?;
        place = place_after(place, parameters.len());
    }
    if place < parameters.len() {
        return Err(refused(lower(kind, RefusalKind::Arity), line));
    }
    match kind {
        Some(k) => Err(refused(k, line)),
        None => Ok(arguments),
    }
}

/// The length that a value among these is.
pub fn length_at(values: &[Value], place: usize) -> u32
    ensures { result ≡ rule.length_at (map view.value values.now) place }
{
    match values.get(place) {
        None => 0,
        Some(value) => match count_of(value) {
            Some(n) => n,
            None => 0,
        },
    }
}

impl Called {
    /// The type of what a call gives; void for an action.
    pub fn result(&self) -> CType
        ensures { result ≡ rule.result_of (view.called self.now) }
    {
        match self {
            Called::Function(_, _, c) => *c,
            Called::Input(t) => int_type(*t),
            Called::Action(_) => void_type(),
        }
    }

    /// The statement of a call whose result, if it has one, goes there.
    pub fn into_statement(self, dest: Option<Dest>) -> What
        ensures { what_view result ≡ rule.called_into (view.called self) (option_map dest_view dest) }
    {
        match self {
            Called::Function(n, arguments, _) => What::Call(n, arguments, dest),
            Called::Input(t) => What::Input(t, dest),
            Called::Action(action) => match action {
                Action::Output(t, e) => What::Output(t, e),
                Action::CopyBytes(to, from, n) => What::CopyBytes(to, from, n),
                Action::FillBytes(to, byte, n) => What::Fill(to, byte, n),
                Action::ReadBytes(to, n) => What::ReadBytes(to, n),
                Action::WriteBytes(from, n) => What::WriteBytes(from, n),
            },
        }
    }
}
