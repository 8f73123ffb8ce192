//! Parts of statements, and what is done with one of them alone.

ghost use Rattle.std.specs.Prelude.{◌≡◌, true, if◌then◌else◌, nat_lt, IfOk, None, Option, Some, slice_get};
ghost use Rattle.std.specs.Option.{option_map};
ghost use Rattle.ep_core.specs.Exec.{first_of, frame_of, is_order, on, result_in};
ghost use Rattle.ep_core.specs.View.{dest_view, expr_view, function_view, what_view};
ghost use Rattle.ep_core.specs.WellFormed.{is_return};
ghost use Rattle.ep_flows.specs.View.{Passes, is_simple, mode_of, plan_of, flow_view, side_of, simple_of};
ghost use Rattle.ep_flows.specs.Typed.{IsTypedTest, TakesResult};
ghost use Rattle.ep_pass.specs.Pass.{agreed, branch, simple_pass};
ghost use Rattle.ep_walk_parts.specs.Pieces.{left_of, o, one};
ghost use Rattle.ep_walk_parts.specs.Typed.{IsTyped};

use ep_core::program::Function;
use ep_core::tree::{Dest, Expr, Stmt, What};
use ep_flows::flow::{Flow, join_reached, leave_scope};
use ep_flows::log::Log;
use ep_flows::setting::{Machine, Running, Setting};
use ep_flows::states::AbstractStates;
use ep_int::{Memory, Order, Scalar};
use std::alloc::Global;

/// The parts of a loop.
#[derive(Clone, Copy)]
pub struct Parts<'p> {
    pub line: u32,
    pub test: &'p Expr,
    pub body: &'p [Stmt],
    pub next: &'p [Stmt],
}

/// What follows a test.
#[derive(Clone, Copy)]
pub enum Follow<'p> {
    /// The arms of an `if`, at its line.
    Arms(u32, &'p [Stmt], &'p [Stmt]),
    /// A turn of a loop.
    Turn(Parts<'p>),
    /// The end of one side's turns, at the line of their loop.
    Cut(u32),
}

/// The function of this number.
pub fn function_at<'p>(c: &Setting<'p>, k: u32) -> Option<&'p Function>
    ensures { option_map (λ f. f.now) result ≡ slice_get c.now.program.now.functions.items k }
{
    c.program.functions.get(k as usize)
}

/// The function that is called, if it comes before this one.
pub fn callee<'p>(c: &Setting<'p>, here: u32, k: u32) -> Option<&'p Function>
    ensures { option_map (λ f. f.now) result
        ≡ (if nat_lt k here then slice_get c.now.program.now.functions.items k else None) }
{
    if k < here { function_at(c, k) } else { None }
}

/// The result of the function of this number; none where there is no such function, or it is void.
pub fn result_of(c: &Setting<'_>, here: u32) -> Option<(u32, Scalar)>
    ensures { result ≡ result_in (slice_get (plan_of c.now).program.functions here) }
{
    match c.program.functions.get(here as usize) {
        None => None,
        Some(f) => f.result,
    }
}

/// The state of one truth on each running side.
pub fn assumed<K: AbstractStates>(
    c: &Setting<'_>,
    mode: Running,
    e: &Expr,
    truth: bool,
    known: &K,
) -> Result<Option<K>, Memory>
    requires { IsTypedTest (plan_of c.now).program (expr_view e.now) }
    ensures { IfOk result (λ r. r ≡ agreed (o K.ops (plan_of c.now)) (mode_of mode)
        (expr_view e.now) truth known.now) }
{
    match mode {
        Running::Together => known.assume(c, e, truth, truth),
        Running::Alone(m) => known.assume_one(c, m, e, truth),
    }
}

/// The byte order of a machine.
pub fn order_of(c: &Setting<'_>, machine: Machine) -> Order
    ensures { result ≡ (plan_of c.now).order (side_of machine) }
{
    match machine {
        Machine::Left => c.left,
        Machine::Right => c.right,
    }
}

/// The arm of a machine of this order.
pub fn arm<'p>(own: Order, named: Order, yes: &'p [Stmt], no: &'p [Stmt]) -> &'p [Stmt]
    ensures { result.now ≡ (if is_order own named then yes.now else no.now) }
{
    if own == named { yes } else { no }
}

/// Whether a statement is a `return`.
pub fn returns(w: &What) -> bool
    ensures { result ≡ is_return (simple_of (what_view w.now)) }
{
    match w {
        What::Return(_) => true,
        What::Nothing
        | What::Eval(_)
        | What::Assign(_, _, _)
        | What::Clear(_, _)
        | What::CopyAggregate(_, _, _)
        | What::CopyBytes(_, _, _)
        | What::Fill(_, _, _)
        | What::Input(_, _)
        | What::Output(_, _)
        | What::ReadBytes(_, _)
        | What::WriteBytes(_, _)
        | What::Call(_, _, _)
        | What::If(_, _, _)
        | What::Loop(_, _, _, _)
        | What::Break
        | What::Continue
        | What::ByOrder(_, _, _)
        | What::Scope(_, _) => false,
    }
}

/// A statement without statements in it.
pub fn pass_simple<K: AbstractStates>(
    c: &Setting<'_>,
    here: u32,
    mode: Running,
    s: &Stmt,
    known: K,
    log: &mut Log<K>,
) -> Result<Flow<K>, Memory>
    requires simple { is_simple (what_view s.now.what) ≡ true }
    requires typed { IsTyped (plan_of c.now).program here (what_view s.now.what) }
    ensures { Passes (one K.ops (plan_of c.now) here (what_view s.now.what) (mode_of mode) s.now.line known) result
        log.old log.new }
{
    let next = known.simple(c, mode, result_of(c, here), s, &mut log.alarms)?;
    if returns(&s.what) {
        return Ok(Flow::returned(next));
    }
    Ok(Flow::on(next))
}

/// What comes of a call, where its body is left.
pub fn give_result<K: AbstractStates>(
    c: &Setting<'_>,
    mode: Running,
    f: &Function,
    d: &Option<Dest>,
    line: u32,
    left: Option<K>,
    log: &mut Log<K>,
) -> Result<Flow<K>, Memory>
    requires { TakesResult (plan_of c.now).program (function_view f.now) (option_map dest_view d.now) }
    ensures { Passes (branch left (λ s. simple_pass on line
        ((o K.ops (plan_of c.now)).result (mode_of mode) (function_view f.now) (option_map dest_view d.now) s)))
        result log.old log.new }
{
    match left {
        None => Ok(Flow::none()),
        Some(left) => {
            let next = left.result(c, mode, f, d, line, &mut log.alarms)?;
            Ok(Flow::on(next))
        }
    }
}

/// A function is left by `return`, then at its end.
pub fn leave_function<K: AbstractStates>(
    c: &Setting<'_>,
    mode: Running,
    f: &Function,
    flow: Flow<K>,
) -> Result<Option<K>, Memory>
    ensures { IfOk result (λ r. r
        ≡ left_of K.ops (plan_of c.now) (mode_of mode) (function_view f.now) (flow_view flow)) }
{
    let blocks = frame(c.alloc, f)?;
    let Flow { on, ways } = leave_scope(c, mode, &blocks, flow)?;
    join_reached(c, ways.returned, on)
}

// The parameters and locals of a function.
fn frame(alloc: Global, f: &Function) -> Result<Vec<u32>, Memory>
    ensures { IfOk result (λ bs. bs.items ≡ frame_of (function_view f.now)) }
{
    let mut blocks = firsts(alloc, &f.params)?;
    blocks.extend_from_slice(&f.locals).map_err(|_| Memory)?;
    Ok(blocks)
}

fn firsts(alloc: Global, params: &[(u32, Scalar)]) -> Result<Vec<u32>, Memory>
    ensures { IfOk result (λ bs. bs.items ≡ first_of params.now) }
{
    let mut blocks = Vec::new(alloc);
    for p in params {
        blocks.push(p.0).map_err(|_| Memory)?;
    }
    Ok(blocks)
}
