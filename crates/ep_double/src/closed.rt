//! Programs without inputs, in which no machine puts out anything that another doesn't.

ghost use Rattle.std.specs.Prelude.{◌≡◌, ◌&&◌, ◌||◌, slice_get};
ghost use Rattle.std.specs.Option.{option_map};
ghost use Rattle.ep_int.specs.declared.types.Order.TheVariants.{Little};
ghost use Rattle.ep_core.specs.Program.{by_order};
ghost use Rattle.ep_core.specs.ProgramView.{program_view};
ghost use Rattle.ep_core.specs.View.{stmts_view, what_view};
ghost use Rattle.ep_kinds.specs.Closed.{are_closed, is_closed_text, is_closed_what};
ghost use Rattle.ep_kinds.specs.InOut.{comes_to, is_talk, some_comes_to};
ghost use Rattle.ep_double.specs.Remembered.{AreRemembered, called};

use ep_core::program::{CoreProgram, Function};
use ep_core::tree::{Stmt, What};

// What so many functions come to is remembered, more than sources have; of others it is looked for at each call.
const REMEMBERED: usize = 81920;

// The functions before the one of number `here`, and which of them come to an input or output.
#[derive(Clone, Copy)]
struct Before<'a> {
    program: &'a CoreProgram,
    here: usize,
    talks: &'a [bool],
    ghost right: { AreRemembered (program_view program.now) here talks.now },
}

/// Takes no memory.
pub fn is_closed(p: &CoreProgram) -> bool
    ensures { result ≡ is_closed_text (program_view p.now) }
{
    let mut talks = [false; REMEMBERED];
    for here in 0..p.functions.len() {
        let body = &p.functions[here].body;
        let before = Before {
            program: p,
            here,
            talks: &talks,
        };
        if !list_is_closed(&before, body) {
            return false;
        }
        let comes = list_talks(&before, body);
        if here < REMEMBERED {
            talks[here] = comes;
        }
    }
    true
}

#[cycle(closed)]
fn is_closed_stmt(c: &Before<'_>, s: &Stmt) -> bool
    ensures { result ≡ is_closed_what (called (program_view c.now.program.now) c.now.here) (what_view s.now.what) }
{
    match &s.what {
        What::Input(_, _) => false,
        What::ReadBytes(_, _) => false,
        What::If(_, a, b) => two_are_closed(c, a, b),
        What::Loop(_, _, a, b) => two_are_closed(c, a, b),
        What::ByOrder(_, a, b) => arms_are_closed(c, a, b),
        What::Scope(_, a) => list_is_closed(c, a),
        _ => true,
    }
}

#[cycle(closed)]
fn list_is_closed(c: &Before<'_>, body: &[Stmt]) -> bool
    ensures { result ≡ are_closed (called (program_view c.now.program.now) c.now.here) (stmts_view body.now) }
{
    for s in body {
        if !is_closed_stmt(c, s) {
            return false;
        }
    }
    true
}

#[cycle(closed)]
fn two_are_closed(c: &Before<'_>, a: &[Stmt], b: &[Stmt]) -> bool
    ensures { result ≡ are_closed (called (program_view c.now.program.now) c.now.here) (stmts_view a.now)
        && are_closed (called (program_view c.now.program.now) c.now.here) (stmts_view b.now) }
{
    list_is_closed(c, a) && list_is_closed(c, b)
}

// The arms of a byte-order conditional.
#[cycle(closed)]
fn arms_are_closed(c: &Before<'_>, a: &[Stmt], b: &[Stmt]) -> bool
    ensures { result ≡ is_closed_what (called (program_view c.now.program.now) c.now.here)
        (by_order Little (stmts_view a.now) (stmts_view b.now)) }
{
    if two_talk(c, a, b) {
        return false;
    }
    two_are_closed(c, a, b)
}

// Whether a statement comes to an input or output.
#[cycle(talking)]
fn talks_stmt(c: &Before<'_>, s: &Stmt) -> bool
    ensures { result ≡ comes_to is_talk (called (program_view c.now.program.now) c.now.here) (what_view s.now.what) }
{
    match &s.what {
        What::Input(_, _) => true,
        What::Output(_, _) => true,
        What::ReadBytes(_, _) => true,
        What::WriteBytes(_, _) => true,
        What::Call(k, _, _) => talks_called(c, *k as usize),
        What::If(_, a, b) => two_talk(c, a, b),
        What::Loop(_, _, a, b) => two_talk(c, a, b),
        What::ByOrder(_, a, b) => two_talk(c, a, b),
        What::Scope(_, a) => list_talks(c, a),
        _ => false,
    }
}

#[cycle(talking)]
fn list_talks(c: &Before<'_>, body: &[Stmt]) -> bool
    ensures { result ≡ some_comes_to is_talk (called (program_view c.now.program.now) c.now.here)
        (stmts_view body.now) }
{
    for s in body {
        if talks_stmt(c, s) {
            return true;
        }
    }
    false
}

#[cycle(talking)]
fn two_talk(c: &Before<'_>, a: &[Stmt], b: &[Stmt]) -> bool
    ensures { result ≡ some_comes_to is_talk (called (program_view c.now.program.now) c.now.here) (stmts_view a.now)
        || some_comes_to is_talk (called (program_view c.now.program.now) c.now.here) (stmts_view b.now) }
{
    list_talks(c, a) || list_talks(c, b)
}

// Whether the body of a function does that comes before.
#[cycle(talking)]
fn talks_called(c: &Before<'_>, k: usize) -> bool
    ensures { result ≡ called (program_view c.now.program.now) c.now.here k }
{
    if k >= c.here {
        return false;
    }
    if k < c.talks.len() {
        return c.talks[k];
    }
    let before = Before {
        program: c.program,
        here: k,
        talks: c.talks,
    };
    match function_at(c.program, k) {
        None => false,
        Some(f) => list_talks(&before, &f.body),
    }
}

fn function_at(p: &CoreProgram, k: usize) -> Option<&Function>
    ensures { option_map (λ f. f.now) result ≡ slice_get p.now.functions.items k }
{
    p.functions.get(k)
}
