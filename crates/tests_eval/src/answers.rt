//! Lines of the table, and what they are answered.

ghost use Rattle.std.specs.Prelude.{◌≡◌};
ghost use Rattle.ep_core.specs.View.{expr_view};
ghost use Rattle.ep_eval_fits.specs.Fitting.{ExprIsFit};

use crate::fits::expr_fits;
use crate::long;
use crate::trees::tree;
use ep_alarms::AlarmKind;
use ep_core::tree::Expr;
use ep_equalities::{Fault, Mode, PairValue, SideValue};
use ep_eval::{Verdict, Wants, eval, verdict_of};
use ep_eval_loads::{After, Running};
use ep_eval_taken::{Combinations, test_taken_by, test_taken_where};
use ep_int::{Model, Order};
use ep_states::State;
use std::alloc::{AllocError, Global};
use tests_cell_words::reading::{self, Numbers};
use tests_cell_words::writing;

fn mode(word: &str) -> Option<Mode> {
    match word {
        "both" => Some(Mode::Both),
        "left" => Some(Mode::Left),
        "right" => Some(Mode::Right),
        _ => None,
    }
}

fn kind(kind: AlarmKind) -> &'static str {
    match kind {
        AlarmKind::U1 => "U1",
        AlarmKind::U2 => "U2",
        AlarmKind::U3 => "U3",
        AlarmKind::U4 => "U4",
        AlarmKind::U5 => "U5",
        AlarmKind::U6 => "U6",
        AlarmKind::U7 => "U7",
        AlarmKind::U8 => "U8",
        AlarmKind::U9 => "U9",
        AlarmKind::U10 => "U10",
        AlarmKind::E1 => "E1",
        AlarmKind::E2 => "E2",
        AlarmKind::E3 => "E3",
        AlarmKind::E4 => "E4",
    }
}

fn sizes(alloc: Global, words: &str) -> Option<Vec<u32>> {
    let mut out = Vec::new(alloc);
    for word in words.split_whitespace() {
        out.push(word.parse().ok()?).ok()?;
    }
    Some(out)
}

fn push_side(
    alloc: Global,
    out: &mut String,
    x: &SideValue<Numbers>,
    forms: bool,
) -> Result<(), AllocError> {
    writing::push_value(alloc, out, &x.value)?;
    out.push_str(" ")?;
    if forms {
        writing::push_form(alloc, out, &x.form)?;
        out.push_str(" ")?;
    }
    Ok(())
}

fn push_faults(alloc: Global, out: &mut String, faults: &[Fault]) -> Result<(), AllocError> {
    for f in faults {
        let name = kind(f.kind);
        let (a, b) = f.left;
        let (c, d) = f.right;
        let text = format!(in alloc; " {name}[{a}..{b}][{c}..{d}]")?;
        out.push_str(text.as_str())?;
    }
    Ok(())
}

// A pair of values and faults as text.
fn given(alloc: Global, x: &PairValue<Numbers>, faults: &[Fault], forms: bool) -> Option<String> {
    let mut out = String::new(alloc);
    push_side(alloc, &mut out, &x.left, forms).ok()?;
    push_side(alloc, &mut out, &x.right, forms).ok()?;
    out.push_str(writing::word(x.equal)).ok()?;
    push_faults(alloc, &mut out, faults).ok()?;
    Some(out)
}

fn push_left(
    alloc: Global,
    out: &mut String,
    state: &State<Numbers>,
    x: After<Numbers>,
) -> Option<()> {
    out.push_str(" | ").ok()?;
    match x.state(state).ok()? {
        None => out.push_str("none").ok(),
        Some(s) => {
            let cells = s.cells().ok()?;
            let text = writing::cells(alloc, &cells).ok()?;
            out.push_str(text.as_str()).ok()
        }
    }
}

fn told(verdict: Verdict) -> &'static str {
    match verdict {
        Verdict::Stuck => "stuck",
        Verdict::Same => "same",
        Verdict::Differs => "differs",
    }
}

fn on_both(alloc: Global, sizes: &[u32], state: &State<Numbers>, e: &Expr) -> Option<String>
    requires { ExprIsFit (expr_view e.now) }
{
    let mut faults = Vec::new(alloc);
    let x = eval(e, sizes, state, Mode::Both, &mut faults).ok()?;
    let asked = Combinations {
        alike: true,
        apart: true,
    };
    let all = test_taken_where(e, sizes, state, &x, asked).ok()?;
    let mut out = String::from_str(alloc, told(verdict_of(Mode::Both, &x))).ok()?;
    push_faults(alloc, &mut out, &faults).ok()?;
    push_left(alloc, &mut out, state, all.true_true)?;
    push_left(alloc, &mut out, state, all.true_false)?;
    push_left(alloc, &mut out, state, all.false_true)?;
    push_left(alloc, &mut out, state, all.false_false)?;
    Some(out)
}

fn on_one(
    alloc: Global,
    sizes: &[u32],
    state: &State<Numbers>,
    e: &Expr,
    side: Running,
) -> Option<String>
    requires { ExprIsFit (expr_view e.now) }
{
    let mut faults = Vec::new(alloc);
    let x = test_taken_by(e, sizes, state, side, Wants::both(), &mut faults).ok()?;
    let mut out = String::from_str(alloc, told(verdict_of(side.mode(), &x.value))).ok()?;
    push_faults(alloc, &mut out, &faults).ok()?;
    push_left(alloc, &mut out, state, x.when_true)?;
    push_left(alloc, &mut out, state, x.when_false)?;
    Some(out)
}

/// What a test gives and leaves.
pub(crate) fn test(
    alloc: Global,
    sizes: &[u32],
    state: &State<Numbers>,
    e: &Expr,
    mode: Mode,
) -> Option<String> {
    if !expr_fits(e) {
        return None;
    }
    match mode {
        Mode::Both => on_both(alloc, sizes, state, e),
        Mode::Left => on_one(alloc, sizes, state, e, Running::Left),
        Mode::Right => on_one(alloc, sizes, state, e, Running::Right),
    }
}

/// What an expression gives.
pub(crate) fn value(
    alloc: Global,
    sizes: &[u32],
    state: &State<Numbers>,
    e: &Expr,
    mode: Mode,
    forms: bool,
) -> Option<String> {
    if !expr_fits(e) {
        return None;
    }
    let mut faults = Vec::new(alloc);
    let x = eval(e, sizes, state, mode, &mut faults).ok()?;
    given(alloc, &x, &faults, forms)
}

fn row(alloc: Global, head: &str, rest: &str) -> Option<String> {
    let mut words = head.split_whitespace();
    let what = words.next()?;
    let orders: (Order, Order) = (
        reading::order(words.next()?)?,
        reading::order(words.next()?)?,
    );
    let model: Model = reading::model(words.next()?)?;
    let mode = mode(words.next()?)?;
    let mut parts = rest.split('|');
    let sizes = sizes(alloc, parts.next()?)?;
    let cells = reading::cells(alloc, parts.next()?)?;
    let state = State::of_cells(alloc, orders, model, cells).ok()??;
    let e = tree(alloc, parts.next()?)?;
    match what {
        "eval" => value(alloc, &sizes, &state, &e, mode, true),
        "value" => value(alloc, &sizes, &state, &e, mode, false),
        "test" => test(alloc, &sizes, &state, &e, mode),
        _ => None,
    }
}

fn measured(alloc: Global, line: &str) -> Option<String> {
    let mut words = line.split_whitespace();
    match words.next()? {
        "long" => long::array(
            alloc,
            words.next()?.parse().ok()?,
            words.next()?.parse().ok()?,
            words.next()? == "all",
        ),
        "nest" => long::nested(alloc, words.next()?, words.next()?.parse().ok()?),
        _ => None,
    }
}

pub(crate) fn answer(alloc: Global, line: &str) -> Option<String> {
    match line.split_once('|') {
        Some((head, rest)) => row(alloc, head, rest),
        None => measured(alloc, line),
    }
}
