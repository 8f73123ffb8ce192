//! What the expressions, lvalues and tests of a program give over what is known of two memories, and what is left of
//! that where a test has truths: evaluation for the analysis, which asks for no more than the program's types give.
#![tactic(auto)]

ghost use Rattle.std.specs.Prelude.{◌≡◌, ◌++◌, IfOk, OnOk, map, true, false};
ghost use Rattle.ep_core.specs.Runs.{left, right};
ghost use Rattle.ep_core.specs.declared.program.BlockInfo.{BlockInfo as Info};
ghost use Rattle.ep_core.specs.ProgramView.{program_view};
ghost use Rattle.ep_core.specs.View.{expr_view, place_view};
ghost use Rattle.ep_equalities.specs.declared.pair.Mode.TheVariants.{Both};
ghost use Rattle.ep_evaluation.specs.Evaluation as spec;
ghost use Rattle.ep_evaluation.specs.Given.{alone};
ghost use Rattle.ep_evaluation.specs.Laws.{sizes_of};
ghost use Rattle.ep_eval_taken.specs.After.{left_of};
ghost use Rattle.ep_eval_taken.specs.Running.{side_of};
ghost use Rattle.ep_eval_programs.specs.Typed.{IsExpr, IsPlace, IsTest, meant, reached};

use ep_core::program::{BlockInfo, CoreProgram};
use ep_core::tree::{Expr, Place};
use ep_domain::Num;
use ep_equalities::{Fault, Mode, PairValue};
pub use ep_eval_taken as taken;
use ep_eval_taken::expressions::{Assumed, Running, Wants};
use ep_eval_taken::{Combinations, Taken};
use ep_int::Memory;
use ep_states::State;
use std::alloc::{AllocError, Global};

fn size_list(alloc: Global, blocks: &[BlockInfo]) -> Result<Vec<u32>, AllocError>
    ensures { IfOk result (λ v. v.items ≡ map (λ (b : Info). b.size) blocks.now) }
{
    blocks.iter().map(|b| b.size).collect(alloc)
}

/// The sizes of the program's blocks, in bytes, by their numbers: the other calls are passed them.
pub fn block_sizes(alloc: Global, program: &CoreProgram) -> Result<Vec<u32>, Memory>
    ensures { IfOk result (λ v. v.items ≡ sizes_of (program_view program.now).blocks) }
{
    match size_list(alloc, &program.blocks) {
        Ok(sizes) => Ok(sizes),
        Err(_) => Err(Memory),
    }
}

/// What an expression gives in a mode. Its faults are added to those that are there.
pub fn value<N: Num>(
    program: &CoreProgram,
    sizes: &[u32],
    e: &Expr,
    state: &State<N>,
    mode: Mode,
    faults: &mut Vec<Fault>,
) -> Result<PairValue<N>, Memory>
    requires sizes { sizes.now ≡ sizes_of (program_view program.now).blocks }
    requires typed { IsExpr (program_view program.now) (expr_view e.now) }
    ensures value { IfOk result (λ r. r
        ≡ ((meant N.ops (program_view program.now) (expr_view e.now)).gives mode state.now).pair) }
    ensures faults { OnOk result (faults.new.items ≡ faults.old.items
        ++ ((meant N.ops (program_view program.now) (expr_view e.now)).gives mode state.now).faults) }
{
    ep_eval_taken::expressions::eval(e, sizes, state, mode, faults)
}

/// What an lvalue gives in a mode: its address. Its faults are added to those that are there.
pub fn address<N: Num>(
    program: &CoreProgram,
    sizes: &[u32],
    a: &Place,
    state: &State<N>,
    mode: Mode,
    faults: &mut Vec<Fault>,
) -> Result<PairValue<N>, Memory>
    requires sizes { sizes.now ≡ sizes_of (program_view program.now).blocks }
    requires typed { IsPlace (program_view program.now) (place_view a.now) }
    ensures value { IfOk result (λ r. r
        ≡ (reached N.ops (program_view program.now) (place_view a.now) mode state.now).pair) }
    ensures faults { OnOk result (faults.new.items ≡ faults.old.items
        ++ (reached N.ops (program_view program.now) (place_view a.now) mode state.now).faults) }
{
    ep_eval_taken::expressions::address(a, sizes, state, mode, faults)
}

/// What a test gives in a mode. Its faults are added to those that are there; `verdict_of` tells of its truths.
pub fn test_value<N: Num>(
    program: &CoreProgram,
    sizes: &[u32],
    e: &Expr,
    state: &State<N>,
    mode: Mode,
    faults: &mut Vec<Fault>,
) -> Result<PairValue<N>, Memory>
    requires sizes { sizes.now ≡ sizes_of (program_view program.now).blocks }
    requires typed { IsTest (program_view program.now) (expr_view e.now) }
    ensures value { IfOk result (λ r. r
        ≡ ((meant N.ops (program_view program.now) (expr_view e.now)).gives mode state.now).pair) }
    ensures faults { OnOk result (faults.new.items ≡ faults.old.items
        ++ ((meant N.ops (program_view program.now) (expr_view e.now)).gives mode state.now).faults) }
{
    ep_eval_taken::expressions::eval(e, sizes, state, mode, faults)
}

/// What is left where both sides run, for each combination of truths that is asked for, by what the test gives.
pub fn test_taken<N: Num>(
    program: &CoreProgram,
    sizes: &[u32],
    e: &Expr,
    state: &State<N>,
    x: &PairValue<N>,
    asked: Combinations,
) -> Result<Taken<N>, Memory>
    requires sizes { sizes.now ≡ sizes_of (program_view program.now).blocks }
    requires typed { IsTest (program_view program.now) (expr_view e.now) }
    requires value { x.now ≡ ((meant N.ops (program_view program.now) (expr_view e.now)).gives Both state.now).pair }
    ensures true_true { IfOk result (λ r. asked.alike ≡ true → left_of state.now r.true_true
        ≡ spec.test_taken N.ops (meant N.ops (program_view program.now) (expr_view e.now)) true true state.now) }
    ensures true_false { IfOk result (λ r. asked.apart ≡ true → left_of state.now r.true_false
        ≡ spec.test_taken N.ops (meant N.ops (program_view program.now) (expr_view e.now)) true false state.now) }
    ensures false_true { IfOk result (λ r. asked.apart ≡ true → left_of state.now r.false_true
        ≡ spec.test_taken N.ops (meant N.ops (program_view program.now) (expr_view e.now)) false true state.now) }
    ensures false_false { IfOk result (λ r. asked.alike ≡ true → left_of state.now r.false_false
        ≡ spec.test_taken N.ops (meant N.ops (program_view program.now) (expr_view e.now)) false false state.now) }
{
    ep_eval_taken::test_taken_where(e, sizes, state, x, asked)
}

/// What a test gives on one side alone, and what is left where it has each truth that is asked for. The faults are
/// added to those that are there.
pub fn test_taken_by<N: Num>(
    program: &CoreProgram,
    sizes: &[u32],
    e: &Expr,
    state: &State<N>,
    side: Running,
    wants: Wants,
    faults: &mut Vec<Fault>,
) -> Result<Assumed<N>, Memory>
    requires sizes { sizes.now ≡ sizes_of (program_view program.now).blocks }
    requires typed { IsTest (program_view program.now) (expr_view e.now) }
    ensures value { IfOk result (λ r. r.value
        ≡ ((meant N.ops (program_view program.now) (expr_view e.now)).gives (alone (side_of side)) state.now).pair) }
    ensures faults { OnOk result (faults.new.items ≡ faults.old.items
        ++ ((meant N.ops (program_view program.now) (expr_view e.now)).gives (alone (side_of side)) state.now).faults) }
    ensures yes { IfOk result (λ r. wants.yes ≡ true → left_of state.now r.when_true ≡ spec.test_taken_by N.ops
        (side_of side) (meant N.ops (program_view program.now) (expr_view e.now)) true state.now) }
    ensures no { IfOk result (λ r. wants.no ≡ true → left_of state.now r.when_false ≡ spec.test_taken_by N.ops
        (side_of side) (meant N.ops (program_view program.now) (expr_view e.now)) false state.now) }
{
    ep_eval_taken::test_taken_by(e, sizes, state, side, wants, faults)
}
