//! What the checker answers.

ghost use Rattle.std.specs.Prelude.{◌≡◌, ◌-◌, ◌<◌, ◌≤◌, ◌^◌, false, [], IfOk, length};
ghost use Rattle.ep_certcheck.specs.Verdict as checked;
ghost use Rattle.ep_certcheck.specs.Verdict.{AreHeadsOf, IsVerdict, first_failed};
ghost use Rattle.ep_certcheck_walk.specs.Found.{AreFewer, IsOfHead, answer_view};
ghost use Rattle.ep_closed_laws.specs.Laws.{TypesHaveBytes};
ghost use Rattle.ep_core.specs.Exec.{is_order};
ghost use Rattle.ep_core.specs.ProgramView.{program_view};
ghost use Rattle.ep_flows.specs.View.{ops_for, plan_of};
ghost use Rattle.ep_kinds.specs.Steady.{IsClosed, IsSteady};
ghost use Rattle.ep_pass.specs.Agreement.{AgreeInTheEnd};
ghost use Rattle.ep_singles.specs.Numbers.{KeepsSingles};
ghost use Rattle.ep_transfers.specs.Cells.{cell_ops};

use crate::cells::CheckedCells;
use crate::naming::named;
use ep_alarms::AlarmKind;
use ep_bitslice::CellName;
use ep_cell_states::cell_states;
use ep_cell_walks::{KnownCells, block_sizes};
use ep_certcheck_walk::{Found, check};
use ep_closed_numbers::closed_states;
use ep_core::program::CoreProgram;
use ep_domain::Num;
use ep_flows::setting::Setting;
use ep_int::{Memory, Order};
use ep_states::State;
use std::alloc::Global;

/// Whether two machines agree on a program, or where the checker stopped.
#[derive(Clone, Copy, Debug)]
pub enum Verdict {
    Yes,
    /// A fault on this line.
    Fault(u32, AlarmKind),
    /// A state is outside the head of this number, of whose cells, in order, this is the first that it fails. Of a
    /// pointer's cell the type is U32.
    Outside(u32, CellName),
    /// No head is left for the loop on this line.
    Missing(u32),
    /// So many heads were taken, fewer than there are.
    Spare(u32),
}

fn known<N: Num>(alloc: Global, heads: &[State<N>]) -> Result<Vec<CheckedCells<N>>, Memory>
    ensures { IfOk result (λ v. v.items ≡ heads.now) }
{
    let mut out = Vec::new(alloc);
    for head in heads {
        let state = head.copy()?;
        out.push(CheckedCells {
            known: KnownCells { state },
        })
        .map_err(|_| Memory)?;
    }
    Ok(out)
}

// What was found, with the name of a cell in place of its number.
fn told<N: Num>(c: &Setting<'_>, heads: &[State<N>], found: Found) -> Result<Verdict, Memory>
    requires heads { AreHeadsOf (c.now.left, c.now.right) (plan_of c.now).program.types.model heads.now }
    requires few { length heads.now < 2 ^ 32 }
    requires outside { IsOfHead (ops_for (cell_ops N.ops) (plan_of c.now)) (first_failed N.ops) heads.now found }
    requires spare { AreFewer heads.now found }
    requires answer { answer_view found ≡ checked.answer N.ops (plan_of c.now).program c.now.left c.now.right
        (plan_of c.now).unroll heads.now }
    ensures { IfOk result (λ v. IsVerdict N.ops (plan_of c.now).program c.now.left c.now.right (plan_of c.now).unroll
        heads.now v) }
{
    match found {
        Found::Yes => Ok(Verdict::Yes),
        Found::Fault(line, kind) => Ok(Verdict::Fault(line, kind)),
        Found::Outside(head, cell) => {
            let name = named(c, heads, head, cell)?;
            Ok(Verdict::Outside(head as u32, name))
        }
        Found::Missing(line) => Ok(Verdict::Missing(line)),
        Found::Spare(taken) => Ok(Verdict::Spare(taken as u32)),
    }
}

/// Goes through the program once, for two machines of these byte orders that are otherwise alike. Of a loop's turns the
/// first `unroll` are gone through one by one; then it takes the next head, in which the state and what comes round
/// have to be. It never widens. An error says that memory ran out.
pub fn verify<N: Num>(
    alloc: Global,
    program: &CoreProgram,
    orders: (Order, Order),
    unroll: u32,
    heads: &[State<N>],
) -> Result<Verdict, Memory>
    requires others { is_order orders.0 orders.1 ≡ false }
    requires heads { AreHeadsOf orders (program_view program.now).types.model heads.now }
    requires few { length heads.now < 2 ^ 32 }
    ensures answer { IfOk result (λ v.
        IsVerdict N.ops (program_view program.now) orders.0 orders.1 unroll heads.now v) }
    // Where it is yes, the two machines agree, whatever the heads are.
    ensures agree { IfOk result (λ v. v ≡ Verdict.Yes
        → AgreeInTheEnd (program_view program.now) orders.0 orders.1) }
    // Without heads it is yes where one turn more is unrolled than the loops of a closed and steady program take.
    ensures closed { IfOk result (λ v. KeepsSingles N.ops → TypesHaveBytes (program_view program.now).types
        → heads.now ≡ [] → 1 ≤ unroll → IsClosed (program_view program.now) orders.0 orders.1 (unroll - 1)
        → IsSteady (program_view program.now) orders.0 orders.1 → v ≡ Verdict.Yes) }
{
    cell_states::<N>();
    closed_states::<N>();
    let sizes = block_sizes(alloc, program)?;
    let setting = Setting {
        alloc,
        program,
        sizes: &sizes,
        left: orders.0,
        right: orders.1,
        unroll,
        limit: 0,
    };
    let states = known(alloc, heads)?;
    let found = check::<CheckedCells<N>>(&setting, &states)?;
    let verdict = told(&setting, heads, found)?;
    Ok(verdict)
}
