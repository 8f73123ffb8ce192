//! Names of cells of heads.

ghost use Rattle.std.specs.Prelude.{◌≡◌, ◌<◌, ◌^◌, IfOk, length};
ghost use Rattle.ep_certcheck.specs.Verdict as verdict;
ghost use Rattle.ep_certcheck.specs.Verdict.{AreHeadsOf, IsCellOf, first_failed};
ghost use Rattle.ep_certcheck_walk.specs.Found.{IsOutsideOf};
ghost use Rattle.ep_flows.specs.View.{ops_for, plan_of};
ghost use Rattle.ep_transfers.specs.Cells.{cell_ops};

use ep_bitslice::CellName;
use ep_cells::Cell;
use ep_domain::Num;
use ep_flows::setting::Setting;
use ep_int::{IntType, Memory, Scalar};
use ep_reads::unify_laws;
use ep_states::State;

fn type_named(what: Scalar) -> IntType
    ensures { result ≡ verdict.type_named what }
{
    match what {
        Scalar::Int(t) => t,
        Scalar::Pointer => IntType::U32,
    }
}

fn name_of<N>(cell: &Cell<N>) -> CellName
    ensures { result ≡ verdict.name_of cell.now }
{
    CellName {
        side: cell.side,
        block: cell.block,
        offset: cell.offset,
        t: type_named(cell.what),
    }
}

/// The name of the first cell, of this number, that is failed of the head of number `head`.
pub(crate) fn named<N: Num>(
    c: &Setting<'_>,
    heads: &[State<N>],
    head: u64,
    cell: u64,
) -> Result<CellName, Memory>
    requires heads { AreHeadsOf (c.now.left, c.now.right) (plan_of c.now).program.types.model heads.now }
    requires few { length heads.now < 2 ^ 32 }
    requires outside { IsOutsideOf (ops_for (cell_ops N.ops) (plan_of c.now)) (first_failed N.ops) heads.now head cell }
    ensures cell { IfOk result (λ name. IsCellOf heads.now head cell name) }
    ensures few { head < 2 ^ 32 }
{
    unify_laws::<N>();
    let failed = &heads[head as usize];
    failed.model();
    let cells = failed.all()?;
    Ok(name_of(cells[cell as usize]))
}
