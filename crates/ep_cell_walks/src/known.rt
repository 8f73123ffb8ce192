//! What is known of the cells of two memories, as a state on a walk.

ghost use Rattle.std.specs.Prelude.{◌≡◌};

use crate::{pairs, statements, truths};
use ep_alarms::Alarms;
use ep_core::program::Function;
use ep_core::tree::{Dest, Expr, Stmt};
use ep_domain::Num;
use ep_flows::laws::LawfulStates;
use ep_flows::setting::{Machine, Running, Setting, Truths};
use ep_flows::states::AbstractStates;
use ep_int::{Memory, Scalar};
use ep_states::State;
use std::marker::Model;

/// What is known of the cells of two memories, as a state on a walk of the analysis.
#[derive(Drop)]
pub struct KnownCells<N> {
    pub state: State<N>,
}

impl<N> Model for KnownCells<N> {
    ghost use Rattle.ep_cells.specs.States.{Known};

    ghost Value = { Known N };

    ghost view = { λ s. s.state };
}

fn known<N: Num>(state: Option<State<N>>) -> Option<KnownCells<N>>
    ensures { result ≡ state }
{
    match state {
        None => None,
        Some(state) => Some(KnownCells { state }),
    }
}

impl<N: Num> AbstractStates for KnownCells<N> {
    ghost use Rattle.ep_transfers.specs.Cells.{cell_ops};

    ghost ops = { cell_ops N.ops };

    fn entry(c: &Setting<'_>) -> Result<Self, Memory> {
        let state = ep_transfer_entry::entry(c.alloc, c.program, c.left, c.right)?;
        Ok(KnownCells { state })
    }

    fn copied(&self) -> Result<Self, Memory> {
        let state = self.state.copy()?;
        Ok(KnownCells { state })
    }

    fn simple(
        self,
        c: &Setting<'_>,
        mode: Running,
        returns: Option<(u32, Scalar)>,
        s: &Stmt,
        alarms: &mut Alarms,
    ) -> Result<Option<Self>, Memory> {
        let next = statements::simple(c, mode, returns, s, self.state, alarms)?;
        Ok(known(next))
    }

    fn test(
        &self,
        c: &Setting<'_>,
        mode: Running,
        e: &Expr,
        line: u32,
        alarms: &mut Alarms,
    ) -> Result<Truths, Memory> {
        let truths = truths::test(c, mode, e, line, &self.state, alarms)?;
        Ok(truths)
    }

    fn assume(
        &self,
        c: &Setting<'_>,
        e: &Expr,
        on_left: bool,
        on_right: bool,
    ) -> Result<Option<Self>, Memory> {
        let left = truths::assumed(c, e, on_left, on_right, &self.state)?;
        Ok(known(left))
    }

    fn assume_one(
        &self,
        c: &Setting<'_>,
        machine: Machine,
        e: &Expr,
        truth: bool,
    ) -> Result<Option<Self>, Memory> {
        let left = truths::assumed_one(c, machine, e, truth, &self.state)?;
        Ok(known(left))
    }

    fn arguments(
        self,
        c: &Setting<'_>,
        mode: Running,
        f: &Function,
        es: &[Expr],
        line: u32,
        alarms: &mut Alarms,
    ) -> Result<Option<Self>, Memory> {
        let next = statements::arguments(c, mode, f, es, line, self.state, alarms)?;
        Ok(known(next))
    }

    fn result(
        self,
        c: &Setting<'_>,
        mode: Running,
        f: &Function,
        d: &Option<Dest>,
        line: u32,
        alarms: &mut Alarms,
    ) -> Result<Option<Self>, Memory> {
        let next = statements::result(c, mode, f, d, line, self.state, alarms)?;
        Ok(known(next))
    }

    fn enter(self, c: &Setting<'_>, mode: Running, blocks: &[u32]) -> Result<Self, Memory> {
        let state = pairs::entered_or_left(c, mode, blocks, self.state)?;
        Ok(KnownCells { state })
    }

    fn leave(self, c: &Setting<'_>, mode: Running, blocks: &[u32]) -> Result<Self, Memory> {
        let state = pairs::entered_or_left(c, mode, blocks, self.state)?;
        Ok(KnownCells { state })
    }

    fn unified(self, c: &Setting<'_>, other: Self) -> Result<(Self, Self), Memory> {
        let (left, right) = pairs::unified(c, self.state, other.state)?;
        Ok((KnownCells { state: left }, KnownCells { state: right }))
    }

    fn joined(self, c: &Setting<'_>, other: Self) -> Result<Self, Memory> {
        let state = pairs::joined(c, &self.state, &other.state)?;
        Ok(KnownCells { state })
    }

    fn widened(self, c: &Setting<'_>, other: Self) -> Result<Self, Memory> {
        let state = pairs::widened(c, &self.state, &other.state)?;
        Ok(KnownCells { state })
    }

    fn leq(&self, c: &Setting<'_>, other: &Self) -> bool {
        pairs::leq(c, &self.state, &other.state)
    }

    fn reshared(self, c: &Setting<'_>) -> Result<Self, Memory> {
        let state = pairs::reshared(c, self.state)?;
        Ok(KnownCells { state })
    }

    fn empty(c: &Setting<'_>) -> Result<Self, Memory> {
        Ok(KnownCells {
            state: pairs::empty(c),
        })
    }

    fn ended(&self, c: &Setting<'_>, f: &Function, alarms: &mut Alarms) -> Result<(), Memory> {
        statements::ended(c, f, &self.state, alarms)
    }

    fn is_same(&self, other: &Self) -> bool {
        self.state.is_same(&other.state)
    }
}

impl<N: Num> LawfulStates for KnownCells<N> {
    ghost use Rattle.ep_transfers.specs.Laws.{StandsFor};
    ghost use Rattle.ep_cell_states.proofs.Lawful.{cells_lawful};

    ghost In = { StandsFor N.ops };

    ghost laws = { cells_lawful N.ops N.laws };
}
