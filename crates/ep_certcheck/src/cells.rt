//! What is known of the cells of two memories, as a state that a checker compares with heads.

ghost use Rattle.std.specs.Prelude.{◌≡◌};

use crate::outside;
use ep_alarms::Alarms;
use ep_cell_walks::KnownCells;
use ep_certcheck_walk::states::CheckedStates;
use ep_core::program::Function;
use ep_core::tree::{Dest, Expr, Stmt};
use ep_domain::Num;
use ep_flows::setting::{Machine, Running, Setting, Truths};
use ep_flows::states::AbstractStates;
use ep_int::{Memory, Scalar};
use std::marker::Model;

/// What is known of the cells of two memories, as a state on a walk of the checker.
#[derive(Drop)]
pub(crate) struct CheckedCells<N> {
    pub known: KnownCells<N>,
}

impl<N> Model for CheckedCells<N> {
    ghost use Rattle.ep_cells.specs.States.{Known};

    ghost Value = { Known N };

    ghost view = { λ s. s.known };
}

fn checked<N: Num>(known: Option<KnownCells<N>>) -> Option<CheckedCells<N>>
    ensures { result ≡ known }
{
    match known {
        None => None,
        Some(known) => Some(CheckedCells { known }),
    }
}

impl<N: Num> AbstractStates for CheckedCells<N> {
    ghost use Rattle.ep_transfers.specs.Cells.{cell_ops};

    ghost ops = { cell_ops N.ops };

    fn entry(c: &Setting<'_>) -> Result<Self, Memory> {
        let known = KnownCells::entry(c)?;
        Ok(CheckedCells { known })
    }

    fn copied(&self) -> Result<Self, Memory> {
        let known = self.known.copied()?;
        Ok(CheckedCells { known })
    }

    fn simple(
        self,
        c: &Setting<'_>,
        mode: Running,
        returns: Option<(u32, Scalar)>,
        s: &Stmt,
        alarms: &mut Alarms,
    ) -> Result<Option<Self>, Memory> {
        let known = self.known.simple(c, mode, returns, s, alarms)?;
        Ok(checked(known))
    }

    fn test(
        &self,
        c: &Setting<'_>,
        mode: Running,
        e: &Expr,
        line: u32,
        alarms: &mut Alarms,
    ) -> Result<Truths, Memory> {
        let truths = self.known.test(c, mode, e, line, alarms)?;
        Ok(truths)
    }

    fn assume(
        &self,
        c: &Setting<'_>,
        e: &Expr,
        on_left: bool,
        on_right: bool,
    ) -> Result<Option<Self>, Memory> {
        let known = self.known.assume(c, e, on_left, on_right)?;
        Ok(checked(known))
    }

    fn assume_one(
        &self,
        c: &Setting<'_>,
        machine: Machine,
        e: &Expr,
        truth: bool,
    ) -> Result<Option<Self>, Memory> {
        let known = self.known.assume_one(c, machine, e, truth)?;
        Ok(checked(known))
    }

    fn arguments(
        self,
        c: &Setting<'_>,
        mode: Running,
        f: &Function,
        es: &[Expr],
        line: u32,
        alarms: &mut Alarms,
    ) -> Result<Option<Self>, Memory> {
        let known = self.known.arguments(c, mode, f, es, line, alarms)?;
        Ok(checked(known))
    }

    fn result(
        self,
        c: &Setting<'_>,
        mode: Running,
        f: &Function,
        d: &Option<Dest>,
        line: u32,
        alarms: &mut Alarms,
    ) -> Result<Option<Self>, Memory> {
        let known = self.known.result(c, mode, f, d, line, alarms)?;
        Ok(checked(known))
    }

    fn enter(self, c: &Setting<'_>, mode: Running, blocks: &[u32]) -> Result<Self, Memory> {
        let known = self.known.enter(c, mode, blocks)?;
        Ok(CheckedCells { known })
    }

    fn leave(self, c: &Setting<'_>, mode: Running, blocks: &[u32]) -> Result<Self, Memory> {
        let known = self.known.leave(c, mode, blocks)?;
        Ok(CheckedCells { known })
    }

    fn unified(self, c: &Setting<'_>, other: Self) -> Result<(Self, Self), Memory> {
        let (left, right) = self.known.unified(c, other.known)?;
        Ok((CheckedCells { known: left }, CheckedCells { known: right }))
    }

    fn joined(self, c: &Setting<'_>, other: Self) -> Result<Self, Memory> {
        let known = self.known.joined(c, other.known)?;
        Ok(CheckedCells { known })
    }

    fn widened(self, c: &Setting<'_>, other: Self) -> Result<Self, Memory> {
        let known = self.known.widened(c, other.known)?;
        Ok(CheckedCells { known })
    }

    fn leq(&self, c: &Setting<'_>, other: &Self) -> bool {
        self.known.leq(c, &other.known)
    }

    fn reshared(self, c: &Setting<'_>) -> Result<Self, Memory> {
        let known = self.known.reshared(c)?;
        Ok(CheckedCells { known })
    }

    fn empty(c: &Setting<'_>) -> Result<Self, Memory> {
        let known = KnownCells::empty(c)?;
        Ok(CheckedCells { known })
    }

    fn ended(&self, c: &Setting<'_>, f: &Function, alarms: &mut Alarms) -> Result<(), Memory> {
        self.known.ended(c, f, alarms)
    }

    fn is_same(&self, other: &Self) -> bool {
        self.known.is_same(&other.known)
    }
}

impl<N: Num> CheckedStates for CheckedCells<N> {
    ghost use Rattle.ep_certcheck.specs.Verdict.{first_failed};

    ghost first_outside = { first_failed N.ops };

    fn first_outside(&self, _c: &Setting<'_>, other: &Self) -> Result<u64, Memory> {
        let n = outside::first_outside(&self.known.state, &other.known.state)?;
        Ok(n)
    }
}
