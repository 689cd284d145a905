//! The plan that is to be published next, made whole before a name is changed.

ghost use Rattle.std.specs.Prelude.{◌≡◌, ◌<◌, IfOk, IfErr, IsErrOf};
ghost use Rattle.std.specs.Option.{ForSome};
ghost use Rattle.ssq_time.specs.Time.{IsStampTime};
ghost use Rattle.ssq_plans.specs.Records.{plan_text};
ghost use Rattle.ssq_board.specs.declared.front.Cause.TheVariants as cause;
ghost use Rattle.ssq_board.specs.declared.front.Entry.TheVariants as entry;
ghost use Rattle.ssq_board.specs.Core.{after, next_ends};
ghost use Rattle.ssq_ledger.specs.Shown.{IsNoPlan};

use crate::board::Board;
use crate::scope::Scope;
use ssq_board::Cause;
use ssq_field::Bytes;
use ssq_plans::{Plan, next_epoch, write_plan};
use ssq_value::Sequence;
use std::alloc::{AllocError, Global};

/// A plan's text, and what a ledger knows once it is published.
#[derive(Drop)]
pub(crate) struct Next {
    pub(crate) board: Board,
    pub(crate) text: Bytes,
}

impl Board {
    /// The next plan: `Full` where no epoch more may be planned, else `NoMemory`.
    pub(crate) fn plan(
        &self,
        alloc: Global,
        scope: &Scope,
        watermark: Option<i64>,
    ) -> Result<Next, Cause>
        requires { ForSome watermark IsStampTime }
        ensures few { IfOk result (λ _. self.now.front.planned < 4294967295) }
        ensures board { IfOk result (λ next. next.board ≡ after scope.now self.now (entry.Plan self.now.front.planned)) }
        ensures text { IfOk result (λ next. next.text ≡ plan_text (record { epoch = self.now.front.planned; watermark = watermark; ends = next_ends scope.now.cap self.now.ends scope.now.available })) }
        ensures cause { IfErr result (IsNoPlan self.now.front.planned) }
        ensures full { self.now.front.planned ≡ 4294967295 → IsErrOf result cause.Full }
    {
        let Some(epoch) = next_epoch(self.front().planned) else {
            return Err(Cause::Full);
        };
        Ok(self.write_next(alloc, scope, epoch, watermark)?)
    }

    fn write_next(
        &self,
        alloc: Global,
        scope: &Scope,
        epoch: u32,
        watermark: Option<i64>,
    ) -> Result<Next, AllocError>
        requires printed { ForSome watermark IsStampTime }
        requires epoch { epoch ≡ self.now.front.planned }
        requires few { epoch < 4294967295 }
        ensures board { IfOk result (λ next. next.board ≡ after scope.now self.now (entry.Plan self.now.front.planned)) }
        ensures text { IfOk result (λ next. next.text ≡ plan_text (record { epoch = self.now.front.planned; watermark = watermark; ends = next_ends scope.now.cap self.now.ends scope.now.available })) }
    {
        let ends = self.next_ends(alloc, scope)?;
        let plan = Plan {
            epoch,
            watermark,
            ends: Sequence::from_vec(ends),
        };
        let text = write_plan(alloc, &plan)?;
        let Plan { ends, .. } = plan;
        let board = self.planned(alloc, scope, ends.into_vec())?;
        Ok(Next { board, text })
    }
}
