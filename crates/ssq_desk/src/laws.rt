//! What is so of every desk: methods that do nothing, and say it.

ghost use Rattle.std.specs.Prelude.{◌≤◌, ◌^◌, length};
ghost use Rattle.ssq_ledger.specs.Shown.{IsInOrder, IsLegal};
ghost use Rattle.ssq_desk.specs.Round.{Owns};
ghost use Rattle.ssq_desk.specs.Whole.{opening_in};

use crate::desk::Desk;
use ssq_outside::{Disk, Log};

impl<'a, D: Disk, L: Log> Desk<'a, D, L> {
    /// The law of its history: it is legal from what was opened, and leads to what the desk is.
    pub fn is_legal(&self)
        ensures { IsLegal (Owns D.tells L.tells D.history L.lines self.now) D.history (opening_in L.lines) self.now }
    {
        self.ledger.is_legal();
    }

    /// The law of its tasks: what is so of each desk, by its history.
    pub fn is_in_order(&self)
        ensures { IsInOrder self.now.scope self.now.core }
    {
        self.ledger.is_in_order();
    }

    /// The law of its numbers: there is a partition, and epochs and streams are numbered in 32 bits.
    pub fn is_numbered(&self)
        ensures epochs { self.now.core.front.planned ≤ 4294967295 }
        ensures partitions { 1 ≤ self.now.opening.view.partitions }
        ensures streams { length self.now.opening.view.bound.now.streams ≤ 2 ^ 32 }
    {
        let _front = self.ledger.front();
    }
}
