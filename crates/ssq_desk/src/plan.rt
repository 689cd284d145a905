//! How the next epoch is planned.

ghost use Rattle.std.specs.Prelude.{◌≡◌, ◌≤◌, ◌+◌, [], ◌∷◌, length, vec_capacity, IfErr, IfOk, OnOk, OnErr, IsErrOf};
ghost use Rattle.ssq_board.specs.declared.front.Entry.TheVariants as entry;
ghost use Rattle.ssq_board.specs.declared.front.Cause.TheVariants as cause;
ghost use Rattle.ssq_board.specs.declared.front.Ready.TheVariants as ready;
ghost use Rattle.ssq_board.specs.Core.{ready_of};
ghost use Rattle.ssq_ledger.specs.Shown.{Shown, IsUnplanned, did};

use crate::desk::Desk;
use crate::make::{drop_files, make};
use ssq_board::Cause;
use ssq_outside::{Disk, Log};
use ssq_plans::{PartEnd, Plan};
use ssq_value::Sequence;
use ssq_water::watermark;
use std::alloc::Global;

impl<'a, D: Disk, L: Log> Desk<'a, D, L> {
    /// Plans the next epoch: it has what was found and no plan covers, up to the cap of each part. Its tasks wait then.
    ///
    /// All memory that the epoch takes up to its last report is taken first, and so are its files aside; where that fails, no name was
    /// changed, and the desk is stopped. `Full` comes only where as many epochs are planned as there may be.
    pub fn plan(&mut self, alloc: Global) -> Result<(), Cause>
        requires { ready_of self.old.scope self.old.core ≡ ready.Plan }
        ensures done { OnOk result (self.new ≡ did self.old self.new.disk (entry.Plan self.old.core.front.planned ∷ [])) }
        ensures stopped { IfErr result (λ f. (self.new ≡ did self.old self.new.disk (entry.Stop f ∷ [])) × IsUnplanned self.old.core.front.planned (D.faults self.old.disk) (D.faults self.new.disk) f) }
        ensures full { self.old.core.front.planned ≡ 4294967295 → IsErrOf result cause.Full }
        ensures not_full { IsErrOf result cause.Full → self.old.core.front.planned ≡ 4294967295 }
        ensures counted { D.faults self.old.disk ≤ D.faults self.new.disk }
    {
        self.ledger.is_legal();
        self.ledger.is_in_order();
        let ends = match make(alloc, &mut self.ledger, &mut self.load) {
            Ok(ends) => ends,
            Err(cause) => {
                self.ledger.stop(cause);
                return Err(cause);
            }
        };
        let epoch = self.ledger.front().planned;
        let watermark = watermark(&self.load.seen, self.load.view.bound);
        match self.ledger.plan(alloc, watermark) {
            Ok(()) => {
                let ends = copied(ends, self.ledger.ends());
                self.load.plans.push_reserved(Plan {
                    epoch,
                    watermark,
                    ends: Sequence::from_vec(ends),
                });
                Ok(())
            }
            Err(cause) => {
                self.ledger.is_legal();
                drop_files(&mut self.ledger, &mut self.load);
                Err(cause)
            }
        }
    }
}

/// The ends, in the room that was made for them.
fn copied(room: Vec<PartEnd>, ends: &[PartEnd]) -> Vec<PartEnd>
    requires none { room.items ≡ [] }
    requires fits { length ends.now ≤ vec_capacity room }
    ensures { result.items ≡ ends.now }
{
    let mut copied = room;
    for end in ends {
        copied.push_reserved(*end);
    }
    copied
}
