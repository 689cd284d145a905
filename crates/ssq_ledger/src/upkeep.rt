//! The upkeep of the state's files: snapshots that are handed out and come back, and files that are removed.

ghost use Rattle.std.specs.Prelude.{◌≡◌, ◌<◌, ◌≤◌, ◌+◌, ◌-◌, ◌*◌, ◌^◌, ◌++◌, ◌||◌, nat_lt, ℕ, true, false, None, [], ◌∷◌, length, MatchOption, IfSome, vec_capacity, if◌then◌else◌};
ghost use Rattle.ssq_outside.specs.Faults.{Rises};
ghost use Rattle.ssq_outside.specs.declared.name.Name.TheVariants as name;
ghost use Rattle.ssq_core.specs.Course.{truth};
ghost use Rattle.ssq_outside.specs.declared.name.Name.{Name as NameOf};
ghost use Rattle.ssq_upkeep.specs.Upkeep.{IsDue, IsNext, Goes, IsLeast, is_among};
ghost use Rattle.ssq_board.specs.declared.front.Entry.TheVariants as entry;
ghost use Rattle.ssq_board.specs.Core.{is_of_epoch};
ghost use Rattle.ssq_board.specs.Shelf.{last_before};
ghost use Rattle.ssq_ledger.specs.Shown.{did, cuts_of, shelf_of};
ghost use Rattle.ssq_ledger.specs.Names.{MakesRoom};
ghost use Rattle.ssq_ledger.specs.Upkept.{IsClaimed, IsTaken, IsDropped};

use crate::calls::{halt, make_room, room_of, with_claimed};
use crate::ledger::{Ledger, Opening};
use crate::names::{Names, add, leave_out, make_claimed, make_room as make_names_room};
use crate::scope::Scope;
use ssq_board::{Cause, Entry, Front};
use ssq_outside::{Disk, Name, Stage};
use ssq_upkeep::{due, may_go};

impl<D: Disk, O: Opening> Ledger<D, O> {
    /// Hands out the snapshot that is due next, to be made: of the first of so many partitions that has one, its first, which is no other that
    /// is being made. `None` comes exactly where none of them has one.
    pub fn claim_upkeep(&mut self, keeping: u32) -> Result<Option<(u32, u32)>, Cause>
        requires running { self.old.core.front.stop ≡ None }
        requires keeping { (D.tells × O.tells self.old.opening self.old.scope (D.history self.old.opened)) → keeping ≤ ((O.opening self.old.opening).job.course (cuts_of O.opening self.old)).keeping }
        ensures { IsClaimed O.opening keeping self.old self.new result }
    {
        let last = last_of(self.board.front());
        let Some((partition, version)) = due_in(&self.names, keeping, last) else {
            return Ok(None);
        };
        let Some(()) = make_upkeep_room(&mut self.entries, &mut self.names, self.board.count())
        else {
            halt(&mut self.board, &mut self.entries, Cause::NoMemory);
            return Err(Cause::NoMemory);
        };
        self.names
            .claimed
            .push_reserved(Name::Snapshot(partition, version));
        self.entries
            .push_reserved(Entry::Upkeep(partition, version));
        Ok(Some((partition, version)))
    }

    /// Takes a snapshot back, sealed, and publishes it. After a Stop the file is dropped, and the disk is left alone. Where the publishing fails the
    /// ledger stops by that. It takes no memory.
    pub fn report_snapshot(
        &mut self,
        partition: u32,
        version: u32,
        file: <D::Stage as Stage>::Sealed,
    ) -> Result<(), Cause>
        requires claimed { is_among (shelf_of O.opening self.old).claimed (name.Snapshot partition version) ≡ true }
        requires right { (D.tells × O.tells self.old.opening self.old.scope (D.history self.old.opened)) → D.Stage.sealed file ≡ truth ((O.opening self.old.opening).job.course (cuts_of O.opening self.old)) (name.Snapshot partition version) }
        ensures did { IsTaken self.old self.new partition version result (Rises (D.faults self.old.disk) (D.faults self.new.disk)) }
        ensures counted { D.faults self.old.disk ≤ D.faults self.new.disk }
    {
        let name = Name::Snapshot(partition, version);
        leave_out(&mut self.names.claimed, name);
        if self.board.front().stop.is_some() {
            self.entries
                .push_reserved(Entry::Snapshot(partition, version));
            return Ok(());
        }
        match self.disk.publish(file, name) {
            Ok(()) => {
                add(self.names.settled.as_slice(), &mut self.names.news, name);
                self.names.tidy = false;
                self.entries
                    .push_reserved(Entry::Snapshot(partition, version));
                Ok(())
            }
            Err(_) => {
                self.board.stop(Cause::DiskFault);
                self.entries
                    .push_reserved(Entry::Untaken(partition, version));
                Err(Cause::DiskFault)
            }
        }
    }

    /// Takes back what came in place of a snapshot, by which the ledger stops. It takes no memory.
    pub fn report_unmade(&mut self, partition: u32, version: u32, cause: Cause)
        requires claimed { is_among (shelf_of O.opening self.old).claimed (name.Snapshot partition version) ≡ true }
        requires outside { is_of_epoch cause ≡ false }
        ensures { self.new ≡ did self.old self.old.disk (entry.Unmade partition version cause ∷ []) }
    {
        leave_out(&mut self.names.claimed, Name::Snapshot(partition, version));
        self.board.stop_by(Some(cause));
        self.entries
            .push_reserved(Entry::Unmade(partition, version, cause));
    }

    /// Removes the first file that may go. `false` comes exactly where none may.
    pub fn drop_old(&mut self) -> Result<bool, Cause>
        requires { self.old.core.front.stop ≡ None }
        ensures did { IsDropped O.opening self.old self.new result (Rises (D.faults self.old.disk) (D.faults self.new.disk)) }
        ensures counted { D.faults self.old.disk ≤ D.faults self.new.disk }
    {
        let last = last_of(self.board.front());
        let Some(name) = old_in(&self.names, &self.scope, last) else {
            return Ok(false);
        };
        let Some(()) = make_drop_room(&mut self.entries, &self.names, self.board.count()) else {
            halt(&mut self.board, &mut self.entries, Cause::NoMemory);
            return Err(Cause::NoMemory);
        };
        match self.disk.remove(name) {
            Ok(()) => {
                leave_out(&mut self.names.settled, name);
                leave_out(&mut self.names.news, name);
                self.names.tidy = false;
                self.entries.push_reserved(Entry::Drop(name));
                Ok(true)
            }
            Err(_) => {
                self.board.stop(Cause::DiskFault);
                self.entries.push_reserved(Entry::Undropped(name));
                Err(Cause::DiskFault)
            }
        }
    }
}

/// The last epoch that is acknowledged.
fn last_of(front: Front) -> Option<u32>
    ensures { result ≡ last_before (if nat_lt front.committed front.planned || front.settled then front.committed else front.committed - 1) }
{
    let count = if front.committed < front.planned || front.settled {
        front.committed
    } else {
        front.committed.saturating_sub(1)
    };
    count.checked_sub(1)
}

/// The snapshot that is due next, of the first of so many partitions that has one.
fn due_in(names: &Names, keeping: u32, last: Option<u32>) -> Option<(u32, u32)>
    ensures { MatchOption result
        ((p v : ℕ) → p < keeping → IsDue (names.now.settled.items ++ names.now.news.items ++ names.now.claimed.items) names.now.settled.items p last v → ⊥)
        (λ at. (at.0 < keeping)
        × ((p v : ℕ) → p < at.0 → IsDue (names.now.settled.items ++ names.now.news.items ++ names.now.claimed.items) names.now.settled.items p last v → ⊥)
        × IsNext (names.now.settled.items ++ names.now.news.items ++ names.now.claimed.items) names.now.settled.items at.0 last at.1) }
{
    for partition in 0..keeping {
        if let Some(version) = due_of(names, partition, last) {
            return Some((partition, version));
        }
    }
    None
}

fn due_of(names: &Names, partition: u32, last: Option<u32>) -> Option<u32>
    ensures { MatchOption result
        ((v : ℕ) → IsDue (names.now.settled.items ++ names.now.news.items ++ names.now.claimed.items) names.now.settled.items partition last v → ⊥)
        (IsNext (names.now.settled.items ++ names.now.news.items ++ names.now.claimed.items) names.now.settled.items partition last) }
{
    due(
        names.settled.as_slice(),
        names.news.as_slice(),
        names.claimed.as_slice(),
        partition,
        last,
    )
}

/// The first file that may go.
fn old_in(names: &Names, scope: &Scope, last: Option<u32>) -> Option<Name>
    ensures { MatchOption result
        ((q : NameOf) → Goes (names.now.settled.items ++ names.now.news.items) names.now.settled.items scope.now.partitions last q → ⊥)
        (IsLeast (names.now.settled.items ++ names.now.news.items) names.now.settled.items scope.now.partitions last) }
{
    may_go(
        names.settled.as_slice(),
        names.news.as_slice(),
        scope.partitions,
        last,
    )
}

/// Makes room for a snapshot that is handed out, and for what comes back.
fn make_upkeep_room(entries: &mut Vec<Entry>, names: &mut Names, tasks: usize) -> Option<()>
    requires { tasks ≤ 2 ^ 40 }
    ensures items { entries.new.items ≡ entries.old.items }
    ensures kept { vec_capacity entries.old ≤ vec_capacity entries.new }
    ensures room { IfSome result (λ made. length entries.old.items + (2 * tasks + 6) + length names.old.claimed.items ≤ vec_capacity entries.new) }
    ensures names { MakesRoom (2 * tasks + 6) names.old names.new result }
    ensures claimed { IfSome result (λ made. length names.new.claimed.items < vec_capacity names.new.claimed) }
{
    let more = with_claimed(room_of(tasks) + 2, names)?;
    let made = make_names_room(names, room_of(tasks) + 2);
    make_room(entries, more)?;
    make_claimed(names)?;
    made
}

/// Makes room for an entry.
fn make_drop_room(entries: &mut Vec<Entry>, names: &Names, tasks: usize) -> Option<()>
    requires { tasks ≤ 2 ^ 40 }
    ensures items { entries.new.items ≡ entries.old.items }
    ensures kept { vec_capacity entries.old ≤ vec_capacity entries.new }
    ensures room { IfSome result (λ made. length entries.old.items + (2 * tasks + 4) + length names.now.claimed.items ≤ vec_capacity entries.new) }
{
    let more = with_claimed(room_of(tasks), names)?;
    make_room(entries, more)
}
