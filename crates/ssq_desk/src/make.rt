//! All that the tasks of the next epoch need, put in place before its plan is published.

ghost use Rattle.std.specs.Prelude.{◌≡◌, ◌≤◌, ◌<◌, [], length, vec_capacity, IfOk, IfErr, OnOk, OnErr, None, Some};
ghost use Rattle.ssq_ledger.specs.Shown.{IsUnplanned, did};
ghost use Rattle.ssq_desk.specs.Room.{AreBegun, HasRoom};
ghost use Rattle.ssq_desk.specs.Making.{IsUnmade, IsSameLoad, IsMadeFor};

use crate::desk::{Load, OutWork, Share};
use crate::room::{Room, begin_at, begin_files, discard_deltas, discard_stages, make_room};
use ssq_board::Cause;
use ssq_ledger::{Ledger, Opening};
use ssq_outside::{Disk, Log, Stage};
use ssq_plans::{PartEnd, next_epoch};
use std::alloc::{AllocError, Global};
use std::mem;

/// Makes room for one plan more, to tell of its epoch, and for its tasks.
fn room_for<'a, L: Log, S: Stage>(
    alloc: Global,
    load: &mut Load<'a, L, S>,
) -> Result<Room<S>, AllocError>
    ensures same { IsSameLoad load.old load.new }
    ensures plan { OnOk result (length load.new.plans.items < vec_capacity load.new.plans) }
    ensures told { OnOk result (length load.new.told.items < vec_capacity load.new.told) }
    ensures room { IfOk result (λ room. HasRoom load.old.view.partitions (length load.old.part_logs.items) load.old.seen room) }
{
    load.plans.reserve(1)?;
    load.told.reserve(1)?;
    make_room(
        alloc,
        load.view.partitions,
        load.part_logs.as_slice().len(),
        &load.seen,
    )
}

/// Puts it in place.
fn put<'a, D: Disk, L: Log>(
    load: &mut Load<'a, L, D::Stage>,
    ends: &[PartEnd],
    shares: Vec<Share<D::Stage>>,
    work: OutWork<D::Stage>,
)
    requires each { length load.old.part_logs.items ≡ length ends.now }
    ensures begun { AreBegun ends.now load.old.part_logs.items load.new.part_logs.items }
    ensures rest { load.new ≡ record { view = load.old.view; plans = load.old.plans; part_logs = load.new.part_logs; shares = shares; held = load.old.held; out = Some work; seen = load.old.seen; pending = load.old.pending; told = load.old.told; kept = load.old.kept } }
{
    begin_at(&mut load.part_logs, ends);
    load.shares = shares;
    load.out = Some(work);
}

/// Makes all that the tasks of the next epoch need, and puts it in place. Answers the room for the ends of its parts.
///
/// No name is changed. Where it fails, nothing is put in place: for `Full` nothing is tried, and begun files are discarded.
pub(crate) fn make<'a, D: Disk, O: Opening, L: Log>(
    alloc: Global,
    ledger: &mut Ledger<D, O>,
    load: &mut Load<'a, L, D::Stage>,
) -> Result<Vec<PartEnd>, Cause>
    requires each { length load.old.part_logs.items ≡ length ledger.old.core.ends }
    ensures did { ledger.new ≡ did ledger.old ledger.new.disk [] }
    ensures same { D.tells → D.history ledger.new.disk ≡ D.history ledger.old.disk }
    ensures counted { D.faults ledger.old.disk ≤ D.faults ledger.new.disk }
    ensures made { IfOk result (λ here. IsMadeFor D.tells D.Stage.written ledger.old.core.ends load.old load.new here) }
    ensures fits { IfOk result (λ here. ledger.old.core.front.planned ≡ 4294967295 → ⊥) }
    ensures unmade { IfErr result (λ f. IsUnmade ledger.old.core.front.planned f × IsUnplanned ledger.old.core.front.planned (D.faults ledger.old.disk) (D.faults ledger.new.disk) f) }
    ensures kept { OnErr result (IsSameLoad load.old load.new) }
{
    if next_epoch(ledger.front().planned).is_none() {
        return Err(Cause::Full);
    }
    let room = room_for(alloc, load)?;
    let Room {
        ends,
        mut shares,
        rows,
        seen,
    } = room;
    let stages = begin_files(alloc, ledger, &mut shares, load.held.as_slice())?;
    put::<D, L>(load, ledger.ends(), shares, OutWork { rows, seen, stages });
    Ok(ends)
}

/// Takes the files of an epoch's tasks away that are not to come.
pub(crate) fn drop_files<'a, D: Disk, O: Opening, L: Log>(
    ledger: &mut Ledger<D, O>,
    load: &mut Load<'a, L, D::Stage>,
)
    ensures did { ledger.new ≡ did ledger.old ledger.new.disk [] }
    ensures same { D.tells → D.history ledger.new.disk ≡ D.history ledger.old.disk }
    ensures counted { D.faults ledger.old.disk ≤ D.faults ledger.new.disk }
    ensures count { length load.new.shares.items ≡ length load.old.shares.items }
    ensures kept { load.new ≡ record { view = load.old.view; plans = load.old.plans; part_logs = load.old.part_logs; shares = load.new.shares; held = load.old.held; out = None; seen = load.old.seen; pending = load.old.pending; told = load.old.told; kept = load.old.kept } }
{
    if let Some(work) = mem::replace(&mut load.out, None) {
        let OutWork { stages, .. } = work;
        discard_stages(ledger, stages);
    }
    discard_deltas(ledger, &mut load.shares);
}
