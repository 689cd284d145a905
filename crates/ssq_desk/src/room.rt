//! What the tasks of an epoch need, made before its plan is published.

ghost use Rattle.std.specs.Prelude.{◌≡◌, ◌≤◌, ◌+◌, [], length, vec_capacity, All, IfOk, IfErr, OnOk, OnErr, IsErrOf};
ghost use Rattle.ssq_outside.specs.Faults.{Rises};
ghost use Rattle.ssq_ledger.specs.Shown.{did};
ghost use Rattle.ssq_desk.specs.Room.{IsFresh, AreBegun, AreStaged, HasRoom};

use crate::desk::{PartLog, Share};
use ssq_ledger::{Ledger, Opening};
use ssq_meaning::FedRow;
use ssq_outside::{Disk, DiskError, Log, Stage};
use ssq_plans::PartEnd;
use ssq_task::{Held, Stages};
use ssq_value::Row;
use ssq_water::Seen;
use std::alloc::{AllocError, Global};
use std::mem;

/// Room for all that the tasks of an epoch take and bring.
#[derive(Drop)]
pub(crate) struct Room<S> {
    /// For the ends of the parts.
    pub(crate) ends: Vec<PartEnd>,
    pub(crate) shares: Vec<Share<S>>,
    /// For the rows of each partition.
    pub(crate) rows: Vec<Vec<Row>>,
    /// The greatest times over the epochs before.
    pub(crate) seen: Seen,
}

/// A partition with room for one bucket from each part.
fn fresh_share<S: Drop>(alloc: Global, parts: usize) -> Result<Share<S>, AllocError>
    ensures { IfOk result (λ share. IsFresh parts share) }
{
    let buckets: Vec<Vec<FedRow>> = Vec::with_capacity(alloc, parts)?;
    Ok(Share {
        buckets,
        stage: None,
        rows: Vec::new(alloc),
        key: None,
    })
}

fn fresh_shares<S: Drop>(
    alloc: Global,
    partitions: u32,
    parts: usize,
) -> Result<Vec<Share<S>>, AllocError>
    ensures count { IfOk result (λ shares. length shares.items ≡ partitions) }
    ensures fresh { IfOk result (λ shares. All (IsFresh parts) shares.items) }
{
    let mut shares = Vec::with_capacity(alloc, partitions as usize)?;
    for _ in 0..partitions {
        shares.push(fresh_share(alloc, parts)?)?;
    }
    Ok(shares)
}

/// Makes room for an epoch.
pub(crate) fn make_room<S: Drop>(
    alloc: Global,
    partitions: u32,
    parts: usize,
    seen: &Seen,
) -> Result<Room<S>, AllocError>
    ensures { IfOk result (λ room. HasRoom partitions parts seen.now room) }
{
    let ends = Vec::with_capacity(alloc, parts)?;
    let shares = fresh_shares(alloc, partitions, parts)?;
    let rows = Vec::with_capacity(alloc, partitions as usize)?;
    let seen = seen.clone()?;
    Ok(Room {
        ends,
        shares,
        rows,
        seen,
    })
}

/// Begins the two files that an out task writes.
fn stages<D: Disk, O: Opening>(
    alloc: Global,
    ledger: &mut Ledger<D, O>,
) -> Result<Stages<D::Stage>, DiskError>
    ensures did { ledger.new ≡ did ledger.old ledger.new.disk [] }
    ensures same { D.tells → D.history ledger.new.disk ≡ D.history ledger.old.disk }
    ensures empty { D.tells → IfOk result (λ stages. (D.Stage.written stages.rows ≡ []) × (D.Stage.written stages.commit ≡ [])) }
    ensures counted { D.faults ledger.old.disk ≤ D.faults ledger.new.disk }
    ensures cause { IsErrOf result DiskError.Fault → Rises (D.faults ledger.old.disk) (D.faults ledger.new.disk) }
{
    let rows = ledger.stage(alloc)?;
    match ledger.stage(alloc) {
        Ok(commit) => Ok(Stages { rows, commit }),
        Err(error) => {
            ledger.discard(rows);
            Err(error)
        }
    }
}

/// Begins a file for each partition that keeps state. Where one cannot be begun, those before it are discarded.
fn begin_deltas<D: Disk, O: Opening>(
    alloc: Global,
    ledger: &mut Ledger<D, O>,
    shares: &mut [Share<D::Stage>],
    held: &[Option<Held>],
) -> Result<(), DiskError>
    ensures did { ledger.new ≡ did ledger.old ledger.new.disk [] }
    ensures same { D.tells → D.history ledger.new.disk ≡ D.history ledger.old.disk }
    ensures staged { OnOk result (AreStaged D.tells D.Stage.written held.now shares.old shares.new) }
    ensures kept { OnErr result (shares.new ≡ shares.old) }
    ensures count { length shares.new ≡ length shares.old }
    ensures counted { D.faults ledger.old.disk ≤ D.faults ledger.new.disk }
    ensures cause { IsErrOf result DiskError.Fault → Rises (D.faults ledger.old.disk) (D.faults ledger.new.disk) }
{
    let Some((_, held)) = held.split_first() else {
        return Ok(());
    };
    let Some((share, shares)) = shares.split_first_mut() else {
        return Ok(());
    };
    let stage = ledger.stage(alloc)?;
    match begin_deltas(alloc, ledger, shares, held) {
        Ok(()) => {
            share.stage = Some(stage);
            Ok(())
        }
        Err(error) => {
            ledger.discard(stage);
            Err(error)
        }
    }
}

/// Begins all files of an epoch's tasks: the two of the out task, and one for each partition that keeps state.
pub(crate) fn begin_files<D: Disk, O: Opening>(
    alloc: Global,
    ledger: &mut Ledger<D, O>,
    shares: &mut [Share<D::Stage>],
    held: &[Option<Held>],
) -> Result<Stages<D::Stage>, DiskError>
    ensures did { ledger.new ≡ did ledger.old ledger.new.disk [] }
    ensures same { D.tells → D.history ledger.new.disk ≡ D.history ledger.old.disk }
    ensures empty { D.tells → IfOk result (λ stages. (D.Stage.written stages.rows ≡ []) × (D.Stage.written stages.commit ≡ [])) }
    ensures staged { OnOk result (AreStaged D.tells D.Stage.written held.now shares.old shares.new) }
    ensures kept { OnErr result (shares.new ≡ shares.old) }
    ensures count { length shares.new ≡ length shares.old }
    ensures counted { D.faults ledger.old.disk ≤ D.faults ledger.new.disk }
    ensures cause { IsErrOf result DiskError.Fault → Rises (D.faults ledger.old.disk) (D.faults ledger.new.disk) }
{
    let stages = stages(alloc, ledger)?;
    match begin_deltas(alloc, ledger, shares, held) {
        Ok(()) => Ok(stages),
        Err(error) => {
            discard_stages(ledger, stages);
            Err(error)
        }
    }
}

/// Takes the two files of an out task away.
pub(crate) fn discard_stages<D: Disk, O: Opening>(
    ledger: &mut Ledger<D, O>,
    stages: Stages<D::Stage>,
)
    ensures did { ledger.new ≡ did ledger.old ledger.new.disk [] }
    ensures same { D.tells → D.history ledger.new.disk ≡ D.history ledger.old.disk }
    ensures counted { D.faults ledger.old.disk ≤ D.faults ledger.new.disk }
{
    let Stages { rows, commit } = stages;
    ledger.discard(rows);
    ledger.discard(commit);
}

/// Takes the files of the partitions away.
pub(crate) fn discard_deltas<D: Disk, O: Opening>(
    ledger: &mut Ledger<D, O>,
    shares: &mut [Share<D::Stage>],
)
    ensures did { ledger.new ≡ did ledger.old ledger.new.disk [] }
    ensures same { D.tells → D.history ledger.new.disk ≡ D.history ledger.old.disk }
    ensures counted { D.faults ledger.old.disk ≤ D.faults ledger.new.disk }
    ensures count { length shares.new ≡ length shares.old }
{
    let Some((share, rest)) = shares.split_first_mut() else {
        return;
    };
    if let Some(stage) = mem::replace(&mut share.stage, None) {
        ledger.discard(stage);
    }
    discard_deltas(ledger, rest);
}

/// Each part begins at its end here, and nothing was brought of it yet.
pub(crate) fn begin_at<L: Log>(part_logs: &mut [PartLog<L>], ends: &[PartEnd])
    requires { length part_logs.old ≡ length ends.now }
    ensures { AreBegun ends.now part_logs.old part_logs.new }
{
    for (at, part_log) in part_logs.iter_mut().enumerate() {
        part_log.from = ends[at].end;
        part_log.fed = None;
    }
}
