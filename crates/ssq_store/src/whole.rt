//! The snapshot of a version, from the files that make its state.

ghost use Rattle.std.specs.Prelude.{◌≡◌, ◌++◌, ◌+◌, IfOk, OnOk, IfErr};
ghost use Rattle.ssq_version.specs.State.{State as Kept};
ghost use Rattle.ssq_version.specs.Text.{snapshot_text};
ghost use Rattle.ssq_store.specs.Fault.{SnapshotRises, IsApart};
ghost use Rattle.ssq_store.specs.Loaded.{files_in, Makes, SnapshotFails};

use crate::fault::SnapshotFault;
use crate::listed::made_by;
use ssq_field::Bytes;
use ssq_outside::{Name, Stage};
use ssq_version::write_given;
use std::alloc::Global;

/// Writes the state that the files make at a version of a partition as its snapshot, and seals it. The files are the newest snapshot not
/// above the version and the deltas after that; others may stand among them. Where it is not sealed the file aside comes back: it is to be
/// discarded after a fault. It is damaged where one of the files is missing or malformed: the first such file is told.
pub fn snapshot<S: Stage>(
    alloc: Global,
    partition: u32,
    version: u32,
    files: &[(Name, Bytes)],
    stage: S,
) -> Result<S::Sealed, (S, SnapshotFault)>
    ensures made { OnOk result ((state : Kept) × Makes (files_in files.now) partition (version + 1) state) }
    ensures sealed { S.tells → IfOk result (λ file. (state : Kept) × Makes (files_in files.now) partition (version + 1) state
        × (S.sealed file ≡ S.written stage ++ snapshot_text partition version state)) }
    ensures damaged { IfErr result (λ failed. SnapshotFails (files_in files.now) partition (version + 1) failed.1) }
    ensures cause { IfErr result (λ failed. SnapshotRises failed.1 (S.faults stage) (S.faults failed.0)) }
    ensures unfailed { IfErr result (λ failed. IsApart failed.1 (S.faults stage) (S.faults failed.0)) }
{
    let mut stage = stage;
    match write_state(alloc, partition, version, files, &mut stage) {
        Ok(()) => match stage.sync() {
            Ok(file) => Ok(file),
            Err(stage) => Err((stage, SnapshotFault::DiskFault)),
        },
        Err(fault) => Err((stage, fault)),
    }
}

/// Writes the state that the files make as a snapshot.
fn write_state<S: Stage>(
    alloc: Global,
    partition: u32,
    version: u32,
    files: &[(Name, Bytes)],
    stage: &mut S,
) -> Result<(), SnapshotFault>
    ensures made { OnOk result ((state : Kept) × Makes (files_in files.now) partition (version + 1) state) }
    ensures written { S.tells → OnOk result ((state : Kept) × Makes (files_in files.now) partition (version + 1) state
        × (S.written stage.new ≡ S.written stage.old ++ snapshot_text partition version state)) }
    ensures damaged { IfErr result (SnapshotFails (files_in files.now) partition (version + 1)) }
    ensures done { OnOk result (S.faults stage.new ≡ S.faults stage.old) }
    ensures cause { IfErr result (λ fault. SnapshotRises fault (S.faults stage.old) (S.faults stage.new)) }
    ensures unfailed { IfErr result (λ fault. IsApart fault (S.faults stage.old) (S.faults stage.new)) }
{
    let entries = made_by(alloc, files, partition, version as u64 + 1)?;
    let text = write_given(alloc, partition, version, entries.as_slice())?;
    stage.write(text.as_slice())?;
    Ok(())
}
