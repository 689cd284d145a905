//! The store of one partition.

ghost use Rattle.std.specs.Prelude.{◌≡◌, ◌≤◌, ◌<◌, ◌++◌, ◌^◌, ⊤, Some, IfOk, OnOk, IfErr, OnErr};
ghost use Rattle.ssq_outside.specs.History.{files_now};
ghost use Rattle.ssq_version.specs.State.{news, IsAfter};
ghost use Rattle.ssq_version.specs.Text.{delta_text};
ghost use Rattle.ssq_store.specs.Fault.{DiskRises, StageRises};
ghost use Rattle.ssq_store.specs.Loaded.{count_to, Makes, Refuses};

use crate::fault::{SealFault, StoreFault};
use crate::load::{follow_all, newest_snapshot};
use ssq_outside::{Disk, Stage, StageError};
use ssq_version::{Change, StateMap, apply_owned, write_news};
use std::alloc::{AllocError, Global};

/// The state of a partition at a version.
#[derive(Drop)]
pub struct Store {
    pub partition: u32,
    /// The last version that it holds, which is the number of the epoch that wrote it: none before the first.
    pub version: Option<u32>,
    pub state: StateMap,
    alloc: Global,
}

/// How many versions there are up to this one.
fn versions_to(version: Option<u32>) -> u64
    ensures count { result ≡ count_to version }
    ensures few { result ≤ 2 ^ 32 }
{
    match version {
        None => 0,
        Some(version) => version as u64 + 1,
    }
}

/// The version after this one, which is not the last that there can be.
fn version_after(version: Option<u32>) -> u32
    requires { count_to version < 2 ^ 32 }
    ensures { result ≡ count_to version }
{
    match version {
        None => 0,
        Some(version) => version + 1,
    }
}

impl Store {
    /// Loads the state of a partition at a version (none: before the first) from the newest snapshot not above it and the deltas after
    /// that. It is damaged where one of these files is missing or malformed: the first such file is told.
    pub fn load<D: Disk>(
        alloc: Global,
        disk: &mut D,
        partition: u32,
        version: Option<u32>,
    ) -> Result<Store, StoreFault>
        ensures made { D.tells → IfOk result (λ store. Makes (files_now (D.history disk.old)) partition (count_to version) store.state) }
        ensures told { IfOk result (λ store. (store.partition ≡ partition) × (store.version ≡ version)) }
        ensures damaged { D.tells → IfErr result (Refuses (files_now (D.history disk.old)) partition (count_to version)) }
        ensures same { D.tells → D.history disk.new ≡ D.history disk.old }
        ensures clock { (D.history disk.old).moment ≤ (D.history disk.new).moment }
        ensures counted { D.faults disk.old ≤ D.faults disk.new }
        ensures cause { IfErr result (λ fault. DiskRises fault (D.faults disk.old) (D.faults disk.new)) }
    {
        let versions = versions_to(version);
        let standing = newest_snapshot(alloc, disk, partition, versions)?;
        let state = follow_all(alloc, disk, partition, standing, versions)?;
        Ok(Store {
            partition,
            version,
            state,
            alloc,
        })
    }

    /// The same store, whose keys are found by their hashes from now on, as `StateMap::hashed` says.
    pub fn hashed(self) -> Result<Store, AllocError>
        ensures { IfOk result (λ store. store ≡ self) }
    {
        let Store {
            partition,
            version,
            state,
            alloc,
        } = self;
        let state = state.hashed(alloc)?;
        Ok(Store {
            partition,
            version,
            state,
            alloc,
        })
    }

    /// Writes what the change says that is new to the state, as the delta of the version after the store's, and seals it. Where it is not
    /// sealed the file aside comes back: it is to be discarded after a fault. The store's version is not the last that there can be.
    pub fn seal<S: Stage>(&self, change: &Change, stage: S) -> Result<S::Sealed, (S, SealFault)>
        requires { count_to self.now.version < 2 ^ 32 }
        ensures sealed { S.tells → IfOk result (λ file. S.sealed file
            ≡ S.written stage ++ delta_text self.now.partition (count_to self.now.version) (news self.now.state change.now)) }
        ensures unfailed { IfErr result (λ failed. failed.1 ≡ SealFault.NoMemory → S.faults failed.0 ≡ S.faults stage) }
        ensures cause { IfErr result (λ failed. StageRises failed.1 (S.faults stage) (S.faults failed.0)) }
    {
        let mut stage = stage;
        match self.write_next(change, &mut stage) {
            Ok(()) => match stage.sync() {
                Ok(file) => Ok(file),
                Err(stage) => Err((stage, SealFault::DiskFault)),
            },
            Err(fault) => Err((stage, fault)),
        }
    }

    /// Writes the delta of the version after the store's.
    fn write_next<S: Stage>(&self, change: &Change, stage: &mut S) -> Result<(), SealFault>
        requires { count_to self.now.version < 2 ^ 32 }
        ensures written { S.tells → OnOk result (S.written stage.new
            ≡ S.written stage.old ++ delta_text self.now.partition (count_to self.now.version) (news self.now.state change.now)) }
        ensures done { OnOk result (S.faults stage.new ≡ S.faults stage.old) }
        ensures unfailed { IfErr result (λ fault. fault ≡ SealFault.NoMemory → S.faults stage.new ≡ S.faults stage.old) }
        ensures cause { IfErr result (λ fault. StageRises fault (S.faults stage.old) (S.faults stage.new)) }
    {
        let version = version_after(self.version);
        let (head, entries) = write_news(self.alloc, self.partition, version, &self.state, change)?;
        stage.write(head.as_slice())?;
        stage.write(entries.as_slice())?;
        Ok(())
    }

    /// Changes the state, which is then that of the version after the store's. After an `Err` the store is as before. The store's version
    /// is not the last that there can be.
    pub fn advance(&mut self, change: Change) -> Result<(), AllocError>
        requires { count_to self.old.version < 2 ^ 32 }
        ensures state { OnOk result (IsAfter change self.old.state self.new.state) }
        ensures version { OnOk result (self.new.version ≡ Some (count_to self.old.version)) }
        ensures partition { self.new.partition ≡ self.old.partition }
        ensures err { OnErr result ((self.new.state ≡ self.old.state) × (self.new.version ≡ self.old.version)) }
    {
        apply_owned(self.alloc, &mut self.state, change)?;
        self.version = Some(version_after(self.version));
        Ok(())
    }
}
