//! A disk in memory.

ghost use Rattle.std.specs.Prelude.{◌≡◌, ◌+◌, ◌-◌, ◌^◌, ◌≤◌, ◌⊎◌, [], ◌∷◌, ⊤, None, length, min, slice_index, option_map, IfOk, OnOk, OnErr};
ghost use Rattle.ssq_outside.specs.Faults.{Rises};
ghost use Rattle.ssq_fakes.specs.Records.{events_of};
ghost use Rattle.ssq_fakes.specs.Plans.{on_stage};
ghost use Rattle.ssq_fakes.specs.Crashes.{EachImageIsPicked};

use crate::faults::Faults;
use crate::names::index_of;
use crate::plan::{DiskPlan, FailAt};
use crate::record::{Event, Record};
use ssq_outside::{Disk, DiskError, DiskFault, Name, Stage, StageError};
use std::alloc::{AllocError, Global};

/// Room for a file's publishing and its removal, and for the sync after each.
#[derive(Drop)]
struct Room {
    publish: Box<Record>,
    sync: Box<Record>,
    removal: Box<Record>,
    last_sync: Box<Record>,
}

impl Room {
    fn new(alloc: Global) -> Result<Self, AllocError> {
        Ok(Room {
            publish: Box::new(alloc, Record::Empty)?,
            sync: Box::new(alloc, Record::Empty)?,
            removal: Box::new(alloc, Record::Empty)?,
            last_sync: Box::new(alloc, Record::Empty)?,
        })
    }
}

/// A file that is written aside.
#[derive(Drop)]
pub struct MemStage {
    bytes: Vec<u8>,
    room: Room,
    faults: Faults<Vec<u64>>,
}

/// A file that is whole. It brings the room that publishing it takes, whichever disk it is published on.
#[derive(Drop)]
pub struct MemFile {
    bytes: Vec<u8>,
    room: Room,
}

impl Stage for MemStage {
    ghost use Rattle.std.specs.Prelude.{◌≡◌, ◌↔◌, ◌≤◌, ◌++◌, [], true, ⊤, IsErr, OnOk, IfOk, IfErr, OnErr, IsErrOf};
    ghost use Rattle.ssq_outside.specs.Faults.{Rises, StaysSure};
    ghost use Rattle.ssq_fakes.specs.Plans.{is_named, call_after};
    ghost use Rattle.ssq_fakes.specs.Disks.{stage_plan, stage_calls};

    type Sealed = MemFile;

    ghost tells = { ⊤ };

    ghost written = { λ stage. stage.bytes.items };

    ghost sealed = { λ file. file.bytes.items };

    ghost faults = { λ stage. stage.faults.count };

    ghost sure = { λ stage. stage.faults.plan.items ≡ [] };

    fn write(&mut self, bytes: &[u8]) -> Result<(), StageError>
        ensures planned { is_named (stage_plan self.old) (stage_calls self.old) ≡ true ↔ IsErrOf result StageError.Fault }
        ensures next { (stage_plan self.new ≡ stage_plan self.old) × (stage_calls self.new ≡ call_after (stage_calls self.old)) }
        ensures ok { OnOk result (self.new.bytes.items ≡ self.old.bytes.items ++ bytes.now) }
        ensures err { OnErr result (self.new.bytes.items ≡ self.old.bytes.items) }
        ensures counted { self.old.faults.count ≤ self.new.faults.count }
        ensures unfailed { OnOk result (self.new.faults.count ≡ self.old.faults.count) }
        ensures unfailed_memory { IsErrOf result StageError.NoMemory → self.new.faults.count ≡ self.old.faults.count }
        ensures cause { IsErrOf result StageError.Fault → Rises self.old.faults.count self.new.faults.count }
        ensures never { stage_plan self.old ≡ [] → StaysSure 0 self.old.faults.count self.new.faults.count (stage_plan self.new ≡ []) }
    {
        if self.faults.fails() {
            return Err(StageError::Fault);
        }
        match self.bytes.extend_from_slice(bytes) {
            Ok(()) => Ok(()),
            Err(_) => Err(StageError::NoMemory),
        }
    }

    fn sync(mut self) -> Result<MemFile, MemStage>
        ensures planned { is_named (stage_plan self) (stage_calls self) ≡ true ↔ IsErr result }
        ensures next { IfErr result (λ stage. (stage_plan stage ≡ stage_plan self) × (stage_calls stage ≡ call_after (stage_calls self))) }
        ensures ok { IfOk result (λ file. file.bytes.items ≡ self.bytes.items) }
        ensures err { IfErr result (λ stage. stage.bytes.items ≡ self.bytes.items) }
        ensures cause { IfErr result (λ stage. Rises self.faults.count stage.faults.count) }
        ensures never { stage_plan self ≡ [] → OnOk result ⊤ × OnErr result ⊥ }
    {
        if self.faults.fails() {
            return Err(self);
        }
        let MemStage {
            bytes,
            room,
            faults: _,
        } = self;
        Ok(MemFile { bytes, room })
    }
}

/// A disk that records each change, so that it can be set back to what a crash at any moment leaves. Its clock is the
/// number of changes: of files published and removed, and of syncs that settled something.
#[derive(Drop)]
pub struct MemDisk {
    record: Record,
    /// How many of the record's events, from the newest, count as moments. The others made what it began with.
    clock: u64,
    /// Room for further events.
    spare: Record,
    /// How many stages were begun.
    stages: u64,
    faults: Faults<DiskPlan>,
}

impl MemDisk {
    ghost use Rattle.ssq_outside.specs.declared.name.Name.{Name};
    ghost use Rattle.ssq_fakes.specs.Records.{content_in};
    ghost use Rattle.ssq_fakes.specs.Crashes.{IsCrashed, filled};
    ghost use Rattle.ssq_fakes.specs.Disks.{disk_history, disk_faults, disk_plan, disk_calls, disk_stages, disk_room, history_of, IsSureDisk};

    /// An empty disk at moment 0. It never fails.
    pub fn new(alloc: Global) -> Self
        ensures history { disk_history result ≡ history_of [] 0 }
        ensures count { disk_faults result ≡ 0 }
        ensures plan { disk_plan result ≡ record { named = []; stop_after = None } }
        ensures calls { (disk_calls result ≡ 0) × (disk_stages result ≡ 0) }
        ensures room { disk_room result ≡ 0 }
        ensures sure { ⟦<MemDisk as Disk>⟧.sure result }
    {
        MemDisk {
            record: Record::Empty,
            clock: 0,
            spare: Record::Empty,
            stages: 0,
            faults: Faults::new(DiskPlan {
                calls: Vec::new(alloc),
                stop_after: None,
            }),
        }
    }

    /// The same, where these calls fail. Of the disk's calls those count that have a fault to give: all but `discard`
    /// and `clock`.
    pub fn failing(mut self, calls: Vec<FailAt>) -> Self
        ensures history { disk_history result ≡ disk_history self }
        ensures count { disk_faults result ≡ disk_faults self }
        ensures plan { disk_plan result ≡ record { named = calls.items; stop_after = (disk_plan self).stop_after } }
        ensures calls { (disk_calls result ≡ disk_calls self) × (disk_stages result ≡ disk_stages self) }
        ensures room { disk_room result ≡ disk_room self }
    {
        self.faults.plan.calls = calls;
        self
    }

    /// The same, where after its first `n` calls each call on the disk fails.
    pub fn stop_after(mut self, n: u64) -> Self
        ensures history { disk_history result ≡ disk_history self }
        ensures count { disk_faults result ≡ disk_faults self }
        ensures plan { disk_plan result ≡ record { named = (disk_plan self).named; stop_after = Some n } }
        ensures calls { (disk_calls result ≡ disk_calls self) × (disk_stages result ≡ disk_stages self) }
        ensures room { disk_room result ≡ disk_room self }
    {
        self.faults.plan.stop_after = Some(n);
        self
    }

    /// The disk after a crash at this moment, or now where that is past the clock: settled at moment 0, with no fault,
    /// and it never fails.
    ///
    /// The image picks what the crash left. It has a number for each name that changed since the last sync before
    /// that moment, in the order of names: 0 for the content that was settled, then those that the name had since, the
    /// oldest first. A number past them picks the newest, and a name without a number keeps the settled content.
    pub fn crash_at(&self, alloc: Global, moment: u64, image: &[u64]) -> Result<MemDisk, AllocError>
        ensures crashed { IfOk result (λ disk. IsCrashed ((disk_history self.now).had_at (min moment (disk_history self.now).moment)) image.now (disk_history disk)) }
        ensures count { IfOk result (λ disk. disk_faults disk ≡ 0) }
        ensures plan { IfOk result (λ disk. disk_plan disk ≡ record { named = []; stop_after = None }) }
        ensures calls { IfOk result (λ disk. (disk_calls disk ≡ 0) × (disk_stages disk ≡ 0)) }
        ensures sure { IfOk result (λ disk. ⟦<MemDisk as Disk>⟧.sure disk) }
    {
        let past = self.record.before(self.clock.saturating_sub(moment));
        let changed = past.changed(alloc)?;
        let names = past.names(alloc)?;
        let mut disk = MemDisk::new(alloc);
        for name in &names {
            let (content, _) = past.after_changes(
                *name,
                number_at(image, index_of(&changed, *name)),
            );
            disk.fill(alloc, *name, content)?;
        }
        disk.settle(alloc)?;
        Ok(disk)
    }

    /// Gives the name what it begins with, if it is a file.
    fn fill(&mut self, alloc: Global, name: Name, content: Option<&[u8]>) -> Result<(), AllocError>
        ensures content { OnOk result ((q : Name) → content_in (events_of self.new.record) q ≡ filled name (option_map (λ bytes. bytes.now) content.entry) (content_in (events_of self.old.record)) q) }
        ensures clock { self.new.clock ≡ self.old.clock }
        ensures count { disk_faults self.new ≡ disk_faults self.old }
        ensures calls { (self.new.faults ≡ self.old.faults) × (disk_stages self.new ≡ disk_stages self.old) }
        ensures sure { IsSureDisk self.old → OnOk result (IsSureDisk self.new) }
    {
        if let Some(bytes) = content {
            let bytes = bytes.to_vec(alloc)?;
            let room = Room::new(alloc)?;
            let publish = self.keep_room(room);
            self.record.push(Event::Put(name, bytes), publish);
        }
        Ok(())
    }

    /// Settles what it begins with.
    fn settle(&mut self, alloc: Global) -> Result<(), AllocError>
        ensures record { OnOk result (events_of self.new.record ≡ Event.Synced ∷ events_of self.old.record) }
        ensures clock { self.new.clock ≡ self.old.clock }
        ensures count { disk_faults self.new ≡ disk_faults self.old }
        ensures calls { (self.new.faults ≡ self.old.faults) × (disk_stages self.new ≡ disk_stages self.old) }
        ensures sure { IsSureDisk self.old → OnOk result (IsSureDisk self.new) }
    {
        let room = Box::new(alloc, Record::Empty)?;
        self.record.push(Event::Synced, room);
        Ok(())
    }

    /// Puts an event into the record, in this room, and counts the moment, unless the clock is at its end.
    fn advance(&mut self, event: Event, room: Box<Record>) -> Result<(), DiskFault>
        ensures ok { OnOk result (events_of self.new.record ≡ event ∷ events_of self.old.record) }
        ensures clock { OnOk result (self.new.clock ≡ self.old.clock + 1) }
        ensures err { OnErr result (disk_history self.new ≡ disk_history self.old) }
        ensures full { OnErr result (self.old.clock ≡ 2 ^ 64 - 1) }
        ensures cause { OnErr result (Rises (disk_faults self.old) (disk_faults self.new)) }
        ensures unfailed { OnOk result (disk_faults self.new ≡ disk_faults self.old) }
        ensures counted { disk_faults self.old ≤ disk_faults self.new }
        ensures spare { self.new.spare ≡ self.old.spare }
        ensures plan { self.new.faults.plan ≡ self.old.faults.plan }
        ensures calls { (disk_calls self.new ≡ disk_calls self.old) × (disk_stages self.new ≡ disk_stages self.old) }
    {
        if self.clock == u64::MAX {
            self.faults.raise();
            return Err(DiskFault);
        }
        self.record.push(event, room);
        self.clock += 1;
        Ok(())
    }

    /// The same in spare room. A disk that is sure has it.
    fn advance_in_spare(&mut self, event: Event) -> Result<(), DiskFault>
        ensures ok { OnOk result (events_of self.new.record ≡ event ∷ events_of self.old.record) }
        ensures clock { OnOk result (self.new.clock ≡ self.old.clock + 1) }
        ensures err { OnErr result (disk_history self.new ≡ disk_history self.old) }
        ensures full { OnErr result ((self.old.clock ≡ 2 ^ 64 - 1) ⊎ (events_of self.old.spare ≡ [])) }
        ensures cause { OnErr result (Rises (disk_faults self.old) (disk_faults self.new)) }
        ensures unfailed { OnOk result (disk_faults self.new ≡ disk_faults self.old) }
        ensures counted { disk_faults self.old ≤ disk_faults self.new }
        ensures spare { OnOk result (length (events_of self.old.spare) ≡ length (events_of self.new.spare) + 1) }
        ensures plan { self.new.faults.plan ≡ self.old.faults.plan }
        ensures calls { (disk_calls self.new ≡ disk_calls self.old) × (disk_stages self.new ≡ disk_stages self.old) }
    {
        match self.spare.take_room() {
            Some(room) => self.advance(event, room),
            None => {
                self.faults.raise();
                Err(DiskFault)
            }
        }
    }

    /// Keeps the room that a file brings, but for that of its publishing, which it hands out.
    fn keep_room(&mut self, room: Room) -> Box<Record>
        ensures spare { length (events_of self.new.spare) ≡ length (events_of self.old.spare) + 3 }
        ensures record { self.new.record ≡ self.old.record }
        ensures clock { self.new.clock ≡ self.old.clock }
        ensures faults { self.new.faults ≡ self.old.faults }
        ensures stages { disk_stages self.new ≡ disk_stages self.old }
    {
        let Room {
            publish,
            sync,
            removal,
            last_sync,
        } = room;
        self.spare.push(Event::Synced, sync);
        self.spare.push(Event::Synced, removal);
        self.spare.push(Event::Synced, last_sync);
        publish
    }
}

impl Disk for MemDisk {
    ghost use Rattle.std.specs.Prelude.{◌≡◌, ◌↔◌, ◌<◌, ◌≤◌, ◌+◌, ◌⊎◌, ◌∷◌, [], true, false, None, ⊤, option_map, IfOk, IsOk, IsErr, OnOk, OnErr, IsErrOf};
    ghost use Rattle.ssq_outside.specs.Faults.{Rises, StaysSure};
    ghost use Rattle.ssq_outside.specs.Files.{added, removed, settled_at, IsSyncStep, AreNames};
    ghost use Rattle.ssq_outside.specs.History.{had_now, files_now, Elapses};
    ghost use Rattle.ssq_fakes.specs.Plans.{call_after, fails_on_disk, on_stage};
    ghost use Rattle.ssq_fakes.specs.Disks.{disk_history, disk_faults, disk_plan, disk_calls, disk_stages, disk_room, IsAtEnd, stage_plan, stage_calls, IsSureDisk};

    type Stage = MemStage;

    ghost tells = { ⊤ };

    ghost history = { disk_history };

    ghost faults = { disk_faults };

    ghost sure = { IsSureDisk };

    ghost stages_tell = { λ tells. tells };

    fn stage(&mut self, alloc: Global) -> Result<MemStage, DiskError>
        ensures planned { fails_on_disk (disk_plan self.old) (disk_calls self.old) ≡ true ↔ IsErrOf result DiskError.Fault }
        ensures next { (disk_plan self.new ≡ disk_plan self.old) × (disk_calls self.new ≡ call_after (disk_calls self.old)) }
        ensures stages { IfOk result (λ stage. disk_stages self.new ≡ call_after (disk_stages self.old)) × OnErr result (disk_stages self.new ≡ disk_stages self.old) }
        ensures plan { IfOk result (λ stage. stage_plan stage ≡ on_stage (disk_stages self.old) (disk_plan self.old).named) }
        ensures calls { IfOk result (λ stage. stage_calls stage ≡ 0) }
        ensures empty { IfOk result (λ stage. stage.bytes.items ≡ []) }
        ensures fresh { IfOk result (λ stage. stage.faults.count ≡ 0) }
        ensures never_stage { IsSureDisk self.old → IfOk result (λ stage. stage_plan stage ≡ []) }
        ensures same { disk_history self.new ≡ disk_history self.old }
        ensures room { disk_room self.new ≡ disk_room self.old }
        ensures counted { disk_faults self.old ≤ disk_faults self.new }
        ensures cause { IsErrOf result DiskError.Fault → Rises (disk_faults self.old) (disk_faults self.new) }
        ensures never { IsSureDisk self.old → StaysSure (disk_history self.old).moment (disk_faults self.old) (disk_faults self.new) (IsSureDisk self.new) }
    {
        if self.faults.fails() {
            return Err(DiskError::Fault);
        }
        match begin(alloc, &self.faults.plan.calls, self.stages) {
            Ok(stage) => {
                self.stages = self.stages.saturating_add(1);
                Ok(stage)
            }
            Err(_) => Err(DiskError::NoMemory),
        }
    }

    fn discard(&mut self, stage: MemStage)
        ensures plan { disk_plan self.new ≡ disk_plan self.old }
        ensures calls { (disk_calls self.new ≡ disk_calls self.old) × (disk_stages self.new ≡ disk_stages self.old) }
        ensures same { disk_history self.new ≡ disk_history self.old }
        ensures room { disk_room self.new ≡ disk_room self.old }
        ensures counted { disk_faults self.old ≤ disk_faults self.new }
        ensures cause { 0 < stage.faults.count → Rises (disk_faults self.old) (disk_faults self.new) }
        ensures unfailed { stage.faults.count ≡ 0 → disk_faults self.new ≡ disk_faults self.old }
        ensures never { IsSureDisk self.old → IsSureDisk self.new }
    {
        self.faults.count = self.faults.count.saturating_add(stage.faults.count);
    }

    fn publish(&mut self, file: MemFile, name: Name) -> Result<(), DiskFault>
        ensures planned { fails_on_disk (disk_plan self.old) (disk_calls self.old) ≡ true → IsErr result × (disk_history self.new ≡ disk_history self.old) }
        ensures failed { OnErr result ((fails_on_disk (disk_plan self.old) (disk_calls self.old) ≡ true) ⊎ IsAtEnd self.old) }
        ensures room { OnOk result (disk_room self.new ≡ disk_room self.old + 3) }
        ensures next { (disk_plan self.new ≡ disk_plan self.old) × (disk_calls self.new ≡ call_after (disk_calls self.old)) × (disk_stages self.new ≡ disk_stages self.old) }
        ensures ok { OnOk result (had_now (disk_history self.new) ≡ added name file.bytes.items (had_now (disk_history self.old))) }
        ensures steps { Elapses (disk_history self.old) (disk_history self.new) (λ had. had ≡ added name file.bytes.items (had_now (disk_history self.old))) }
        ensures clock { (disk_history self.old).moment ≤ (disk_history self.new).moment }
        ensures counted { disk_faults self.old ≤ disk_faults self.new }
        ensures cause { OnErr result (Rises (disk_faults self.old) (disk_faults self.new)) }
        ensures never { IsSureDisk self.old → StaysSure (disk_history self.old).moment (disk_faults self.old) (disk_faults self.new) (IsSureDisk self.new) }
    {
        if self.faults.fails() {
            return Err(DiskFault);
        }
        let MemFile { bytes, room } = file;
        let publish = self.keep_room(room);
        self.advance(Event::Put(name, bytes), publish)
    }

    fn remove(&mut self, name: Name) -> Result<(), DiskFault>
        ensures planned { fails_on_disk (disk_plan self.old) (disk_calls self.old) ≡ true → IsErr result × (disk_history self.new ≡ disk_history self.old) }
        ensures failed { OnErr result ((fails_on_disk (disk_plan self.old) (disk_calls self.old) ≡ true) ⊎ (IsAtEnd self.old ⊎ (disk_room self.old ≡ 0))) }
        ensures room { OnOk result (disk_room self.old ≤ disk_room self.new + 1) }
        ensures absent { files_now (disk_history self.old) name ≡ None → fails_on_disk (disk_plan self.old) (disk_calls self.old) ≡ false → IsOk result × (disk_history self.new ≡ disk_history self.old) }
        ensures next { (disk_plan self.new ≡ disk_plan self.old) × (disk_calls self.new ≡ call_after (disk_calls self.old)) × (disk_stages self.new ≡ disk_stages self.old) }
        ensures ok { OnOk result (had_now (disk_history self.new) ≡ removed name (had_now (disk_history self.old))) }
        ensures steps { Elapses (disk_history self.old) (disk_history self.new) (λ had. had ≡ removed name (had_now (disk_history self.old))) }
        ensures clock { (disk_history self.old).moment ≤ (disk_history self.new).moment }
        ensures counted { disk_faults self.old ≤ disk_faults self.new }
        ensures cause { OnErr result (Rises (disk_faults self.old) (disk_faults self.new)) }
        ensures never { IsSureDisk self.old → StaysSure (disk_history self.old).moment (disk_faults self.old) (disk_faults self.new) (IsSureDisk self.new) }
    {
        if self.faults.fails() {
            return Err(DiskFault);
        }
        if !self.record.has(name) {
            return Ok(());
        }
        self.advance_in_spare(Event::Gone(name))
    }

    fn sync_names(&mut self) -> Result<(), DiskFault>
        ensures planned { fails_on_disk (disk_plan self.old) (disk_calls self.old) ≡ true → IsErr result × (disk_history self.new ≡ disk_history self.old) }
        ensures failed { OnErr result ((fails_on_disk (disk_plan self.old) (disk_calls self.old) ≡ true) ⊎ (IsAtEnd self.old ⊎ (disk_room self.old ≡ 0))) }
        ensures room { OnOk result (disk_room self.old ≤ disk_room self.new + 1) }
        ensures idle { had_now (disk_history self.old) ≡ settled_at (files_now (disk_history self.old)) → fails_on_disk (disk_plan self.old) (disk_calls self.old) ≡ false → IsOk result × (disk_history self.new ≡ disk_history self.old) }
        ensures next { (disk_plan self.new ≡ disk_plan self.old) × (disk_calls self.new ≡ call_after (disk_calls self.old)) × (disk_stages self.new ≡ disk_stages self.old) }
        ensures ok { OnOk result (had_now (disk_history self.new) ≡ settled_at (files_now (disk_history self.old))) }
        ensures steps { Elapses (disk_history self.old) (disk_history self.new) (IsSyncStep (had_now (disk_history self.old))) }
        ensures clock { (disk_history self.old).moment ≤ (disk_history self.new).moment }
        ensures counted { disk_faults self.old ≤ disk_faults self.new }
        ensures cause { OnErr result (Rises (disk_faults self.old) (disk_faults self.new)) }
        ensures never { IsSureDisk self.old → StaysSure (disk_history self.old).moment (disk_faults self.old) (disk_faults self.new) (IsSureDisk self.new) }
    {
        if self.faults.fails() {
            return Err(DiskFault);
        }
        if !self.record.is_unsettled() {
            return Ok(());
        }
        self.advance_in_spare(Event::Synced)
    }

    fn read(&mut self, alloc: Global, name: Name) -> Result<Option<Vec<u8>>, DiskError>
        ensures planned { fails_on_disk (disk_plan self.old) (disk_calls self.old) ≡ true ↔ IsErrOf result DiskError.Fault }
        ensures next { (disk_plan self.new ≡ disk_plan self.old) × (disk_calls self.new ≡ call_after (disk_calls self.old)) × (disk_stages self.new ≡ disk_stages self.old) }
        ensures found { IfOk result (λ content. option_map (λ bytes. bytes.items) content ≡ files_now (disk_history self.old) name) }
        ensures same { disk_history self.new ≡ disk_history self.old }
        ensures room { disk_room self.new ≡ disk_room self.old }
        ensures counted { disk_faults self.old ≤ disk_faults self.new }
        ensures cause { IsErrOf result DiskError.Fault → Rises (disk_faults self.old) (disk_faults self.new) }
        ensures never { IsSureDisk self.old → StaysSure (disk_history self.old).moment (disk_faults self.old) (disk_faults self.new) (IsSureDisk self.new) }
    {
        if self.faults.fails() {
            return Err(DiskError::Fault);
        }
        match copied(alloc, self.record.content(name)) {
            Ok(content) => Ok(content),
            Err(_) => Err(DiskError::NoMemory),
        }
    }

    fn names(&mut self, alloc: Global) -> Result<Vec<Name>, DiskError>
        ensures planned { fails_on_disk (disk_plan self.old) (disk_calls self.old) ≡ true ↔ IsErrOf result DiskError.Fault }
        ensures next { (disk_plan self.new ≡ disk_plan self.old) × (disk_calls self.new ≡ call_after (disk_calls self.old)) × (disk_stages self.new ≡ disk_stages self.old) }
        ensures found { IfOk result (λ names. AreNames (files_now (disk_history self.old)) names.items) }
        ensures same { disk_history self.new ≡ disk_history self.old }
        ensures room { disk_room self.new ≡ disk_room self.old }
        ensures counted { disk_faults self.old ≤ disk_faults self.new }
        ensures cause { IsErrOf result DiskError.Fault → Rises (disk_faults self.old) (disk_faults self.new) }
        ensures never { IsSureDisk self.old → StaysSure (disk_history self.old).moment (disk_faults self.old) (disk_faults self.new) (IsSureDisk self.new) }
    {
        if self.faults.fails() {
            return Err(DiskError::Fault);
        }
        match self.record.present(alloc) {
            Ok(names) => Ok(names),
            Err(_) => Err(DiskError::NoMemory),
        }
    }

    fn clock(&self) -> u64 {
        self.clock
    }
}

/// The number at this place, or 0 past the end.
fn number_at(numbers: &[u64], at: usize) -> u64
    ensures { result ≡ slice_index numbers.now at }
{
    match numbers.get(at) {
        Some(number) => *number,
        None => 0,
    }
}

/// Every image of a crash at some moment is what some numbers pick.
pub fn each_image_is_picked()
    ensures { EachImageIsPicked }
{}

/// Begins the file with this number.
fn begin(alloc: Global, calls: &[FailAt], number: u64) -> Result<MemStage, AllocError>
    ensures empty { IfOk result (λ stage. stage.bytes.items ≡ []) }
    ensures fresh { IfOk result (λ stage. stage.faults.count ≡ 0) }
    ensures plan { IfOk result (λ stage. stage.faults.plan.items ≡ on_stage number calls.now) }
    ensures calls { IfOk result (λ stage. stage.faults.calls ≡ 0) }
{
    Ok(MemStage {
        bytes: Vec::new(alloc),
        room: Room::new(alloc)?,
        faults: Faults::new(FailAt::on_stage(alloc, calls, number)?),
    })
}

fn copied(alloc: Global, content: Option<&[u8]>) -> Result<Option<Vec<u8>>, AllocError>
    ensures { IfOk result (λ copy. option_map (λ bytes. bytes.items) copy ≡ option_map (λ bytes. bytes.now) content.entry) }
{
    match content {
        Some(bytes) => Ok(Some(bytes.to_vec(alloc)?)),
        None => Ok(None),
    }
}
