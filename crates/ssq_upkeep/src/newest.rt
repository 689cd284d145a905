//! The snapshot by which older files may go.

ghost use Rattle.std.specs.Prelude.{◌≡◌, None, MatchOption, replicate};
ghost use Rattle.ssq_upkeep.specs.Upkeep.{is_among};
ghost use Rattle.ssq_upkeep.specs.Steps.{AreFloors, AreNewest, HasNoFloor, HasNone, IsFloor, IsNewest, later};

use ssq_outside::Name;

/// So far below the last acknowledged epoch a snapshot has to lie, for older files to go by it.
const KEPT: u32 = 20;

/// The floors of so many partitions, the first, are found in one walk over the names. A job has no more.
const MANY: usize = 64;

/// Whether the name is in the list.
pub fn is_among(names: &[Name], name: Name) -> bool
    ensures { result ≡ is_among names.now name }
{
    names.contains(&name)
}

/// The newest of a partition's snapshots up to a version, of those in a list.
pub fn newest_to(names: &[Name], partition: u32, highest: u32) -> Option<u32>
    ensures { MatchOption result (HasNone names.now partition highest) (IsNewest names.now partition highest) }
{
    let mut newest = None;
    for name in names {
        if let Name::Snapshot(of, version) = *name {
            if of == partition && version <= highest {
                newest = Some(later(newest, version));
            }
        }
    }
    newest
}

/// The greater of two versions, where there are two.
fn later(newest: Option<u32>, version: u32) -> u32
    ensures { result ≡ later newest version }
{
    match newest {
        Some(found) => found.max(version),
        None => version,
    }
}

/// The newest of a partition's settled snapshots that lies 20 or more below the last acknowledged epoch.
pub(crate) fn floor(settled: &[Name], partition: u32, last: u32) -> Option<u32>
    ensures { MatchOption result (HasNoFloor settled.now partition last) (IsFloor settled.now partition last) }
{
    if last < KEPT {
        return None;
    }
    newest_to(settled, partition, last - KEPT)
}

/// The floors of the first partitions, each in the place of its partition.
pub(crate) fn floors(settled: &[Name], last: u32) -> [Option<u32>; MANY]
    ensures { AreFloors settled.now last result }
{
    match last.checked_sub(KEPT) {
        Some(highest) => newest_each(settled, highest),
        None => no_versions(),
    }
}

/// No version of any of the first partitions.
fn no_versions() -> [Option<u32>; MANY]
    ensures { result ≡ replicate 64 None }
{
    [None; MANY]
}

/// The newest of each of the first partitions' snapshots up to a version, of those in a list.
fn newest_each(names: &[Name], highest: u32) -> [Option<u32>; MANY]
    ensures { AreNewest names.now highest result }
{
    let mut newest = no_versions();
    for name in names {
        if let Name::Snapshot(of, version) = *name {
            let at = of as usize;
            if at < MANY && version <= highest {
                newest[at] = Some(later(newest[at], version));
            }
        }
    }
    newest
}

/// The floor of a partition, by those of the first.
pub(crate) fn floor_in(
    floors: &[Option<u32>],
    settled: &[Name],
    partition: u32,
    last: u32,
) -> Option<u32>
    requires { AreFloors settled.now last floors.now }
    ensures { MatchOption result (HasNoFloor settled.now partition last) (IsFloor settled.now partition last) }
{
    match floors.get(partition as usize) {
        Some(found) => *found,
        None => floor(settled, partition, last),
    }
}
