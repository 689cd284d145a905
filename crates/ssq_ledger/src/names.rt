//! The files of the state that a ledger knows.

ghost use Rattle.std.specs.Prelude.{◌≡◌, ◌≤◌, ◌<◌, ◌+◌, ◌*◌, ◌++◌, ◌||◌, ◌^◌, length, true, [], ◌∷◌, IfSome, vec_capacity, if◌then◌else◌};
ghost use Rattle.ssq_upkeep.specs.Upkeep.{is_among};
ghost use Rattle.ssq_board.specs.Shelf.{without};
ghost use Rattle.ssq_ledger.specs.Names.{MakesRoom, MakesSettled, IsNewestBelow, newer};

use ssq_outside::Name;
use ssq_upkeep::{is_among, newest_to};

/// The names of the state's files.
#[derive(Drop)]
pub(crate) struct Names {
    /// Those of files that no crash can take away.
    pub(crate) settled: Vec<Name>,
    /// Those of files that were published since the last sync of names.
    pub(crate) news: Vec<Name>,
    /// Those of snapshots that are being made.
    pub(crate) claimed: Vec<Name>,
    /// Since the last sync no snapshot was published, and no file removed.
    pub(crate) tidy: bool,
}

fn is_there(settled: &[Name], news: &[Name], name: Name) -> bool
    ensures { result ≡ (is_among settled.now name || is_among news.now name) }
{
    is_among(settled, name) || is_among(news, name)
}

/// A file is there.
pub(crate) fn add(settled: &[Name], news: &mut Vec<Name>, name: Name)
    requires { length news.old.items < vec_capacity news.old }
    ensures items { news.new.items ≡ (if is_among settled.now name || is_among news.old.items name then news.old.items else news.old.items ++ name ∷ []) }
    ensures capacity { vec_capacity news.new ≡ vec_capacity news.old }
{
    if !is_there(settled, news.as_slice(), name) {
        news.push_reserved(name);
    }
}

/// Names were synced: what was published before is settled.
pub(crate) fn settle(settled: &mut Vec<Name>, news: &mut Vec<Name>)
    requires { length settled.old.items + length news.old.items ≤ vec_capacity settled.old }
    ensures settled { settled.new.items ≡ settled.old.items ++ news.old.items }
    ensures news { news.new.items ≡ [] }
    ensures capacity { vec_capacity news.new ≡ vec_capacity news.old }
{
    match settled.append(news) {
        Ok(()) => {}
        Err(_) => unreachable!(),
    }
}

/// Makes room for as many names more, and for one of each snapshot that is being made.
pub(crate) fn make_room(names: &mut Names, more: usize) -> Option<()>
    ensures { MakesRoom more names.old names.new result }
{
    let count = more.checked_add(names.claimed.as_slice().len())?;
    match names.news.reserve(count) {
        Ok(()) => Some(()),
        Err(_) => None,
    }
}

/// Makes room for what is to be settled.
pub(crate) fn make_settled(names: &mut Names) -> Option<()>
    ensures { MakesSettled names.old names.new result }
{
    match names.settled.reserve(names.news.as_slice().len()) {
        Ok(()) => Some(()),
        Err(_) => None,
    }
}

/// Makes room for a snapshot that is handed out.
pub(crate) fn make_claimed(names: &mut Names) -> Option<()>
    ensures settled { names.new.settled ≡ names.old.settled }
    ensures news { names.new.news ≡ names.old.news }
    ensures claimed { names.new.claimed.items ≡ names.old.claimed.items }
    ensures tidy { names.new.tidy ≡ names.old.tidy }
    ensures room { IfSome result (λ made. length names.new.claimed.items < vec_capacity names.new.claimed) }
{
    match names.claimed.reserve(1) {
        Ok(()) => Some(()),
        Err(_) => None,
    }
}

/// Leaves a name out.
pub(crate) fn leave_out(names: &mut Vec<Name>, name: Name)
    ensures items { names.new.items ≡ without name names.old.items }
    ensures capacity { vec_capacity names.new ≡ vec_capacity names.old }
{
    names.retain(|other| !other.is(name));
}

/// The newest version below this one of which a partition has a snapshot.
fn newest_below(names: &[Name], partition: u32, version: u32) -> Option<u32>
    ensures { IsNewestBelow partition version names.now result }
{
    newest_to(names, partition, version.checked_sub(1)?)
}

/// The newest version below this one of which a partition has a snapshot in one of the lists.
pub(crate) fn snapshot_below(
    settled: &[Name],
    news: &[Name],
    partition: u32,
    version: u32,
) -> Option<u32>
    ensures { IsNewestBelow partition version (settled.now ++ news.now) result }
{
    let old = newest_below(settled, partition, version);
    let new = newest_below(news, partition, version);
    newer(old, new)
}

/// Of two versions the newer one, where there are any.
fn newer(one: Option<u32>, other: Option<u32>) -> Option<u32>
    ensures { result ≡ newer one other }
{
    match (one, other) {
        (Some(one), Some(other)) => Some(one.max(other)),
        (Some(_), None) => one,
        (None, _) => other,
    }
}
