//! The next snapshot that is due.

ghost use Rattle.std.specs.Prelude.{◌≡◌, ◌≤◌, ◌+◌, ◌++◌, ◌%◌, ◌||◌, ℕ, MatchOption};
ghost use Rattle.ssq_upkeep.specs.Upkeep.{IsDue, IsNext, is_among};
ghost use Rattle.ssq_upkeep.specs.Steps.{IsBare, IsFirstBare};

use crate::newest::{floor, is_among};
use ssq_outside::Name;

/// One version in so many has a snapshot: the last of each so many.
const EACH: u32 = 10;

/// The first version of a partition whose snapshot is due, by the names that were there at the last sync of names, those that came since,
/// those of snapshots that are being made, and the last acknowledged epoch.
pub fn due(
    settled: &[Name],
    news: &[Name],
    claimed: &[Name],
    partition: u32,
    last: Option<u32>,
) -> Option<u32>
    ensures { MatchOption result ((version : ℕ) → IsDue (settled.now ++ news.now ++ claimed.now) settled.now partition last version → ⊥) (IsNext (settled.now ++ news.now ++ claimed.now) settled.now partition last) }
{
    let last = last?;
    let from = floor(settled, partition, last).unwrap_or(0);
    first_bare(settled, news, claimed, partition, from, last)
}

/// Whether the name is in one of the lists.
fn is_there(settled: &[Name], news: &[Name], claimed: &[Name], name: Name) -> bool
    ensures { result ≡ is_among (settled.now ++ news.now ++ claimed.now) name }
{
    is_in_one(settled, news, claimed, name)
}

fn is_in_one(settled: &[Name], news: &[Name], claimed: &[Name], name: Name) -> bool
    ensures { result ≡ (is_among settled.now name || is_among news.now name || is_among claimed.now name) }
{
    is_among(settled, name) || is_among(news, name) || is_among(claimed, name)
}

/// The first of these versions that is one in ten and has no snapshot in the lists.
fn first_bare(
    settled: &[Name],
    news: &[Name],
    claimed: &[Name],
    partition: u32,
    from: u32,
    last: u32,
) -> Option<u32>
    ensures { MatchOption result ((version : ℕ) → IsBare (settled.now ++ news.now ++ claimed.now) partition from last version → ⊥) (IsFirstBare (settled.now ++ news.now ++ claimed.now) partition from last) }
{
    let mut version = first_tenth(from);
    while version <= last as u64 {
        let snapshot = Name::Snapshot(partition, version as u32);
        if !is_there(settled, news, claimed, snapshot) {
            return Some(version as u32);
        }
        version += EACH as u64;
    }
    None
}

/// The first version from this one on that is one in ten.
fn first_tenth(from: u32) -> u64
    ensures tenth { result % 10 ≡ 9 }
    ensures above { from ≤ result }
    ensures near { result ≤ from + 9 }
{
    let from = from as u64;
    from + (EACH as u64 - 1 - from % EACH as u64)
}
