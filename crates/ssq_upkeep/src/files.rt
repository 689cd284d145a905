//! The next file that may go.

ghost use Rattle.std.specs.Prelude.{◌≡◌, ◌↔◌, ◌++◌, true, Some, IsTrue, MatchOption};
ghost use Rattle.ssq_outside.specs.declared.name.Name.{Name as NameOf};
ghost use Rattle.ssq_upkeep.specs.Upkeep.{MayGo, is_sure, is_of, Goes, IsLeast};
ghost use Rattle.ssq_upkeep.specs.Steps.{AreFloors, is_less, lesser};

use crate::newest::{floor_in, floors};
use ssq_outside::Name;

/// The least name that may go of the first so many partitions, by the names that were there at the last sync of names, those that came
/// since, and the last acknowledged epoch. It walks over the names twice, where there are at most 64 partitions, and takes no memory.
pub fn may_go(settled: &[Name], news: &[Name], partitions: u32, last: Option<u32>) -> Option<Name>
    ensures { MatchOption result ((q : NameOf) → Goes (settled.now ++ news.now) settled.now partitions last q → ⊥) (IsLeast (settled.now ++ news.now) settled.now partitions last) }
{
    least_in(settled, news, partitions, last?)
}

fn least_in(settled: &[Name], news: &[Name], partitions: u32, last: u32) -> Option<Name>
    ensures { MatchOption result ((q : NameOf) → Goes (settled.now ++ news.now) settled.now partitions (Some last) q → ⊥) (IsLeast (settled.now ++ news.now) settled.now partitions (Some last)) }
{
    let floors = floors(settled, last);
    let old = least_to(settled, &floors, settled, partitions, last);
    let new = least_to(news, &floors, settled, partitions, last);
    lesser(old, new)
}

/// Of two names the one that comes first, where there are any.
fn lesser(one: Option<Name>, other: Option<Name>) -> Option<Name>
    ensures { result ≡ lesser one other }
{
    match one {
        Some(name) if is_less(name, other) => one,
        _ => other,
    }
}

fn least_to(
    names: &[Name],
    floors: &[Option<u32>],
    settled: &[Name],
    partitions: u32,
    last: u32,
) -> Option<Name>
    requires { AreFloors settled.now last floors.now }
    ensures { MatchOption result ((q : NameOf) → Goes names.now settled.now partitions (Some last) q → ⊥) (IsLeast names.now settled.now partitions (Some last)) }
{
    let mut least = None;
    for name in names {
        if is_less(*name, least) && goes(*name, floors, settled, partitions, last) {
            least = Some(*name);
        }
    }
    least
}

/// Whether the settled snapshots let a file go.
fn goes(name: Name, floors: &[Option<u32>], settled: &[Name], partitions: u32, last: u32) -> bool
    requires { AreFloors settled.now last floors.now }
    ensures { IsTrue result ↔ ((is_of partitions name ≡ true) × MayGo (is_sure settled.now (Some last)) name) }
{
    match name {
        Name::Delta(partition, version) if partition < partitions => {
            match floor_in(floors, settled, partition, last) {
                Some(floor) => version <= floor,
                None => false,
            }
        }
        Name::Snapshot(partition, version) if partition < partitions => {
            match floor_in(floors, settled, partition, last) {
                Some(floor) => version < floor,
                None => false,
            }
        }
        _ => false,
    }
}

/// Whether the name comes before that one, where there is one.
fn is_less(name: Name, least: Option<Name>) -> bool
    ensures { result ≡ is_less name least }
{
    match least {
        Some(least) => name.comes_before(least),
        None => true,
    }
}
