//! How far the next epoch reads, and for which parts it has tasks.

ghost use Rattle.std.specs.Prelude.{◌≡◌, ◌+◌, ◌≤◌, ◌++◌, length, IfOk, replicate, nat_lt, if◌then◌else◌, vec_capacity};
ghost use Rattle.ssq_board.specs.declared.front.Place.TheVariants as place;
ghost use Rattle.ssq_board.specs.Core.{next_end, next_part, next_ends, is_behind, has_line, dealt};

use ssq_board::Place;
use ssq_plans::PartEnd;
use std::alloc::{AllocError, Global};

/// Where a part's next lines end: with what was found, but no more than so many lines on.
fn next_end(most: Option<u64>, end: u64, found: u64) -> u64
    ensures { result ≡ next_end most end found }
{
    if found <= end {
        return end;
    }
    match most {
        Some(most) if most < found - end => end + most,
        _ => found,
    }
}

fn next_part(most: Option<u64>, part: PartEnd, found: u64) -> PartEnd
    ensures { result ≡ next_part most part found }
{
    PartEnd {
        stream: part.stream,
        part: part.part,
        end: next_end(most, part.end, found),
    }
}

/// The next cut, after what is there already. A part of which no length was found stays where it is. It takes no memory.
fn put_next(next: &mut Vec<PartEnd>, most: Option<u64>, ends: &[PartEnd], found: &[u64])
    requires { length next.old.items + length ends.now ≤ vec_capacity next.old }
    ensures { next.new.items ≡ next.old.items ++ next_ends most ends.now found.now }
{
    let Some((part, ends)) = ends.split_first() else {
        return;
    };
    match found.split_first() {
        Some((len, found)) => {
            next.push_reserved(next_part(most, *part, *len));
            put_next(next, most, ends, found)
        }
        None => {
            next.push_reserved(*part);
            put_next(next, most, ends, found)
        }
    }
}

/// The next cut.
pub(crate) fn next_ends(
    alloc: Global,
    most: Option<u64>,
    ends: &[PartEnd],
    found: &[u64],
) -> Result<Vec<PartEnd>, AllocError>
    ensures { IfOk result (λ next. next.items ≡ next_ends most ends.now found.now) }
{
    let mut next = Vec::with_capacity(alloc, ends.len())?;
    put_next(&mut next, most, ends, found);
    Ok(next)
}

/// Whether some part has lines that no plan covers.
pub(crate) fn is_behind(ends: &[PartEnd], found: &[u64]) -> bool
    ensures { result ≡ is_behind ends.now found.now }
{
    let Some((part, ends)) = ends.split_first() else {
        return false;
    };
    match found.split_first() {
        Some((len, found)) => part.end < *len || is_behind(ends, found),
        None => false,
    }
}

/// Whether some part has lines between the two cuts.
pub(crate) fn has_line(from: &[PartEnd], to: &[PartEnd]) -> bool
    ensures { result ≡ has_line from.now to.now }
{
    let Some((begin, from)) = from.split_first() else {
        return false;
    };
    match to.split_first() {
        Some((end, to)) => begin.end < end.end || has_line(from, to),
        None => false,
    }
}

/// A task for a part where it has lines between the two ends.
fn dealt_to(begin: PartEnd, end: PartEnd) -> Place
    ensures { result ≡ (if nat_lt begin.end end.end then place.Waits else place.Rests) }
{
    if begin.end < end.end {
        Place::Waits
    } else {
        Place::Rests
    }
}

/// The map tasks of an epoch between the two cuts, after what is there already. It takes no memory.
fn put_dealt(places: &mut Vec<Place>, from: &[PartEnd], to: &[PartEnd])
    requires { length places.old.items + length from.now ≤ vec_capacity places.old }
    ensures { places.new.items ≡ places.old.items ++ dealt from.now to.now }
{
    let Some((begin, from)) = from.split_first() else {
        return;
    };
    match to.split_first() {
        Some((end, to)) => {
            places.push_reserved(dealt_to(*begin, *end));
            put_dealt(places, from, to)
        }
        None => {
            places.push_reserved(Place::Rests);
            put_dealt(places, from, to)
        }
    }
}

/// The map tasks of an epoch between the two cuts.
pub(crate) fn dealt(
    alloc: Global,
    from: &[PartEnd],
    to: &[PartEnd],
) -> Result<Vec<Place>, AllocError>
    ensures { IfOk result (λ places. places.items ≡ dealt from.now to.now) }
{
    let mut places = Vec::with_capacity(alloc, from.len())?;
    put_dealt(&mut places, from, to);
    Ok(places)
}

/// So many tasks, all at this place.
pub(crate) fn all_at(alloc: Global, count: usize, place: Place) -> Result<Vec<Place>, AllocError>
    ensures { IfOk result (λ places. places.items ≡ replicate count place) }
{
    vec![in alloc; place; count]
}
