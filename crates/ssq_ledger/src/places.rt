//! Where the tasks of a phase are, and the cause for which it stops.

ghost use Rattle.std.specs.Prelude.{◌≡◌, true, false, MatchOption};
ghost use Rattle.std.specs.List.{list_all, list_any};
ghost use mathlib.Core.Option.{some};
ghost use lib.ListN.{get_elem?};
ghost use Rattle.ssq_board.specs.declared.front.Place.TheVariants as place;
ghost use Rattle.ssq_board.specs.Core.{is_waiting, is_fine, is_here, is_of_epoch, worse, fault_at, fault_in, due_stop, or_stop};

use ssq_board::{Cause, Place};

fn is_waiting(place: Place) -> bool
    ensures { result ≡ is_waiting place }
{
    matches!(place, Place::Waits)
}

fn is_fine(place: Place) -> bool
    ensures { result ≡ is_fine place }
{
    matches!(place, Place::Rests | Place::Back(None))
}

/// The first task that waits.
pub(crate) fn first_waiting(places: &[Place]) -> Option<usize>
    ensures { MatchOption result (list_any is_waiting places.now ≡ false) (λ t. (list_any is_waiting places.now ≡ true) × (get_elem? places.now t ≡ some place.Waits)) }
{
    for number in 0..places.len() {
        if is_waiting(places[number]) {
            return Some(number);
        }
    }
    None
}

/// Whether each task is back without a fault, or was not there.
pub(crate) fn are_fine(places: &[Place]) -> bool
    ensures { result ≡ list_all is_fine places.now }
{
    match places.split_first() {
        Some((first, rest)) => is_fine(*first) && are_fine(rest),
        None => true,
    }
}

fn is_of_epoch(cause: Cause) -> bool
    ensures { result ≡ is_of_epoch cause }
{
    matches!(
        cause,
        Cause::BadLine { .. } | Cause::Overflow { .. } | Cause::KeyOverflow
    )
}

/// Of two causes the one that counts: one from outside before the epoch's own, and else the first.
fn worse(first: Option<Cause>, later: Option<Cause>) -> Option<Cause>
    ensures { result ≡ worse first later }
{
    match (first, later) {
        (None, _) => later,
        (Some(_), None) => first,
        (Some(one), Some(other)) => {
            if is_of_epoch(one) && !is_of_epoch(other) {
                later
            } else {
                first
            }
        }
    }
}

fn is_here(place: Place) -> bool
    ensures { result ≡ is_here place }
{
    matches!(place, Place::Rests | Place::Back(_))
}

fn fault_at(place: Place) -> Option<Cause>
    ensures { result ≡ fault_at place }
{
    match place {
        Place::Back(fault) => fault,
        _ => None,
    }
}

fn fault_in(places: &[Place]) -> Option<Cause>
    ensures { result ≡ fault_in places.now }
{
    match places.split_first() {
        Some((first, rest)) => worse(fault_at(*first), fault_in(rest)),
        None => None,
    }
}

fn are_here(places: &[Place]) -> bool
    ensures { result ≡ list_all is_here places.now }
{
    match places.split_first() {
        Some((first, rest)) => is_here(*first) && are_here(rest),
        None => true,
    }
}

/// The cause for which a phase stops: one from outside at once, and the epoch's own where none of its tasks is to come.
pub(crate) fn due_stop(places: &[Place]) -> Option<Cause>
    ensures { result ≡ due_stop places.now }
{
    let fault = fault_in(places)?;
    if are_here(places) || !is_of_epoch(fault) {
        Some(fault)
    } else {
        None
    }
}

/// The first of two causes.
pub(crate) fn or_stop(first: Option<Cause>, later: Option<Cause>) -> Option<Cause>
    ensures { result ≡ or_stop first later }
{
    match first {
        None => later,
        Some(_) => first,
    }
}
