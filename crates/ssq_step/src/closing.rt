//! The keys of a state by their times.

ghost use Rattle.std.specs.Prelude.{◌≡◌, Some, if◌then◌else◌, ℕ, ℤ, List, Option, IfOk, OnOk};
ghost use Rattle.ssq_value.specs.declared.value.Value.{Value as Cell};
ghost use Rattle.ssq_version.specs.State.{IsAfter, State as Kept};
ghost use Rattle.ssq_meaning.specs.Times.{is_past};
ghost use Rattle.ssq_meaning.specs.Windows.{HasWindows};
ghost use Rattle.ssq_step.specs.Indexing.{AreDueKeys, Indexes, IsIndex, seen, stands};
ghost use Rattle.ssq_step.specs.Rows.{StandsAt};

use crate::index::{entries_of, follow_change};
use ssq_field::Bytes;
use ssq_shape::Bound;
use ssq_version::{Change, StateMap};
use std::alloc::{AllocError, Global};
use std::collections::BTreeSet;
use std::marker::Model;

/// The keys of a partition's state by their times, of a join by those of its rows, kept beside its state: those that a watermark closes are found
/// without a walk over the others. Contracts see the times, in microseconds since 1970, each with the bytes of a key, in order.
#[derive(Drop)]
pub struct Closing(BTreeSet<(i64, Bytes)>);

impl Model for Closing {
    ghost use Rattle.std.specs.Prelude.{List};
    ghost use Rattle.ssq_step.specs.Indexing.{Timed};

    ghost Value = { List Timed };

    ghost view = { λ closing. closing.0.keys };
}

impl Closing {
    /// The index of a state, made by a walk over it. That of a query whose keys have no times is empty.
    pub fn of(alloc: Global, bound: &Bound, state: &StateMap) -> Result<Closing, AllocError>
        requires { HasWindows bound.now }
        ensures { IfOk result (IsIndex bound.now state.now) }
    {
        Ok(Closing(entries_of(alloc, bound, state)?))
    }

    /// Follows the state through a change, by the state before it. After an `Err` the index is of no use.
    pub fn follow(
        &mut self,
        bound: &Bound,
        state: &StateMap,
        change: &Change,
    ) -> Result<(), AllocError>
        requires { HasWindows bound.now }
        ensures { (new : Kept) → IsAfter change.now state.now new → IsIndex bound.now state.now self.old → OnOk result (IsIndex bound.now new self.new) }
    {
        follow_change(bound, &mut self.0, state, change)
    }

    /// The keys whose time is at or below the watermark, in microseconds since 1970. There is none without a watermark.
    pub fn past(&self, alloc: Global, now: Option<i64>) -> Result<Vec<&Bytes>, AllocError>
        ensures keys { (count : ℕ) (time : List Cell → Option ℤ) (state : Kept) → Indexes count time state self.now →
            IfOk result (λ keys. AreDueKeys count time state now (seen keys.items)) }
        ensures rows { (key : List ℕ) (time : Option ℤ) → StandsAt self.now key time →
            IfOk result (λ keys. stands key (seen keys.items) ≡ (if is_past now time then 1 else 0)) }
    {
        let mut keys = Vec::new(alloc);
        for entry in self.0.iter() {
            if !is_past(now, entry) {
                break;
            }
            keys.push(&entry.1)?;
        }
        Ok(keys)
    }
}

fn is_past(now: Option<i64>, entry: &(i64, Bytes)) -> bool
    ensures { result ≡ is_past now (Some entry.now.0) }
{
    match now {
        Some(now) => entry.0 <= now,
        None => false,
    }
}
