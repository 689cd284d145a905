//! The greatest event times that were seen.

ghost use Rattle.std.specs.Prelude.{◌≡◌, ◌<◌, ℕ, None, length, IfOk};
ghost use Rattle.ssq_time.specs.Time.{IsLineTime};
ghost use Rattle.ssq_water.specs.Water.{seen_at, seen_with, AreLineTimes};

use ssq_shape::Bound;
use std::alloc::{AllocError, Global};
use std::marker::Model;

/// The greatest event time of each stream of a query, in microseconds since 1970: none where a stream isn't watermarked or none of its
/// rows was read. Contracts see the list of these times, in the order of FROM.
#[derive(Drop)]
pub struct Seen {
    times: Vec<Option<i64>>,
}

impl Model for Seen {
    ghost use Rattle.std.specs.Prelude.{ℤ, List, Option};
    ghost use Rattle.ssq_water.specs.Water.{AreLineTimes};

    ghost Value = { List (Option ℤ) };

    ghost view = { λ s. s.times.items };

    ghost invariant = { λ s. AreLineTimes s.times.items };
}

impl Seen {
    /// The times of a query's streams before any row is read.
    pub fn new(alloc: Global, bound: &Bound) -> Result<Seen, AllocError>
        ensures none { IfOk result (λ seen. (stream : ℕ) → seen_at seen stream ≡ None) }
        ensures streams { IfOk result (λ seen. length seen ≡ length bound.now.streams) }
    {
        let streams = bound.streams.len();
        let mut times = Vec::with_capacity(alloc, streams)?;
        for _ in 0..streams {
            times.push(None)?;
        }
        Ok(Seen { times })
    }

    /// The greatest time of each stream, in the order of FROM.
    pub fn times(&self) -> &[Option<i64>]
        ensures times { result.now ≡ self.now }
        ensures years { AreLineTimes self.now }
    {
        self.times.as_slice()
    }
}

/// A copy in memory of its own.
impl Clone for Seen {
    ghost is_clone = { λ old new. new ≡ old };

    fn clone(&self) -> Result<Seen, AllocError> {
        Ok(Seen {
            times: self.times.clone()?,
        })
    }
}

/// Takes in an event time of a stream, in microseconds since 1970. It is of the years 1000 to 9000, as each time of a line is.
pub fn raise(seen: &mut Seen, stream: u32, time: i64)
    requires stream { stream < length seen.old }
    requires years { IsLineTime time }
    ensures times { (other : ℕ) → seen_at seen.new other ≡ seen_with seen.old stream time other }
    ensures streams { length seen.new ≡ length seen.old }
{
    let greatest = &mut seen.times[stream as usize];
    *greatest = Some(match *greatest {
        Some(known) => known.max(time),
        None => time,
    });
}
