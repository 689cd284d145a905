//! What is left once a command is obeyed.

ghost use Rattle.std.specs.Prelude.{◌≡◌, [], Err};
ghost use Rattle.ssq_run.specs.Stopping.{IsToldAs, stop_in, stop_of_end};

use crate::faults::end_of;
use crate::stop::Stop;
use ssq_outside::Disk;
use ssq_runner::Ran;
use ssq_shape::Bound;
use std::alloc::Global;

/// What a command leaves: the disk, what is left to be written, and why it stopped, if it did.
#[derive(Drop)]
pub(crate) struct Done<D: Disk> {
    pub(crate) disk: D,
    pub(crate) text: Vec<u8>,
    pub(crate) end: Result<(), Stop>,
}

/// It stopped with nothing to be written but why.
pub(crate) fn stopped<D: Disk>(alloc: Global, disk: D, stop: Stop) -> Done<D>
    ensures { (result.disk ≡ disk) × (result.text.items ≡ []) × (result.end ≡ Err stop) }
{
    Done {
        disk,
        text: Vec::new(alloc),
        end: Err(stop),
    }
}

/// What a run leaves, with its end told by the names of its query.
pub(crate) fn named<D: Disk>(alloc: Global, bound: &Bound, ran: Ran<D>) -> Done<D>
    ensures disk { result.disk ≡ ran.disk }
    ensures text { result.text.items ≡ ran.text.items }
    ensures told { IsToldAs (stop_in result.end) (stop_of_end bound.now.streams ran.counts ran.end) }
{
    let Ran {
        disk,
        text,
        counts,
        end,
    } = ran;
    Done {
        disk,
        text,
        end: end_of(alloc, bound.streams.as_slice(), counts.as_slice(), end),
    }
}
