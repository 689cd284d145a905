//! What holds of every run.

ghost use Rattle.ssq_promise.specs.Run.{NothingIsRun, OpenedIsTrue, RoundIsRun, RoundGoesOn, RunsAreJoined, RoundLeavesFound, RoundLeavesTrue, RoundKnowsState, RunIsKept};

use ssq_outside::{Disk, Log};

/// The law of rounds: a round's entries are a run; rounds are joined to one run; what a round that is over leaves is settled and
/// stands, so that the next may begin on it; the files that any round leaves are those of its plans; and each epoch that a round plans
/// was to come, while none that it commits has a fault.
pub fn rounds<D: Disk, L: Log>()
    ensures nothing { NothingIsRun (D.tells × L.tells) }
    ensures round { RoundIsRun (D.tells × L.tells) }
    ensures joined { RunsAreJoined (D.tells × L.tells) }
    ensures over { RoundLeavesFound (D.tells × L.tells) }
    ensures opened { OpenedIsTrue }
    ensures files { RoundLeavesTrue (D.tells × L.tells) }
    ensures on { RoundGoesOn (D.tells × L.tells) }
{}

/// The law of runs: from a checkpoint that stands, and is settled, each image of each moment stands; each file that was there stays as it
/// was, but for files of the state; and each epoch that was told is in each image from when it was acknowledged.
pub fn run<D: Disk, L: Log>()
    ensures { RunIsKept (D.tells × L.tells) }
{}

/// The law of a state's files: as long as a round runs, what makes the state of a partition at a version whose snapshot is due is there and true.
pub fn states<D: Disk, L: Log>()
    ensures { RoundKnowsState (D.tells × L.tells) }
{}
