//! Where the round of a desk begins that opened on what an opening found.

ghost use Rattle.ssq_terms.specs.Opening.{FoundIsJobs, DeskOpensAsFound, StoresHoldStates, PartitionsBegin};

/// The law of the round: what an opening found of the job's checkpoint is the job's own, the numbers of a desk that opened on it are those
/// with which a round begins, and the stores that were found are those from which the partitions go on.
pub fn round_begins_as_found()
    ensures found { FoundIsJobs }
    ensures opens { DeskOpensAsFound }
    ensures stores { StoresHoldStates }
    // With the index that is made of each they are what the partitions hold.
    ensures held { PartitionsBegin }
{}
