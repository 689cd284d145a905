//! The job that a checkpoint is opened for.

ghost use Rattle.ssq_terms.specs.Laws.{JobIsWanted, StatesAreJobs, FirstRecordIsJobs, PartsAreFound, PartsCanBeWritten};

use ssq_course::{files_hold_states, jobs_are_causal, plans_can_be_written};
use ssq_json::rows_fit_their_schema;

/// The law of the opening: the job of a query is the one that is wanted, where its setting is that of the query, the partitions and the
/// lines that were found; and what the query keeps are the states that the job's files hold.
pub fn job_is_wanted()
    ensures wanted { JobIsWanted }
    ensures states { StatesAreJobs }
    // A new checkpoint gets its record.
    ensures first { FirstRecordIsJobs }
    // Its parts begin where those that were found do.
    ensures parts { PartsAreFound }
    ensures fit { PartsCanBeWritten }
{
    rows_fit_their_schema();
    jobs_are_causal();
    plans_can_be_written();
    files_hold_states();
}
