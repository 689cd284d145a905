//! What a desk takes for granted of the job.

ghost use Rattle.ssq_terms.specs.Laws.{TasksHaveTerms, DuesAreOfMarks, EndsAreOfParts, FaultsAreOfTasks};

use ssq_course::jobs_are_causal;
use ssq_meaning::{epochs_hang_on_their_cuts, epochs_without_lines_are_quiet};

/// The law of the desk: the tasks of a query are as a desk deals them, and the next cut may come where some part has lines that no plan
/// covers, or where an epoch without lines is due. A fault is one of a line, or of a key of a partition.
pub fn tasks_have_terms()
    ensures terms { TasksHaveTerms }
    // Whether one is due is told by watermarks.
    ensures dues { DuesAreOfMarks }
    // Each end of its cuts is of the part at its place.
    ensures ends { EndsAreOfParts }
    ensures faults { FaultsAreOfTasks }
{
    jobs_are_causal();
    epochs_hang_on_their_cuts();
    epochs_without_lines_are_quiet();
}
