//! Times and watermarks, of each query.

ghost use Rattle.ssq_terms.specs.Laws.{TimesAreOfLines, UnmarkedHaveNoTimes, CommitsCanBeWritten, WatermarksCanBePrinted, PlansCanBeWritten};

use ssq_course::plans_can_be_written;
use ssq_json::rows_fit_their_schema;

/// The law of times: those that were seen are times of lines. So commits can be written; and where no delay is above 366 days,
/// watermarks can be printed, and plans can be written.
pub fn times_are_of_lines()
    ensures seen { TimesAreOfLines }
    // None is of a stream without a delay.
    ensures unmarked { UnmarkedHaveNoTimes }
    ensures commits { CommitsCanBeWritten }
    ensures watermarks { WatermarksCanBePrinted }
    ensures plans { PlansCanBeWritten }
{
    rows_fit_their_schema();
    plans_can_be_written();
}
