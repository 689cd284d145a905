//! What the tasks of an epoch bring, put together.

ghost use Rattle.ssq_terms.specs.Rows.{PartsFeedPartitions, PartsWithoutLinesAreQuiet, PartitionsShowRows, PartitionsCountRows, LinesRaiseTimes};

use ssq_course::partitions_show_rows;

/// The law of the epoch's tasks: what the map tasks bring is what each partition is fed and what the commit tells, and what the reduce
/// tasks show is what the epoch shows.
pub fn tasks_bring_the_epoch()
    ensures fed { PartsFeedPartitions }
    ensures quiet { PartsWithoutLinesAreQuiet }
    ensures shown { PartitionsShowRows }
    ensures counted { PartitionsCountRows }
    ensures seen { LinesRaiseTimes }
{
    partitions_show_rows();
}
