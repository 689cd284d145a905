//! What holds of the job of each query.

ghost use Rattle.ssq_meaning.specs.Epochs.{accepted, on_time};
ghost use Rattle.ssq_core.specs.Course.{Cuts};
ghost use Rattle.ssq_core.specs.Sound.{StandsOrEmpty};
ghost use Rattle.ssq_core.specs.Standing.{Stands};
ghost use Rattle.ssq_course.specs.Growing.{StaysAsLogsGrow};
ghost use Rattle.ssq_course.specs.Setting.{Setting};
ghost use Rattle.ssq_course.specs.States.{AreOfStates, StatesCanBeHeld};
ghost use Rattle.ssq_course.specs.Wide.{JoinedRowsAreWide};
ghost use Rattle.ssq_course.specs.Laws.{AreCausal, FilesSayTheirCourse, PartitionsShowRows, PlansCanBeWritten};

use ssq_json::rows_fit_their_schema;
use ssq_meaning::{
    epochs_of_groups_follow, fed_rows_are_few, fed_rows_are_fit, kept_keys_ascend,
    partitions_show_all_rows, repeats_are_fed_by_their_keys, rows_are_fed_to_joins,
};

/// The law of jobs: what the files of a query's checkpoint hold of its first epochs hangs on where these end, and on nothing that comes
/// later; and an epoch has a fault only where one of its tasks has. Each key is in a partition, so there has to be one.
pub fn jobs_are_causal()
    ensures { AreCausal }
{}

/// The law of files: files that stand say how many epochs are planned and committed, and what each plan and commit holds; so they
/// determine the cuts as far as epochs are planned.
pub fn files_say_their_course()
    ensures { FilesSayTheirCourse }
{}

/// The law of logs that grow: a checkpoint that stands over some logs stands over the same logs with more lines after, whatever their end was
/// taken to be; and so it is for one that stands or is empty.
pub fn checkpoints_stand_as_logs_grow()
    ensures stands { StaysAsLogsGrow Stands }
    ensures or_empty { StaysAsLogsGrow StandsOrEmpty }
{}

/// The law of plans: the plan of an epoch that may follow those before it is one that can be written, where its watermark is of the
/// years 0001 to 9999.
pub fn plans_can_be_written()
    ensures { PlansCanBeWritten }
{}

/// The law of partitions: the rows that they show of an epoch, put together, are the epoch's, and have the text of its sink file.
pub fn partitions_show_rows()
    ensures { PartitionsShowRows }
{
    partitions_show_all_rows();
}

/// The law of a join's rows: each of those that are accepted, and of those that are not late in an epoch, has a value for each column of its
/// stream, and is of one of the streams.
pub fn joined_rows_are_wide()
    ensures accepted { JoinedRowsAreWide (λ query parts cuts e. accepted query parts cuts e) }
    ensures on_time { JoinedRowsAreWide (λ query parts cuts e. on_time query parts cuts e) }
{
    rows_fit_their_schema();
}

/// The law of the state's files: they are those of the states after each epoch and of what each epoch changes. These have a spelling where
/// the query's groups, the columns of DEDUPLICATE or its join are within the limits of the language and its epochs cover fewer than 2^57 lines,
/// whatever these are.
pub fn files_hold_states()
    ensures files { (s : Setting) (cuts : Cuts) → AreOfStates s cuts }
    ensures held { StatesCanBeHeld }
{
    fed_rows_are_fit();
    fed_rows_are_few();
    epochs_of_groups_follow();
    repeats_are_fed_by_their_keys();
    rows_are_fed_to_joins();
    joined_rows_are_wide();
    kept_keys_ascend();
}
