//! Laws of the rows that are shown.

ghost use Rattle.ssq_tables.specs.Agreeing.{SinksAreOfOneRows, TablesAgree, TextsAreOfOneRows};
ghost use Rattle.ssq_tables.specs.Checkpoint.{CheckpointsHoldTables};
ghost use Rattle.ssq_tables.specs.Shown.{EpochsAreStored};

use ssq_json::rows_fit_their_schema;
use ssq_meaning::fed_rows_are_fit;

/// The law of rows that are shown, of a query of any shape: each value that an epoch shows is of the type of its column, and has a text. So it can
/// stand in a sink file.
pub fn shown_rows_are_stored()
    ensures { EpochsAreStored }
{
    rows_fit_their_schema();
    fed_rows_are_fit();
}

/// The law of sink files: where a checkpoint stands for the job of a query that was bound, each of its sink files is the rows of its epoch, in their
/// order, and can be read again; they are those of the committed epochs, and may be that of the planned one.
pub fn checkpoints_hold_tables()
    ensures { CheckpointsHoldTables }
{
    shown_rows_are_stored();
}

/// The law of what is read of them: no other rows have the same text, and so a sink file is of one list of rows; and where a checkpoint stands for the job
/// of a query that was bound, what is read of its sink files is the table of the query's meaning, each row as often, by whatever rows they are read.
pub fn tables_agree()
    ensures texts { TextsAreOfOneRows }
    ensures sinks { SinksAreOfOneRows }
    ensures table { TablesAgree }
{
    checkpoints_hold_tables();
}
