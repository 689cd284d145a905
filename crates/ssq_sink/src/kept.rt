//! What is kept of the rows of sink files.

ghost use Rattle.std.specs.Prelude.{◌≡◌, ◌++◌, ◌∷◌, [], List, true, false, Ok, IfOk, OnOk};
ghost use Rattle.std.specs.List.{All};
ghost use Rattle.ssq_time.specs.Time.{IsStampTime};
ghost use Rattle.ssq_value.specs.Kind.{IfTime};
ghost use Rattle.ssq_shape.specs.declared.bound.Bound.{Bound as Query};
ghost use Rattle.ssq_shape.specs.Plain.{output_names};
ghost use Rattle.ssq_json.specs.Stored.{AreRows};
ghost use Rattle.ssq_meaning.specs.Meaning.{Values};
ghost use Rattle.ssq_sink.specs.Passing.{AreColumnsOf, IsKept};
ghost use Rattle.ssq_sink.specs.Table.{output_kinds, table_text};

use crate::columns::Columns;
use crate::epoch::put_line;
use crate::latest::Latest;
use crate::reading::Reading;
use ssq_json::{take_line, utf8_text};
use ssq_shape::Bound;
use ssq_value::{Row, Text};
use std::alloc::{AllocError, Global};

/// What is kept of the rows of the sink files so far, by how the table is read.
#[derive(Drop)]
pub(crate) enum Kept {
    /// The text of all rows, one file after the other.
    Each(Vec<u8>),
    /// The last row of each key.
    Latest(Latest),
    /// The text of the rows of the last file.
    Last(Vec<u8>),
}

impl Kept {
    /// What is kept where there was no file.
    pub(crate) fn new(alloc: Global, bound: &Bound) -> Kept
        ensures { IsKept bound.now [] result }
    {
        match Reading::of(bound) {
            Reading::Each => Kept::Each(Vec::new(alloc)),
            Reading::Latest => Kept::Latest(Latest::new(alloc)),
            Reading::Last => Kept::Last(Vec::new(alloc)),
        }
    }

    /// Begins a file: of a table that is the last file's rows, those before it go.
    fn begin(&mut self)
        ensures { (query : Query) (epochs : List (List Values)) → IsKept query epochs self.old → IsKept query (epochs ++ [] ∷ []) self.new }
    {
        match self {
            Kept::Each(_) => {}
            Kept::Latest(_) => {}
            Kept::Last(text) => text.clear(),
        }
    }

    /// Takes a row of the file that was begun.
    fn put(
        &mut self,
        alloc: Global,
        bound: &Bound,
        columns: &Columns,
        row: Row,
    ) -> Result<(), AllocError>
        requires columns { AreColumnsOf bound.now columns.now.heads columns.now.kinds.items }
        requires timed { All (IfTime IsStampTime) row }
        ensures { (epochs : List (List Values)) (rows : List Values) → IsKept bound.now (epochs ++ rows ∷ []) self.old → OnOk result (IsKept bound.now (epochs ++ (rows ++ row ∷ []) ∷ []) self.new) }
    {
        match self {
            Kept::Each(text) => put_line(text, &columns.heads, &row),
            Kept::Latest(latest) => latest.put(alloc, bound.outputs.as_slice(), row),
            Kept::Last(text) => put_line(text, &columns.heads, &row),
        }
    }

    /// Takes the rows of one file more. They need not be sorted. `false` where the bytes are no canonical rows of these columns.
    pub(crate) fn take(
        &mut self,
        alloc: Global,
        bound: &Bound,
        columns: &Columns,
        bytes: &[u8],
    ) -> Result<bool, AllocError>
        requires { AreColumnsOf bound.now columns.now.heads columns.now.kinds.items }
        ensures taken { (epochs : List (List Values)) → IsKept bound.now epochs self.old → OnOk result (result ≡ Ok true →
            (rows : List Values) × AreRows (output_names bound.now) (output_kinds bound.now) bytes.now rows × IsKept bound.now (epochs ++ rows ∷ []) self.new) }
        ensures none { IfOk result (λ are. are ≡ false → (rows : List Values) → AreRows (output_names bound.now) (output_kinds bound.now) bytes.now rows → ⊥) }
    {
        self.begin();
        let mut rest = bytes;
        while !rest.is_empty() {
            match take_line(alloc, &columns.heads, columns.kinds.as_slice(), rest)? {
                Some((row, after)) => {
                    self.put(alloc, bound, columns, row)?;
                    rest = after;
                }
                None => return Ok(false),
            }
        }
        Ok(true)
    }

    /// The table of these rows.
    pub(crate) fn into_text(self, alloc: Global, bound: &Bound) -> Result<Text, AllocError>
        requires { (epochs : List (List Values)) × IsKept bound.now epochs self }
        ensures { (epochs : List (List Values)) → IsKept bound.now epochs self → IfOk result (λ text. text ≡ table_text bound.now epochs) }
    {
        match self {
            Kept::Each(text) | Kept::Last(text) => Ok(utf8_text(text)),
            Kept::Latest(latest) => latest.into_text(alloc, bound),
        }
    }
}
