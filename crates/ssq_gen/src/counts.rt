//! What comes of generated input: counts of rows, and sums over them.

ghost use Rattle.std.specs.Prelude.{◌≡◌, ◌<◌, ◌+◌, ◌^◌, ◌+ℤ◌, ◌++◌, ◌∷◌, [], List, ℕ, get_or, length, map, string_bytes, IfOk, IfErr};
ghost use Rattle.ssq_value.specs.declared.value.Value.{Value as Cell};
ghost use Rattle.ssq_value.specs.declared.value.Value.TheVariants.{Null};
ghost use Rattle.ssq_json.specs.RowText.{heads_of};
ghost use Rattle.ssq_json.specs.Stored.{AreRows};
ghost use Rattle.ssq_gen.specs.Counts.{AreCountsOf, AreWithin, IsCause, IsRows, IsWithin, counts_line, number_in};

use crate::fault::CountsFault;
use ssq_json::{Heads, take_line};
use ssq_shape::Output;
use ssq_sink::Columns;
use ssq_value::{ColType, Value};
use std::alloc::{AllocError, Global};

/// How many rows there are, and the sums of the numbers in their third and fourth columns: of the query's rows, how many lines they count, and the
/// sum of these lines' values.
#[derive(Clone, Copy)]
pub(crate) struct Counts {
    pub(crate) rows: u64,
    pub(crate) count: i128,
    pub(crate) sum: i128,
}

/// The number in a cell of a row: 0 where none is.
fn number_in(row: &[Value], at: usize) -> i64
    ensures { result ≡ number_in (get_or row.now at Null) }
{
    match row.get(at) {
        Some(Value::Int(number)) => *number,
        _ => 0,
    }
}

/// The sum of so many numbers with one more: it has room, since so many numbers of 64 bits and one more have.
fn added(rows: u64, sum: i128, number: i64) -> i128
    requires rows { rows + 1 < 2 ^ 64 }
    requires within { IsWithin rows sum }
    ensures value { result ≡ sum +ℤ number }
    ensures within { IsWithin (rows + 1) result }
{
    sum + i128::from(number)
}

impl Counts {
    /// Of no rows.
    fn none() -> Counts
        ensures none { AreCountsOf [] result }
        ensures within { AreWithin result }
        ensures rows { result.rows ≡ 0 }
    {
        Counts {
            rows: 0,
            count: 0,
            sum: 0,
        }
    }

    /// With one row more.
    fn with_row(self, row: &[Value]) -> Counts
        requires few { self.rows + 1 < 2 ^ 64 }
        requires within { AreWithin self }
        ensures counted { (rows : List (List Cell)) → AreCountsOf rows self → AreCountsOf (rows ++ row.now ∷ []) result }
        ensures within { AreWithin result }
        ensures rows { result.rows ≡ self.rows + 1 }
    {
        Counts {
            rows: self.rows + 1,
            count: added(self.rows, self.count, number_in(row, 2)),
            sum: added(self.rows, self.sum, number_in(row, 3)),
        }
    }
}

/// Counts the rows that the bytes are, one line each, of columns with these heads and types.
fn count_lines(
    alloc: Global,
    heads: &Heads,
    kinds: &[ColType],
    bytes: &[u8],
) -> Result<Counts, CountsFault>
    requires { length heads.now ≡ length kinds.now }
    ensures each { (names : List (List ℕ)) → heads.now ≡ heads_of names → (rows : List (List Cell)) → AreRows names kinds.now bytes.now rows → IfOk result (AreCountsOf rows) }
    ensures rows { (names : List (List ℕ)) → heads.now ≡ heads_of names → IfOk result (λ counts. IsRows names kinds.now bytes.now) }
    ensures cause { (names : List (List ℕ)) → heads.now ≡ heads_of names → IfErr result (IsCause names kinds.now bytes.now) }
{
    let mut counts = Counts::none();
    let mut rest = bytes;
    while !rest.is_empty() {
        match take_line(alloc, heads, kinds, rest)? {
            Some((row, after)) => {
                counts = counts.with_row(row.as_slice());
                rest = after;
            }
            None => return Err(CountsFault::NotRows),
        }
    }
    Ok(counts)
}

/// Counts the rows that a table is, one line each, of these columns of SELECT.
fn count_rows(alloc: Global, outputs: &[Output], table: &[u8]) -> Result<Counts, CountsFault>
    ensures each { (rows : List (List Cell)) → AreRows (map (λ output. output.name) outputs.now) (map (λ output. output.kind) outputs.now) table.now rows → IfOk result (AreCountsOf rows) }
    ensures rows { IfOk result (λ counts. IsRows (map (λ output. output.name) outputs.now) (map (λ output. output.kind) outputs.now) table.now) }
    ensures cause { IfErr result (IsCause (map (λ output. output.name) outputs.now) (map (λ output. output.kind) outputs.now) table.now) }
{
    let columns = Columns::new(alloc, outputs)?;
    count_lines(alloc, &columns.heads, columns.kinds.as_slice(), table)
}

/// Tells how many lines and epochs there are, and what came of them: how many rows the table has, and two sums over them.
fn told(alloc: Global, lines: u32, epochs: u64, counts: Counts) -> Result<String, AllocError>
    ensures { (rows : List (List Cell)) → AreCountsOf rows counts → IfOk result (λ line. string_bytes line ≡ counts_line lines epochs rows) }
{
    let Counts { rows, count, sum } = counts;
    format!(in alloc; "lines {lines} epochs {epochs} rows {rows} count {count} sum {sum}\n")
}

/// The line that tells what came of so many lines in so many epochs: how many rows the table has, and the sums of their third and fourth columns. The
/// table has one line for each row, of these columns of SELECT.
///
/// # Errors
///
/// [`CountsFault::NotRows`] where the table is not rows of these columns, [`CountsFault::NoMemory`] where memory ran out: sums of as many numbers
/// of 64 bits as a table may have rows always have room.
pub fn counts_line(
    alloc: Global,
    lines: u32,
    epochs: u64,
    outputs: &[Output],
    table: &[u8],
) -> Result<String, CountsFault>
    ensures each { (rows : List (List Cell)) → AreRows (map (λ output. output.name) outputs.now) (map (λ output. output.kind) outputs.now) table.now rows →
        IfOk result (λ line. string_bytes line ≡ counts_line lines epochs rows) }
    ensures rows { IfOk result (λ line. IsRows (map (λ output. output.name) outputs.now) (map (λ output. output.kind) outputs.now) table.now) }
    ensures cause { IfErr result (IsCause (map (λ output. output.name) outputs.now) (map (λ output. output.kind) outputs.now) table.now) }
{
    let counts = count_rows(alloc, outputs, table)?;
    Ok(told(alloc, lines, epochs, counts)?)
}
