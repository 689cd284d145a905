//! What a map task hands on of a row, and what all tasks share.

ghost use Rattle.std.specs.Prelude.{◌≡◌, ◌≤◌, ◌++◌, length, take, drop, IfOk};

use ssq_shape::Bound;
use ssq_value::{Row, Value};
use std::alloc::AllocError;
use std::marker::Model;

/// What a map task hands on of a row of its part, in one piece of memory. Contracts see its place, its key, its time and its values.
#[derive(Drop)]
pub struct FedRow {
    epoch: u32,
    stream: u32,
    part: u32,
    /// How many of the cells are the row's own values.
    values: u32,
    offset: u64,
    time: Option<i64>,
    /// The row's own values, and after them those of its key.
    cells: Vec<Value>,
}

impl Model for FedRow {
    ghost use Rattle.std.specs.Prelude.{◌≤◌, length, take, drop};
    ghost use Rattle.ssq_meaning.specs.FedRows.{FedRow as Fed};

    ghost Value = { Fed };

    ghost view = { λ row. record {
      epoch = row.epoch;
      stream = row.stream;
      part = row.part;
      offset = row.offset;
      key = drop row.values row.cells.items;
      time = row.time;
      values = take row.values row.cells.items;
    } };

    ghost invariant = { λ row. row.values ≤ length row.cells.items };
}

/// How many values a row has, where they are fewer than 2^32. Else they count as too many for the memory.
fn count_of(count: usize) -> Result<u32, AllocError>
    ensures { IfOk result (λ same. same ≡ count) }
{
    if count <= u32::MAX as usize {
        Ok(count as u32)
    } else {
        Err(AllocError)
    }
}

/// The values of a row, and after them those of its key. All are moved into the key's room; where the key is empty they stay in theirs.
fn joined(key: Vec<Value>, values: Vec<Value>) -> Result<Vec<Value>, AllocError>
    ensures { IfOk result (λ cells. cells.items ≡ values.items ++ key.items) }
{
    if key.as_slice().is_empty() {
        return Ok(values);
    }
    let keys = key.len();
    let mut cells = key;
    let mut values = values;
    cells.append(&mut values)?;
    cells.as_mut_slice().rotate_left(keys);
    Ok(cells)
}

impl FedRow {
    /// The row that is fed from a line with a key, the time when it is past, and values. The values are moved into the key's room: it is best
    /// given enough for them.
    pub fn new(
        epoch: u32,
        stream: u32,
        part: u32,
        offset: u64,
        key: Row,
        time: Option<i64>,
        values: Row,
    ) -> Result<FedRow, AllocError>
        ensures { IfOk result (λ row. row ≡ record { epoch = epoch; stream = stream; part = part; offset = offset; key = key; time = time; values = values }) }
    {
        let count = values.len();
        let cells = joined(key.into_vec(), values.into_vec())?;
        FedRow::of_cells(epoch, stream, part, offset, count, time, cells)
    }

    /// The row that is fed from a line with so many values, and a key after them.
    pub fn of_cells(
        epoch: u32,
        stream: u32,
        part: u32,
        offset: u64,
        values: usize,
        time: Option<i64>,
        cells: Vec<Value>,
    ) -> Result<FedRow, AllocError>
        requires { values ≤ length cells.items }
        ensures { IfOk result (λ row. row ≡ record { epoch = epoch; stream = stream; part = part; offset = offset; key = drop values cells.items; time = time; values = take values cells.items }) }
    {
        Ok(FedRow {
            epoch,
            stream,
            part,
            values: count_of(values)?,
            offset,
            time,
            cells,
        })
    }

    /// The epoch whose line the row is.
    pub fn epoch(&self) -> u32
        ensures { result ≡ self.now.epoch }
    {
        self.epoch
    }

    /// The place of the row's stream in the order of FROM, from 0.
    pub fn stream(&self) -> u32
        ensures { result ≡ self.now.stream }
    {
        self.stream
    }

    /// The part of that stream, from 0.
    pub fn part(&self) -> u32
        ensures { result ≡ self.now.part }
    {
        self.part
    }

    /// The row's line in that part, from 0.
    pub fn offset(&self) -> u64
        ensures { result ≡ self.now.offset }
    {
        self.offset
    }

    /// What says the row's partition: its group values, its DEDUPLICATE columns or its join key; none of a query that keeps nothing.
    pub fn key(&self) -> &[Value]
        ensures { result.now ≡ self.now.key }
    {
        &self.cells[self.values as usize..]
    }

    /// The time by which the row may be late, in microseconds since 1970, where it has one: of a grouped query, or one that deduplicates,
    /// that of its key, and none in Complete; of a join its event time, where the join has a bound.
    pub fn time(&self) -> Option<i64>
        ensures { result ≡ self.now.time }
    {
        self.time
    }

    /// What the query's operator needs of the row: of a query that keeps nothing, or one that deduplicates, the row as SELECT shows it; of a
    /// grouped query, for each aggregate the value of its argument, TRUE for `COUNT(*)`; of a join, the row as it was read.
    pub fn values(&self) -> &[Value]
        ensures { result.now ≡ self.now.values }
    {
        &self.cells[..self.values as usize]
    }

    /// Gives its values back, without a copy.
    pub fn into_values(self) -> Row
        ensures { result ≡ self.values }
    {
        let FedRow {
            values,
            mut cells,
            ..
        } = self;
        cells.truncate(values as usize);
        Row::from_vec(cells)
    }
}

/// What all tasks of a job share.
#[derive(Clone, Copy)]
pub struct View<'a> {
    /// The query.
    pub bound: &'a Bound,
    /// The number of partitions, from 1 on.
    pub partitions: u32,
}
