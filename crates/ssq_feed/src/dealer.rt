//! Rows on their way to their partitions.

ghost use Rattle.std.specs.Prelude.{◌≡◌, ◌<◌, ◌≤◌, ◌∷◌, ◌++◌, [], length, take, drop, All, IfOk, IfSome, OnOk};
ghost use Rattle.std.specs.List.{AllByRecursion};
ghost use Rattle.ssq_meaning.specs.Fit.{IsFit, IsFitRow};
ghost use Rattle.ssq_meaning.specs.Group.{row_keys};
ghost use Rattle.ssq_meaning.specs.Placed.{HasSpan};
ghost use Rattle.ssq_meaning.specs.Windows.{HasWindow};
ghost use Rattle.ssq_feed.specs.Rows.{dealt};
ghost use Rattle.ssq_feed.specs.Keys.{IsReadRow, all_of, begun_with};
ghost use Rattle.ssq_feed.specs.Dealing.{Deals, IsLonger, from_origin, member_row, member_rows};

use crate::key_values::KeyValues;
use ssq_meaning::{FedRow, KeyPlace, fit_values_are_spelled, placed_time};
use ssq_route::Buckets;
use ssq_shape::GroupKey;
use ssq_value::{Row, Value, put_key};
use std::alloc::{AllocError, Global};

/// The line that a fed row is from.
#[derive(Clone, Copy)]
pub(crate) struct Origin {
    pub(crate) epoch: u32,
    pub(crate) stream: u32,
    pub(crate) part: u32,
    pub(crate) offset: u64,
}

/// A row that goes to its groups.
#[derive(Clone, Copy)]
pub(crate) struct Source<'a> {
    pub(crate) origin: Origin,
    /// Where the time of the groups' keys stands in them.
    pub(crate) place: Option<KeyPlace>,
    pub(crate) row: &'a [Value],
    /// How many arguments the aggregates have.
    pub(crate) arguments: usize,
    /// How many values they are with those of a key.
    pub(crate) cells: usize,
}

/// Deals rows to the buckets of their partitions.
#[derive(Drop)]
pub(crate) struct Dealer {
    buckets: Buckets<FedRow>,
    /// The bytes of the key at hand, in room that the next key's take over.
    key: Vec<u8>,
}

/// Cells that go on with one of these values after their front, with room for so many values.
fn longer(
    alloc: Global,
    room: usize,
    front: &[Value],
    values: &KeyValues<'_>,
    nth: u32,
) -> Result<Vec<Value>, AllocError>
    requires { nth < length (all_of values.now) }
    ensures { IfOk result (λ cells. IsLonger (all_of values.now) nth front.now cells.items) }
{
    let mut cells = Vec::with_capacity(alloc, room)?;
    cells.extend_with_clones(front)?;
    cells.push(values.value(nth)?)?;
    Ok(cells)
}

/// The same cells with one of these values after them.
fn pushed(mut cells: Vec<Value>, values: &KeyValues<'_>, nth: u32) -> Result<Vec<Value>, AllocError>
    requires { nth < length (all_of values.now) }
    ensures { IfOk result (λ longer. IsLonger (all_of values.now) nth cells.items longer.items) }
{
    cells.push(values.value(nth)?)?;
    Ok(cells)
}

impl Dealer {
    pub(crate) fn new(alloc: Global, partitions: u32) -> Result<Dealer, AllocError>
        requires { 1 ≤ partitions }
        ensures empty { IfOk result (λ made. made.buckets ≡ dealt partitions []) }
        ensures len { IfOk result (λ made. length made.buckets ≡ partitions) }
    {
        Ok(Dealer {
            buckets: Buckets::new(alloc, partitions)?,
            key: Vec::new(alloc),
        })
    }

    pub(crate) fn into_buckets(self) -> Buckets<FedRow>
        ensures { result ≡ self.buckets }
    {
        let Dealer { buckets, .. } = self;
        buckets
    }

    /// Puts a row into the bucket of its key's partition, after those that are there. The only bucket is that of each key.
    fn deal(&mut self, row: FedRow) -> Result<(), AllocError>
        requires { IsFitRow row }
        ensures { OnOk result (Deals self.old.buckets self.new.buckets (row ∷ [])) }
    {
        if self.buckets.partitions() == 1 {
            return self.buckets.add(&[], row);
        }
        fit_values_are_spelled();
        self.key.clear();
        put_key(&mut self.key, row.key())?;
        self.buckets.add(self.key.as_slice(), row)
    }

    /// Deals the row that is fed from a line with a key, the time when it is past, and values.
    pub(crate) fn deal_values(
        &mut self,
        origin: Origin,
        key: Row,
        time: Option<i64>,
        values: Row,
    ) -> Result<(), AllocError>
        requires key { All IsFit key }
        requires values { All IsFit values }
        ensures { OnOk result (Deals self.old.buckets self.new.buckets (from_origin origin (record { key = key; time = time; values = values }) ∷ [])) }
    {
        let Origin {
            epoch,
            stream,
            part,
            offset,
        } = origin;
        let row = FedRow::new(epoch, stream, part, offset, key, time, values)?;
        self.deal(row)
    }

    /// Deals a row to the group of a key. The cells are the arguments and, after them, the key.
    fn deal_member(&mut self, from: &Source<'_>, cells: Vec<Value>) -> Result<(), AllocError>
        requires span { IfSome from.now.place HasSpan }
        requires arguments { from.now.arguments ≤ length cells.items }
        requires cells { All IsFit cells.items }
        ensures { OnOk result (Deals self.old.buckets self.new.buckets
            (member_row from.now.origin from.now.place (take from.now.arguments cells.items) (drop from.now.arguments cells.items) ∷ [])) }
    {
        let Origin {
            epoch,
            stream,
            part,
            offset,
        } = from.origin;
        let count = from.arguments;
        let time = placed_time(from.place, &cells[count..]);
        let row = FedRow::of_cells(epoch, stream, part, offset, count, time, cells)?;
        self.deal(row)
    }

    /// Deals a row to each of its groups whose keys begin like this, by the parts of a key that are left. The cells are the arguments and, after
    /// them, the key so far; they are cloned for each group but the last.
    pub(crate) fn deal_groups(
        &mut self,
        alloc: Global,
        from: &Source<'_>,
        parts: &[GroupKey],
        cells: Vec<Value>,
    ) -> Result<(), AllocError>
        requires span { IfSome from.now.place HasSpan }
        requires left { AllByRecursion HasWindow parts.now }
        requires read { IsReadRow from.now.row.now }
        requires arguments { from.now.arguments ≤ length cells.items }
        requires cells { All IsFit cells.items }
        ensures { OnOk result (Deals self.old.buckets self.new.buckets
            (member_rows from.now.origin from.now.place (take from.now.arguments cells.items)
            (begun_with (drop from.now.arguments cells.items) (row_keys parts.now from.now.row.now)))) }
    {
        let Some((part, parts)) = parts.split_first() else {
            return self.deal_member(from, cells);
        };
        let values = KeyValues::of(part, from.row);
        let Some(last) = values.count().checked_sub(1) else {
            return Ok(());
        };
        for nth in 0..last {
            let begun = longer(alloc, from.cells, cells.as_slice(), &values, nth)?;
            self.deal_groups(alloc, from, parts, begun)?;
        }
        let cells = pushed(cells, &values, last)?;
        self.deal_groups(alloc, from, parts, cells)
    }
}
