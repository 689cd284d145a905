//! A new row, and the rows before it that may be its partners.

ghost use Rattle.std.specs.Prelude.{◌≡◌, ◌||◌, ℕ, Bool, List, All, if◌then◌else◌, IfOk, OnOk};
ghost use Rattle.std.specs.BTreeMap.{is_at};
ghost use Rattle.ssq_version.specs.State.{by_bytes};
ghost use Rattle.ssq_meaning.specs.FedRows.{FedRow as Fed};
ghost use Rattle.ssq_meaning.specs.Fit.{IsFit, IsFitRow};
ghost use Rattle.ssq_meaning.specs.Join.{row_key};
ghost use Rattle.ssq_step.specs.Shown.{ArePrintable};
ghost use Rattle.ssq_join.specs.Meeting.{IsOther, MeetsFront, are_near, joined, with_candidate};
ghost use Rattle.ssq_join.specs.Telling.{Meets, Pair, among};

use crate::judge::judge;
use crate::near::is_near;
use ssq_field::Bytes;
use ssq_meaning::FedRow;
use ssq_shape::{Bound, Joining};
use ssq_step::{KeptRow, Shown, event_time, read_row};
use ssq_value::Value;
use ssq_version::{Entries, begins_with};
use std::alloc::{AllocError, Global};
use std::collections::BTreeSet;

/// A new row, with the bytes under which it will be kept.
#[derive(Clone, Copy)]
pub(crate) struct Comer<'a> {
    pub(crate) row: &'a FedRow,
    /// The bytes of its join key.
    pub(crate) key_bytes: &'a [u8],
    pub(crate) bytes: &'a Bytes,
}

/// Whether a new row and one of the other side with this time meet the bound.
fn are_near(joining: &Joining, row: &FedRow, time: Option<i64>) -> bool
    ensures { result ≡ are_near joining.now row.now time }
{
    if row.stream() == 0 {
        is_near(joining.bound, row.time(), time)
    } else {
        is_near(joining.bound, time, row.time())
    }
}

/// A row's own values with those of one of the other side, which are moved: the left row's, and then the right one's.
fn joined(alloc: Global, own: &[Value], other: KeptRow) -> Result<Vec<Value>, AllocError>
    ensures { IfOk result (λ row. row.items ≡ joined other.left own.now other.values) }
{
    let KeptRow {
        left,
        values,
        met: _,
    } = other;
    let mut values = values.into_vec();
    if left {
        values.extend_with_clones(own)?;
        Ok(values)
    } else {
        let mut row = own.to_vec(alloc)?;
        row.append(&mut values)?;
        Ok(row)
    }
}

/// Knows these bytes from now on, too. They are copied where they were not known.
fn add_key(met: &mut BTreeSet<Bytes>, key: &Bytes) -> Result<(), AllocError>
    ensures { OnOk result ((bytes : List ℕ) → among met.new.keys bytes ≡ (is_at (by_bytes bytes) key.now || among met.old.keys bytes)) }
{
    if !met.contains(key) {
        met.insert(key.clone()?)?;
    }
    Ok(())
}

/// Knows from now on that the rows with these bytes met a partner, where they did.
fn know(
    met: &mut BTreeSet<Bytes>,
    is_partner: bool,
    first: &Bytes,
    second: &Bytes,
) -> Result<(), AllocError>
    ensures { OnOk result ((bytes : List ℕ) → among met.new.keys bytes ≡
        (if is_partner then (is_at (by_bytes bytes) first.now || (is_at (by_bytes bytes) second.now || among met.old.keys bytes)) else among met.old.keys bytes)) }
{
    if is_partner {
        add_key(met, second)?;
        add_key(met, first)?;
    }
    Ok(())
}

/// Takes in a row of the other side that is kept with the join key of a new one. Only where the two are near it is read: its time alone is told
/// without a copy.
fn meet_row(
    alloc: Global,
    bound: &Bound,
    joining: &Joining,
    comer: Comer<'_>,
    key: &Bytes,
    value: &Bytes,
    found: &mut Shown,
    met: &mut BTreeSet<Bytes>,
) -> Result<(), AllocError>
    requires row { IsFitRow comer.row.now }
    requires bytes { comer.bytes.now ≡ row_key comer.row.now }
    requires printable { ArePrintable found.old.rows.items }
    ensures meets { (other : Fed) (was_met : Bool) (pairs : List Pair) → IsOther bound.now joining.now comer.entry.row.now other was_met key.now value.now →
        Meets bound.now joining.now pairs found.old met.old.keys →
        OnOk result (Meets bound.now joining.now (with_candidate joining.now comer.entry.row.now other pairs) found.new met.new.keys) }
    ensures printable { OnOk result (ArePrintable found.new.rows.items) }
{
    let time = event_time(bound, joining, key, value);
    if !are_near(joining, comer.row, time) {
        return Ok(());
    }
    let read = read_row(alloc, bound, key, value)?;
    let Some(other) = read else {
        return Ok(());
    };
    let row = joined(alloc, comer.row.values(), other)?;
    let is_partner = judge(
        alloc,
        bound,
        joining,
        comer.row.key(),
        row.as_slice(),
        found,
    )?;
    know(met, is_partner, comer.bytes, key)
}

/// Takes in the rows among some that are kept that may be partners of a new row: those of the other side with its join key. They stand together
/// in the order of bytes, so that no other row is read.
pub(crate) fn meet(
    alloc: Global,
    bound: &Bound,
    joining: &Joining,
    comer: Comer<'_>,
    prefix: &Bytes,
    kept: Entries<'_>,
    found: &mut Shown,
    met: &mut BTreeSet<Bytes>,
) -> Result<(), AllocError>
    requires row { IsFitRow comer.row.now }
    requires bytes { comer.bytes.now ≡ row_key comer.row.now }
    requires printable { ArePrintable found.old.rows.items }
    ensures meets { OnOk result (MeetsFront bound.now joining.now comer.entry.row.now prefix.now kept.entry found.old found.new met.old.keys met.new.keys) }
    ensures printable { OnOk result (ArePrintable found.new.rows.items) }
{
    for (key, value) in kept {
        if !begins_with(key, prefix) {
            break;
        }
        meet_row(alloc, bound, joining, comer, key, value, found, met)?;
    }
    Ok(())
}
