//! Rows that are over without a partner.

ghost use Rattle.std.specs.Prelude.{◌≡◌, ◌∷◌, Bool, List, All, Some, false, IfOk, IsSomeAnd, OnOk};
ghost use Rattle.ssq_value.specs.Key.{keys_of};
ghost use Rattle.ssq_shape.specs.declared.bound.Bound.{Bound as Query};
ghost use Rattle.ssq_meaning.specs.FedRows.{FedRow as Fed};
ghost use Rattle.ssq_meaning.specs.Fit.{IsFit};
ghost use Rattle.ssq_meaning.specs.Join.{Considered as Told, alone_of, is_left, is_outer_side, joined_alone, nulls, row_key, row_value};
ghost use Rattle.ssq_step.specs.Indexing.{seen};
ghost use Rattle.ssq_step.specs.Rows.{stream_of};
ghost use Rattle.ssq_step.specs.Shown.{ArePrintable};
ghost use Rattle.ssq_join.specs.Overs.{AreOver, IsHeld, IsRead, TellsAlone, with_alone};
ghost use Rattle.ssq_join.specs.Steps.{IsKept};
ghost use Rattle.ssq_join.specs.Telling.{Tells};

use crate::bytes::PLACE;
use crate::changed::is_flagged;
use crate::judge::show_row;
use ssq_field::Bytes;
use ssq_keys::read_key;
use ssq_shape::{Bound, JoinKind, Joining};
use ssq_step::{KeptRow, Shown, read_row, width_of};
use ssq_value::{Row, Value};
use ssq_version::StateMap;
use std::alloc::{AllocError, Global};

/// A NULL for each column of the stream of a side.
fn nulls(alloc: Global, bound: &Bound, left: bool) -> Result<Vec<Value>, AllocError>
    ensures { IfOk result (λ values. values.items ≡ nulls bound.now (stream_of left)) }
{
    Ok(vec![in alloc; Value::Null; width_of(bound, left)]?)
}

/// A row by itself, with NULLs in place of the other row.
fn joined_alone(alloc: Global, bound: &Bound, row: KeptRow) -> Result<Vec<Value>, AllocError>
    ensures { IfOk result (λ values. values.items ≡ joined_alone bound.now row.left row.values) }
{
    let mut others = nulls(alloc, bound, !row.left)?;
    let KeptRow {
        left,
        values,
        met: _,
    } = row;
    let mut own = values.into_vec();
    if left {
        own.append(&mut others)?;
        Ok(own)
    } else {
        others.append(&mut own)?;
        Ok(others)
    }
}

fn is_outer_side(kind: JoinKind, left: bool) -> bool
    ensures { result ≡ is_outer_side kind left }
{
    match kind {
        JoinKind::Inner => false,
        JoinKind::Left => left,
        JoinKind::Right => !left,
    }
}

/// Whether the row that is kept under these bytes is of a side whose rows are shown without a partner, by their first byte.
fn is_of_outer_side(kind: JoinKind, key: &[u8]) -> bool
    ensures { (row : Fed) → key.now ≡ row_key row → result ≡ is_outer_side kind (is_left row.stream) }
{
    match key.first() {
        Some(side) => is_outer_side(kind, *side == 0),
        None => false,
    }
}

/// The bytes of the join key among those under which a row is kept: those between its side and its place.
fn key_part(key: &[u8]) -> Option<&[u8]>
    ensures { (row : Fed) → key.now ≡ row_key row → IsSomeAnd result (λ own. own.now ≡ keys_of row.key) }
{
    let (_, rest) = key.split_first()?;
    let end = rest.len().checked_sub(PLACE)?;
    Some(&rest[..end])
}

/// The join key in the bytes under which a row is kept.
fn join_key(alloc: Global, joining: &Joining, key: &Bytes) -> Result<Option<Row>, AllocError>
    ensures { (bound : Query) (row : Fed) → IsKept bound joining.now row → key.now ≡ row_key row → IfOk result (λ own. own ≡ Some row.key) }
{
    match key_part(key.as_slice()) {
        Some(own) => read_key(alloc, own, joining.keys.len()),
        None => Ok(None),
    }
}

/// Shows a row without a partner.
fn show_alone(
    alloc: Global,
    bound: &Bound,
    own: &[Value],
    row: KeptRow,
    found: &mut Shown,
) -> Result<(), AllocError>
    requires fit { All IsFit row.values }
    requires printable { ArePrintable found.old.rows.items }
    ensures told { (fed : Fed) (all : List Told) → IsRead fed row → own.now ≡ fed.key → Tells found.old all →
        OnOk result (Tells found.new (alone_of bound.now fed ∷ all)) }
    ensures printable { OnOk result (ArePrintable found.new.rows.items) }
{
    let values = joined_alone(alloc, bound, row)?;
    show_row(alloc, bound, own, values.as_slice(), found)
}

/// Takes in a row that met no partner, by what is kept of it.
fn take_alone(
    alloc: Global,
    bound: &Bound,
    joining: &Joining,
    key: &Bytes,
    value: &Bytes,
    found: &mut Shown,
) -> Result<(), AllocError>
    requires printable { ArePrintable found.old.rows.items }
    ensures told { (row : Fed) (all : List Told) → IsKept bound.now joining.now row → key.now ≡ row_key row → value.now ≡ row_value false row → Tells found.old all →
        OnOk result (Tells found.new (alone_of bound.now row ∷ all)) }
    ensures printable { OnOk result (ArePrintable found.new.rows.items) }
{
    let own = join_key(alloc, joining, key)?;
    let Some(own) = own else {
        return Ok(());
    };
    let read = read_row(alloc, bound, key, value)?;
    let Some(row) = read else {
        return Ok(());
    };
    show_alone(alloc, bound, own.as_slice(), row, found)
}

/// Takes in a row that is over, where it met no partner and is shown without one.
fn take_over(
    alloc: Global,
    bound: &Bound,
    joining: &Joining,
    state: &StateMap,
    key: &Bytes,
    found: &mut Shown,
) -> Result<(), AllocError>
    requires printable { ArePrintable found.old.rows.items }
    ensures told { (met : Fed → Bool) (row : Fed) (all : List Told) → IsHeld bound.now joining.now state.now met row → key.now ≡ row_key row → Tells found.old all →
        OnOk result (Tells found.new (with_alone bound.now joining.now met row all)) }
    ensures printable { OnOk result (ArePrintable found.new.rows.items) }
{
    if !is_of_outer_side(joining.kind, key.as_slice()) {
        return Ok(());
    }
    let Some(value) = state.get(key) else {
        return Ok(());
    };
    if is_flagged(value) {
        return Ok(());
    }
    take_alone(alloc, bound, joining, key, value, found)
}

/// Takes in the rows that are over, each by the bytes under which it is kept.
pub(crate) fn take_all_over(
    alloc: Global,
    bound: &Bound,
    joining: &Joining,
    state: &StateMap,
    keys: &[&Bytes],
    found: &mut Shown,
) -> Result<(), AllocError>
    requires printable { ArePrintable found.old.rows.items }
    ensures told { (met : Fed → Bool) (over : List Fed) (all : List Told) → AreOver bound.now joining.now state.now met over (seen keys.now) → Tells found.old all →
        OnOk result (TellsAlone bound.now joining.now met over all found.new) }
    ensures printable { OnOk result (ArePrintable found.new.rows.items) }
{
    for key in keys {
        take_over(alloc, bound, joining, state, key, found)?;
    }
    Ok(())
}
