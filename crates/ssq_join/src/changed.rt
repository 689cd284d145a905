//! What an epoch changes in the rows that a partition keeps.

ghost use Rattle.std.specs.Prelude.{◌≡◌, IfOk, OnOk};
ghost use Rattle.ssq_version.specs.State.{Ascends, IsShort, value_at};
ghost use Rattle.ssq_step.specs.Indexing.{seen};
ghost use Rattle.ssq_join.specs.Changing.{SaysBytes, SaysFlags, SaysFresh, SaysIf, flag_of, flagged, flagged_if, is_flagged};

use ssq_field::Bytes;
use ssq_step::{forget, short};
use ssq_version::{Change, Draft, StateMap};
use std::alloc::{AllocError, Global};
use std::collections::{BTreeMap, BTreeSet};

/// The bytes with 1, which says that a partner was met, as the last.
fn with_flag(bytes: Bytes) -> Result<Bytes, AllocError>
    ensures { IfOk result (λ own. own ≡ flagged bytes) }
{
    let mut bytes = bytes;
    let Some(len) = bytes.len().checked_sub(1) else {
        return Ok(bytes);
    };
    bytes.truncate(len);
    bytes.extend(&[1])?;
    Ok(bytes)
}

/// What is kept of a row that met a partner, by what was kept of it.
fn flagged(value: &Bytes) -> Result<Bytes, AllocError>
    ensures bytes { IfOk result (λ bytes. bytes ≡ flagged value.now) }
    ensures short { IfOk result IsShort }
{
    let bytes = with_flag(value.clone()?)?;
    short(bytes)
}

/// Whether what is kept of a row says that it met a partner.
pub(crate) fn is_flagged(value: &Bytes) -> bool
    ensures { result ≡ is_flagged value.now }
{
    match value.as_slice().split_last() {
        Some((last, _)) => *last == 1,
        None => false,
    }
}

/// What is kept of a new row, by whether it met a partner.
fn flagged_if(met: bool, value: Bytes) -> Result<Bytes, AllocError>
    ensures bytes { IfOk result (λ bytes. bytes ≡ flagged_if met value) }
    ensures short { IfOk result IsShort }
{
    let value = if met { with_flag(value)? } else { value };
    short(value)
}

/// The law of maps: their keys ascend.
fn keys_ascend(fresh: &BTreeMap<Bytes, Bytes>)
    ensures { Ascends fresh.now.entries }
{
    let _count = fresh.len();
}

/// Says that each new row is kept. The draft takes over what is kept of the rows.
fn put_fresh(
    draft: &mut Draft,
    fresh: BTreeMap<Bytes, Bytes>,
    met: &BTreeSet<Bytes>,
) -> Result<(), AllocError>
    ensures { OnOk result (SaysFresh fresh.entries met.now.keys draft.old draft.new) }
{
    keys_ascend(&fresh);
    for (key, value) in fresh {
        let value = flagged_if(met.contains(&key), value)?;
        draft.put(short(key)?, value)?;
    }
    Ok(())
}

/// Says of a row that met a partner that it did, where it met its first.
fn put_flag(draft: &mut Draft, state: &StateMap, key: &Bytes) -> Result<(), AllocError>
    ensures { OnOk result (SaysIf key.now (flag_of (value_at state.now key.now)) draft.old draft.new) }
{
    let Some(value) = state.get(key) else {
        return Ok(());
    };
    if is_flagged(value) {
        return Ok(());
    }
    draft.put(short(key.clone()?)?, flagged(value)?)
}

/// Says of the kept rows that met a partner first that they did.
fn put_flags(draft: &mut Draft, state: &StateMap, met: &BTreeSet<Bytes>) -> Result<(), AllocError>
    ensures { OnOk result (SaysFlags state.now met.now.keys draft.old draft.new) }
{
    for key in met.iter() {
        put_flag(draft, state, key)?;
    }
    Ok(())
}

/// What changes: each new row is kept, rows that met a partner first are kept as such, and rows that are over go.
pub(crate) fn changed(
    alloc: Global,
    state: &StateMap,
    fresh: BTreeMap<Bytes, Bytes>,
    met: &BTreeSet<Bytes>,
    over: &[&Bytes],
) -> Result<Change, AllocError>
    ensures { IfOk result (SaysBytes state.now fresh.entries met.now.keys (seen over.now)) }
{
    let mut draft = Draft::new(alloc);
    put_fresh(&mut draft, fresh, met)?;
    put_flags(&mut draft, state, met)?;
    forget(&mut draft, over)?;
    draft.into_change(alloc)
}
