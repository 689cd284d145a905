//! What a partition keeps of groups, out of the bytes of its state.

ghost use Rattle.std.specs.Prelude.{All, IfOk, OnOk};
ghost use Rattle.ssq_value.specs.Key.{keys_of};
ghost use Rattle.ssq_meaning.specs.Fit.{IsFit};
ghost use Rattle.ssq_agg.specs.Holding.{Adds, AreRead, IsRead, IsReadAt, entries_at, seen};

use crate::total_bytes::read_totals;
use crate::totals::Totals;
use ssq_field::Bytes;
use ssq_keys::read_key;
use ssq_shape::Grouping;
use ssq_step::bytes_of_key;
use ssq_value::{Row, Value};
use ssq_version::StateMap;
use std::alloc::{AllocError, Global};

/// A key with its totals.
#[derive(Drop)]
pub(crate) struct Group {
    pub key: Row,
    pub totals: Totals,
}

/// The totals that the state keeps of a key.
pub(crate) fn totals_of(
    alloc: Global,
    grouping: &Grouping,
    state: &StateMap,
    key: &[Value],
) -> Result<Option<Totals>, AllocError>
    requires { All IsFit key.now }
    ensures { IfOk result (IsReadAt grouping.now.aggregates state.now (keys_of key.now)) }
{
    let key = bytes_of_key(alloc, key)?;
    match state.get(&key) {
        Some(value) => read_totals(alloc, grouping.aggregates.as_slice(), value.as_slice()),
        None => Ok(None),
    }
}

/// The group of an entry of the state, where it is one.
fn read_group(
    alloc: Global,
    grouping: &Grouping,
    key: &Bytes,
    value: &Bytes,
) -> Result<Option<Group>, AllocError>
    ensures { IfOk result (IsRead grouping.now (key.now, value.now)) }
{
    let Some(key) = read_key(alloc, key.as_slice(), grouping.keys.len())? else {
        return Ok(None);
    };
    match read_totals(alloc, grouping.aggregates.as_slice(), value.as_slice())? {
        Some(totals) => Ok(Some(Group { key, totals })),
        None => Ok(None),
    }
}

/// Adds the group of an entry of the state, where it is one.
fn add_group(
    alloc: Global,
    grouping: &Grouping,
    groups: &mut Vec<Group>,
    key: &Bytes,
    value: &Bytes,
) -> Result<(), AllocError>
    ensures { OnOk result (Adds grouping.now (key.now, value.now) groups.old.items groups.new.items) }
{
    if let Some(group) = read_group(alloc, grouping, key, value)? {
        groups.push(group)?;
    }
    Ok(())
}

/// The groups of all entries of the state that are one.
pub(crate) fn all_groups(
    alloc: Global,
    grouping: &Grouping,
    state: &StateMap,
) -> Result<Vec<Group>, AllocError>
    ensures { IfOk result (λ groups. AreRead grouping.now state.now groups.items) }
{
    let mut groups = Vec::new(alloc);
    for (key, value) in state.iter(alloc)? {
        add_group(alloc, grouping, &mut groups, key, value)?;
    }
    Ok(groups)
}

/// The groups of the state under these keys.
pub(crate) fn groups_at(
    alloc: Global,
    grouping: &Grouping,
    state: &StateMap,
    keys: &[&Bytes],
) -> Result<Vec<Group>, AllocError>
    ensures { IfOk result (λ groups. AreRead grouping.now (entries_at state.now (seen keys.now)) groups.items) }
{
    let mut groups = Vec::new(alloc);
    for key in keys {
        let Some(value) = state.get(key) else {
            continue;
        };
        add_group(alloc, grouping, &mut groups, key, value)?;
    }
    Ok(groups)
}
