//! What a step changes in the state.

ghost use Rattle.std.specs.Prelude.{◌≡◌, ◌++◌, ◌∷◌, [], ℕ, Some, All, map, IfOk, OnOk};
ghost use Rattle.std.specs.HashMap.{get};
ghost use Rattle.ssq_meaning.specs.Group.{is_same};
ghost use Rattle.ssq_value.specs.Key.{keys_of};
ghost use Rattle.ssq_version.specs.State.{IsShortEntry};
ghost use Rattle.ssq_meaning.specs.Fit.{IsFit};
ghost use Rattle.ssq_meaning.specs.Totals.{totals_bytes};
ghost use Rattle.ssq_agg.specs.Readable.{AreFit, AreFitGroups, IsFitGroup};
ghost use Rattle.ssq_agg.specs.Steps.{AreKeys, AreTouchedKeys, Says, gone_entry, keys_of_groups};

use crate::kept::Group;
use crate::total_bytes::bytes_of;
use crate::totals::Totals;
use ssq_field::Bytes;
use ssq_step::{Key, bytes_of_key, short};
use ssq_value::keys_are_apart;
use ssq_version::Change;
use std::alloc::{AllocError, Global};
use std::collections::HashMap;

/// Says that a group has these totals from now on.
fn put_group(
    alloc: Global,
    entries: &mut Vec<(Bytes, Option<Bytes>)>,
    key: &Key<'_>,
    totals: &Totals,
) -> Result<(), AllocError>
    requires { IsFitGroup key.now totals.now }
    ensures said { OnOk result (entries.new.items ≡ entries.old.items ++ (keys_of key.now, Some (totals_bytes totals.now)) ∷ []) }
    ensures short { All IsShortEntry entries.old.items → OnOk result (All IsShortEntry entries.new.items) }
{
    let key = bytes_of_key(alloc, key.values())?;
    let value = short(Bytes::from_vec(bytes_of(alloc, totals.as_slice())?))?;
    entries.push((key, Some(value)))?;
    Ok(())
}

/// Says that a group goes.
fn remove_group(
    alloc: Global,
    entries: &mut Vec<(Bytes, Option<Bytes>)>,
    group: &Group,
) -> Result<(), AllocError>
    requires { All IsFit group.now.key }
    ensures said { OnOk result (entries.new.items ≡ entries.old.items ++ gone_entry group.now ∷ []) }
    ensures short { All IsShortEntry entries.old.items → OnOk result (All IsShortEntry entries.new.items) }
{
    let key = bytes_of_key(alloc, group.key.as_slice())?;
    entries.push((key, None))?;
    Ok(())
}

/// That the groups go, in a list with room for so many entries.
fn removed(
    alloc: Global,
    groups: &[Group],
    room: usize,
) -> Result<Vec<(Bytes, Option<Bytes>)>, AllocError>
    requires { AreFit groups.now }
    ensures said { IfOk result (λ entries. entries.items ≡ map gone_entry groups.now) }
    ensures short { IfOk result (λ entries. All IsShortEntry entries.items) }
{
    let mut entries = Vec::with_capacity(alloc, room)?;
    for group in groups {
        remove_group(alloc, &mut entries, group)?;
    }
    Ok(entries)
}

/// What changes: the groups that were touched have their totals from now on, and those that are closed go. What is said of each group is put
/// in order once.
pub(crate) fn changed(
    alloc: Global,
    touched: &HashMap<Key<'_>, Totals>,
    closed: &[Group],
) -> Result<Change, AllocError>
    requires touched { AreFitGroups touched.now }
    requires closed { AreFit closed.now }
    ensures { (many : ℕ) → AreKeys many (keys_of_groups closed.now) → AreTouchedKeys many touched.now → IfOk result (Says many (get is_same touched.now) closed.now) }
{
    keys_are_apart();
    let room = closed.len().saturating_add(touched.len());
    let mut entries = removed(alloc, closed, room)?;
    for (key, totals) in touched.iter() {
        put_group(alloc, &mut entries, key, totals)?;
    }
    Change::of_entries(alloc, entries)
}
