//! The file of a whole state.

ghost use Rattle.std.specs.Prelude.{◌≡◌, ◌<◌, ◌^◌, ℕ, List, Some, length, IfOk, IfSome};
ghost use Rattle.std.specs.List.{AllByRecursion};
ghost use Rattle.ssq_version.specs.State.{State as Kept, IsState};
ghost use Rattle.ssq_version.specs.Text.{snapshot_text, entries_text, IsSpelled, IsFile, said_of, shown};
ghost use Rattle.ssq_version.specs.declared.form.Form.TheVariants.{Snapshot};

use crate::entries::{kept_entries, map_of};
use crate::entry::Entry;
use crate::file::{StateFile, read_file};
use crate::form::Form;
use crate::layers::write_given;
use crate::map::Map;
use crate::state::{StateMap, states_are_kept};
use ssq_field::Bytes;
use std::alloc::{AllocError, Global};

/// The entries of a state, in the order of keys.
fn entries_of(alloc: Global, map: &StateMap) -> Result<Vec<Entry<'_>>, AllocError>
    ensures { IfOk result (λ entries. shown entries.items ≡ said_of map.now) }
{
    let kept = map.iter(alloc)?;
    let mut entries = Vec::new(alloc);
    for (key, value) in kept {
        entries.push(Entry {
            key: key.as_slice(),
            value: Some(value.as_slice()),
        })?;
    }
    Ok(entries)
}

/// The file of the whole state of a partition at a version.
pub fn write_snapshot(
    alloc: Global,
    partition: u32,
    version: u32,
    map: &StateMap,
) -> Result<Bytes, AllocError>
    ensures { IfOk result (λ text. text ≡ snapshot_text partition version map.now) }
{
    states_are_kept(map);
    let entries = entries_of(alloc, map)?;
    write_given(alloc, partition, version, entries.as_slice())
}

/// The state in a file that was read.
fn state_in(alloc: Global, file: StateFile<'_>) -> Result<StateMap, AllocError>
    requires { (text : List ℕ) × IsFile Snapshot text file.partition file.version file.count file.entries.now }
    ensures { (state : Kept) → file.entry.entries.now ≡ entries_text Snapshot (said_of state) → AllByRecursion (IsSpelled Snapshot) (said_of state) → IfOk result (λ made. made ≡ state) }
{
    let entries = kept_entries(alloc, file.entries)?;
    Ok(StateMap(Map::Ordered(map_of(alloc, entries)?)))
}

/// The partition, the version and the state whose file these bytes are. `None` where they are no state's.
pub fn read_snapshot(alloc: Global, text: &[u8]) -> Result<Option<(u32, u32, StateMap)>, AllocError>
    ensures found { IfOk result (λ read. IfSome read (λ kept. text.now ≡ snapshot_text kept.0 kept.1 kept.2)) }
    ensures in_range { IfOk result (λ read. IfSome read (λ kept. (kept.0 < 2 ^ 32) × (kept.1 < 2 ^ 32) × IsState kept.2)) }
    // So `None` comes only where no state of a partition and a version has this file.
    ensures each { (partition version : ℕ) (state : Kept) → partition < 2 ^ 32 → version < 2 ^ 32 → IsState state → length state < 2 ^ 64 →
        text.now ≡ snapshot_text partition version state → IfOk result (λ read. read ≡ Some (partition, version, state)) }
{
    let Some(file) = read_file(Form::Snapshot, text) else {
        return Ok(None);
    };
    let state = state_in(alloc, file)?;
    Ok(Some((file.partition, file.version, state)))
}
