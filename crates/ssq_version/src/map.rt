//! How a state keeps its entries.

ghost use Rattle.std.specs.Prelude.{◌≡◌, ◌<◌, ◌^◌, ◌==◌, length, Some, None, IsSome, IsOk, IfOk, OnOk, OnErr, option_copied};
ghost use Rattle.ssq_version.specs.State.{Ascends, IsChangedAt, IsShort, IsState, from_key, in_order, value_at};
ghost use Rattle.ssq_version.specs.Map.{entries_in, shown};

use crate::entries::map_of;
use ssq_field::Bytes;
use std::alloc::{AllocError, Global};
use std::collections::btree_map::Range;
use std::collections::{BTreeMap, HashMap};
use std::marker::Model;
use std::ops::Bound;

/// The entries of a state: the value of each key.
#[derive(Drop)]
pub(crate) enum Map {
    /// In the order of keys, so that those that begin alike are found together.
    Ordered(BTreeMap<Bytes, Bytes>),
    /// By the hashes of keys. A key is found by reading little of the memory that all take.
    Hashed(HashMap<Bytes, Bytes>),
}

/// Entries of a state that are lent one after the other, in the order of keys. Contracts see those that are left.
#[derive(Drop)]
pub struct Entries<'a>(Left<'a>);

/// What is left of them.
#[derive(Drop)]
enum Left<'a> {
    Ordered(Range<'a, Bytes, Bytes>),
    /// The last one first.
    Listed(Vec<(&'a Bytes, &'a Bytes)>),
}

impl<'a> Model for Entries<'a> {
    ghost use Rattle.ssq_version.specs.State.{State};
    ghost use Rattle.ssq_version.specs.Map.{entries_left};

    ghost Value = { State };

    ghost view = { λ entries. entries_left entries.0 };
}

impl<'a> Iterator for Entries<'a> {
    type Item = (&'a Bytes, &'a Bytes);

    ghost use Rattle.std.specs.Prelude.{length};
    ghost use Rattle.std.specs.Iterator.{at_most};
    ghost use Rattle.std.specs.Map.Iter.{TakesFirst, deref_pair};

    ghost next_gives = { TakesFirst deref_pair };

    ghost remaining = { λ entries. at_most (length entries) };

    fn next(&mut self) -> Option<(&'a Bytes, &'a Bytes)> {
        match &mut self.0 {
            Left::Ordered(entries) => entries.next(),
            Left::Listed(entries) => entries.pop(),
        }
    }
}

/// The entries of a map from a key on.
pub fn entries_from<'a>(map: &'a BTreeMap<Bytes, Bytes>, key: &Bytes) -> Entries<'a>
    ensures entries { result ≡ from_key key.now map.now.entries }
    ensures ascend { Ascends map.now.entries }
{
    Entries(Left::Ordered(map.range((Bound::Included(key), Bound::Unbounded))))
}

/// The table of these entries, whose keys ascend.
fn table_of(
    alloc: Global,
    entries: Vec<(Bytes, Bytes)>,
) -> Result<HashMap<Bytes, Bytes>, AllocError>
    ensures { Ascends entries.items → IfOk result (λ table. in_order table.entries ≡ entries.items) }
{
    entries.into_iter().collect(alloc)
}

/// The table of the entries of a map.
fn hashed(alloc: Global, map: BTreeMap<Bytes, Bytes>) -> Result<HashMap<Bytes, Bytes>, AllocError>
    ensures { IfOk result (λ table. in_order table.entries ≡ map.entries) }
{
    map.into_iter().collect(alloc)
}

/// The entries of a table from a key on, in the order of keys.
fn listed<'a>(
    alloc: Global,
    table: &'a HashMap<Bytes, Bytes>,
    key: &Bytes,
) -> Result<Vec<(&'a Bytes, &'a Bytes)>, AllocError>
    ensures { IfOk result (λ list. shown list.items ≡ from_key key.now (in_order table.now.entries)) }
{
    let mut list = Vec::new(alloc);
    for entry in table.iter() {
        if key.cmp(entry.0).is_le() {
            list.push(entry)?;
        }
    }
    list.sort_unstable();
    Ok(list)
}

impl Map {
    /// The value of a key.
    pub(crate) fn get(&self, key: &Bytes) -> Option<&Bytes>
        ensures { option_copied result ≡ value_at (entries_in self.now) key.now }
    {
        match self {
            Map::Ordered(map) => map.get(key),
            Map::Hashed(table) => table.get(key),
        }
    }

    /// The entries from this key on, in the order of keys.
    pub(crate) fn from_key(&self, alloc: Global, key: &Bytes) -> Result<Entries<'_>, AllocError>
        ensures { IfOk result (λ entries. entries ≡ from_key key.now (entries_in self.now)) }
    {
        match self {
            Map::Ordered(map) => Ok(entries_from(map, key)),
            Map::Hashed(table) => {
                let mut entries = listed(alloc, table, key)?;
                entries.reverse();
                Ok(Entries(Left::Listed(entries)))
            }
        }
    }

    /// Gives a key a value. After an `Err`, which comes for a new key alone, the entries are as before.
    pub(crate) fn insert(&mut self, key: Bytes, value: Bytes) -> Result<(), AllocError>
        ensures ok { OnOk result (IsChangedAt key (Some value) (entries_in self.old) (entries_in self.new)) }
        ensures err { OnErr result (entries_in self.new ≡ entries_in self.old) }
        ensures old { IsSome (value_at (entries_in self.old) key) → IsOk result }
        ensures kept { IsShort key → IsShort value → IsState (entries_in self.old) → IsState (entries_in self.new) }
    {
        match self {
            Map::Ordered(map) => {
                map.insert(key, value)?;
            }
            Map::Hashed(table) => {
                table.insert(key, value)?;
            }
        }
        Ok(())
    }

    /// Takes a key away, where it is there.
    pub(crate) fn remove(&mut self, key: &Bytes)
        ensures changed { IsChangedAt key.now None (entries_in self.old) (entries_in self.new) }
        ensures kept { IsState (entries_in self.old) → IsState (entries_in self.new) }
    {
        match self {
            Map::Ordered(map) => {
                map.remove(key);
            }
            Map::Hashed(table) => {
                table.remove(key);
            }
        }
    }

    pub(crate) fn is_empty(&self) -> bool
        ensures empty { result ≡ (length (entries_in self.now) == 0) }
        ensures few { length (entries_in self.now) < 2 ^ 64 }
    {
        match self {
            Map::Ordered(map) => map.len() == 0,
            Map::Hashed(table) => table.len() == 0,
        }
    }

    /// These entries, whose keys ascend, kept in the same way.
    pub(crate) fn filled(
        &self,
        alloc: Global,
        entries: Vec<(Bytes, Bytes)>,
    ) -> Result<Map, AllocError>
        ensures { Ascends entries.items → IfOk result (λ map. entries_in map ≡ entries.items) }
    {
        match self {
            Map::Ordered(_) => Ok(Map::Ordered(map_of(alloc, entries)?)),
            Map::Hashed(_) => Ok(Map::Hashed(table_of(alloc, entries)?)),
        }
    }

    /// The same entries, by the hashes of keys.
    pub(crate) fn hashed(self, alloc: Global) -> Result<Map, AllocError>
        ensures { IfOk result (λ map. entries_in map ≡ entries_in self) }
    {
        match self {
            Map::Ordered(map) => Ok(Map::Hashed(hashed(alloc, map)?)),
            Map::Hashed(table) => Ok(Map::Hashed(table)),
        }
    }
}
