//! What a partition keeps.

ghost use Rattle.std.specs.Prelude.{◌≡◌, ◌==◌, ◌<◌, ◌^◌, [], length, IfOk, option_copied};
ghost use Rattle.ssq_version.specs.State.{begins_with as begins, from_key, value_at, IsState};

use crate::map::{Entries, Map};
use ssq_field::Bytes;
use std::alloc::{AllocError, Global};
use std::collections::BTreeMap;
use std::marker::Model;

/// What a partition keeps: the value of each of its keys. Contracts see the list of keys with their values, in the order of the keys'
/// bytes. A key and a value have fewer than 2^32 bytes each.
#[derive(Drop)]
pub struct StateMap(pub(crate) Map);

impl Model for StateMap {
    ghost use Rattle.ssq_version.specs.State.{State, IsState};
    ghost use Rattle.ssq_version.specs.Map.{entries_in};

    ghost Value = { State };

    ghost view = { λ state. entries_in state.0 };

    ghost invariant = { λ state. IsState (entries_in state.0) };
}

impl StateMap {
    /// A state that keeps nothing, as before the first version.
    pub fn new(alloc: Global) -> StateMap
        ensures { result ≡ [] }
    {
        StateMap(Map::Ordered(BTreeMap::new(alloc)))
    }

    /// The same state, whose keys are found by their hashes from now on: for an operator that looks up single keys. A look-up then reads
    /// little of the memory that all keys take, and the entries are sorted each time that they are asked for in order.
    pub fn hashed(self, alloc: Global) -> Result<StateMap, AllocError>
        ensures { IfOk result (λ state. state ≡ self) }
    {
        let StateMap(map) = self;
        Ok(StateMap(map.hashed(alloc)?))
    }

    /// The value of a key.
    pub fn get(&self, key: &Bytes) -> Option<&Bytes>
        ensures { option_copied result ≡ value_at self.now key.now }
    {
        self.0.get(key)
    }

    /// The keys with their values, in order.
    pub fn iter(&self, alloc: Global) -> Result<Entries<'_>, AllocError>
        ensures { IfOk result (λ entries. entries ≡ self.now) }
    {
        self.0.from_key(alloc, &Bytes::new(alloc))
    }

    /// The keys from this one on, with their values, in order. So the keys that begin with it come first.
    pub fn iter_from(&self, alloc: Global, key: &Bytes) -> Result<Entries<'_>, AllocError>
        ensures { IfOk result (λ entries. entries ≡ from_key key.now self.now) }
    {
        self.0.from_key(alloc, key)
    }

    pub fn is_empty(&self) -> bool
        ensures empty { result ≡ (length self.now == 0) }
        ensures kept { IsState self.now }
        ensures few { length self.now < 2 ^ 64 }
    {
        self.0.is_empty()
    }
}

/// Whether a key begins with these bytes. The keys of a state that do stand together, as the first ones from these bytes on.
pub fn begins_with(key: &Bytes, prefix: &Bytes) -> bool
    ensures { result ≡ begins prefix.now key.now }
{
    key.as_slice().starts_with(prefix.as_slice())
}

/// The law of states: their keys ascend, and keys and values are short.
pub fn states_are_kept(state: &StateMap)
    ensures kept { IsState state.now }
    ensures few { length state.now < 2 ^ 64 }
{
    let _empty = state.is_empty();
}
