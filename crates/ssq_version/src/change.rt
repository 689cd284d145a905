//! What a version changes.

ghost use Rattle.std.specs.Prelude.{◌≡◌, ◌<◌, ◌^◌, ℕ, List, All, [], length, IfOk};
ghost use Rattle.ssq_version.specs.State.{last_at, value_at, IsChange, IsShortEntry};

use ssq_field::Bytes;
use std::alloc::{AllocError, Global};
use std::collections::BTreeMap;
use std::collections::btree_map::Iter;
use std::marker::Model;

/// What a version changes in the state of a partition: for each key in it the new value, or none where the key goes. Contracts see the
/// list of keys with these, in the order of the keys' bytes. A key and a value have fewer than 2^32 bytes each.
#[derive(Drop)]
pub struct Change(pub(crate) BTreeMap<Bytes, Option<Bytes>>);

impl Model for Change {
    ghost use Rattle.ssq_version.specs.State.{Change as Told, IsChange};

    ghost Value = { Told };

    ghost view = { λ change. change.0.entries };

    ghost invariant = { λ change. IsChange change.0.entries };
}

/// The map of these entries, in which each key has what the last one of it says.
fn made_of(
    alloc: Global,
    entries: Vec<(Bytes, Option<Bytes>)>,
) -> Result<BTreeMap<Bytes, Option<Bytes>>, AllocError>
    requires { All IsShortEntry entries.items }
    ensures said { IfOk result (λ made. (key : List ℕ) → value_at made.entries key ≡ last_at entries.items key) }
    ensures kept { IfOk result (λ made. IsChange made.entries) }
{
    entries.into_iter().collect(alloc)
}

impl Change {
    /// A change of nothing.
    pub fn new(alloc: Global) -> Change
        ensures { result ≡ [] }
    {
        Change(BTreeMap::new(alloc))
    }

    /// A change that says all these entries, in any order, of each key the last one. They are put in order once.
    pub fn of_entries(
        alloc: Global,
        entries: Vec<(Bytes, Option<Bytes>)>,
    ) -> Result<Change, AllocError>
        requires { All IsShortEntry entries.items }
        ensures { IfOk result (λ change. (key : List ℕ) → value_at change key ≡ last_at entries.items key) }
    {
        Ok(Change(made_of(alloc, entries)?))
    }

    /// The keys with what it says of them, in order.
    pub fn iter(&self) -> Iter<'_, Bytes, Option<Bytes>>
        ensures { result ≡ self.now }
    {
        self.0.iter()
    }

    /// How many keys it speaks of.
    pub fn len(&self) -> usize
        ensures len { result ≡ length self.now }
        ensures kept { IsChange self.now }
    {
        self.0.len()
    }
}

/// A copy in memory of its own.
impl Clone for Change {
    ghost is_clone = { λ old new. new ≡ old };

    fn clone(&self) -> Result<Change, AllocError> {
        Ok(Change(self.0.clone()?))
    }
}

/// The law of changes: their keys ascend, and keys and values are short.
pub fn changes_are_kept(change: &Change)
    ensures kept { IsChange change.now }
    ensures few { length change.now < 2 ^ 64 }
{
    let _count = change.len();
}
