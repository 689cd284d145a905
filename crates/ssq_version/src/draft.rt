//! A change in the making.

ghost use Rattle.std.specs.Prelude.{◌≡◌, [], ℕ, List, None, Some, IfOk, OnOk, OnErr};
ghost use Rattle.ssq_version.specs.State.{value_at, IsShort, IsShortOrNone, IsToldAt};

use crate::change::Change;
use ssq_field::Bytes;
use std::alloc::{AllocError, Global};
use std::marker::Model;

/// What a version changes, in the making: it is said entry by entry, in any order of the keys, and put in order once. Contracts see the entries, the
/// last one first: of each key that one counts.
#[derive(Drop)]
pub struct Draft(Vec<(Bytes, Option<Bytes>)>);

impl Model for Draft {
    ghost use Rattle.std.specs.Prelude.{All};
    ghost use Rattle.ssq_version.specs.State.{Change as Told, IsShortEntry, last_first};

    ghost Value = { Told };

    ghost view = { λ draft. last_first draft.0.items };

    ghost invariant = { λ draft. All IsShortEntry draft.0.items };
}

impl Draft {
    /// Nothing is said yet.
    pub fn new(alloc: Global) -> Draft
        ensures { result ≡ [] }
    {
        Draft(Vec::new(alloc))
    }

    /// Says that the key has this value from now on, in place of what was said of it. After an `Err` the draft is as before.
    pub fn put(&mut self, key: Bytes, value: Bytes) -> Result<(), AllocError>
        requires key { IsShort key }
        requires value { IsShort value }
        ensures told { OnOk result (IsToldAt key (Some value) self.old self.new) }
        ensures err { OnErr result (self.new ≡ self.old) }
    {
        self.say(key, Some(value))
    }

    /// Says that the key goes, in place of what was said of it. After an `Err` the draft is as before.
    pub fn remove(&mut self, key: Bytes) -> Result<(), AllocError>
        requires { IsShort key }
        ensures told { OnOk result (IsToldAt key None self.old self.new) }
        ensures err { OnErr result (self.new ≡ self.old) }
    {
        self.say(key, None)
    }

    fn say(&mut self, key: Bytes, value: Option<Bytes>) -> Result<(), AllocError>
        requires key { IsShort key }
        requires value { IsShortOrNone value }
        ensures told { OnOk result (IsToldAt key value self.old self.new) }
        ensures err { OnErr result (self.new ≡ self.old) }
    {
        self.0.push((key, value))?;
        Ok(())
    }

    /// The change that says all that.
    pub fn into_change(self, alloc: Global) -> Result<Change, AllocError>
        ensures { IfOk result (λ change. (key : List ℕ) → value_at change key ≡ value_at self key) }
    {
        let Draft(entries) = self;
        Change::of_entries(alloc, entries)
    }
}
