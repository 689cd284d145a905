//! What rows are grouped by.

ghost use Rattle.std.specs.Prelude.{◌≡◌, [], position};
ghost use Rattle.ssq_check.specs.Keys.{is_window_key, has_window, is_key, is_key_of};

use crate::scope::{Key, Spot};
use ssq_value::Sequence;
use std::alloc::Global;
use std::marker::Model;

/// What GROUP BY lists. Contracts see the list.
#[derive(Drop)]
pub struct Keys {
    list: Sequence<Key>,
}

impl Model for Keys {
    ghost use Rattle.std.specs.Prelude.{List};
    ghost use Rattle.ssq_check.specs.declared.scope.Key.{Key as Listed};

    ghost Value = { List Listed };

    ghost view = { λ k. k.list };
}

fn is_window_key(key: &Key) -> bool
    ensures { result ≡ is_window_key key.now }
{
    match key {
        Key::Window => true,
        Key::Column(_) => false,
    }
}

fn is_key_of(spot: Spot, key: &Key) -> bool
    ensures { result ≡ is_key_of spot key.now }
{
    match key {
        Key::Window => false,
        Key::Column(own) => own.side == spot.side && own.index == spot.index,
    }
}

impl Keys {
    /// Takes the keys over.
    pub fn new(list: Sequence<Key>) -> Keys
        ensures { result ≡ list }
    {
        Keys { list }
    }

    /// No keys.
    pub(crate) fn none(alloc: Global) -> Keys
        ensures { result ≡ [] }
    {
        Keys::new(Sequence::new(alloc))
    }

    /// The place of the first window.
    pub fn window(&self) -> Option<usize>
        ensures { result ≡ position is_window_key self.now }
    {
        self.list
            .as_slice()
            .iter()
            .position(|key| is_window_key(key))
    }

    /// Whether a window is among them.
    pub fn has_window(&self) -> bool
        ensures { result ≡ has_window self.now }
    {
        self.window().is_some()
    }

    /// The place of the first key that is this column.
    pub fn place(&self, spot: Spot) -> Option<usize>
        ensures { result ≡ position (is_key_of spot) self.now }
    {
        self.list
            .as_slice()
            .iter()
            .position(|key| is_key_of(spot, key))
    }

    /// Whether the column is among them.
    pub fn has(&self, spot: Spot) -> bool
        ensures { result ≡ is_key self.now spot }
    {
        self.place(spot).is_some()
    }
}
