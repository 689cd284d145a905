//! Lists of anything, as contracts see them.

ghost use Rattle.std.specs.Prelude.{◌≡◌, ◌==◌, [], ◌∷◌, ◌++◌, length, OnOk, OnErr};

use std::alloc::{AllocError, Global};
use std::marker::Model;

/// A `Vec` that contracts see as the list of its elements.
#[derive(Drop)]
pub struct Sequence<T>(Vec<T>);

impl<T> Model for Sequence<T> {
    ghost use Rattle.std.specs.Prelude.{List};
    ghost use Rattle.std.specs.Coded.{coded_list};

    ghost Value = { List T };

    ghost coded = { coded_list T.code };

    ghost view = { λ s. s.0.items };
}

impl<T> Sequence<T> {
    /// A sequence without elements, which takes no memory.
    pub fn new(alloc: Global) -> Sequence<T>
        ensures { result ≡ [] }
    {
        Sequence(Vec::new(alloc))
    }

    /// Takes the elements over, without a copy.
    pub fn from_vec(items: Vec<T>) -> Sequence<T>
        ensures { result ≡ items.items }
    {
        Sequence(items)
    }

    /// Gives the elements back, without a copy.
    pub fn into_vec(self) -> Vec<T>
        ensures { result.items ≡ self }
    {
        let Sequence(items) = self;
        items
    }

    /// The elements in order.
    pub fn as_slice(&self) -> &[T]
        ensures { result.now ≡ self.now }
    {
        self.0.as_slice()
    }

    /// The number of elements.
    pub fn len(&self) -> usize
        ensures { result ≡ length self.now }
    {
        self.0.len()
    }

    pub fn is_empty(&self) -> bool
        ensures { result ≡ (length self.now == 0) }
    {
        self.0.is_empty()
    }
}

impl<T: Drop> Sequence<T> {
    /// Adds an element at the end. After an `Err` the sequence is as before.
    pub fn push(&mut self, item: T) -> Result<(), AllocError>
        ensures ok { OnOk result (self.new ≡ self.old ++ item ∷ []) }
        ensures err { OnErr result (self.new ≡ self.old) }
    {
        self.0.push(item)?;
        Ok(())
    }
}

/// A copy of each element, in memory of its own.
impl<T: Clone> Clone for Sequence<T> {
    ghost use Rattle.std.specs.List.{AllZip};

    ghost is_clone = { λ old new. AllZip T.is_clone old new };

    fn clone(&self) -> Result<Sequence<T>, AllocError> {
        Ok(Sequence(self.0.clone()?))
    }
}
