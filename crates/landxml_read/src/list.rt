//! Lists that a contract compares with a list of the definitions.

ghost use Rattle.std.specs.Prelude.{◌≡◌, ◌↔◌, ◌++◌, ◌∷◌, [], IsTrue, OnOk, length, slice_get};
ghost use Rattle.std.specs.Option.{option_copied};

use std::alloc::{AllocError, Global};
use std::marker::Model;

/// A list of values in document order, in one allocation: contracts see the list alone.
#[derive(Drop)]
pub struct RawList<T> {
    items: Vec<T>,
}

impl<T> Model for RawList<T> {
    ghost use Rattle.std.specs.Prelude.{List};

    ghost Value = { List T };

    ghost view = { λ a. a.items.items };
}

impl<T> RawList<T> {
    /// No value, without memory.
    pub(crate) fn new(alloc: Global) -> RawList<T>
        ensures { result ≡ [] }
    {
        RawList {
            items: Vec::new(alloc),
        }
    }

    /// The vector's values. Takes no memory.
    pub fn from_vec(items: Vec<T>) -> RawList<T>
        ensures items { result ≡ items.items }
    {
        RawList { items }
    }

    /// The values as a vector, which is the one that the list was made of. Takes no memory.
    pub fn into_vec(self) -> Vec<T>
        ensures items { result.items ≡ self }
    {
        let RawList { items } = self;
        items
    }

    /// How many values there are.
    pub fn len(&self) -> usize
        ensures count { result ≡ length self.now }
    {
        self.items.len()
    }

    /// Whether there is no value.
    pub fn is_empty(&self) -> bool
        ensures empty { IsTrue result ↔ (length self.now ≡ 0) }
    {
        self.items.is_empty()
    }

    /// The value at this index, counted from 0. None from the length on.
    pub fn get(&self, index: usize) -> Option<&T>
        ensures value { option_copied result ≡ slice_get self.now index }
    {
        self.items.get(index)
    }

    /// The values in order, for loops and iterators.
    pub fn as_slice(&self) -> &[T]
        ensures values { result.now ≡ self.now }
    {
        self.items.as_slice()
    }
}

impl<T: Drop> RawList<T> {
    /// One more value, at the end.
    pub(crate) fn push(&mut self, value: T) -> Result<(), AllocError>
        ensures { OnOk result (self.new ≡ self.old ++ value ∷ []) }
    {
        self.items.push(value)?;
        Ok(())
    }
}
