//! Lists that a contract compares with a list of the definitions.

ghost use Rattle.std.specs.Prelude.{◌≡◌, ◌↔◌, IsTrue, length, slice_get};
ghost use Rattle.std.specs.Option.{option_copied};

use std::marker::Model;

/// A list of values in one allocation: contracts see the list alone, whatever the capacity.
#[derive(Drop)]
pub struct Listed<T> {
    items: Vec<T>,
}

impl<T> Model for Listed<T> {
    ghost use Rattle.std.specs.Prelude.{List};

    ghost Value = { List T };

    ghost view = { λ a. a.items.items };
}

impl<T> Listed<T> {
    /// The vector's values. Takes no memory.
    pub fn from_vec(items: Vec<T>) -> Listed<T>
        ensures { result ≡ items.items }
    {
        Listed { items }
    }

    /// The values as a vector, which is the one that the list was made of. Takes no memory.
    pub fn into_vec(self) -> Vec<T>
        ensures { result.items ≡ self }
    {
        let Listed { items } = self;
        items
    }

    /// How many values there are.
    pub fn len(&self) -> usize
        ensures { result ≡ length self.now }
    {
        self.items.len()
    }

    /// Whether there is no value.
    pub fn is_empty(&self) -> bool
        ensures { IsTrue result ↔ (length self.now ≡ 0) }
    {
        self.items.is_empty()
    }

    /// The value at index `k`, counted from 0. None from the length on.
    pub fn get(&self, k: usize) -> Option<&T>
        ensures { option_copied result ≡ slice_get self.now k }
    {
        self.items.get(k)
    }

    /// The values in order, for loops and iterators.
    pub fn as_slice(&self) -> &[T]
        ensures { result.now ≡ self.now }
    {
        self.items.as_slice()
    }
}
