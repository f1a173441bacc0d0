//! The slots that mesh steps wrote.

ghost use Rattle.std.specs.Prelude.{◌≡◌, ◌<◌, Some, [], ◌∷◌, ◌++◌, length, OnOk, slice_get};
ghost use Rattle.std.specs.Option.{option_copied};

use smallvec::SmallVec;
use std::alloc::{AllocError, Global};
use std::marker::Model;

/// The slots that mesh steps wrote a triangle into, in their order, some more than once. A slot whose
/// neighbours alone changed isn't one of them. A slot of it may be free by now.
///
/// Up to 32 slots take no memory, which most insertions stay below.
#[derive(Drop)]
pub struct Script {
    slots: SmallVec<u32, 32>,
}

impl Model for Script {
    ghost use Rattle.std.specs.Prelude.{ℕ, List};

    ghost Value = { List ℕ };

    ghost view = { λ s. s.slots.items };
}

impl Script {
    /// No slot. It takes no memory.
    pub fn new(alloc: Global) -> Script
        ensures { result ≡ [] }
    {
        Script {
            slots: SmallVec::new(alloc),
        }
    }

    /// How many slots there are, repeats counted.
    pub fn len(&self) -> usize
        ensures { result ≡ length self.now }
    {
        self.slots.len()
    }

    /// The slot at an index. None from the length on.
    pub fn get(&self, k: usize) -> Option<&u32>
        ensures { option_copied result ≡ slice_get self.now k }
    {
        self.slots.as_slice().get(k)
    }

    /// The slot at an index below the length.
    pub(crate) fn slot_at(&self, k: usize) -> u32
        requires { k < length self.now }
        ensures { slice_get self.now k ≡ Some result }
    {
        self.slots.as_slice()[k]
    }

    /// Adds a slot at the end.
    pub(crate) fn note(&mut self, slot: u32) -> Result<(), AllocError>
        ensures { OnOk result (self.new ≡ self.old ++ slot ∷ []) }
    {
        self.slots.push(slot)?;
        Ok(())
    }
}
