//! The slots of triangles.

ghost use Rattle.std.specs.Prelude.{◌≡◌, ◌↔◌, ℕ, ◌+◌, ◌<◌, ◌≤◌, ◌^◌, [], length, slice_set, IsTrue, IfOk, OnOk, OnErr};
ghost use Rattle.std.specs.Option.{option_copied};
ghost use Rattle.tri_pages.specs.Slots.{state_at, triangle_at, taken, IsTaken, put, free, blank, holding};

use crate::entry::{END, Entry, entry_at, next_free};
use crate::tri_slot::TriSlot;
use page_vec::{PageVec, Steps};
use std::alloc::{AllocError, Global};
use std::marker::Model;
use std::sync::ledger::Ledger;

/// A map from slots to triangles, with the list of the taken slots, on pages that versions share.
///
/// A slot is free, taken and not yet written, or holds a triangle. Free slots are chained through
/// the pages, the one that was given back last first: new triangles stand in the slots, and so on
/// the pages, of those that they replace. A page is added only where no slot is free.
#[derive(Drop)]
pub struct TriPages {
    entries: PageVec<Entry>,
    head: u32,
}

impl Model for TriPages {
    ghost use Rattle.std.specs.Prelude.{List, map};
    ghost use Rattle.tri_pages.specs.Slots.{State};
    ghost use Rattle.tri_pages.specs.FreeChain.{state, HasChain};

    ghost Value = { List State };

    ghost view = { λ p. map state p.entries };

    ghost invariant = { λ p. HasChain p.entries p.head };
}

impl TriPages {
    /// The map with every slot free. It takes no memory.
    pub fn empty(alloc: Global) -> TriPages
        ensures empty { result ≡ [] }
    {
        TriPages {
            entries: PageVec::empty(alloc),
            head: END,
        }
    }

    /// How many slots the pages have, taken or free. No slot beyond them is taken.
    pub fn len(&self) -> u32
        ensures len { result ≡ length self.now }
        ensures bound { result ≤ 2 ^ 30 }
    {
        self.entries.len()
    }

    /// Whether a slot is taken, written or not: the test for `write` and `give_back`. It counts no
    /// step, as a caller of those two knows the answer.
    pub fn is_taken(&self, slot: u32) -> bool
        ensures taken { IsTrue result ↔ IsTaken self.now slot }
    {
        match entry_at(&self.entries, slot) {
            Some(Entry::Taken) => true,
            Some(Entry::Written(_)) => true,
            _ => false,
        }
    }

    /// The triangle of a slot. It takes no memory.
    #[inline(always)]
    pub fn read<L: Ledger>(&self, slot: u32, steps: &mut Steps<L>) -> Option<&TriSlot>
        ensures triangle { option_copied result ≡ triangle_at self.now slot }
        ensures cost { steps.new ≡ steps.old + 1 }
    {
        match self.entries.get(slot, steps) {
            Some(Entry::Written(value)) => Some(value),
            _ => None,
        }
    }

    /// Writes the triangle of a taken slot.
    pub fn write<L: Ledger>(
        &mut self,
        slot: u32,
        value: TriSlot,
        steps: &mut Steps<L>,
    ) -> Result<(), AllocError>
        requires { IsTaken self.old slot }
        ensures ok { OnOk result (self.new ≡ slice_set self.old slot (holding value)) }
        ensures err { OnErr result (self.new ≡ self.old) }
        ensures cost { steps.new ≡ steps.old + 1 }
    {
        self.entries.set(slot, Entry::Written(value), steps)?;
        Ok(())
    }

    /// Takes a free slot, which has no triangle until one is written: the one that was given back
    /// last, or where no slot of the pages is free the first beyond them.
    pub fn take_free<L: Ledger>(&mut self, steps: &mut Steps<L>) -> Result<u32, AllocError>
        requires { length (taken self.old) < 2 ^ 30 }
        ensures within { IfOk result (λ slot. slot < 2 ^ 30) }
        ensures was_free { IfOk result (λ slot. state_at self.old slot ≡ free) }
        ensures taken { IfOk result (λ slot. state_at self.new slot ≡ blank) }
        ensures ok { IfOk result (λ slot. self.new ≡ put self.old slot blank) }
        ensures err { OnErr result (self.new ≡ self.old) }
        ensures cost { steps.new ≡ steps.old + 1 }

        // A slot that was given back is taken again before the pages grow.
        ensures reuse { IfOk result (λ slot. (k : ℕ) → k < length self.old → state_at self.old k ≡ free → slot < length self.old) }
    {
        let slot = self.head;
        let count = self.entries.len();
        if slot == END {
            self.entries.push(Entry::Taken, steps)?;
            Ok(count)
        } else {
            let next = next_free(&self.entries, slot);
            self.entries.set(slot, Entry::Taken, steps)?;
            self.head = next;
            Ok(slot)
        }
    }

    /// Gives a taken slot back: it is free, and the next one to be taken.
    pub fn give_back<L: Ledger>(
        &mut self,
        slot: u32,
        steps: &mut Steps<L>,
    ) -> Result<(), AllocError>
        requires { IsTaken self.old slot }
        ensures ok { OnOk result (self.new ≡ slice_set self.old slot free) }
        ensures err { OnErr result (self.new ≡ self.old) }
        ensures cost { steps.new ≡ steps.old + 1 }
    {
        let head = self.head;
        self.entries.set(slot, Entry::Free(head), steps)?;
        self.head = slot;
        Ok(())
    }

    /// Another version of the map, on its pages.
    pub fn share(&self) -> Result<TriPages, AllocError>
        ensures same { IfOk result (λ p. p ≡ self.now) }
    {
        Ok(TriPages {
            entries: self.entries.share()?,
            head: self.head,
        })
    }
}
