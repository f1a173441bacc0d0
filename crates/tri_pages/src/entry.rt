//! What the pages keep for a slot.

ghost use Rattle.std.specs.Prelude.{◌≡◌, ℕ, Some, ◌<◌};
ghost use Rattle.std.specs.List.{slice_get};
ghost use Rattle.tri_pages.specs.declared.entry.Entry.TheVariants.{Free};

use crate::tri_slot::TriSlot;
use page_vec::{PageVec, Steps};
use std::marker::Brand;
use std::sync::ledger::{Blank, Ledger};

/// The mark after the last free slot. No slot has this number.
pub(crate) const END: u32 = 4_294_967_295;

/// What is kept for a slot. A free slot names the free slot that is taken after it.
#[derive(Clone, Copy)]
pub(crate) enum Entry {
    Free(u32),
    Taken,
    Written(TriSlot),
}

// What is kept for a slot, read on a counter that starts here.
fn entry_on<L: Ledger>(entries: &PageVec<Entry>, slot: u32, blank: Blank) -> Option<Entry>
    requires name { blank.name ≡ L.name }
    requires parts { blank.parts ≡ L.parts }
    requires writable { 0 < L.parts }
    ensures { result ≡ slice_get entries.now slot }
{
    let mut steps = Steps::<L>::new(blank);
    entries.get(slot, &mut steps).copied()
}

/// What is kept for a slot, read on a counter of its own.
pub(crate) fn entry_at(entries: &PageVec<Entry>, slot: u32) -> Option<Entry>
    ensures { result ≡ slice_get entries.now slot }
{
    entry_on::<Brand>(entries, slot, Blank::new(1))
}

/// The free slot after a free one in the chain.
pub(crate) fn next_free(entries: &PageVec<Entry>, slot: u32) -> u32
    ensures { (n : ℕ) → slice_get entries.now slot ≡ Some (Free n) → result ≡ n }
{
    match entry_at(entries, slot) {
        Some(Entry::Free(next)) => next,
        _ => END,
    }
}
