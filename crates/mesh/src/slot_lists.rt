//! Slots are taken and given back, by the list.

ghost use Rattle.std.specs.Prelude.{◌≡◌, ◌+◌, ◌*◌, ◌≤◌, ◌<◌, ◌^◌, ℕ, Some, IfOk, OnOk, length, slice_get, slice_set, vec_len};
ghost use Rattle.tri_pages.specs.Slots.{triangle_at, free};
ghost use Rattle.mesh.specs.Meshes.{IsLive};
ghost use Rattle.mesh.specs.SlotLists.{AreApart, IsGivingBack, IsTakingMany};

use crate::read::read_live;
use crate::take::take_blank;
use page_vec::Steps;
use std::alloc::{AllocError, Global};
use std::sync::ledger::Ledger;
use tri_pages::{TriPages, TriSlot};

/// Takes free slots, at one page step each.
pub(crate) fn take_many<L: Ledger>(
    alloc: Global,
    pages: &mut TriPages,
    count: usize,
    steps: &mut Steps<L>,
) -> Result<Vec<u32>, AllocError>
    requires few { length pages.old ≤ 2 ^ 30 }
    ensures taking { IfOk result (λ slots. IsTakingMany pages.old pages.new slots.items) }
    ensures many { IfOk result (λ slots. length slots.items ≡ count) }
    ensures cost { steps.new ≤ steps.old + count }
{
    let mut slots = Vec::new(alloc);
    for done in 0..count {
        let slot = take_blank(pages, steps)?;
        slots.push(slot)?;
    }
    Ok(slots)
}

/// The slot at an index.
pub(crate) fn slot_at(slots: &[u32], index: usize) -> u32
    requires { index < length slots.now }
    ensures { slice_get slots.now index ≡ Some result }
{
    slots[index]
}

// Reads the triangle of a slot, and gives the slot back.
fn take_out<L: Ledger>(
    pages: &mut TriPages,
    slot: u32,
    steps: &mut Steps<L>,
) -> Result<TriSlot, AllocError>
    requires live { IsLive pages.old slot }
    ensures was { IfOk result (λ t. triangle_at pages.old slot ≡ Some t) }
    ensures freed { OnOk result (pages.new ≡ slice_set pages.old slot free) }
    ensures cost { steps.new ≤ steps.old + 2 }
{
    let t = read_live(pages, slot, steps);
    pages.give_back(slot, steps)?;
    Ok(t)
}

/// Reads the triangles of live slots, and gives the slots back, at two page steps each.
pub(crate) fn give_many<L: Ledger>(
    alloc: Global,
    pages: &mut TriPages,
    slots: &[u32],
    steps: &mut Steps<L>,
) -> Result<Vec<TriSlot>, AllocError>
    requires live { (i s : ℕ) → slice_get slots.now i ≡ Some s → IsLive pages.old s }
    requires apart { AreApart slots.now }
    ensures given { IfOk result (λ was. IsGivingBack pages.old pages.new slots.now was.items (length slots.now)) }
    ensures cost { steps.new ≤ steps.old + 2 * length slots.now }
{
    let mut was = Vec::new(alloc);
    for index in 0..slots.len() {
        let t = take_out(pages, slot_at(slots, index), steps)?;
        was.push(t)?;
    }
    Ok(was)
}
