//! The triangle of a live slot.

ghost use Rattle.std.specs.Prelude.{◌≡◌, ◌+◌, Some};
ghost use Rattle.tri_pages.specs.Slots.{triangle_at};
ghost use Rattle.mesh.specs.Meshes.{IsLive};

use page_vec::Steps;
use std::sync::ledger::Ledger;
use tri_pages::{TriPages, TriSlot};

/// Reads the triangle of a live slot, at one page step.
pub(crate) fn read_live<L: Ledger>(pages: &TriPages, slot: u32, steps: &mut Steps<L>) -> TriSlot
    requires live { IsLive pages.now slot }
    ensures is { triangle_at pages.now slot ≡ Some result }
    ensures cost { steps.new ≡ steps.old + 1 }
{
    match pages.read(slot, steps).copied() {
        Some(t) => t,
        None => unreachable!(),
    }
}
