//! What stands in a slot, and across an edge.

ghost use Rattle.std.specs.Prelude.{◌≡◌, ◌<◌, Some, IfSome, IfNone};
ghost use Rattle.tri_pages.specs.Slots.{triangle_at};
ghost use Rattle.tri_pages.specs.declared.tri_slot.TriSlot.{TriSlot};
ghost use Rattle.mesh.specs.Acrosses.{IsAcross};
ghost use Rattle.mesh.specs.Meshes.{IsMesh, IsLive};
ghost use Rattle.mesh.specs.Net.{side, next_at, outside};

use crate::across::{Across, read_across};
use crate::mesh::Mesh;
use crate::read::read_live;
use crate::redirect::OUTSIDE;
use crate::seen_edges::seen_from;
use page_vec::Steps;
use std::marker::Brand;
use std::sync::ledger::{Blank, Ledger};
use tri_pages::{TriPages, TriSlot};

// The triangle of a slot, read on a counter that starts here.
fn triangle_on<L: Ledger>(pages: &TriPages, slot: u32, blank: Blank) -> Option<TriSlot>
    requires name { blank.name ≡ L.name }
    requires parts { blank.parts ≡ L.parts }
    requires writable { 0 < L.parts }
    ensures { result ≡ triangle_at pages.now slot }
{
    let mut steps = Steps::<L>::new(blank);
    pages.read(slot, &mut steps).copied()
}

// What stands across an edge, read on a counter that starts here.
fn across_on<L: Ledger>(pages: &TriPages, slot: u32, edge: u8, blank: Blank) -> Option<Across>
    requires name { blank.name ≡ L.name }
    requires parts { blank.parts ≡ L.parts }
    requires writable { 0 < L.parts }
    requires edge { edge < 3 }
    requires mesh { IsMesh pages.now }
    requires live { IsLive pages.now slot }
    ensures across { IfSome result (λ x. (t : TriSlot) → triangle_at pages.now slot ≡ Some t → IsAcross pages.now t (side edge) x.slot x.tri (side x.edge)) }
    ensures edge { IfSome result (λ x. x.edge < 3) }
    ensures rim { IfNone result ((t : TriSlot) → triangle_at pages.now slot ≡ Some t → next_at t (side edge) ≡ outside) }
{
    let mut steps = Steps::<L>::new(blank);
    let here = read_live(pages, slot, &mut steps);
    let seen = seen_from(&here, edge);
    if seen.beyond_ab == OUTSIDE {
        None
    } else {
        Some(read_across(pages, &here, edge, &mut steps))
    }
}

impl Mesh {
    /// The triangle of a slot. None exactly where the slot is free. It takes no memory.
    pub fn triangle(&self, slot: u32) -> Option<TriSlot>
        ensures { result ≡ triangle_at self.now.slots slot }
    {
        triangle_on::<Brand>(&self.pages, slot, Blank::new(1))
    }

    /// What stands across an edge of a live slot. None exactly at the edges of the far triangle. It
    /// takes no memory.
    pub fn across(&self, slot: u32, edge: u8) -> Option<Across>
        requires edge { edge < 3 }
        requires mesh { IsMesh self.now.slots }
        requires live { IsLive self.now.slots slot }
        ensures across { IfSome result (λ x. (t : TriSlot) → triangle_at self.now.slots slot ≡ Some t → IsAcross self.now.slots t (side edge) x.slot x.tri (side x.edge)) }
        ensures edge { IfSome result (λ x. x.edge < 3) }
        ensures rim { IfNone result ((t : TriSlot) → triangle_at self.now.slots slot ≡ Some t → next_at t (side edge) ≡ outside) }
    {
        across_on::<Brand>(&self.pages, slot, edge, Blank::new(1))
    }
}
