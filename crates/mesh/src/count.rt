//! The count of an edge is changed.

ghost use Rattle.std.specs.Prelude.{◌≡◌, ◌<◌, Some, OnOk, IfOk};
ghost use Rattle.tri_pages.specs.Slots.{triangle_at};
ghost use Rattle.tri_pages.specs.declared.tri_slot.TriSlot.{TriSlot};
ghost use Rattle.mesh.specs.Acrosses.{IsInner, HasTwoApexes};
ghost use Rattle.mesh.specs.Recounts.{IsRecounted, recounted};
ghost use Rattle.mesh.specs.Meshes.{IsMesh, IsLive};
ghost use Rattle.mesh.specs.Net.{side, count_at};

use crate::across::{Across, read_across};
use crate::read::read_live;
use crate::seen_edges::seen_from;
use crate::writes::write_two;
use page_vec::Steps;
use std::alloc::AllocError;
use std::sync::ledger::{Blank, Ledger};
use tri_pages::{TriPages, TriSlot};

// The triangle from an edge on, with this count there and this slot beyond.
fn with_count(t: &TriSlot, edge: u8, count: u16, beyond: u32) -> TriSlot
    requires { edge < 3 }
    ensures { result ≡ recounted t.now (side edge) count beyond }
{
    let seen = seen_from(t, edge);
    TriSlot {
        corners: [seen.a, seen.b, seen.c],
        counts: [count, seen.bc, seen.ca],
        next: [beyond, seen.beyond_bc, seen.beyond_ca],
        stamp: 0,
    }
}

/// Sets the count of an edge, on both of its sides. The slot across it is answered.
pub(crate) fn set_count<L: Ledger>(
    pages: &mut TriPages,
    slot: u32,
    edge: u8,
    count: u16,
    blank: Blank,
) -> Result<u32, AllocError>
    requires name { blank.name ≡ L.name }
    requires parts { blank.parts ≡ L.parts }
    requires writable { 0 < L.parts }
    requires edge { edge < 3 }
    requires mesh { IsMesh pages.old }
    requires live { IsLive pages.old slot }
    requires inner { IsInner pages.old slot (side edge) }
    requires two { HasTwoApexes pages.old slot (side edge) }
    ensures mesh { OnOk result (IsMesh pages.new) }
    ensures recounted { IfOk result (λ beyond. IsRecounted pages.old pages.new slot (side edge) beyond count) }
{
    let mut steps = Steps::<L>::new(blank);
    let steps = &mut steps;
    let here = read_live(pages, slot, steps);
    let Across {
        slot: beyond,
        tri,
        edge: back,
    } = read_across(pages, &here, edge, steps);
    let one = with_count(&here, edge, count, beyond);
    let two = with_count(&tri, back, count, slot);
    write_two(pages, slot, one, beyond, two, steps)?;
    Ok(beyond)
}

/// The count of an edge of a live slot.
pub(crate) fn count_of<L: Ledger>(pages: &TriPages, slot: u32, edge: u8, blank: Blank) -> u16
    requires name { blank.name ≡ L.name }
    requires parts { blank.parts ≡ L.parts }
    requires writable { 0 < L.parts }
    requires edge { edge < 3 }
    requires live { IsLive pages.now slot }
    ensures { (t : TriSlot) → triangle_at pages.now slot ≡ Some t → result ≡ count_at t (side edge) }
{
    let mut steps = Steps::<L>::new(blank);
    let here = read_live(pages, slot, &mut steps);
    let seen = seen_from(&here, edge);
    seen.ab
}
