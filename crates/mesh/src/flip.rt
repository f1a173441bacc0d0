//! The common edge of two triangles is turned to the other diagonal.

ghost use Rattle.std.specs.Prelude.{◌≡◌, ◌<◌, ◌+◌, ◌≤◌, OnOk, IfOk};
ghost use Rattle.mesh.specs.Flips.{IsFlippable, IsFlipped, flip_one, flip_two};
ghost use Rattle.mesh.specs.Meshes.{IsMesh};
ghost use Rattle.mesh.specs.Net.{side};

use crate::across::{Across, read_across};
use crate::read::read_live;
use crate::redirect::redirect;
use crate::seen_edges::seen_from;
use crate::writes::write_two;
use page_vec::Steps;
use std::alloc::AllocError;
use std::sync::ledger::{Blank, Ledger};
use tri_pages::{TriPages, TriSlot};

// The triangle adc, of abc at its edge ab and bad across it.
fn first_half(here: &TriSlot, edge: u8, beyond: &TriSlot, back: u8, n: u32) -> TriSlot
    requires edge { edge < 3 }
    requires back { back < 3 }
    ensures { result ≡ flip_one here.now (side edge) beyond.now (side back) n }
{
    let t = seen_from(here, edge);
    let u = seen_from(beyond, back);
    TriSlot {
        corners: [t.a, u.c, t.c],
        counts: [u.bc, 0, t.ca],
        next: [u.beyond_bc, n, t.beyond_ca],
        stamp: 0,
    }
}

// The triangle dbc, of abc at its edge ab and bad across it.
fn second_half(here: &TriSlot, edge: u8, beyond: &TriSlot, back: u8, s: u32) -> TriSlot
    requires edge { edge < 3 }
    requires back { back < 3 }
    ensures { result ≡ flip_two here.now (side edge) beyond.now (side back) s }
{
    let t = seen_from(here, edge);
    let u = seen_from(beyond, back);
    TriSlot {
        corners: [u.c, t.b, t.c],
        counts: [u.ca, t.bc, 0],
        next: [u.beyond_ca, t.beyond_bc, s],
        stamp: 0,
    }
}

/// Turns the edge ab between abc in a slot and bad across it to dc. The slot of bad, which then has
/// dbc, is answered.
pub(crate) fn flip_slots<L: Ledger>(
    pages: &mut TriPages,
    slot: u32,
    edge: u8,
    blank: Blank,
) -> Result<u32, AllocError>
    requires name { blank.name ≡ L.name }
    requires parts { blank.parts ≡ L.parts }
    requires writable { 0 < L.parts }
    requires edge { edge < 3 }
    requires mesh { IsMesh pages.old }
    requires flippable { IsFlippable pages.old slot (side edge) }
    ensures mesh { OnOk result (IsMesh pages.new) }
    ensures flipped { IfOk result (λ beyond. IsFlipped pages.old pages.new slot (side edge) beyond) }
{
    let mut steps = Steps::<L>::new(blank);
    let steps = &mut steps;
    let here = read_live(pages, slot, steps);
    let Across {
        slot: beyond,
        tri,
        edge: back,
    } = read_across(pages, &here, edge, steps);
    let one = first_half(&here, edge, &tri, back, beyond);
    let two = second_half(&here, edge, &tri, back, slot);
    write_two(pages, slot, one, beyond, two, steps)?;
    let t = seen_from(&here, edge);
    let u = seen_from(&tri, back);
    redirect(pages, u.beyond_bc, u.c, t.a, slot, steps)?;
    redirect(pages, t.beyond_bc, t.c, t.b, beyond, steps)?;
    Ok(beyond)
}
