//! An edge is split at a corner within it.

ghost use Rattle.std.specs.Prelude.{◌≡◌, ◌<◌, ◌+◌, ◌≤◌, OnOk, IfOk, Some};
ghost use Rattle.ground_model.specs.declared.corner.Corner.{Corner};
ghost use Rattle.tri_pages.specs.Slots.{triangle_at};
ghost use Rattle.tri_pages.specs.declared.tri_slot.TriSlot.{TriSlot};
ghost use Rattle.mesh.specs.EdgeSplits.{IsEdgeSplit, start_part, end_part};
ghost use Rattle.mesh.specs.Acrosses.{IsInner, HasTwoApexes};
ghost use Rattle.mesh.specs.Meshes.{IsMesh, IsLive, HasNoCorner};
ghost use Rattle.mesh.specs.Net.{side};

use crate::across::{Across, read_across};
use crate::read::read_live;
use crate::redirect::redirect;
use crate::seen_edges::seen_from;
use crate::take::take_two;
use crate::writes::write_four;
use ground_model::Corner;
use page_vec::Steps;
use std::alloc::AllocError;
use std::sync::ledger::{Blank, Ledger};
use tri_pages::{TriPages, TriSlot};

// The triangle apc, of abc at its edge ab.
fn start_of(t: &TriSlot, edge: u8, place: &Corner, y: u32, z: u32) -> TriSlot
    requires { edge < 3 }
    ensures { result ≡ start_part t.now (side edge) place.now y z }
{
    let seen = seen_from(t, edge);
    TriSlot {
        corners: [seen.a, *place, seen.c],
        counts: [seen.ab, 0, seen.ca],
        next: [y, z, seen.beyond_ca],
        stamp: 0,
    }
}

// The triangle pbc, of abc at its edge ab.
fn end_of(t: &TriSlot, edge: u8, place: &Corner, y: u32, z: u32) -> TriSlot
    requires { edge < 3 }
    ensures { result ≡ end_part t.now (side edge) place.now y z }
{
    let seen = seen_from(t, edge);
    TriSlot {
        corners: [*place, seen.b, seen.c],
        counts: [seen.ab, seen.bc, 0],
        next: [y, seen.beyond_bc, z],
        stamp: 0,
    }
}

/// The slots of the four triangles at an edge that was split, from abc in the slot and bad across
/// it: bpd stands in `beyond`, pbc in `end` and pad in `back`.
#[derive(Clone, Copy)]
pub(crate) struct EdgeParts {
    pub(crate) beyond: u32,
    pub(crate) end: u32,
    pub(crate) back: u32,
}

/// Splits the edge ab between abc in a slot and bad across it at a corner p within it. Two of the
/// four triangles go to free slots.
pub(crate) fn split_edge_slots<L: Ledger>(
    pages: &mut TriPages,
    slot: u32,
    edge: u8,
    place: Corner,
    blank: Blank,
) -> Result<EdgeParts, AllocError>
    requires name { blank.name ≡ L.name }
    requires parts { blank.parts ≡ L.parts }
    requires writable { 0 < L.parts }
    requires edge { edge < 3 }
    requires mesh { IsMesh pages.old }
    requires live { IsLive pages.old slot }
    requires inner { IsInner pages.old slot (side edge) }
    requires two { HasTwoApexes pages.old slot (side edge) }
    requires no_corner { HasNoCorner pages.old place }
    ensures mesh { OnOk result (IsMesh pages.new) }
    ensures split { IfOk result (λ r. IsEdgeSplit pages.old pages.new slot (side edge) place r.beyond r.end r.back) }
{
    let mut steps = Steps::<L>::new(blank);
    let steps = &mut steps;
    let here = read_live(pages, slot, steps);
    let Across {
        slot: beyond,
        tri,
        edge: back,
    } = read_across(pages, &here, edge, steps);
    let (second, third) = take_two(pages, steps)?;
    let one = start_of(&here, edge, &place, third, second);
    let two = start_of(&tri, back, &place, second, third);
    let three = end_of(&here, edge, &place, beyond, slot);
    let four = end_of(&tri, back, &place, slot, beyond);
    write_four(
        pages, slot, one, beyond, two, second, three, third, four, steps,
    )?;
    let t = seen_from(&here, edge);
    let u = seen_from(&tri, back);
    redirect(pages, t.beyond_bc, t.c, t.b, second, steps)?;
    redirect(pages, u.beyond_bc, u.c, t.a, third, steps)?;
    Ok(EdgeParts {
        beyond,
        end: second,
        back: third,
    })
}
