//! One step round a corner.

ghost use Rattle.std.specs.Prelude.{◌≡◌, ◌<◌, true};
ghost use Rattle.mesh.specs.Net.{side};
ghost use Rattle.mesh.specs.Sheets.{IsSheetMesh, IsTurned};
ghost use Rattle.locate.specs.Facets.{IsInAngle, IsRound, IsCornerOf};

use crate::facet::is_facet_at;
use crate::part::sign_of;
use crate::round::next_round;
use ground_model::{Facet, Place};
use mesh::{Mesh, seen_from};
use tri_pages::TriSlot;

/// What a triangle at the facet's first corner tells: it is the facet, or no triangle is, or another
/// triangle at that corner, the next counterclockwise, has to be asked.
#[derive(Clone, Copy)]
pub(crate) enum Round {
    Found(u32),
    Gone,
    Next(u32, u8),
}

// Whether a place lies in the angle of a triangle at a corner, the first leg included.
fn is_in_angle(t: &TriSlot, corner: u8, place: Place) -> bool
    requires turned { IsTurned t.now }
    requires corner { corner < 3 }
    ensures { result ≡ true → IsInAngle t.now (side corner) place }
{
    let seen = seen_from(t, corner);
    let first = sign_of(&seen.a, &seen.b, place);
    let other = sign_of(&seen.a, &seen.c, place);
    !first.is_negative() && other.is_negative()
}

/// Asks the triangle of a slot, which has the facet's first corner. Where the facet's next corner
/// lies in its angle there it decides: no other triangle has an edge into that angle.
pub(crate) fn ask(mesh: &Mesh, facet: &Facet, slot: u32, corner: u8) -> Round
    requires sheet { IsSheetMesh mesh.now.slots }
    requires corner { IsCornerOf mesh.now.slots slot corner facet.now.a }
    ensures { IsRound mesh.now.slots facet.now result }
{
    let Some(t) = mesh.triangle(slot) else {
        unreachable!()
    };
    if !is_in_angle(&t, corner, facet.b) {
        let next = next_round(mesh, slot, corner, facet.a);
        return Round::Next(next.slot, next.edge);
    }
    if is_facet_at(&t, corner, facet) {
        Round::Found(slot)
    } else {
        Round::Gone
    }
}
