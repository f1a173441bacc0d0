//! A look at one triangle, and the scan of all.

ghost use Rattle.std.specs.Prelude.{◌≡◌, Some};
ghost use Rattle.tri_pages.specs.Slots.{triangle_at};
ghost use Rattle.mesh.specs.Sheets.{IsSheetMesh};
ghost use Rattle.locate.specs.Spots.{IsLook, IsSpot};

use crate::part::{Part, part_of};
use crate::sides::next_over;
use crate::spot::Spot;
use ground_model::Place;
use mesh::Mesh;
use tri_pages::TriSlot;

/// What a look at the triangle of a slot tells of a place: its spot, or the slot beyond an edge
/// beyond which it lies; or the slot is free.
#[derive(Clone, Copy)]
pub(crate) enum Look {
    Here(Spot),
    Next(u32),
    Free,
}

// Looks at the triangle of a slot.
fn look_at(mesh: &Mesh, slot: u32, t: &TriSlot, place: Place, from: u32) -> Look
    requires sheet { IsSheetMesh mesh.now.slots }
    requires there { triangle_at mesh.now.slots slot ≡ Some t.now }
    ensures { IsLook mesh.now.slots slot place result }
{
    match part_of(t, place, from) {
        Part::Inside => Look::Here(Spot::Inside(slot)),
        Part::OnEdge(edge) => Look::Here(Spot::OnEdge(slot, edge)),
        Part::Corner(corner) => Look::Here(Spot::Corner(slot, corner)),
        Part::Beyond(edge) => Look::Next(next_over(t, edge)),
    }
}

/// Looks for a place in the triangle of a slot, beyond the edge `from` first.
pub(crate) fn look_in(mesh: &Mesh, slot: u32, place: Place, from: u32) -> Look
    requires sheet { IsSheetMesh mesh.now.slots }
    ensures { IsLook mesh.now.slots slot place result }
{
    match mesh.triangle(slot) {
        Some(t) => look_at(mesh, slot, &t, place, from),
        None => Look::Free,
    }
}

/// Looks for a place in the triangles of all slots.
pub(crate) fn scan(mesh: &Mesh, place: Place) -> Spot
    requires sheet { IsSheetMesh mesh.now.slots }
    ensures { IsSpot mesh.now.slots place result }
{
    // For the proof: a place is within the limit.
    let _easting = place.e();
    for slot in 0..mesh.pages().len() {
        if let Look::Here(spot) = look_in(mesh, slot, place, 0) {
            return spot;
        }
    }
    // The triangles cover all places.
    unreachable!()
}
