//! The walk.

ghost use Rattle.std.specs.Prelude.{◌≡◌, IfSome};
ghost use Rattle.mesh.specs.Meshes.{IsLive};
ghost use Rattle.mesh.specs.Sheets.{IsSheetMesh};
ghost use Rattle.locate.specs.Spots.{IsSpot};

use crate::scan::{Look, look_in, scan};
use crate::spot::Spot;
use ground_model::Place;
use mesh::Mesh;

// Where the walk starts: in the hint, or where that slot is free in the first that isn't.
fn start(mesh: &Mesh, hint: u32) -> u32
    requires sheet { IsSheetMesh mesh.now.slots }
    ensures kept { IsLive mesh.now.slots hint → result ≡ hint }
    ensures live { IsLive mesh.now.slots result }
{
    if mesh.triangle(hint).is_some() {
        return hint;
    }
    for slot in 0..mesh.pages().len() {
        if mesh.triangle(slot).is_some() {
            return slot;
        }
    }
    // A mesh always has triangles.
    unreachable!()
}

// Goes from triangle to triangle over an edge beyond which the place lies, at most as many times as
// there are slots. Each step begins with another edge: where a mesh isn't Delaunay, a walk that tries
// them in one order can go round for ever.
fn walk(mesh: &Mesh, place: Place, from: u32) -> Option<Spot>
    requires sheet { IsSheetMesh mesh.now.slots }
    requires live { IsLive mesh.now.slots from }
    ensures { IfSome result (λ spot. IsSpot mesh.now.slots place spot) }
{
    // For the proof: a place is within the limit.
    let _easting = place.e();
    let mut slot = from;
    for step in 0..mesh.pages().len() {
        match look_in(mesh, slot, place, step % 3) {
            Look::Here(spot) => return Some(spot),
            Look::Next(next) => slot = next,
            // No place lies beyond the far triangle.
            Look::Free => unreachable!(),
        }
    }
    None
}

/// Where a place lies, by the walk from a slot near by (Guibas and Stolfi 1985): over an edge beyond
/// which the place lies to the next triangle. It makes at most as many steps as the mesh has slots,
/// and then looks at all. Any hint will do. It takes no memory.
pub fn locate(mesh: &Mesh, place: Place, hint: u32) -> Spot
    requires sheet { IsSheetMesh mesh.now.slots }
    ensures { IsSpot mesh.now.slots place result }
{
    match walk(mesh, place, start(mesh, hint)) {
        Some(spot) => spot,
        None => scan(mesh, place),
    }
}
