//! The slot of a facet.

ghost use Rattle.std.specs.Prelude.{◌≡◌, true, false, IfSome, IfNone};
ghost use Rattle.mesh.specs.Sheets.{IsSheetMesh};
ghost use Rattle.locate.specs.Facets.{HasFacet, HasNoFacet, IsCornerOf};

use crate::around::{Round, ask};
use crate::facet::is_facet;
use crate::spot::Spot;
use crate::walk::locate;
use ground_model::Facet;
use mesh::Mesh;

// Whether the facet stands in the slot.
fn holds(mesh: &Mesh, slot: u32, facet: &Facet) -> bool
    ensures yes { result ≡ true → HasFacet mesh.now.slots slot facet.now }
    ensures no { result ≡ false → HasFacet mesh.now.slots slot facet.now → ⊥ }
{
    match mesh.triangle(slot) {
        Some(t) => is_facet(&t, facet),
        None => false,
    }
}

// Looks for the facet in all slots.
fn find_by_scan(mesh: &Mesh, facet: &Facet) -> Option<u32>
    ensures some { IfSome result (λ s. HasFacet mesh.now.slots s facet.now) }
    ensures none { IfNone result (HasNoFacet mesh.now.slots facet.now) }
{
    for slot in 0..mesh.pages().len() {
        if holds(mesh, slot, facet) {
            return Some(slot);
        }
    }
    None
}

// Looks for the facet round its first corner, which is a corner of the slot's triangle: the next
// corner of the facet lies in the angle of one triangle there, and that one decides.
fn find_round(mesh: &Mesh, facet: &Facet, slot: u32, corner: u8) -> Option<u32>
    requires sheet { IsSheetMesh mesh.now.slots }
    requires corner { IsCornerOf mesh.now.slots slot corner facet.now.a }
    ensures some { IfSome result (λ s. HasFacet mesh.now.slots s facet.now) }
    ensures none { IfNone result (HasNoFacet mesh.now.slots facet.now) }
{
    let mut at = (slot, corner);
    for _ in 0..mesh.pages().len() {
        match ask(mesh, facet, at.0, at.1) {
            Round::Found(slot) => return Some(slot),
            Round::Gone => return None,
            Round::Next(slot, corner) => at = (slot, corner),
        }
    }
    find_by_scan(mesh, facet)
}

/// The slot of the triangle with the facet's corners and counts. None exactly where there is none.
/// From a slot near by it walks to the facet's first corner, and turns round it. It takes no memory.
pub fn find(mesh: &Mesh, facet: &Facet, hint: u32) -> Option<u32>
    requires sheet { IsSheetMesh mesh.now.slots }
    ensures some { IfSome result (λ s. HasFacet mesh.now.slots s facet.now) }
    ensures none { IfNone result (HasNoFacet mesh.now.slots facet.now) }
{
    if holds(mesh, hint, facet) {
        return Some(hint);
    }
    // For the proof: a place is within the limit.
    let _easting = facet.a.e();
    match locate(mesh, facet.a, hint) {
        Spot::Corner(slot, corner) => find_round(mesh, facet, slot, corner),
        // A corner is nowhere else.
        Spot::Inside(_) => None,
        Spot::OnEdge(_, _) => None,
    }
}
