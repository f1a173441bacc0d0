//! The edge from one point to another.

ghost use Rattle.std.specs.Prelude.{◌≡◌, true, false, IfSome, IfNone};
ghost use Rattle.ground_model.specs.declared.corner.Corner.TheVariants.{At};
ghost use Rattle.ground_model.specs.Place.{Coords};
ghost use Rattle.mesh.specs.Sheets.{IsSheetMesh, HasSide};
ghost use Rattle.locate.specs.Facets.{IsCornerOf};
ghost use Rattle.point_edit.specs.Removals.{IsLivePoint, IsPointOf};
ghost use Rattle.line_edit.specs.Edges.{IsFromTo, HasNoSide};

use crate::half_edge::{HalfEdge, half_edge_of, place_of};
use crate::spoke::next_spoke;
use ground_model::{Corner, Place};
use mesh::{Mesh, PointId};

// Whether a corner is the place.
fn is_at(corner: &Corner, place: Place) -> bool
    ensures yes { result ≡ true → corner.now ≡ At place }
    ensures no { result ≡ false → corner.now ≡ At place → ⊥ }
{
    *corner == Corner::At(place)
}

// The edge from p to q, looked for round p.
fn edge_from(mesh: &Mesh, p: Place, q: Place, from: HalfEdge) -> Option<HalfEdge>
    requires sheet { IsSheetMesh mesh.now.slots }
    requires corner { IsCornerOf mesh.now.slots from.slot from.edge p }
    ensures some { IfSome result (λ x. IsFromTo mesh.now.slots x.slot x.edge p q) }
    ensures none { IfNone result (HasNoSide mesh.now.slots p q) }
{
    let mut at = from;
    for step in 0..mesh.pages().len() {
        let spoke = next_spoke(mesh, p, at);
        at = spoke.at;
        if is_at(&spoke.end, q) {
            return Some(at);
        }
        if at.slot == from.slot {
            return None;
        }
    }
    // No more triangles stand round a point than there are slots.
    unreachable!()
}

/// The directed edge from one point to another. None exactly where no edge joins them. It goes once round the
/// first point at most, and takes no memory.
pub fn edge_between(mesh: &Mesh, p: PointId, q: PointId) -> Option<HalfEdge>
    requires sheet { IsSheetMesh mesh.now.slots }
    requires p { IsLivePoint mesh.now.slots p.0 }
    requires q { IsLivePoint mesh.now.slots q.0 }
    ensures some { IfSome result (λ x. (a b : Coords) → IsPointOf mesh.now.slots p.0 a → IsPointOf mesh.now.slots q.0 b → IsFromTo mesh.now.slots x.slot x.edge a b) }
    ensures none { IfNone result ((a b : Coords) → IsPointOf mesh.now.slots p.0 a → IsPointOf mesh.now.slots q.0 b → HasNoSide mesh.now.slots a b) }
{
    let from = place_of(mesh, p);
    let to = place_of(mesh, q);
    edge_from(mesh, from, to, half_edge_of(p))
}
