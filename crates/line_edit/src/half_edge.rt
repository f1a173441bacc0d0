//! Directed edges, and the places that they begin at.

ghost use Rattle.std.specs.Prelude.{◌≡◌, ◌/◌, ◌%◌, true, IfSome, IfNone};
ghost use Rattle.ground_model.specs.declared.corner.Corner.TheVariants.{At};
ghost use Rattle.ground_model.specs.Place.{Coords};
ghost use Rattle.predicates.specs.Far.{is_far};
ghost use Rattle.locate.specs.Facets.{IsCornerOf};
ghost use Rattle.point_edit.specs.Removals.{IsLivePoint, IsPointOf};

use ground_model::{Corner, Place};
use mesh::{Mesh, PointId, seen_from};

/// A directed edge of a mesh (a half-edge): a live slot, and the number of the edge in its triangle, which is
/// that of the corner where it begins.
#[derive(Clone, Copy, Drop)]
pub struct HalfEdge {
    pub slot: u32,
    pub edge: u8,
}

/// The half-edge at which a point's number stands.
pub(crate) fn half_edge_of(point: PointId) -> HalfEdge
    ensures slot { result.slot ≡ point.0 / 4 }
    ensures edge { result.edge ≡ point.0 % 4 }
{
    HalfEdge {
        slot: point.0 / 4,
        edge: (point.0 % 4) as u8,
    }
}

// The place that a corner is.
fn place_at(corner: Corner) -> Option<Place>
    ensures some { IfSome result (λ p. corner ≡ At p) }
    ensures none { IfNone result (is_far corner ≡ true) }
{
    match corner {
        Corner::At(place) => Some(place),
        Corner::Far(_) => None,
    }
}

/// The place of a point.
pub(crate) fn place_of(mesh: &Mesh, point: PointId) -> Place
    requires live { IsLivePoint mesh.now.slots point.0 }
    ensures { IsPointOf mesh.now.slots point.0 result }
{
    let at = half_edge_of(point);
    let Some(t) = mesh.triangle(at.slot) else {
        unreachable!()
    };
    let seen = seen_from(&t, at.edge);
    match place_at(seen.a) {
        Some(place) => place,
        None => unreachable!(),
    }
}

/// The place at which a half-edge begins.
pub(crate) fn start_of(mesh: &Mesh, at: HalfEdge) -> Place
    requires corner { (p : Coords) × IsCornerOf mesh.now.slots at.slot at.edge p }
    ensures { IsCornerOf mesh.now.slots at.slot at.edge result }
{
    let Some(t) = mesh.triangle(at.slot) else {
        unreachable!()
    };
    let seen = seen_from(&t, at.edge);
    match place_at(seen.a) {
        Some(place) => place,
        None => unreachable!(),
    }
}
