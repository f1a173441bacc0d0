//! A march along a straight way.

ghost use Rattle.std.specs.Prelude.{◌≡◌, true, false, IfOk};
ghost use Rattle.ground_model.specs.Line.{is_point};
ghost use Rattle.ground_model.specs.Place.{Coords};
ghost use Rattle.mesh.specs.Sheets.{IsSheetMesh, net_in};
ghost use Rattle.locate.specs.Facets.{IsCornerOf};
ghost use Rattle.point_edit.specs.Removals.{IsLivePoint, IsPointOf};
ghost use Rattle.line_edit.specs.Crossings.{IsFirstMet};
ghost use Rattle.line_edit.specs.Ways.{IsWay};

use crate::ahead::{first_of, next_point};
use crate::half_edge::{HalfEdge, half_edge_of, place_of};
use ground_model::Place;
use mesh::{Mesh, PointId};
use std::alloc::{AllocError, Global};

/// What lies on the straight way from one point to another.
#[derive(Drop)]
pub struct Way {
    /// The points after the first, in their order along the way; the last is the other point.
    pub points: Vec<Place>,
    /// The first piece that the way crosses, as the half-edge from its right end to its left one.
    pub met: Option<HalfEdge>,
}

// Whether two places are one.
fn is_same(a: Place, b: Place) -> bool
    ensures yes { result ≡ true → a ≡ b }
    ensures no { result ≡ false → a ≡ b → ⊥ }
{
    a == b
}

// The way from p, where a half-edge begins, to q.
fn way_from(
    alloc: Global,
    mesh: &Mesh,
    p: Place,
    q: Place,
    from: HalfEdge,
) -> Result<Way, AllocError>
    requires sheet { IsSheetMesh mesh.now.slots }
    requires corner { IsCornerOf mesh.now.slots from.slot from.edge p }
    requires goal { is_point (net_in mesh.now.slots).points q ≡ true }
    ensures points { IfOk result (λ way. IsWay (net_in mesh.now.slots) p q p way.points.items) }
    ensures met { IfOk result (λ way. IsFirstMet mesh.now.slots p q way.met) }
{
    let mut place = p;
    let mut at = from;
    let mut points = Vec::new(alloc);
    let mut met = None;
    'points: while !is_same(place, q) {
        let next = next_point(mesh, p, q, place, at);
        place = next.place;
        at = next.at;
        met = first_of(met, next.met);
        points.push(place)?;
    }
    Ok(Way { points, met })
}

/// The points on the straight way from one point to another, and the first piece that it crosses. A piece crosses
/// it where the ends of each lie strictly on opposite sides of the other. It marches through the triangles that
/// the way goes through, and round the points on it, and looks at no others (the visibility walk along a line).
pub fn way_between(alloc: Global, mesh: &Mesh, p: PointId, q: PointId) -> Result<Way, AllocError>
    requires sheet { IsSheetMesh mesh.now.slots }
    requires p { IsLivePoint mesh.now.slots p.0 }
    requires q { IsLivePoint mesh.now.slots q.0 }
    ensures points { IfOk result (λ way. (a b : Coords) → IsPointOf mesh.now.slots p.0 a → IsPointOf mesh.now.slots q.0 b → IsWay (net_in mesh.now.slots) a b a way.points.items) }
    ensures met { IfOk result (λ way. (a b : Coords) → IsPointOf mesh.now.slots p.0 a → IsPointOf mesh.now.slots q.0 b → IsFirstMet mesh.now.slots a b way.met) }
{
    let from = place_of(mesh, p);
    let to = place_of(mesh, q);
    way_from(alloc, mesh, from, to, half_edge_of(p))
}
