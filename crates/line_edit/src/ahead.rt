//! Where a straight way goes on, from a point or over an edge.

ghost use Rattle.std.specs.Prelude.{◌≡◌, ◌<◌, pos, true, Some, IfSome, IfNone};
ghost use Rattle.ground_model.specs.declared.corner.Corner.TheVariants.{At};
ghost use Rattle.ground_model.specs.Line.{is_point};
ghost use Rattle.ground_model.specs.Place.{Coords};
ghost use Rattle.ground_model.specs.Side.{side as side_at};
ghost use Rattle.mesh.specs.Meshes.{IsLive};
ghost use Rattle.mesh.specs.Net.{after, side as side_of};
ghost use Rattle.mesh.specs.Sheets.{IsSheetMesh, net_in};
ghost use Rattle.locate.specs.Facets.{IsCornerOf};
ghost use Rattle.line_edit.specs.Crossings.{IsBefore, IsCrossing, IsMetFrom, IsNotPassed, IsNoted};
ghost use Rattle.line_edit.specs.Ways.{IsAhead, IsLater, IsNextOn, IsOver, IsPast, IsToward};

use crate::half_edge::{HalfEdge, start_of};
use crate::sides::{is_flat, is_left};
use ground_model::{Corner, Place};
use locate::next_round;
use mesh::{Mesh, seen_from};

/// A part of a way, up to the next point on it: the point's place, a half-edge that begins there, and the first
/// piece that crosses the part.
#[derive(Clone, Copy, Drop)]
pub(crate) struct Leg {
    pub(crate) place: Place,
    pub(crate) at: HalfEdge,
    pub(crate) met: Option<HalfEdge>,
}

/// Where a way goes on: it reaches the corner where an edge begins, or crosses the edge.
#[derive(Clone, Copy, Drop)]
pub(crate) enum Ahead {
    Reaches(HalfEdge),
    Crosses(HalfEdge),
}

// The next edge, counterclockwise.
fn edge_after(edge: u8) -> u8
    requires { edge < 3 }
    ensures edge { result < 3 }
    ensures after { side_of result ≡ after (side_of edge) }
{
    if edge == 2 { 0 } else { edge + 1 }
}

/// Goes over an edge that crosses the way from p to q to the triangle beyond it: its apex lies on the way, or
/// another edge of it crosses the way.
pub(crate) fn go_over(mesh: &Mesh, p: Place, q: Place, at: HalfEdge) -> Ahead
    requires sheet { IsSheetMesh mesh.now.slots }
    requires goal { is_point (net_in mesh.now.slots).points q ≡ true }
    requires over { (v : Coords) × (IsPast p q v q × IsOver mesh.now.slots p q v at.slot at.edge) }
    ensures ahead { (v : Coords) → IsOver mesh.now.slots p q v at.slot at.edge → IsAhead mesh.now.slots p q v result }
    ensures later { IsLater mesh.now.slots p q at.slot at.edge result }
    ensures passed { (v c d : Coords) → IsOver mesh.now.slots p q v at.slot at.edge → IsCrossing mesh.now.slots p q v c d → IsBefore mesh.now.slots p q at.slot at.edge c d → IsNotPassed mesh.now.slots p q result c d }
{
    // For the proof: places are within the limit.
    let _eastings = (p.e(), q.e());
    let Some(next) = mesh.across(at.slot, at.edge) else {
        // No place lies beyond the far triangle.
        unreachable!()
    };
    let apex = seen_from(&next.tri, next.edge).c;
    let second = HalfEdge {
        slot: next.slot,
        edge: edge_after(next.edge),
    };
    let third = HalfEdge {
        slot: next.slot,
        edge: edge_after(second.edge),
    };
    if is_flat(&Corner::At(p), &Corner::At(q), &apex) {
        return Ahead::Reaches(third);
    }
    if is_left(&Corner::At(p), &Corner::At(q), &apex) {
        Ahead::Crosses(second)
    } else {
        Ahead::Crosses(third)
    }
}

// Looks at one triangle at the point v, which lies on the way: None where the way doesn't go through it.
fn look_from(mesh: &Mesh, q: Place, v: Place, at: HalfEdge) -> Option<Ahead>
    requires sheet { IsSheetMesh mesh.now.slots }
    requires corner { IsCornerOf mesh.now.slots at.slot at.edge v }
    ensures some { IfSome result (λ ahead. (p : Coords) → side_at p q v ≡ pos 0 → IsPast p q v q → IsAhead mesh.now.slots p q v ahead) }
    ensures passed { IfSome result (λ ahead. (p c d : Coords) → side_at p q v ≡ pos 0 → IsPast p q v q → IsCrossing mesh.now.slots p q v c d → IsNotPassed mesh.now.slots p q ahead c d) }
    ensures none { IfNone result (IsToward mesh.now.slots at.slot at.edge v q → ⊥) }
{
    // For the proof: a place is within the limit.
    let _easting = q.e();
    let Some(t) = mesh.triangle(at.slot) else {
        unreachable!()
    };
    let seen = seen_from(&t, at.edge);
    let ahead = HalfEdge {
        slot: at.slot,
        edge: edge_after(at.edge),
    };
    let goal = Corner::At(q);
    if !is_left(&seen.c, &seen.a, &goal) {
        return None;
    }
    if is_flat(&seen.a, &seen.b, &goal) {
        return Some(Ahead::Reaches(ahead));
    }
    if is_left(&seen.a, &seen.b, &goal) {
        Some(Ahead::Crosses(ahead))
    } else {
        None
    }
}

/// Where the way from p to q goes on from the point v on it, at most once round v.
pub(crate) fn leave(mesh: &Mesh, q: Place, v: Place, from: HalfEdge) -> Ahead
    requires sheet { IsSheetMesh mesh.now.slots }
    requires corner { IsCornerOf mesh.now.slots from.slot from.edge v }
    requires apart { v ≡ q → ⊥ }
    ensures ahead { (p : Coords) → side_at p q v ≡ pos 0 → IsPast p q v q → IsAhead mesh.now.slots p q v result }
    ensures passed { (p c d : Coords) → side_at p q v ≡ pos 0 → IsPast p q v q → IsCrossing mesh.now.slots p q v c d → IsNotPassed mesh.now.slots p q result c d }
{
    let mut at = from;
    for step in 0..mesh.pages().len() {
        let next = next_round(mesh, at.slot, at.edge, v);
        at = HalfEdge {
            slot: next.slot,
            edge: next.edge,
        };
        if let Some(ahead) = look_from(mesh, q, v, at) {
            return ahead;
        }
        if at.slot == from.slot {
            // The triangles round a point leave no way out of it uncovered.
            unreachable!()
        }
    }
    // No more triangles stand round a point than there are slots.
    unreachable!()
}

// The edge, if it is a piece.
fn as_piece(mesh: &Mesh, at: HalfEdge) -> Option<HalfEdge>
    requires live { IsLive mesh.now.slots at.slot }
    requires edge { at.edge < 3 }
    ensures { IsNoted mesh.now.slots at.slot at.edge result }
{
    let Some(t) = mesh.triangle(at.slot) else {
        unreachable!()
    };
    let seen = seen_from(&t, at.edge);
    if seen.ab == 0 {
        return None;
    }
    Some(at)
}

/// What was met first: what was met before, if anything was, or what comes now.
pub(crate) fn first_of(met: Option<HalfEdge>, now: Option<HalfEdge>) -> Option<HalfEdge>
    ensures kept { IfSome met (λ at. result ≡ Some at) }
    ensures new { IfNone met (result ≡ now) }
{
    match met {
        Some(at) => Some(at),
        None => now,
    }
}

/// The next point on the way from p to q after the point v on it, and the first piece that the way crosses before
/// it, by a march through the triangles that the way goes through, and no others (the visibility walk along a
/// line). It takes no memory.
pub(crate) fn next_point(mesh: &Mesh, p: Place, q: Place, v: Place, from: HalfEdge) -> Leg
    requires sheet { IsSheetMesh mesh.now.slots }
    requires corner { IsCornerOf mesh.now.slots from.slot from.edge v }
    requires goal { is_point (net_in mesh.now.slots).points q ≡ true }
    requires on { side_at p q v ≡ pos 0 }
    requires past { IsPast p q v q }
    requires apart { v ≡ q → ⊥ }
    ensures corner { IsCornerOf mesh.now.slots result.at.slot result.at.edge result.place }
    ensures next { IsNextOn (net_in mesh.now.slots) p q v result.place }
    ensures met { IsMetFrom mesh.now.slots p q v result.place result.met }
{
    let mut ahead = leave(mesh, q, v, from);
    let mut met = None;
    while let Ahead::Crosses(edge) = ahead {
        met = first_of(met, as_piece(mesh, edge));
        ahead = go_over(mesh, p, q, edge);
    }
    match ahead {
        Ahead::Reaches(at) => {
            let place = start_of(mesh, at);
            Leg { place, at, met }
        }
        Ahead::Crosses(_) => unreachable!(),
    }
}
