//! The pieces at a point, and whether it can be taken out.

ghost use Rattle.std.specs.Prelude.{◌≡◌, ⊤, pos, true, false};
ghost use Rattle.ground_model.specs.declared.corner.Corner.TheVariants.{At};
ghost use Rattle.ground_model.specs.Corner.{corner_side};
ghost use Rattle.ground_model.specs.Place.{Coords};
ghost use Rattle.predicates.specs.Far.{IsKnown};
ghost use Rattle.mesh.specs.Net.{side as side_of};
ghost use Rattle.mesh.specs.Sheets.{IsSheetMesh, net_in};
ghost use Rattle.locate.specs.Facets.{IsCornerOf};
ghost use Rattle.point_edit.specs.Pieces.{AreMet, IsEdgeTo, met_with};
ghost use Rattle.point_edit.specs.Removals.{IsLivePoint, IsNextRound, IsPointOf, IsRemovable};

use crate::point::place_of;
use crate::star::Standing;
use ground_model::{Corner, Place};
use locate::next_round;
use mesh::{Mesh, PointId, seen_from};
use predicates::side;

/// The pieces at a point that were met on the way round it: the counts and the further ends of the first two, a
/// count of 0 where there is none, and whether there are more.
#[derive(Clone, Copy)]
pub(crate) struct Met {
    pub(crate) first: u16,
    pub(crate) first_end: Corner,
    pub(crate) second: u16,
    pub(crate) second_end: Corner,
    pub(crate) more: bool,
}

// The pieces that were met, with an edge to this end more.
fn met_then(met: Met, end: Corner, count: u16) -> Met
    ensures { result ≡ met_with met end count }
{
    if count == 0 {
        return met;
    }
    if met.first == 0 {
        return Met {
            first: count,
            first_end: end,
            second: met.second,
            second_end: met.second_end,
            more: met.more,
        };
    }
    if met.second == 0 {
        return Met {
            first: met.first,
            first_end: met.first_end,
            second: count,
            second_end: end,
            more: met.more,
        };
    }
    Met {
        first: met.first,
        first_end: met.first_end,
        second: met.second,
        second_end: met.second_end,
        more: true,
    }
}

// The edge from the point with which a triangle begins there.
#[derive(Clone, Copy)]
struct EdgeAhead {
    at: Standing,
    end: Corner,
    count: u16,
}

// Goes to the next triangle at the point, counterclockwise.
fn edge_ahead(mesh: &Mesh, point: Place, at: Standing) -> EdgeAhead
    requires sheet { IsSheetMesh mesh.now.slots }
    requires corner { IsCornerOf mesh.now.slots at.slot at.corner point }
    ensures corner { IsCornerOf mesh.now.slots result.at.slot result.at.corner point }
    ensures next { IsNextRound mesh.now.slots at.slot (side_of at.corner) result.at.slot (side_of result.at.corner) }
    ensures edge { IsEdgeTo mesh.now.slots result.at.slot (side_of result.at.corner) result.end result.count }
{
    let next = next_round(mesh, at.slot, at.corner, point);
    let seen = seen_from(&next.tri, next.edge);
    EdgeAhead {
        at: Standing {
            slot: next.slot,
            corner: next.edge,
        },
        end: seen.b,
        count: seen.ab,
    }
}

// The pieces at a point, by a walk once round it.
fn pieces_round(mesh: &Mesh, point: Place, from: Standing) -> Met
    requires sheet { IsSheetMesh mesh.now.slots }
    requires corner { IsCornerOf mesh.now.slots from.slot from.corner point }
    ensures { AreMet mesh.now.slots point (λ x. ⊤) result }
{
    let mut at = from;
    let mut met = Met {
        first: 0,
        first_end: Corner::At(point),
        second: 0,
        second_end: Corner::At(point),
        more: false,
    };
    for step in 0..mesh.pages().len() {
        let edge = edge_ahead(mesh, point, at);
        at = edge.at;
        met = met_then(met, edge.end, edge.count);
        if at.slot == from.slot {
            return met;
        }
    }
    // No more triangles stand round a point than there are slots.
    unreachable!()
}

// Whether three corners are collinear.
fn is_flat(a: &Corner, b: &Corner, c: &Corner) -> bool
    requires a { IsKnown a.now }
    requires b { IsKnown b.now }
    requires c { IsKnown c.now }
    ensures yes { result ≡ true → corner_side a.now b.now c.now ≡ pos 0 }
    ensures no { result ≡ false → corner_side a.now b.now c.now ≡ pos 0 → ⊥ }
{
    side(*a, *b, *c).is_zero()
}

/// Whether a live point can be taken out by `remove_point`: whether at most two edges at it are pieces, and each
/// of these goes straight on through it with the same count. It walks once round the point, and takes no memory.
pub fn is_removable(mesh: &Mesh, point: PointId) -> bool
    requires sheet { IsSheetMesh mesh.now.slots }
    requires live { IsLivePoint mesh.now.slots point.0 }
    ensures yes { result ≡ true → (p : Coords) → IsPointOf mesh.now.slots point.0 p → IsRemovable (net_in mesh.now.slots) p }
    ensures no { result ≡ false → (p : Coords) → IsPointOf mesh.now.slots point.0 p → IsRemovable (net_in mesh.now.slots) p → ⊥ }
{
    let at = Standing {
        slot: point.0 / 4,
        corner: (point.0 % 4) as u8,
    };
    let place = place_of(mesh, at);
    let met = pieces_round(mesh, place, at);
    if met.first == 0 {
        return true;
    }
    if met.second == 0 {
        return false;
    }
    if met.more {
        return false;
    }
    met.first == met.second && is_flat(&met.first_end, &Corner::At(place), &met.second_end)
}
