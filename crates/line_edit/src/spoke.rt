//! The edges from a point, one after the other.

ghost use Rattle.std.specs.Prelude.{◌≡◌};
ghost use Rattle.mesh.specs.Net.{side as side_of};
ghost use Rattle.mesh.specs.Sheets.{IsSheetMesh};
ghost use Rattle.locate.specs.Facets.{IsCornerOf};
ghost use Rattle.point_edit.specs.Pieces.{IsEdgeTo};
ghost use Rattle.point_edit.specs.Removals.{IsNextRound};

use crate::half_edge::HalfEdge;
use ground_model::{Corner, Place};
use locate::next_round;
use mesh::{Mesh, seen_from};

/// An edge from a point: where it stands, where it ends, and its count.
#[derive(Clone, Copy)]
pub(crate) struct Spoke {
    pub(crate) at: HalfEdge,
    pub(crate) end: Corner,
    pub(crate) count: u16,
}

/// Goes to the next edge from the point, counterclockwise.
pub(crate) fn next_spoke(mesh: &Mesh, point: Place, at: HalfEdge) -> Spoke
    requires sheet { IsSheetMesh mesh.now.slots }
    requires corner { IsCornerOf mesh.now.slots at.slot at.edge point }
    ensures corner { IsCornerOf mesh.now.slots result.at.slot result.at.edge point }
    ensures next { IsNextRound mesh.now.slots at.slot (side_of at.edge) result.at.slot (side_of result.at.edge) }
    ensures edge { IsEdgeTo mesh.now.slots result.at.slot (side_of result.at.edge) result.end result.count }
{
    let next = next_round(mesh, at.slot, at.edge, point);
    let seen = seen_from(&next.tri, next.edge);
    Spoke {
        at: HalfEdge {
            slot: next.slot,
            edge: next.edge,
        },
        end: seen.b,
        count: seen.ab,
    }
}
