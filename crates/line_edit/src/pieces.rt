//! The pieces at a point.

ghost use Rattle.std.specs.Prelude.{◌≡◌, IfOk, OnOk};
ghost use Rattle.ground_model.specs.Place.{Coords};
ghost use Rattle.mesh.specs.Sheets.{IsSheetMesh, net_in};
ghost use Rattle.locate.specs.Facets.{IsCornerOf};
ghost use Rattle.point_edit.specs.Removals.{IsLivePoint, IsPointOf};
ghost use Rattle.line_edit.specs.Ends.{ArePiecesAt, with_end};

use crate::half_edge::{HalfEdge, half_edge_of, place_of};
use crate::spoke::next_spoke;
use ground_model::{Corner, Place};
use mesh::{Mesh, PointId};
use std::alloc::{AllocError, Global};

/// A piece from a point: where it ends, and how many lines run over it.
#[derive(Clone, Copy, Drop)]
pub struct PieceEnd {
    pub end: Place,
    pub count: u16,
}

// Notes an edge, if it is a piece.
fn note(found: &mut Vec<PieceEnd>, end: Corner, count: u16) -> Result<(), AllocError>
    ensures { OnOk result (found.new.items ≡ with_end found.old.items end count) }
{
    if count == 0 {
        return Ok(());
    }
    match end {
        Corner::At(end) => {
            found.push(PieceEnd { end, count })?;
            Ok(())
        }
        Corner::Far(_) => Ok(()),
    }
}

// The pieces at the point, by a walk once round it.
fn pieces_round(
    alloc: Global,
    mesh: &Mesh,
    point: Place,
    from: HalfEdge,
) -> Result<Vec<PieceEnd>, AllocError>
    requires sheet { IsSheetMesh mesh.now.slots }
    requires corner { IsCornerOf mesh.now.slots from.slot from.edge point }
    ensures { IfOk result (λ found. ArePiecesAt (net_in mesh.now.slots) point found.items) }
{
    let mut at = from;
    let mut found = Vec::new(alloc);
    for step in 0..mesh.pages().len() {
        let spoke = next_spoke(mesh, point, at);
        at = spoke.at;
        note(&mut found, spoke.end, spoke.count)?;
        if at.slot == from.slot {
            return Ok(found);
        }
    }
    // No more triangles stand round a point than there are slots.
    unreachable!()
}

/// The pieces at a point, each once, counterclockwise from the point's number. It goes once round the point.
pub fn pieces_at(alloc: Global, mesh: &Mesh, point: PointId) -> Result<Vec<PieceEnd>, AllocError>
    requires sheet { IsSheetMesh mesh.now.slots }
    requires live { IsLivePoint mesh.now.slots point.0 }
    ensures { IfOk result (λ found. (p : Coords) → IsPointOf mesh.now.slots point.0 p → ArePiecesAt (net_in mesh.now.slots) p found.items) }
{
    let place = place_of(mesh, point);
    pieces_round(alloc, mesh, place, half_edge_of(point))
}
