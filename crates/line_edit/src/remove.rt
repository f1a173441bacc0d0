//! A piece is taken out of a mesh.

ghost use Rattle.std.specs.Prelude.{◌≡◌, [], IfOk, OnOk};
ghost use Rattle.ground_model.specs.Place.{Coords};
ghost use Rattle.predicates.specs.Sheet.{IsLocallyDelaunay};
ghost use Rattle.mesh.specs.Sheets.{IsSheetMesh, net_in};
ghost use Rattle.point_edit.specs.Removals.{IsLivePoint, IsPointOf};
ghost use Rattle.point_edit.specs.Results.{HasFacetsOfNet, NamesWritten};
ghost use Rattle.line_edit.specs.Counts.{HasOneLineMore};
ghost use Rattle.line_edit.specs.Edges.{IsFromTo};
ghost use Rattle.line_edit.specs.Removals.{IsPieceBetween, PieceRemoval};

use crate::between::edge_between;
use crate::half_edge::HalfEdge;
use mesh::{Mesh, PointId, Script};
use std::alloc::{AllocError, Global};

// The edge of a piece.
fn edge_of_piece(mesh: &Mesh, p: PointId, q: PointId) -> HalfEdge
    requires sheet { IsSheetMesh mesh.now.slots }
    requires p { IsLivePoint mesh.now.slots p.0 }
    requires q { IsLivePoint mesh.now.slots q.0 }
    requires piece { IsPieceBetween mesh.now.slots p.0 q.0 }
    ensures { (a b : Coords) → IsPointOf mesh.now.slots p.0 a → IsPointOf mesh.now.slots q.0 b → IsFromTo mesh.now.slots result.slot result.edge a b }
{
    match edge_between(mesh, p, q) {
        Some(at) => at,
        // A piece is an edge.
        None => unreachable!(),
    }
}

/// Takes a piece out of a locally Delaunay mesh: one line less runs over the edge from one point to the other,
/// and where none does then, flips make all locally Delaunay again (Lawson 1977). The script names every slot
/// that was written. It looks at the triangles round the first point, and at those that the flips reach. After
/// an error the mesh is only to be dropped.
pub fn remove_piece(
    alloc: Global,
    mesh: &mut Mesh,
    p: PointId,
    q: PointId,
) -> Result<Script, AllocError>
    requires sheet { IsSheetMesh mesh.old.slots }
    requires delaunay { IsLocallyDelaunay (net_in mesh.old.slots) }
    requires p { IsLivePoint mesh.old.slots p.0 }
    requires q { IsLivePoint mesh.old.slots q.0 }
    requires piece { IsPieceBetween mesh.old.slots p.0 q.0 }
    ensures sheet { OnOk result (IsSheetMesh mesh.new.slots) }
    ensures delaunay { OnOk result (IsLocallyDelaunay (net_in mesh.new.slots)) }
    ensures content { OnOk result ((a b : Coords) → IsPointOf mesh.old.slots p.0 a → IsPointOf mesh.old.slots q.0 b → HasOneLineMore (net_in mesh.new.slots) (net_in mesh.old.slots) a b) }
    ensures facets { OnOk result (HasFacetsOfNet (net_in mesh.new.slots)) }
    ensures steps { IfOk result (λ script. (a b : Coords) → IsPointOf mesh.old.slots p.0 a → IsPointOf mesh.old.slots q.0 b → PieceRemoval mesh.old mesh.new a b script) }
    ensures script { IfOk result (λ script. NamesWritten mesh.old.slots mesh.new.slots script) }
{
    let at = edge_of_piece(mesh, p, q);
    let mut script = Script::new(alloc);
    mesh.take_count(at.slot, at.edge, &mut script)?;
    mesh.legalize(&mut script)?;
    Ok(script)
}
