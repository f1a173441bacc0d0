//! A point is put into a mesh.

ghost use Rattle.std.specs.Prelude.{◌≡◌, [], IfOk, OnOk};
ghost use Rattle.predicates.specs.Sheet.{IsLocallyDelaunay};
ghost use Rattle.mesh.specs.Meshes.{raised};
ghost use Rattle.mesh.specs.Sheets.{IsSheetMesh, net_in};
ghost use Rattle.mesh.specs.Suspects.{KeepsSuspects};
ghost use Rattle.locate.specs.Spots.{IsSpot};
ghost use Rattle.point_edit.specs.Insertions.{Insertion, IsNoCorner, IsPlaced, IsPutIn};
ghost use Rattle.point_edit.specs.Results.{HasFacetsOfNet, NamesWritten};

use ground_model::Place;
use locate::Spot;
use mesh::{Mesh, Script};
use std::alloc::{AllocError, Global};

// Splits the triangle or the edge at the place's spot.
fn split_at(
    mesh: &mut Mesh,
    spot: Spot,
    place: Place,
    script: &mut Script,
) -> Result<(), AllocError>
    requires sheet { IsSheetMesh mesh.old.slots }
    requires spot { IsSpot mesh.old.slots place spot }
    requires no_corner { IsNoCorner spot }
    requires fresh { script.old ≡ [] }
    ensures sheet { OnOk result (IsSheetMesh mesh.new.slots) }
    ensures placed { OnOk result (IsPlaced mesh.old.slots mesh.new.slots spot place script.new) }
    ensures suspects { OnOk result (KeepsSuspects mesh.old.slots mesh.new.slots script.old script.new) }
    ensures turns { OnOk result (mesh.new.turns ≡ raised mesh.old.turns) }
{
    match spot {
        Spot::Inside(slot) => {
            mesh.split(slot, place, script)?;
            Ok(())
        }
        Spot::OnEdge(slot, edge) => {
            mesh.split_edge(slot, edge, place, script)?;
            Ok(())
        }
        Spot::Corner(_, _) => unreachable!(),
    }
}

/// Puts a point into a locally Delaunay mesh at its spot, within the hull, on it or beyond it: splits the
/// triangle or the edge there, and flips until all is locally Delaunay again (Guibas and Stolfi 1985). An edge
/// that is split hands its count to both parts. The script names every slot that was written. After an error
/// the mesh is only to be dropped.
pub fn insert_point(
    alloc: Global,
    mesh: &mut Mesh,
    spot: Spot,
    place: Place,
) -> Result<Script, AllocError>
    requires sheet { IsSheetMesh mesh.old.slots }
    requires delaunay { IsLocallyDelaunay (net_in mesh.old.slots) }
    requires spot { IsSpot mesh.old.slots place spot }
    requires no_corner { IsNoCorner spot }
    ensures sheet { OnOk result (IsSheetMesh mesh.new.slots) }
    ensures delaunay { OnOk result (IsLocallyDelaunay (net_in mesh.new.slots)) }
    ensures content { OnOk result (IsPutIn mesh.old.slots spot place (net_in mesh.old.slots) (net_in mesh.new.slots)) }
    ensures facets { OnOk result (HasFacetsOfNet (net_in mesh.new.slots)) }
    ensures steps { IfOk result (λ script. Insertion mesh.old mesh.new spot place script) }
    ensures script { IfOk result (λ script. NamesWritten mesh.old.slots mesh.new.slots script) }
{
    // For the proof: a place is within the limit.
    let _easting = place.e();
    let mut script = Script::new(alloc);
    split_at(mesh, spot, place, &mut script)?;
    mesh.legalize(&mut script)?;
    Ok(script)
}
