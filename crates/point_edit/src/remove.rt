//! A point is taken out of a mesh.

ghost use Rattle.std.specs.Prelude.{◌≡◌, ◌++◌, ℕ, [], List, IfOk, OnOk};
ghost use Rattle.ground_model.specs.declared.corner.Corner.TheVariants.{At};
ghost use Rattle.ground_model.specs.Place.{Coords};
ghost use Rattle.predicates.specs.Sheet.{IsLocallyDelaunay};
ghost use Rattle.mesh.specs.Meshes.{raised};
ghost use Rattle.mesh.specs.Sheets.{IsSheetMesh, net_in};
ghost use Rattle.mesh.specs.Suspects.{KeepsSuspects};
ghost use Rattle.locate.specs.Facets.{IsCornerOf};
ghost use Rattle.point_edit.specs.Removals.{FlipsAt, HasNoFlip, IsClosed, IsLivePoint, IsPointOf, IsRemovable, IsTakenOut, Removal};
ghost use Rattle.point_edit.specs.Results.{HasFacetsOfNet, NamesMade};

use crate::point::place_of;
use crate::star::{Standing, find_flip, has_three};
use ground_model::Place;
use mesh::{Mesh, PointId, Script};
use std::alloc::{AllocError, Global};

// Flips edges at the point, each of which takes one triangle from its star, until none can be flipped. The
// answer is a triangle at the point.
fn flip_down(
    mesh: &mut Mesh,
    point: Place,
    from: Standing,
    script: &mut Script,
) -> Result<Standing, AllocError>
    requires sheet { IsSheetMesh mesh.old.slots }
    requires corner { IsCornerOf mesh.old.slots from.slot from.corner point }
    ensures sheet { OnOk result (IsSheetMesh mesh.new.slots) }
    ensures corner { IfOk result (λ at. IsCornerOf mesh.new.slots at.slot at.corner point) }
    ensures none { OnOk result (HasNoFlip mesh.new.slots point) }
    ensures flips { OnOk result (FlipsAt (At point) mesh.old mesh.new script.old script.new) }
    ensures suspects { OnOk result (KeepsSuspects mesh.old.slots mesh.new.slots script.old script.new) }
{
    // For the proof: the count of turns fits.
    let _turns = mesh.turns();
    let mut at = from;
    while let Some(found) = find_flip(mesh, point, at) {
        mesh.flip(found.slot, found.corner, script)?;
        at = Standing {
            slot: found.slot,
            corner: 0,
        };
    }
    Ok(at)
}

// Takes out a point at which no edge can be flipped: three triangles stand round it, or four with the point
// straight between two neighbours.
fn close(mesh: &mut Mesh, point: Place, at: Standing, script: &mut Script) -> Result<(), AllocError>
    requires sheet { IsSheetMesh mesh.old.slots }
    requires corner { IsCornerOf mesh.old.slots at.slot at.corner point }
    requires none { HasNoFlip mesh.old.slots point }
    requires removable { IsRemovable (net_in mesh.old.slots) point }
    ensures sheet { OnOk result (IsSheetMesh mesh.new.slots) }
    ensures closed { OnOk result (IsClosed mesh.old.slots mesh.new.slots script.old script.new) }
    ensures content { OnOk result (IsTakenOut (net_in mesh.old.slots) (net_in mesh.new.slots) point) }
    ensures suspects { OnOk result (KeepsSuspects mesh.old.slots mesh.new.slots script.old script.new) }
    ensures turns { OnOk result (mesh.new.turns ≡ raised mesh.old.turns) }
{
    if has_three(mesh, point, at) {
        mesh.unsplit(at.slot, at.corner, script)?;
        Ok(())
    } else {
        mesh.unsplit_edge(at.slot, at.corner, script)?;
        Ok(())
    }
}

/// Takes a point out of a locally Delaunay mesh, within the hull, on it, and the last of all. At most two edges
/// at it are pieces, and each of these goes straight on through it with the same count. Edges at the point are
/// flipped until three triangles stand round it, or four with the point straight between two neighbours; these
/// give way to one, or to two whose common edge keeps the count; then flips make all locally Delaunay again.
/// The script names every slot that a triangle was written into. After an error the mesh is only to be dropped.
pub fn remove_point(alloc: Global, mesh: &mut Mesh, point: PointId) -> Result<Script, AllocError>
    requires sheet { IsSheetMesh mesh.old.slots }
    requires delaunay { IsLocallyDelaunay (net_in mesh.old.slots) }
    requires live { IsLivePoint mesh.old.slots point.0 }
    requires removable { (p : Coords) → IsPointOf mesh.old.slots point.0 p → IsRemovable (net_in mesh.old.slots) p }
    ensures sheet { OnOk result (IsSheetMesh mesh.new.slots) }
    ensures delaunay { OnOk result (IsLocallyDelaunay (net_in mesh.new.slots)) }
    ensures content { OnOk result ((p : Coords) → IsPointOf mesh.old.slots point.0 p → IsTakenOut (net_in mesh.old.slots) (net_in mesh.new.slots) p) }
    ensures facets { OnOk result (HasFacetsOfNet (net_in mesh.new.slots)) }
    ensures steps { IfOk result (λ script. (p : Coords) → IsPointOf mesh.old.slots point.0 p → Removal mesh.old mesh.new p script) }
    ensures script { IfOk result (λ script. NamesMade mesh.old.slots mesh.new.slots script) }
{
    let at = Standing {
        slot: point.0 / 4,
        corner: (point.0 % 4) as u8,
    };
    let place = place_of(mesh, at);
    let mut script = Script::new(alloc);
    let last = flip_down(mesh, place, at, &mut script)?;
    close(mesh, place, last, &mut script)?;
    mesh.legalize(&mut script)?;
    Ok(script)
}
