//! Points and their numbers.

ghost use Rattle.std.specs.Prelude.{◌≡◌, true, IfSome, IfNone};
ghost use Rattle.ground_model.specs.declared.corner.Corner.TheVariants.{At};
ghost use Rattle.ground_model.specs.Place.{Coords};
ghost use Rattle.predicates.specs.Far.{is_far};
ghost use Rattle.mesh.specs.Sheets.{IsSheetMesh};
ghost use Rattle.locate.specs.Facets.{IsCornerOf};
ghost use Rattle.point_edit.specs.Removals.{IsPointOf};

use crate::star::Standing;
use ground_model::{Corner, Place};
use mesh::{Mesh, PointId, seen_from};

// The place that a corner is.
fn place_at(corner: Corner) -> Option<Place>
    ensures some { IfSome result (λ p. corner ≡ At p) }
    ensures none { IfNone result (is_far corner ≡ true) }
{
    match corner {
        Corner::At(place) => Some(place),
        Corner::Far(_) => None,
    }
}

/// The place of a point's number.
pub(crate) fn place_of(mesh: &Mesh, at: Standing) -> Place
    requires corner { (p : Coords) × IsCornerOf mesh.now.slots at.slot at.corner p }
    ensures { IsCornerOf mesh.now.slots at.slot at.corner result }
{
    let Some(t) = mesh.triangle(at.slot) else {
        unreachable!()
    };
    let seen = seen_from(&t, at.corner);
    match place_at(seen.a) {
        Some(place) => place,
        None => unreachable!(),
    }
}

/// The number of a point, from a slot that has it as this corner.
pub fn number_of(mesh: &Mesh, slot: u32, corner: u8, point: Place) -> PointId
    requires sheet { IsSheetMesh mesh.now.slots }
    requires corner { IsCornerOf mesh.now.slots slot corner point }
    ensures { IsPointOf mesh.now.slots result.0 point }
{
    // For the proof: there are fewer than 2^30 slots.
    let _slots = mesh.pages().len();
    PointId(4 * slot + corner as u32)
}
