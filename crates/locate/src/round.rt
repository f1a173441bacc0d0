//! The next triangle round a point.

ghost use Rattle.std.specs.Prelude.{◌≡◌, ◌<◌};
ghost use Rattle.tri_pages.specs.Slots.{triangle_at};
ghost use Rattle.tri_pages.specs.declared.tri_slot.TriSlot.{TriSlot};
ghost use Rattle.mesh.specs.Acrosses.{IsAcross};
ghost use Rattle.mesh.specs.Net.{after, side};
ghost use Rattle.mesh.specs.Sheets.{IsSheetMesh};
ghost use Rattle.locate.specs.Facets.{IsCornerOf};

use crate::sides::edge_before;
use ground_model::Place;
use mesh::{Across, Mesh};

/// The next triangle round a point, counterclockwise, from a triangle that has the point as a corner; with the
/// edge that begins there at the point. It takes no memory.
pub fn next_round(mesh: &Mesh, slot: u32, corner: u8, point: Place) -> Across
    requires sheet { IsSheetMesh mesh.now.slots }
    requires corner { IsCornerOf mesh.now.slots slot corner point }
    ensures across { (t : TriSlot) → triangle_at mesh.now.slots slot ≡ Some t → IsAcross mesh.now.slots t (after (after (side corner))) result.slot result.tri (side result.edge) }
    ensures corner { IsCornerOf mesh.now.slots result.slot result.edge point }
{
    match mesh.across(slot, edge_before(corner)) {
        Some(next) => next,
        // An edge at a place is none of the far triangle's.
        None => unreachable!(),
    }
}
