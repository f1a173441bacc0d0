//! The line through a corner of four triangles.

ghost use Rattle.std.specs.Prelude.{◌≡◌, ◌<◌, true, false, pos};
ghost use Rattle.ground_model.specs.Corner.{corner_side};
ghost use Rattle.predicates.specs.Far.{IsKnown};
ghost use Rattle.mesh.specs.Acrosses.{IsInner};
ghost use Rattle.mesh.specs.Meshes.{IsLive};
ghost use Rattle.mesh.specs.Net.{side as side_of};
ghost use Rattle.mesh.specs.Sheets.{IsSheetMesh};
ghost use Rattle.mesh.specs.Straights.{IsLineSide};

use crate::across::read_across;
use crate::read::read_live;
use crate::seen_edges::{edge_after, seen_from};
use ground_model::Corner;
use page_vec::Steps;
use predicates::side;
use std::sync::ledger::{Blank, Ledger};
use tri_pages::TriPages;

/// An edge that ends at a corner, on the line through it.
#[derive(Clone, Copy)]
pub(crate) struct LineEdge {
    pub(crate) slot: u32,
    pub(crate) edge: u8,
}

// Whether three corners are collinear.
fn is_flat(a: Corner, b: Corner, c: Corner) -> bool
    requires a { IsKnown a }
    requires b { IsKnown b }
    requires c { IsKnown c }
    ensures yes { result ≡ true → corner_side a b c ≡ pos 0 }
    ensures no { result ≡ false → corner_side a b c ≡ pos 0 → ⊥ }
{
    side(a, b, c).is_zero()
}

/// Of the two lines through the corner p of the slot's triangle pxy, with wxp across px, the edge yp
/// where p is straight between w and y and px has no count, else the edge xp.
pub(crate) fn line_edge<L: Ledger>(
    pages: &TriPages,
    slot: u32,
    corner: u8,
    blank: Blank,
) -> LineEdge
    requires name { blank.name ≡ L.name }
    requires parts { blank.parts ≡ L.parts }
    requires writable { 0 < L.parts }
    requires corner { corner < 3 }
    requires sheet { IsSheetMesh pages.now }
    requires live { IsLive pages.now slot }
    requires inner { IsInner pages.now slot (side_of corner) }
    ensures edge { result.edge < 3 }
    ensures line { IsLineSide pages.now slot (side_of corner) result.slot (side_of result.edge) }
{
    let mut steps = Steps::<L>::new(blank);
    let steps = &mut steps;
    let here = read_live(pages, slot, steps);
    let across = read_across(pages, &here, corner, steps);
    let t = seen_from(&here, corner);
    let u = seen_from(&across.tri, across.edge);
    if t.ab == 0 && is_flat(t.c, t.a, u.c) {
        return LineEdge {
            slot,
            edge: edge_after(edge_after(corner)),
        };
    }
    LineEdge {
        slot: across.slot,
        edge: across.edge,
    }
}
