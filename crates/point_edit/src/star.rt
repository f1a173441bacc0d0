//! The star of a point: the triangles that have it as a corner.

ghost use Rattle.std.specs.Prelude.{◌≡◌, ◌<◌, ◌<ℤ◌, pos, Some, true, false, IfSome, IfNone};
ghost use Rattle.ground_model.specs.Corner.{corner_side};
ghost use Rattle.predicates.specs.Far.{IsKnown};
ghost use Rattle.tri_pages.specs.Slots.{triangle_at};
ghost use Rattle.mesh.specs.Insides.{IsConvexOver};
ghost use Rattle.mesh.specs.Net.{after, side as side_of};
ghost use Rattle.mesh.specs.Sheets.{IsSheetMesh};
ghost use Rattle.mesh.specs.StepLaws.{CanFlip};
ghost use Rattle.locate.specs.Facets.{IsCornerOf};
ghost use Rattle.point_edit.specs.Removals.{AreThree, HasNoFlip, IsNextRound};

use ground_model::{Corner, Place};
use locate::next_round;
use mesh::{Mesh, seen_from};
use predicates::side;
use tri_pages::TriSlot;

/// A triangle at a point: its slot, and the corner there that the point is.
#[derive(Clone, Copy)]
pub(crate) struct Standing {
    pub(crate) slot: u32,
    pub(crate) corner: u8,
}

/// The next triangle at a point, and whether the edge from the point with which it begins can be flipped.
#[derive(Clone, Copy)]
struct Look {
    at: Standing,
    can_flip: bool,
}

// Whether two corners are one.
fn is_same(a: &Corner, b: &Corner) -> bool
    ensures yes { result ≡ true → a.now ≡ b.now }
    ensures no { result ≡ false → a.now ≡ b.now → ⊥ }
{
    *a == *b
}

// Whether three corners turn counterclockwise.
fn is_left(a: &Corner, b: &Corner, c: &Corner) -> bool
    requires a { IsKnown a.now }
    requires b { IsKnown b.now }
    requires c { IsKnown c.now }
    ensures yes { result ≡ true → pos 0 <ℤ corner_side a.now b.now c.now }
    ensures no { result ≡ false → pos 0 <ℤ corner_side a.now b.now c.now → ⊥ }
{
    side(*a, *b, *c).is_positive()
}

// Whether abc and bad make a strictly convex quadrilateral.
fn is_convex(a: &Corner, b: &Corner, c: &Corner, d: &Corner) -> bool
    requires a { IsKnown a.now }
    requires b { IsKnown b.now }
    requires c { IsKnown c.now }
    requires d { IsKnown d.now }
    ensures yes { result ≡ true → IsConvexOver a.now b.now c.now d.now }
    ensures no { result ≡ false → IsConvexOver a.now b.now c.now d.now → ⊥ }
{
    is_left(a, d, c) && is_left(d, b, c)
}

// The triangle of a live slot.
fn tri_at(mesh: &Mesh, point: Place, at: Standing) -> TriSlot
    requires corner { IsCornerOf mesh.now.slots at.slot at.corner point }
    ensures { triangle_at mesh.now.slots at.slot ≡ Some result }
{
    match mesh.triangle(at.slot) {
        Some(t) => t,
        None => unreachable!(),
    }
}

// Goes to the next triangle at the point, counterclockwise, and looks at the edge between the two.
fn look_ahead(mesh: &Mesh, point: Place, at: Standing) -> Look
    requires sheet { IsSheetMesh mesh.now.slots }
    requires corner { IsCornerOf mesh.now.slots at.slot at.corner point }
    ensures corner { IsCornerOf mesh.now.slots result.at.slot result.at.corner point }
    ensures next { IsNextRound mesh.now.slots at.slot (side_of at.corner) result.at.slot (side_of result.at.corner) }
    ensures yes { result.can_flip ≡ true → CanFlip mesh.now.slots result.at.slot (side_of result.at.corner) }
    ensures no { result.can_flip ≡ false → CanFlip mesh.now.slots result.at.slot (side_of result.at.corner) → ⊥ }
{
    let here = seen_from(&tri_at(mesh, point, at), at.corner);
    let next = next_round(mesh, at.slot, at.corner, point);
    let ahead = seen_from(&next.tri, next.edge);
    Look {
        at: Standing {
            slot: next.slot,
            corner: next.edge,
        },
        can_flip: ahead.ab == 0 && is_convex(&ahead.a, &ahead.b, &ahead.c, &here.b),
    }
}

/// An edge at a point that can be flipped: that with which the triangle begins at the point. It is looked for
/// round the point, at most once round it. None exactly where no edge at the point can be flipped.
pub(crate) fn find_flip(mesh: &Mesh, point: Place, from: Standing) -> Option<Standing>
    requires sheet { IsSheetMesh mesh.now.slots }
    requires corner { IsCornerOf mesh.now.slots from.slot from.corner point }
    ensures corner { IfSome result (λ at. IsCornerOf mesh.now.slots at.slot at.corner point) }
    ensures flip { IfSome result (λ at. CanFlip mesh.now.slots at.slot (side_of at.corner)) }
    ensures none { IfNone result (HasNoFlip mesh.now.slots point) }
{
    let mut at = from;
    for step in 0..mesh.pages().len() {
        let look = look_ahead(mesh, point, at);
        at = look.at;
        if look.can_flip {
            return Some(at);
        }
        if at.slot == from.slot {
            return None;
        }
    }
    // No more triangles stand round a point than there are slots.
    unreachable!()
}

/// Whether three triangles stand round a point, which has at least three.
pub(crate) fn has_three(mesh: &Mesh, point: Place, at: Standing) -> bool
    requires sheet { IsSheetMesh mesh.now.slots }
    requires corner { IsCornerOf mesh.now.slots at.slot at.corner point }
    ensures yes { result ≡ true → AreThree mesh.now.slots at.slot (after (side_of at.corner)) }
    ensures no { result ≡ false → AreThree mesh.now.slots at.slot (after (side_of at.corner)) → ⊥ }
{
    let ahead = next_round(mesh, at.slot, at.corner, point);
    match mesh.across(at.slot, at.corner) {
        Some(behind) => {
            let first = seen_from(&ahead.tri, ahead.edge);
            let last = seen_from(&behind.tri, behind.edge);
            is_same(&first.c, &last.c)
        }
        // An edge at a place is none of the far triangle's.
        None => unreachable!(),
    }
}
