//! Looks at a mesh before a step: whether it has what the step asks for.

ghost use Rattle.std.specs.Prelude.{◌≡◌, ◌<◌, ◌<ℤ◌, ℕ, pos, true, false, Some, IfSome};
ghost use Rattle.ground_model.specs.Corner.{corner_side};
ghost use Rattle.predicates.specs.Far.{IsKnown, is_far as is_far_corner};
ghost use Rattle.tri_pages.specs.Slots.{triangle_at};
ghost use Rattle.tri_pages.specs.declared.tri_slot.TriSlot.{TriSlot};
ghost use Rattle.mesh.specs.Acrosses.{IsAcross, IsInner};
ghost use Rattle.mesh.specs.Insides.{IsPlaceAt, JoinsPlaces};
ghost use Rattle.mesh.specs.Meshes.{IsLive};
ghost use Rattle.mesh.specs.Net.{Side, side as side_of, after, count_at};
ghost use Rattle.mesh.specs.Sheets.{IsSheetMesh};
ghost use Rattle.mesh.specs.StepLaws.{CanFlip};
ghost use Rattle.mesh.specs.Straights.{IsLineSide, IsStraightAt, IsThrough};
ghost use Rattle.mesh.specs.Unsplits.{IsUnsplittable};

use ground_model::Corner;
use mesh::{Across, Mesh, seen_from};
use predicates::side;
use tri_pages::TriSlot;

// The next edge, counterclockwise.
pub(crate) fn edge_after(edge: u8) -> u8
    requires { edge < 3 }
    ensures edge { result < 3 }
    ensures after { side_of result ≡ after (side_of edge) }
{
    if edge == 2 { 0 } else { edge + 1 }
}

// Whether three corners turn counterclockwise.
pub(crate) fn is_left(a: Corner, b: Corner, c: Corner) -> bool
    requires a { IsKnown a }
    requires b { IsKnown b }
    requires c { IsKnown c }
    ensures { result ≡ true → pos 0 <ℤ corner_side a b c }
{
    side(a, b, c).is_positive()
}

// Whether three corners are collinear.
fn is_flat(a: Corner, b: Corner, c: Corner) -> bool
    requires a { IsKnown a }
    requires b { IsKnown b }
    requires c { IsKnown c }
    ensures yes { result ≡ true → corner_side a b c ≡ pos 0 }
    ensures no { result ≡ false → corner_side a b c ≡ pos 0 → ⊥ }
{
    side(a, b, c).is_zero()
}

fn is_same(a: &Corner, b: &Corner) -> bool
    ensures { result ≡ true → a.now ≡ b.now }
{
    *a == *b
}

fn is_place(corner: &Corner) -> bool
    ensures { result ≡ true → is_far_corner corner.now ≡ false }
{
    match corner {
        Corner::At(_) => true,
        Corner::Far(_) => false,
    }
}

// Whether a triangle stands in the slot.
fn is_live(mesh: &Mesh, slot: u32) -> bool
    ensures { result ≡ true → IsLive mesh.now.slots slot }
{
    mesh.triangle(slot).is_some()
}

// What stands across an edge, if the slot has a triangle and the edge isn't the far triangle's.
pub(crate) fn beyond(mesh: &Mesh, slot: u32, edge: u8) -> Option<Across>
    requires edge { edge < 3 }
    requires sheet { IsSheetMesh mesh.now.slots }
    ensures across { IfSome result (λ x. (t : TriSlot) → triangle_at mesh.now.slots slot ≡ Some t → IsAcross mesh.now.slots t (side_of edge) x.slot x.tri (side_of x.edge)) }
    ensures edge { IfSome result (λ x. x.edge < 3) }
    ensures live { IfSome result (λ _. IsLive mesh.now.slots slot) }
{
    if is_live(mesh, slot) {
        return mesh.across(slot, edge);
    }
    None
}

// Whether an edge has no count, and its triangles make a strictly convex quadrilateral.
pub(crate) fn can_flip(mesh: &Mesh, slot: u32, edge: u8) -> bool
    requires edge { edge < 3 }
    requires sheet { IsSheetMesh mesh.now.slots }
    ensures { result ≡ true → CanFlip mesh.now.slots slot (side_of edge) }
{
    let Some(here) = mesh.triangle(slot) else {
        return false;
    };
    let Some(x) = beyond(mesh, slot, edge) else {
        return false;
    };
    let t = seen_from(&here, edge);
    let u = seen_from(&x.tri, x.edge);
    if t.ab != 0 {
        return false;
    }
    if !is_left(t.a, u.c, t.c) {
        return false;
    }
    is_left(u.c, t.b, t.c)
}

// Whether three triangles stand round a corner, and their edges there have no count.
pub(crate) fn can_unsplit(mesh: &Mesh, slot: u32, corner: u8) -> bool
    requires corner { corner < 3 }
    requires sheet { IsSheetMesh mesh.now.slots }
    ensures { result ≡ true → IsUnsplittable mesh.now.slots slot (after (side_of corner)) }
{
    let edge = edge_after(corner);
    let ahead = edge_after(edge);
    let Some(here) = mesh.triangle(slot) else {
        return false;
    };
    let Some(x) = beyond(mesh, slot, ahead) else {
        return false;
    };
    let Some(y) = beyond(mesh, slot, edge_after(ahead)) else {
        return false;
    };
    let t = seen_from(&here, edge);
    let u = seen_from(&x.tri, x.edge);
    let v = seen_from(&y.tri, y.edge);
    if t.bc != 0 {
        return false;
    }
    if t.ca != 0 {
        return false;
    }
    if u.ca != 0 {
        return false;
    }
    is_same(&v.c, &u.c)
}

// Whether the end of an edge lies straight between two of its four neighbours, as the counts allow.
fn is_straight(mesh: &Mesh, slot: u32, edge: u8) -> bool
    requires edge { edge < 3 }
    requires sheet { IsSheetMesh mesh.now.slots }
    ensures { result ≡ true → IsStraightAt mesh.now.slots slot (side_of edge) }
{
    let ahead = edge_after(edge);
    let Some(here) = mesh.triangle(slot) else {
        return false;
    };
    let Some(x) = beyond(mesh, slot, ahead) else {
        return false;
    };
    let line = edge_after(x.edge);
    let Some(y) = beyond(mesh, x.slot, line) else {
        return false;
    };
    let Some(z) = beyond(mesh, slot, edge) else {
        return false;
    };
    let t = seen_from(&here, edge);
    let u = seen_from(&x.tri, line);
    let w = seen_from(&y.tri, y.edge);
    let v = seen_from(&z.tri, z.edge);
    if !is_place(&t.b) {
        return false;
    }
    if t.ab != u.ab {
        return false;
    }
    if t.bc != 0 {
        return false;
    }
    if w.bc != 0 {
        return false;
    }
    if !is_same(&v.c, &w.c) {
        return false;
    }
    is_flat(t.a, t.b, w.a)
}

// Whether a corner is straight between the apexes over an edge from it that has no count.
fn is_through(mesh: &Mesh, slot: u32, corner: u8, here: &TriSlot, x: &Across) -> bool
    requires corner { corner < 3 }
    requires edge { x.now.edge < 3 }
    requires sheet { IsSheetMesh mesh.now.slots }
    requires here { triangle_at mesh.now.slots slot ≡ Some here.now }
    requires across { IsAcross mesh.now.slots here.now (side_of corner) x.now.slot x.now.tri (side_of x.now.edge) }
    ensures yes { result ≡ true → IsThrough mesh.now.slots slot (side_of corner) }
    ensures no { result ≡ false → IsThrough mesh.now.slots slot (side_of corner) → ⊥ }
{
    let t = seen_from(here, corner);
    let u = seen_from(&x.tri, x.edge);
    if t.ab != 0 {
        return false;
    }
    is_flat(t.c, t.a, u.c)
}

// Whether a corner can be taken out of the edge on which it lies.
pub(crate) fn can_unsplit_edge(mesh: &Mesh, slot: u32, corner: u8) -> bool
    requires corner { corner < 3 }
    requires sheet { IsSheetMesh mesh.now.slots }
    ensures live { result ≡ true → IsLive mesh.now.slots slot }
    ensures place { result ≡ true → IsPlaceAt mesh.now.slots slot (side_of corner) }
    ensures straight { result ≡ true → (n : ℕ) (j : Side) → IsLineSide mesh.now.slots slot (side_of corner) n j → IsStraightAt mesh.now.slots n j }
{
    let Some(here) = mesh.triangle(slot) else {
        return false;
    };
    let Some(x) = beyond(mesh, slot, corner) else {
        return false;
    };
    let t = seen_from(&here, corner);
    if !is_place(&t.a) {
        return false;
    }
    if is_through(mesh, slot, corner, &here, &x) {
        return is_straight(mesh, slot, edge_after(edge_after(corner)));
    }
    is_straight(mesh, x.slot, x.edge)
}

// Whether an edge joins two places, and can be counted once more.
pub(crate) fn can_add(mesh: &Mesh, slot: u32, edge: u8) -> bool
    requires edge { edge < 3 }
    ensures live { result ≡ true → IsLive mesh.now.slots slot }
    ensures places { result ≡ true → JoinsPlaces mesh.now.slots slot (side_of edge) }
    ensures room { result ≡ true → (t : TriSlot) → triangle_at mesh.now.slots slot ≡ Some t → count_at t (side_of edge) < 65535 }
{
    let Some(here) = mesh.triangle(slot) else {
        return false;
    };
    let t = seen_from(&here, edge);
    if !is_place(&t.a) {
        return false;
    }
    if !is_place(&t.b) {
        return false;
    }
    t.ab < u16::MAX
}

// Whether an edge has a count.
pub(crate) fn can_take(mesh: &Mesh, slot: u32, edge: u8) -> bool
    requires edge { edge < 3 }
    ensures live { result ≡ true → IsLive mesh.now.slots slot }
    ensures counted { result ≡ true → (t : TriSlot) → triangle_at mesh.now.slots slot ≡ Some t → 0 < count_at t (side_of edge) }
{
    let Some(here) = mesh.triangle(slot) else {
        return false;
    };
    let t = seen_from(&here, edge);
    t.ab > 0
}
