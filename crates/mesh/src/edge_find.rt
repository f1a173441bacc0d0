//! An edge is looked for among triangles.

ghost use Rattle.std.specs.Prelude.{◌≡◌, ◌<◌, true, false, Some, IfSome, IfNone, length, slice_get};
ghost use Rattle.mesh.specs.EdgeSearch.{IsEdgeAt, HasNoSide, HasNone};
ghost use Rattle.mesh.specs.Net.{side, after, corner_at};

use crate::seen_edges::seen_from;
use ground_model::Corner;
use tri_pages::TriSlot;

/// An edge of one of several triangles.
#[derive(Clone, Copy)]
pub(crate) struct EdgeAt {
    pub(crate) index: usize,
    pub(crate) edge: u8,
}

// Whether ab is the edge from tail to head.
fn is_edge(a: &Corner, b: &Corner, tail: &Corner, head: &Corner) -> bool
    ensures yes { result ≡ true → (a.now ≡ tail.now) × (b.now ≡ head.now) }
    ensures no { result ≡ false → a.now ≡ tail.now → b.now ≡ head.now → ⊥ }
{
    *a == *tail && *b == *head
}

// The edge of a triangle that goes from tail to head.
fn side_between(t: &TriSlot, tail: &Corner, head: &Corner) -> Option<u8>
    ensures edge { IfSome result (λ k. k < 3) }
    ensures is { IfSome result (λ k. (corner_at t.now (side k) ≡ tail.now) × (corner_at t.now (after (side k)) ≡ head.now)) }
    ensures none { IfNone result (HasNoSide t.now tail.now head.now) }
{
    let seen = seen_from(t, 0);
    if is_edge(&seen.a, &seen.b, tail, head) {
        return Some(0);
    }
    if is_edge(&seen.b, &seen.c, tail, head) {
        return Some(1);
    }
    if is_edge(&seen.c, &seen.a, tail, head) {
        return Some(2);
    }
    None
}

/// The triangle at an index.
pub(crate) fn tri_at(tris: &[TriSlot], index: usize) -> TriSlot
    requires { index < length tris.now }
    ensures { slice_get tris.now index ≡ Some result }
{
    tris[index]
}

/// The edge of the triangles that goes from tail to head.
pub(crate) fn find_edge(tris: &[TriSlot], tail: &Corner, head: &Corner) -> Option<EdgeAt>
    ensures edge { IfSome result (λ x. x.edge < 3) }
    ensures is { IfSome result (λ x. IsEdgeAt tris.now x.index (side x.edge) tail.now head.now) }
    ensures none { IfNone result (HasNone tris.now tail.now head.now) }
{
    for index in 0..tris.len() {
        let t = tri_at(tris, index);
        if let Some(edge) = side_between(&t, tail, head) {
            return Some(EdgeAt { index, edge });
        }
    }
    None
}
