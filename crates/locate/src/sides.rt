//! The edges of a triangle.

ghost use Rattle.std.specs.Prelude.{◌≡◌, ◌<◌};
ghost use Rattle.mesh.specs.Net.{after, next_at, side};

use tri_pages::TriSlot;

/// The edge that ends at a corner.
pub(crate) fn edge_before(corner: u8) -> u8
    requires { corner < 3 }
    ensures edge { result < 3 }
    ensures before { side result ≡ after (after (side corner)) }
{
    if corner == 0 { 2 } else { corner - 1 }
}

/// The slot beyond an edge.
pub(crate) fn next_over(t: &TriSlot, edge: u8) -> u32
    requires { edge < 3 }
    ensures { result ≡ next_at t.now (side edge) }
{
    let [ab, bc, ca] = t.next;
    if edge == 0 {
        ab
    } else if edge == 1 {
        bc
    } else {
        ca
    }
}
