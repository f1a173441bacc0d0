//! A triangle from one of its edges.

ghost use Rattle.std.specs.Prelude.{◌≡◌, ◌<◌};
ghost use Rattle.mesh.specs.Net.{corner_at, count_at, next_at, after, side, Side};

use ground_model::Corner;
use tri_pages::TriSlot;

/// A triangle abc as seen from its edge ab, with the counts and the slots beyond.
#[derive(Clone, Copy)]
pub struct Seen {
    pub a: Corner,
    pub b: Corner,
    pub c: Corner,
    pub ab: u16,
    pub bc: u16,
    pub ca: u16,
    pub beyond_ab: u32,
    pub beyond_bc: u32,
    pub beyond_ca: u32,
}

/// The triangle from an edge on, or from the corner where that edge begins.
#[inline]
pub fn seen_from(t: &TriSlot, edge: u8) -> Seen
    requires { edge < 3 }
    ensures a { result.a ≡ corner_at t.now (side edge) }
    ensures b { result.b ≡ corner_at t.now (after (side edge)) }
    ensures c { result.c ≡ corner_at t.now (after (after (side edge))) }
    ensures ab { result.ab ≡ count_at t.now (side edge) }
    ensures bc { result.bc ≡ count_at t.now (after (side edge)) }
    ensures ca { result.ca ≡ count_at t.now (after (after (side edge))) }
    ensures beyond_ab { result.beyond_ab ≡ next_at t.now (side edge) }
    ensures beyond_bc { result.beyond_bc ≡ next_at t.now (after (side edge)) }
    ensures beyond_ca { result.beyond_ca ≡ next_at t.now (after (after (side edge))) }
{
    let [a, b, c] = t.corners;
    let [ab, bc, ca] = t.counts;
    let [beyond_ab, beyond_bc, beyond_ca] = t.next;
    if edge == 0 {
        Seen {
            a,
            b,
            c,
            ab,
            bc,
            ca,
            beyond_ab,
            beyond_bc,
            beyond_ca,
        }
    } else if edge == 1 {
        Seen {
            a: b,
            b: c,
            c: a,
            ab: bc,
            bc: ca,
            ca: ab,
            beyond_ab: beyond_bc,
            beyond_bc: beyond_ca,
            beyond_ca: beyond_ab,
        }
    } else {
        Seen {
            a: c,
            b: a,
            c: b,
            ab: ca,
            bc: ab,
            ca: bc,
            beyond_ab: beyond_ca,
            beyond_bc: beyond_ab,
            beyond_ca: beyond_bc,
        }
    }
}

/// The edge of a triangle that begins at a corner.
pub(crate) fn edge_from(t: &TriSlot, corner: &Corner) -> u8
    ensures edge { result < 3 }
    ensures starts { (k : Side) → corner_at t.now k ≡ corner.now → corner_at t.now (side result) ≡ corner.now }
{
    let seen = seen_from(t, 0);
    if seen.a == *corner {
        0
    } else if seen.b == *corner {
        1
    } else {
        2
    }
}

/// The next edge, counterclockwise.
pub(crate) fn edge_after(edge: u8) -> u8
    requires { edge < 3 }
    ensures edge { result < 3 }
    ensures after { side result ≡ after (side edge) }
{
    if edge == 2 { 0 } else { edge + 1 }
}
