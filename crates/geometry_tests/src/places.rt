//! The predicates over places, by cases worked out by hand. Places are written easting first.

ghost use Rattle.std.specs.Prelude.{◌≡◌};
ghost use Rattle.ground_model.specs.Side.{is_left};

use crate::fixtures::{At, L, place};
use ground_model::{Corner, Facet, Place};
use predicates::{
    Sign, crosses, exact_side, holds, in_circle, is_inside, orientation, side, triangle_holds,
    walled,
};
use std::process::Abort;

#[tactic(auto, using(predicates::proofs::Orders::order_sign))]
fn turns_left(a: Place, b: Place, c: Place) -> bool
    ensures { result ≡ is_left a b c }
{
    orientation(a, b, c).is_positive()
}

fn compare_side(rt: &impl Abort, [a, b, c]: [At; 3], sign: Sign, area: i64) {
    let (a, b, c) = (place(rt, a), place(rt, b), place(rt, c));
    assert_eq!(rt; orientation(a, b, c), sign, "{a:?} {b:?} {c:?}");
    assert_eq!(rt; exact_side(a, b, c), area, "{a:?} {b:?} {c:?}");
}

#[test]
fn sides_are_exact_to_the_limit(rt: HostRuntime) {
    let cases = [
        ([(0, 0), (10, 0), (0, 10)], Sign::Positive, 100),
        ([(0, 0), (0, 10), (10, 0)], Sign::Negative, -100),
        ([(0, 0), (5, 5), (10, 10)], Sign::Zero, 0),
        ([(3, 3), (3, 3), (7, 1)], Sign::Zero, 0),
        ([(-L, -L), (0, 0), (L, L)], Sign::Zero, 0),
        ([(-L, -L), (L, L), (L, L - 1)], Sign::Negative, -(1 << 30)),
        ([(-L, -L), (L, -L), (-L, L)], Sign::Positive, 1 << 60),
    ];
    for (ats, sign, area) in cases {
        compare_side(&rt, ats, sign, area);
    }
}

fn compare_crossing(rt: &impl Abort, name: &str, [a, b, c, d]: [At; 4], want: bool) {
    let (a, b, c, d) = (place(rt, a), place(rt, b), place(rt, c), place(rt, d));
    assert_eq!(rt; crosses(a, b, c, d), want, "{name}");
    assert_eq!(rt; crosses(d, c, a, b), want, "{name}, turned");
}

#[test]
fn segments_cross_in_their_inner_places_alone(rt: HostRuntime) {
    let cases = [
        ("diagonals", [(0, 0), (10, 10), (0, 10), (10, 0)], true),
        ("an end on it", [(0, 0), (10, 10), (5, 5), (9, 0)], false),
        ("a common end", [(0, 0), (10, 10), (0, 0), (10, 0)], false),
        ("collinear", [(0, 0), (10, 0), (5, 0), (15, 0)], false),
        ("collinear, apart", [(0, 0), (4, 0), (5, 0), (9, 0)], false),
        ("parallel", [(0, 0), (10, 0), (0, 1), (10, 1)], false),
        ("short of it", [(0, 0), (4, 4), (0, 10), (10, 0)], false),
        ("at the limit", [(-L, -L), (L, L), (-L, L), (L, -L)], true),
    ];
    for (name, ats, want) in cases {
        compare_crossing(&rt, name, ats, want);
    }
}

fn compare_held(rt: &impl Abort, name: &str, p: At, want: bool) {
    let (a, b, c) = (place(rt, (0, 0)), place(rt, (10, 0)), place(rt, (0, 10)));
    let facet = Facet {
        a,
        b,
        c,
        ab: 0,
        bc: 0,
        ca: 0,
    };
    let p = place(rt, p);
    assert_eq!(rt; holds(&facet, p), want, "{name}");
    assert_eq!(rt; triangle_holds(b, c, a, p), want, "{name}, turned");
}

#[test]
fn closed_triangles_have_their_edges_and_corners(rt: HostRuntime) {
    let cases = [
        ("a corner", (0, 0), true),
        ("on an edge", (5, 0), true),
        ("on the edge across", (5, 5), true),
        ("inside", (1, 1), true),
        ("beyond the edge across", (6, 5), false),
        ("west", (-1, 0), false),
        ("collinear with an edge", (11, 0), false),
        ("at the limit", (L, L), false),
    ];
    for (name, p, want) in cases {
        compare_held(&rt, name, p, want);
    }
}

fn compare_inside(rt: &impl Abort, name: &str, [a, b, c, d]: [At; 4], want: bool) {
    let (a, b, c, d) = (place(rt, a), place(rt, b), place(rt, c), place(rt, d));
    assert!(rt; turns_left(a, b, c));
    assert!(rt; turns_left(b, c, a));
    assert_eq!(rt; is_inside(a, b, c, d), want, "{name}");
    assert_eq!(rt; is_inside(b, c, a, d), want, "{name}, turned");
}

#[test]
fn circles_have_what_is_nearer_than_their_corners(rt: HostRuntime) {
    let cases = [
        ("inside", (9, 9), true),
        ("outside", (11, 11), false),
        ("on an edge", (5, 0), true),
        ("collinear with an edge", (20, 0), false),
        ("just past a corner", (-1, 0), false),
        ("at the least corner", (0, 0), false),
        ("at the second corner", (10, 0), false),
        ("at the third corner", (0, 10), false),
    ];
    for (name, d, want) in cases {
        compare_inside(&rt, name, [(0, 0), (10, 0), (0, 10), d], want);
    }
}

// Of a square the diagonal of its least place stays. Other places lie on the circle of radius 5
// round the origin, or at the limit.
#[test]
fn cocircular_places_are_decided_by_the_least(rt: HostRuntime) {
    let inside = [
        ("least d", [(10, 0), (10, 10), (0, 10), (0, 0)]),
        ("least a, across", [(0, 0), (10, 0), (0, 10), (10, 10)]),
        ("least b, across", [(0, 10), (0, 0), (10, 0), (10, 10)]),
        ("least c, across", [(10, 0), (0, 10), (0, 0), (10, 10)]),
        ("across, radius 5", [(5, 0), (0, 5), (-5, 0), (4, 3)]),
        ("least d by northing", [(3, -4), (3, 4), (-3, 4), (-3, -4)]),
        (
            "least d, at the limit",
            [(L, -L), (L, L), (-L, L), (-L, -L)],
        ),
        (
            "one inside the limit",
            [(-L, -L), (L, -L), (L, L), (-L, L - 1)],
        ),
    ];
    for (name, ats) in inside {
        compare_inside(&rt, name, ats, true);
    }
    let outside = [
        ("least a, beside", [(0, 0), (10, 0), (10, 10), (0, 10)]),
        ("least b, beside", [(10, 10), (0, 0), (10, 0), (0, 10)]),
        ("least c, beside", [(10, 0), (10, 10), (0, 0), (0, 10)]),
        ("south, radius 5", [(5, 0), (0, 5), (-5, 0), (3, -4)]),
        ("north, radius 5", [(5, 0), (0, 5), (-5, 0), (-4, 3)]),
        ("least a by northing", [(-3, -4), (3, -4), (3, 4), (-3, 4)]),
        ("at the limit", [(-L, -L), (L, -L), (L, L), (-L, L)]),
        ("one outside", [(1 - L, -L), (L, -L), (L, L), (-L, L)]),
        (
            "beside the limit",
            [(1 - L, -L), (L, -L), (L, L), (1 - L, L)],
        ),
    ];
    for (name, ats) in outside {
        compare_inside(&rt, name, ats, false);
    }
}

fn compare_wall(rt: &impl Abort, name: &str, edge: [At; 3], uv: [At; 2], want: bool) {
    let ([a, b, p], [u, v]) = (edge, uv);
    let (a, b, p) = (place(rt, a), place(rt, b), place(rt, p));
    let (u, v) = (place(rt, u), place(rt, v));
    assert_eq!(rt; walled(a, b, p, u, v), want, "{name}");
    assert_eq!(rt; walled(a, b, p, v, u), want, "{name}, turned");
}

#[test]
fn walls_meet_both_segments(rt: HostRuntime) {
    let cases = [
        ("between", [(0, -2), (10, -2)], true),
        ("ends on both", [(2, -2), (8, -2)], true),
        ("short of one", [(3, -2), (10, -2)], false),
        ("short of the other", [(0, -2), (7, -2)], false),
        ("short of both", [(3, -2), (7, -2)], false),
        ("the edge itself", [(0, 0), (10, 0)], true),
        ("from one end past the other", [(0, 0), (12, -2)], true),
        ("at one end alone", [(0, 0), (5, 5)], false),
        ("collinear with the place", [(0, -5), (10, -5)], false),
        ("at the place", [(5, -5), (5, 5)], false),
        ("beyond the place", [(0, -6), (10, -6)], false),
    ];
    for (name, uv, want) in cases {
        compare_wall(&rt, name, [(0, 0), (10, 0), (5, -5)], uv, want);
    }
    let at_the_limit = [
        ("at the limit", [(-L, 0), (L, 0)], true),
        ("collinear at the limit", [(-L, -L), (L, -L)], false),
    ];
    for (name, uv, want) in at_the_limit {
        compare_wall(&rt, name, [(-L, L), (L, L), (0, -L)], uv, want);
    }
}

fn side_of(a: Place, b: Place, c: Place) -> Sign {
    side(Corner::At(a), Corner::At(b), Corner::At(c))
}

fn is_zero_alone(sign: Sign) -> bool {
    sign.is_zero() && !sign.is_negative() && !sign.is_positive()
}

#[test]
fn corners_that_are_places_are_tested_as_places(rt: HostRuntime) {
    let (a, b, c) = (place(&rt, (0, 0)), place(&rt, (10, 0)), place(&rt, (0, 10)));
    let d = place(&rt, (9, 9));
    assert_eq!(rt; side_of(a, b, c), Sign::Positive);
    assert_eq!(rt; side_of(a, c, b), Sign::Negative);
    assert!(rt; is_zero_alone(side_of(a, a, b)));
    assert!(rt; turns_left(a, b, c));
    assert!(rt; in_circle(Corner::At(a), Corner::At(b), Corner::At(c), Corner::At(d)));
}
