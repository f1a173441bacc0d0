//! Far corners against corners at a great finite distance and height, which decide alike where 128 bits hold them.

ghost use Rattle.std.specs.Prelude.{◌<◌, IsTrue};
ghost use Rattle.ground_model.specs.Corner.{is_corner};

use crate::fixtures::{place, turns_left};
use ground_model::Corner;
use predicates::{Sign, in_circle, side};
use std::cmp::Ordering;
use std::process::Abort;

/// A corner, and where it stands: a far one at a finite distance.
#[derive(Drop)]
struct Stand {
    corner: Corner,
    e: i128,
    n: i128,
    height: i128,
    ghost known: { IsTrue (is_corner corner) },
}

fn at(rt: &impl Abort, e: i32, n: i32) -> Stand {
    let corner = Corner::At(place(rt, (e, n)));
    let (e, n) = (i128::from(e), i128::from(n));
    let squares = e.checked_mul(e).zip(n.checked_mul(n));
    let (x, y) = squares.expect(rt, "squares");
    Stand {
        corner,
        e,
        n,
        height: x.checked_add(y).expect(rt, "a height"),
    }
}

/// Farther than all sides of places at most 3 from the origin.
const DISTANCE: i128 = 1 << 5;

/// Higher than all such places, and higher than all such corners of height `LOWER`.
const LOWER: i128 = 1 << 46;

const HIGHER: i128 = 1 << 86;

fn far(number: u8, height: i128) -> Stand
    requires { number < 3 }
{
    let (e, n) = match number {
        0 => (1 << 31, 1),
        1 => (-(1 << 31), (1 << 31) + 1),
        _ => (-1, -(1 << 31)),
    };
    Stand {
        corner: Corner::Far(number),
        e: DISTANCE * e,
        n: DISTANCE * n,
        height,
    }
}

fn finite_side(a: &Stand, b: &Stand, c: &Stand) -> Option<i128> {
    let (be, bn) = (b.e.checked_sub(a.e)?, b.n.checked_sub(a.n)?);
    let (ce, cn) = (c.e.checked_sub(a.e)?, c.n.checked_sub(a.n)?);
    be.checked_mul(cn)?.checked_sub(bn.checked_mul(ce)?)
}

// How far d lies below the plane of a, b, c, times their side.
fn finite_depth(a: &Stand, b: &Stand, c: &Stand, d: &Stand) -> Option<i128> {
    let at_a = a.height.checked_mul(finite_side(b, c, d)?)?;
    let at_b = b.height.checked_mul(finite_side(c, a, d)?)?;
    let at_c = c.height.checked_mul(finite_side(a, b, d)?)?;
    let at_d = d.height.checked_mul(finite_side(a, b, c)?)?;
    at_a.checked_add(at_b)?.checked_add(at_c)?.checked_sub(at_d)
}

fn finite_sign(x: i128) -> Sign {
    match x.cmp(&0) {
        Ordering::Less => Sign::Negative,
        Ordering::Equal => Sign::Zero,
        Ordering::Greater => Sign::Positive,
    }
}

fn compare_circle(rt: &impl Abort, a: &Stand, b: &Stand, c: &Stand, d: &Stand) {
    if turns_left(&a.corner, &b.corner, &c.corner) {
        let inside = in_circle(a.corner, b.corner, c.corner, d.corner);
        let want = finite_depth(a, b, c, d).map_or(inside, |depth| depth > 0);
        assert_eq!(rt;
            inside,
            want,
            "{:?} {:?} {:?} {:?}",
            a.corner, b.corner, c.corner, d.corner
        );
    }
}

fn compare_side(rt: &impl Abort, a: &Stand, b: &Stand, c: &Stand) {
    let want = finite_side(a, b, c).map(finite_sign);
    assert_eq!(rt;
        Some(side(a.corner, b.corner, c.corner)),
        want,
        "{:?} {:?} {:?}",
        a.corner,
        b.corner,
        c.corner
    );
}

// Compares each four of five places and two far corners. Of the places three are collinear, and no four cocircular.
fn compare_all(rt: &impl Abort, lower: u8, higher: u8)
    requires lower { lower < 3 }
    requires higher { higher < 3 }
{
    let stands = [
        at(rt, 0, 0),
        at(rt, 1, 1),
        at(rt, 3, 3),
        at(rt, 2, 0),
        at(rt, 0, 3),
        far(lower, LOWER),
        far(higher, HIGHER),
    ];
    for four in 0..2401 {
        let (a, b) = (&stands[four % 7], &stands[four / 7 % 7]);
        let (c, d) = (&stands[four / 49 % 7], &stands[four / 343 % 7]);
        compare_side(rt, a, b, c);
        compare_circle(rt, a, b, c, d);
    }
}

#[test]
fn far_corners_decide_as_corners_at_a_great_distance(rt: HostRuntime) {
    compare_all(&rt, 2, 1);
    compare_all(&rt, 2, 0);
    compare_all(&rt, 1, 0);
}
