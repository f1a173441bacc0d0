//! Sides and circles with far corners.

ghost use Rattle.std.specs.Prelude.{◌≡◌, ◌&&◌, ◌||◌, ◌-ℤ◌, ◌<◌, pos, IsTrue};
ghost use Rattle.std.specs.Ordering.{int_cmp, ordering_then};
ghost use Rattle.ground_model.specs.Place.{is_before};
ghost use Rattle.ground_model.specs.Side.{is_left};
ghost use Rattle.ground_model.specs.Corner.{corner_at, corner_side, is_corner_inside};
ghost use Rattle.predicates.specs.Far.{IsKnown, is_far, is_between as is_between_of, is_inside_beside as is_inside_beside_of, rank as rank_of, side_around as side_around_of, side_toward as side_toward_of, side_with as side_with_of};
ghost use Rattle.predicates.specs.Sign.{sign};

use crate::corner::side;
use crate::sign::Sign;
use crate::vector::Vector;
use ground_model::{Corner, Place};

/// The orientation of three corners, one of them far at least.
pub(crate) fn side_with_far(a: Corner, b: Corner, c: Corner) -> Sign
    requires a { IsKnown a }
    requires b { IsKnown b }
    requires c { IsKnown c }
    requires far { IsTrue (is_far a || is_far b || is_far c) }
    ensures { result ≡ sign (int_cmp (corner_side a b c) (pos 0)) }
{
    match c {
        Corner::Far(k) => side_with(a, b, k),
        Corner::At(_) => match b {
            Corner::Far(k) => side_with(c, a, k),
            Corner::At(_) => match a {
                Corner::Far(k) => side_with(b, c, k),
                Corner::At(_) => unreachable!(),
            },
        },
    }
}

// The orientation of two corners and a far one.
fn side_with(a: Corner, b: Corner, k: u8) -> Sign
    requires a { IsKnown a }
    requires b { IsKnown b }
    requires k { k < 3 }
    ensures { result ≡ sign (side_with_of a b k) }
{
    match a {
        Corner::At(p) => match b {
            Corner::At(q) => side_toward(p, q, k),
            Corner::Far(j) => side_around(j, k),
        },
        Corner::Far(i) => match b {
            Corner::At(_) => side_around(k, i),
            Corner::Far(j) if i == k || j == k => Sign::Zero,
            Corner::Far(j) => side_around(i, j),
        },
    }
}

// The orientation of two places and a far corner: that of the way between them and the corner's direction,
// which is parallel to no such way.
fn side_toward(p: Place, q: Place, k: u8) -> Sign
    ensures { result ≡ sign (side_toward_of k (q.e -ℤ p.e) (q.n -ℤ p.n)) }
{
    let way = Vector::between(p, q);
    if k == 0 {
        sign_of_first(-way.n, way.e)
    } else if k == 1 {
        sign_of_first(way.e + way.n, way.e)
    } else {
        sign_of_first(-way.e, way.n)
    }
}

// The sign of the first that is not zero.
fn sign_of_first(x: i64, y: i64) -> Sign
    ensures { result ≡ sign (ordering_then (int_cmp x (pos 0)) (int_cmp y (pos 0))) }
{
    Sign::of(x.cmp(&0).then(y.cmp(&0)))
}

// The orientation of two far corners and any other corner.
fn side_around(j: u8, k: u8) -> Sign
    requires { j < 3 }
    ensures { result ≡ sign (side_around_of j k) }
{
    if j == k {
        Sign::Zero
    } else if k == (j + 1) % 3 {
        Sign::Positive
    } else {
        Sign::Negative
    }
}

/// The in-circle test of four corners, one of them far at least: the highest of the four decides.
pub(crate) fn is_inside_with_far(a: Corner, b: Corner, c: Corner, d: Corner) -> bool
    requires a { IsKnown a }
    requires b { IsKnown b }
    requires c { IsKnown c }
    requires d { IsKnown d }
    requires far { IsTrue (is_far a || is_far b || is_far c || is_far d) }
    requires turned { IsTrue (is_left (corner_at a) (corner_at b) (corner_at c)) }
    ensures { result ≡ is_corner_inside a b c d }
{
    let (at_a, at_b, at_c, at_d) = (rank(&a), rank(&b), rank(&c), rank(&d));
    if at_d <= at_a && at_d <= at_b && at_d <= at_c {
        false
    } else if at_a <= at_b && at_a <= at_c {
        is_inside_beside(b, c, d)
    } else if at_b <= at_c {
        is_inside_beside(c, a, d)
    } else {
        is_inside_beside(a, b, d)
    }
}

// Whether d is inside the circle of the highest corner, b and c.
fn is_inside_beside(b: Corner, c: Corner, d: Corner) -> bool
    requires b { IsKnown b }
    requires c { IsKnown c }
    requires d { IsKnown d }
    ensures { result ≡ is_inside_beside_of (int_cmp (corner_side b c d) (pos 0)) (is_between_of b c d) }
{
    match side(b, c, d) {
        Sign::Positive => true,
        Sign::Zero => is_between(&b, &c, &d),
        Sign::Negative => false,
    }
}

// Where a corner stands from the highest.
fn rank(corner: &Corner) -> u8
    ensures { result ≡ rank_of corner.now }
{
    match corner {
        Corner::At(_) => 3,
        Corner::Far(k) => *k,
    }
}

// Whether d lies between b and c in the order of places.
fn is_between(b: &Corner, c: &Corner, d: &Corner) -> bool
    ensures { result ≡ is_between_of b.now c.now d.now }
{
    match b {
        Corner::At(b) => match c {
            Corner::At(c) => match d {
                Corner::At(d) => is_ordered(*b, *d, *c) || is_ordered(*c, *d, *b),
                Corner::Far(_) => false,
            },
            Corner::Far(_) => false,
        },
        Corner::Far(_) => false,
    }
}

// Whether each of three places comes before the next.
fn is_ordered(p: Place, q: Place, r: Place) -> bool
    ensures { result ≡ (is_before p q && is_before q r) }
{
    p < q && q < r
}
