//! The in-circle test.

ghost use Rattle.std.specs.Prelude.{◌≡◌, IsTrue, ◌≤◌, ◌^◌, ◌+ℤ◌, ◌*ℤ◌, unsigned_abs};
ghost use Rattle.ground_model.specs.Place.{ArePlaces};
ghost use Rattle.ground_model.specs.Side.{is_left};
ghost use Rattle.ground_model.specs.Height.{in_circle_sum as in_circle_sum_of, is_first, is_inside as is_inside_of, is_inside_at_tie as is_inside_at_tie_of};

use crate::sides::turns_right;
use crate::vector::Vector;
use ground_model::Place;

/// The in-circle test, cocircular places decided by the least: whether d lies inside the circle of
/// a, b, c, which are counterclockwise. Of four places on one circle the diagonal that leaves the
/// least of them stays. None of a, b, c is inside. Twelve multiplications of 64 bits and three of
/// 128; only cocircular places cost more.
#[inline]
pub fn is_inside(a: Place, b: Place, c: Place, d: Place) -> bool
    requires turned { IsTrue (is_left a b c) }
    ensures { result ≡ is_inside_of a b c d }
{
    let sum = in_circle_sum(a, b, c, d);
    if sum == 0 {
        is_inside_at_tie(a, b, c, d)
    } else {
        sum > 0
    }
}

// The in-circle determinant, taken from d.
#[inline]
fn in_circle_sum(a: Place, b: Place, c: Place, d: Place) -> i128
    ensures value { result ≡ in_circle_sum_of a b c d }
    ensures places { ArePlaces a b c d }
{
    let to_a = Vector::between(d, a);
    let to_b = Vector::between(d, b);
    let to_c = Vector::between(d, c);
    let at_a = weighted(to_a.square(), to_b.cross(to_c));
    let at_b = weighted(to_b.square(), to_c.cross(to_a));
    let at_c = weighted(to_c.square(), to_a.cross(to_b));
    combined(at_a, at_b, at_c)
}

// A square weighted by a side, with the size of the product.
#[inline(always)]
fn weighted(square: i64, side: i64) -> i128
    requires square { unsigned_abs square ≤ 2 ^ 61 }
    requires side { unsigned_abs side ≤ 2 ^ 61 }
    ensures value { result ≡ square *ℤ side }
    ensures size { unsigned_abs result ≤ 2 ^ 122 }
{
    i128::from(square) * i128::from(side)
}

// The sum of three products.
#[inline(always)]
fn combined(x: i128, y: i128, z: i128) -> i128
    requires x { unsigned_abs x ≤ 2 ^ 122 }
    requires y { unsigned_abs y ≤ 2 ^ 122 }
    requires z { unsigned_abs z ≤ 2 ^ 122 }
    ensures { result ≡ x +ℤ y +ℤ z }
{
    x + y + z
}

// What is inside where the determinant is zero. The least place is lowered most: d itself is then
// inside, and else the corner's sign counts.
fn is_inside_at_tie(a: Place, b: Place, c: Place, d: Place) -> bool
    ensures { result ≡ is_inside_at_tie_of a b c d }
{
    if comes_first(d, a, b, c) {
        true
    } else if comes_first(a, b, c, d) {
        turns_right(b, c, d)
    } else if comes_first(b, c, a, d) {
        turns_right(c, a, d)
    } else {
        turns_right(a, b, d)
    }
}

// Whether p comes before the other three.
#[inline]
fn comes_first(p: Place, q: Place, r: Place, s: Place) -> bool
    ensures { result ≡ is_first p q r s }
{
    p < q && p < r && p < s
}
