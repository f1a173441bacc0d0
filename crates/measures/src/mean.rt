//! Weighted means of levels.

ghost use Rattle.std.specs.Prelude.{◌≡◌, ◌≤◌, ◌^◌, pos, ◌+ℤ◌, ◌*ℤ◌, ◌<ℤ◌, unsigned_abs};
ghost use Rattle.ground_model.specs.Place.{IsLevel};
ghost use Rattle.ground_model.specs.Level.{weighted_level};
ghost use Rattle.ground_model.specs.Rounding.{rounded_half_up as rounded_half_up_of};

use ground_model::{Level, Place, Slope};
use predicates::exact_side;

/// The levels of the corners, each weighted by twice the area of the triangle across from it.
pub(crate) fn weighted_sum(slope: &Slope, place: Place) -> i128
    ensures value { result ≡ weighted_level slope.now place }
    ensures size { unsigned_abs result ≤ 2 ^ 89 }
    ensures za { IsLevel slope.now.za }
    ensures zb { IsLevel slope.now.zb }
    ensures zc { IsLevel slope.now.zc }
{
    let (a, b, c) = (slope.facet.a, slope.facet.b, slope.facet.c);
    let at_a = weighted(slope.za, exact_side(b, c, place));
    let at_b = weighted(slope.zb, exact_side(c, a, place));
    let at_c = weighted(slope.zc, exact_side(a, b, place));
    combined(at_a, at_b, at_c)
}

// A level weighted by a side, with the size of the product.
fn weighted(level: Level, side: i64) -> i128
    requires { unsigned_abs side ≤ 2 ^ 61 }
    ensures value { result ≡ level *ℤ side }
    ensures size { unsigned_abs result ≤ 2 ^ 87 }
    ensures level { IsLevel level }
{
    product(i128::from(level.get()), i128::from(side))
}

// The product in 128 bits.
fn product(level: i128, side: i128) -> i128
    requires level { unsigned_abs level ≤ 2 ^ 26 }
    requires side { unsigned_abs side ≤ 2 ^ 61 }
    ensures value { result ≡ level *ℤ side }
    ensures size { unsigned_abs result ≤ 2 ^ 87 }
{
    level * side
}

// The sum of three products.
fn combined(x: i128, y: i128, z: i128) -> i128
    requires x { unsigned_abs x ≤ 2 ^ 87 }
    requires y { unsigned_abs y ≤ 2 ^ 87 }
    requires z { unsigned_abs z ≤ 2 ^ 87 }
    ensures value { result ≡ x +ℤ y +ℤ z }
    ensures size { unsigned_abs result ≤ 2 ^ 89 }
{
    x + y + z
}

/// The greatest whole number not above the quotient and a half.
pub(crate) fn rounded_half_up(sum: i128, area: i64) -> i128
    requires sum { unsigned_abs sum ≤ 2 ^ 89 }
    requires area { pos 0 <ℤ area }
    ensures { result ≡ rounded_half_up_of sum area }
{
    raised(sum, area).div_euclid(2 * i128::from(area))
}

// Twice the sum and once the area, so that the quotient by twice the area is more by a half.
fn raised(sum: i128, area: i64) -> i128
    requires sum { unsigned_abs sum ≤ 2 ^ 89 }
    ensures { result ≡ pos 2 *ℤ sum +ℤ area }
{
    2 * sum + i128::from(area)
}
