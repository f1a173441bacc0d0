//! What lies above a datum in a facet of which one corner is above it.

ghost use Rattle.std.specs.Prelude.{◌≡◌, ◌≤◌, ◌^◌, pos, true, false, ◌*ℤ◌, ◌-ℤ◌, ◌<ℤ◌, ◌≤ℤ◌, unsigned_abs};
ghost use Rattle.ground_model.specs.Rounding.{ceil_div as ceil_div_of};
ghost use Rattle.ground_model.specs.Volume.{cap as cap_of, cap_over as cap_over_of, is_above};

use crate::post::Post;

// The least whole number not below the quotient.
fn ceil_div(a: i128, b: i128) -> i128
    requires a { unsigned_abs a ≤ 2 ^ 100 }
    requires b { pos 0 <ℤ b }
    ensures { result ≡ ceil_div_of a b }
{
    -(-a).div_euclid(b)
}

// The product in 128 bits.
fn product(size: i128, height: i128) -> i128
    requires size { unsigned_abs size ≤ 2 ^ 61 }
    requires height { unsigned_abs height ≤ 2 ^ 27 }
    ensures value { result ≡ size *ℤ height }
    ensures size { unsigned_abs result ≤ 2 ^ 88 }
{
    size * height
}

// The part of a size that a height is of a whole one, rounded up.
fn share(size: i128, height: i128, whole: i128) -> i128
    requires size { unsigned_abs size ≤ 2 ^ 61 }
    requires some { pos 0 <ℤ height }
    requires height { unsigned_abs height ≤ 2 ^ 27 }
    requires part { height ≤ℤ whole }
    ensures value { result ≡ ceil_div_of (size *ℤ height) whole }
    ensures size { unsigned_abs result ≤ 2 ^ 61 }
{
    ceil_div(product(size, height), whole)
}

// How far it is from a height below the datum, or on it, up to one above.
fn rise(above: i128, below: i128) -> i128
    requires some { pos 0 <ℤ above }
    requires above { unsigned_abs above ≤ 2 ^ 27 }
    requires below { unsigned_abs below ≤ 2 ^ 27 }
    requires least { below ≤ℤ pos 0 }
    ensures value { result ≡ above -ℤ below }
    ensures part { above ≤ℤ result }
{
    above - below
}

// The part above, where the corner at h1 is above, and those at h2 and h3 are not.
fn cap(area: i128, h1: i128, h2: i128, h3: i128) -> i128
    requires area { unsigned_abs area ≤ 2 ^ 61 }
    requires some { pos 0 <ℤ h1 }
    requires h1 { unsigned_abs h1 ≤ 2 ^ 27 }
    requires h2 { unsigned_abs h2 ≤ 2 ^ 27 }
    requires h3 { unsigned_abs h3 ≤ 2 ^ 27 }
    requires second { h2 ≤ℤ pos 0 }
    requires third { h3 ≤ℤ pos 0 }
    ensures value { result ≡ cap_of area h1 h2 h3 }
    ensures size { unsigned_abs result ≤ 2 ^ 88 }
{
    let width = share(area, h1, rise(h1, h2));
    product(share(width, h1, rise(h1, h3)), h1)
}

/// What lies above the datum, in sixths of a cubic thousandth, where x is above it, and y and z are
/// not. It is rounded up once on each of the two edges at x, first on that to the lesser place.
pub(crate) fn cap_over(area: i128, x: &Post, y: &Post, z: &Post) -> i128
    requires area { unsigned_abs area ≤ 2 ^ 61 }
    requires above { is_above x.now ≡ true }
    requires y { is_above y.now ≡ false }
    requires z { is_above z.now ≡ false }
    ensures value { result ≡ cap_over_of area x.now.level y.now z.now }
    ensures size { unsigned_abs result ≤ 2 ^ 88 }
{
    if y.is_before(z) {
        cap(area, x.height(), y.height(), z.height())
    } else {
        cap(area, x.height(), z.height(), y.height())
    }
}
