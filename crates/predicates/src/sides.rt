//! The side of three places.

ghost use Rattle.std.specs.Prelude.{◌≡◌, ◌≤◌, ◌^◌, unsigned_abs};
ghost use Rattle.ground_model.specs.Side.{side as side_of, orientation as orientation_of, is_right};
ghost use Rattle.predicates.specs.Sign.{sign};

use crate::sign::Sign;
use crate::vector::Vector;
use ground_model::Place;

/// The orientation of a, b, c: positive where they turn counterclockwise, zero where they are
/// collinear. Two multiplications and a comparison.
#[inline]
pub fn orientation(a: Place, b: Place, c: Place) -> Sign
    ensures { result ≡ sign (orientation_of a b c) }
{
    Sign::of(exact_side(a, b, c).cmp(&0))
}

/// Whether a, b, c turn clockwise.
#[inline]
#[tactic(auto, using(crate::proofs::Orders::order_sign))]
pub(crate) fn turns_right(a: Place, b: Place, c: Place) -> bool
    ensures { result ≡ is_right a b c }
{
    orientation(a, b, c).is_negative()
}

/// Twice the signed area of the triangle a, b, c, in square thousandths.
#[inline]
pub fn exact_side(a: Place, b: Place, c: Place) -> i64
    ensures value { result ≡ side_of a b c }
    ensures size { unsigned_abs result ≤ 2 ^ 61 }
{
    Vector::between(a, b).cross(Vector::between(a, c))
}
