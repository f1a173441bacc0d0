//! Crossing segments.

ghost use Rattle.std.specs.Prelude.{◌≡◌};
ghost use Rattle.ground_model.specs.Side.{crosses as crosses_of, oppose};
ghost use Rattle.predicates.specs.Sign.{order};

use crate::sides::orientation;
use crate::sign::Sign;
use ground_model::Place;

/// Whether the segments ab and cd cross properly: each has its two ends strictly on opposite
/// sides of the other.
#[inline]
#[tactic(auto, using(crate::proofs::Orders::order_sign))]
pub fn crosses(a: Place, b: Place, c: Place, d: Place) -> bool
    ensures { result ≡ crosses_of a b c d }
{
    are_opposed(orientation(a, b, c), orientation(a, b, d))
        && are_opposed(orientation(c, d, a), orientation(c, d, b))
}

// Whether one is counterclockwise and the other clockwise.
#[inline]
fn are_opposed(s: Sign, t: Sign) -> bool
    ensures { result ≡ oppose (order s) (order t) }
{
    s.is_positive() && t.is_negative() || s.is_negative() && t.is_positive()
}
