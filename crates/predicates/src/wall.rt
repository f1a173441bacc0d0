//! Walls.

ghost use Rattle.std.specs.Prelude.{◌≡◌};
ghost use Rattle.ground_model.specs.Side.{agree};
ghost use Rattle.ground_model.specs.Wall.{is_walled, meets as meets_of};
ghost use Rattle.predicates.specs.Sign.{order};

use crate::sides::orientation;
use crate::sign::Sign;
use ground_model::Place;

/// Whether the constrained edge uv hides the edge ab from p, which lies beyond ab: u, v and p are
/// not collinear, and the closed segment uv meets the closed segments pa and pb.
#[inline]
#[tactic(auto, using(crate::proofs::Orders::order_sign))]
pub fn walled(a: Place, b: Place, p: Place, u: Place, v: Place) -> bool
    ensures { result ≡ is_walled a b p u v }
{
    !orientation(u, v, p).is_zero() && meets(u, v, p, a) && meets(u, v, p, b)
}

// Whether the closed segment uv meets the closed segment pa, where u, v and p are not collinear.
#[inline]
#[tactic(auto, using(crate::proofs::Orders::order_sign))]
fn meets(u: Place, v: Place, p: Place, a: Place) -> bool
    ensures { result ≡ meets_of u v p a }
{
    !are_agreed(orientation(u, v, a), orientation(u, v, p))
        && !are_agreed(orientation(p, a, u), orientation(p, a, v))
}

// Whether both are counterclockwise or both clockwise.
#[inline]
fn are_agreed(s: Sign, t: Sign) -> bool
    ensures { result ≡ agree (order s) (order t) }
{
    s.is_positive() && t.is_positive() || s.is_negative() && t.is_negative()
}
