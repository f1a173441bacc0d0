//! On which side of a line a corner lies.

ghost use Rattle.std.specs.Prelude.{◌≡◌, ◌<ℤ◌, ◌≤ℤ◌, pos, true, false};
ghost use Rattle.ground_model.specs.Corner.{corner_side};
ghost use Rattle.predicates.specs.Far.{IsKnown};

use ground_model::Corner;
use predicates::side;

/// Whether three corners are collinear.
pub(crate) fn is_flat(a: &Corner, b: &Corner, c: &Corner) -> bool
    requires a { IsKnown a.now }
    requires b { IsKnown b.now }
    requires c { IsKnown c.now }
    ensures yes { result ≡ true → corner_side a.now b.now c.now ≡ pos 0 }
    ensures no { result ≡ false → corner_side a.now b.now c.now ≡ pos 0 → ⊥ }
{
    side(*a, *b, *c).is_zero()
}

/// Whether three corners turn counterclockwise: the third lies to the left of the way from the first to the
/// second.
pub(crate) fn is_left(a: &Corner, b: &Corner, c: &Corner) -> bool
    requires a { IsKnown a.now }
    requires b { IsKnown b.now }
    requires c { IsKnown c.now }
    ensures yes { result ≡ true → pos 0 <ℤ corner_side a.now b.now c.now }
    ensures no { result ≡ false → corner_side a.now b.now c.now ≤ℤ pos 0 }
{
    side(*a, *b, *c).is_positive()
}
