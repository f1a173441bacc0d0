//! Closed triangles.

ghost use Rattle.std.specs.Prelude.{◌≡◌};
ghost use Rattle.ground_model.specs.Side.{holds as holds_of};

use crate::sides::turns_right;
use ground_model::{Facet, Place};

/// Whether p lies in the closed triangle of the facet: inside, on an edge or at a corner.
#[inline]
pub fn holds(facet: &Facet, p: Place) -> bool
    ensures { result ≡ holds_of facet.now.a facet.now.b facet.now.c p }
{
    triangle_holds(facet.a, facet.b, facet.c, p)
}

/// Whether p lies in the closed triangle of a, b, c, which are counterclockwise.
#[inline]
pub fn triangle_holds(a: Place, b: Place, c: Place, p: Place) -> bool
    ensures { result ≡ holds_of a b c p }
{
    !turns_right(a, b, p) && !turns_right(b, c, p) && !turns_right(c, a, p)
}
