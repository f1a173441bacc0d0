//! The predicates over corners.

ghost use Rattle.std.specs.Prelude.{◌≡◌, pos, IsTrue};
ghost use Rattle.std.specs.Ordering.{int_cmp};
ghost use Rattle.ground_model.specs.declared.corner.Corner.TheVariants.{At};
ghost use Rattle.ground_model.specs.Side.{is_left};
ghost use Rattle.ground_model.specs.Corner.{IsPlaceCorner, corner_at, corner_side, is_corner, is_corner_inside};
ghost use Rattle.predicates.specs.Far.{IsKnown, is_far as is_far_of};
ghost use Rattle.predicates.specs.Sign.{sign};

use crate::circle::is_inside;
use crate::far::{is_inside_with_far, side_with_far};
use crate::sides::orientation;
use crate::sign::Sign;
use ground_model::{Corner, Place};

/// The orientation of three corners, as `orientation` has it of places. Where one is far it is known
/// by sign rules, without its numbers. Over places it costs one comparison more than `orientation`.
#[inline]
pub fn side(a: Corner, b: Corner, c: Corner) -> Sign
    requires a { IsTrue (is_corner a) }
    requires b { IsTrue (is_corner b) }
    requires c { IsTrue (is_corner c) }
    ensures { result ≡ sign (int_cmp (corner_side a b c) (pos 0)) }
{
    if is_far(&a) | is_far(&b) | is_far(&c) {
        side_with_far(a, b, c)
    } else {
        orientation(place_of(a), place_of(b), place_of(c))
    }
}

/// The in-circle test of four corners, as `is_inside` has it of places. A far corner is higher than every
/// plane of places, so it is never inside a circle of three of them. Over places it costs one
/// comparison more than `is_inside`.
#[inline]
pub fn in_circle(a: Corner, b: Corner, c: Corner, d: Corner) -> bool
    requires a { IsTrue (is_corner a) }
    requires b { IsTrue (is_corner b) }
    requires c { IsTrue (is_corner c) }
    requires d { IsTrue (is_corner d) }
    requires turned { IsTrue (is_left (corner_at a) (corner_at b) (corner_at c)) }
    ensures { result ≡ is_corner_inside a b c d }
{
    if is_far(&a) | is_far(&b) | is_far(&c) | is_far(&d) {
        is_inside_with_far(a, b, c, d)
    } else {
        is_inside(place_of(a), place_of(b), place_of(c), place_of(d))
    }
}

// Whether a corner is far. The easting is read for the proof alone: it shows the place within the limit.
#[inline(always)]
fn is_far(corner: &Corner) -> bool
    requires { IsTrue (is_corner corner.now) }
    ensures value { result ≡ is_far_of corner.now }
    ensures known { IsKnown corner.now }
{
    match corner {
        Corner::At(p) => {
            let _easting = p.e();
            false
        }
        Corner::Far(_) => true,
    }
}

// The place of a corner that is one.
#[inline(always)]
fn place_of(corner: Corner) -> Place
    requires { IsPlaceCorner corner }
    ensures value { result ≡ corner_at corner }
    ensures corner { At result ≡ corner }
{
    match corner {
        Corner::At(p) => p,
        Corner::Far(_) => unreachable!(),
    }
}
