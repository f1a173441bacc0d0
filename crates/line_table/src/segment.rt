//! Segments: which places lie on them, and where two cross.

ghost use Rattle.std.specs.Prelude.{◌≡◌, ◌&&◌, ◌||◌, not};
ghost use Rattle.std.specs.List.{list_any};
ghost use Rattle.std.specs.Ordering.{is_eq};
ghost use Rattle.ground_model.specs.Place.{is_before};
ghost use Rattle.ground_model.specs.Side.{is_on_segment, orientation};
ghost use Rattle.ground_model.specs.Crossings.{cross_between};
ghost use Rattle.line_table.specs.Joints.{cross_over as cross_over_of};

use ground_model::{Corner, Place};
use predicates::{Sign, crosses, side};

/// A link: two places that follow one another on a line.
pub(crate) type Link = (Place, Place);

/// Whether p lies in the closed segment. The order of places is asked first, since it rules out
/// most of them and costs the least.
pub(crate) fn lies_on(link: &Link, p: Place) -> bool
    ensures { result ≡ is_on_segment link.now.0 link.now.1 p }
{
    lies_within(link.0, link.1, p) && are_collinear(link.0, link.1, p)
}

fn are_collinear(u: Place, v: Place, p: Place) -> bool
    ensures { result ≡ is_eq (orientation u v p) }
{
    matches!(
        side(Corner::At(u), Corner::At(v), Corner::At(p)),
        Sign::Zero
    )
}

// Whether p, in the order of places, is neither before both nor after both.
fn lies_within(u: Place, v: Place, p: Place) -> bool
    ensures { result ≡ (not (is_before p u) && not (is_before v p) || not (is_before p v) && not (is_before u p)) }
{
    !(p < u) && !(v < p) || !(p < v) && !(u < p)
}

/// Whether the segments cross at a place that is no point.
pub(crate) fn cross_apart(points: &[Place], s: &Link, t: &Link) -> bool
    ensures { result ≡ cross_between points.now s.now t.now }
{
    crosses(s.0, s.1, t.0, t.1) && !have_common_point(points, s, t)
}

fn have_common_point(points: &[Place], s: &Link, t: &Link) -> bool
    ensures { result ≡ list_any (λ x. is_on_segment s.now.0 s.now.1 x && is_on_segment t.now.0 t.now.1 x) points.now }
{
    points.iter().any(|x| lies_on(s, *x) && lies_on(t, *x))
}

/// Whether the segments cross, and both hold the place.
pub(crate) fn cross_over(place: Place, s: &Link, t: &Link) -> bool
    ensures { result ≡ cross_over_of place s.now t.now }
{
    lies_on(s, place) && lies_on(t, place) && crosses(s.0, s.1, t.0, t.1)
}
