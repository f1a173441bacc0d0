//! The cut of one facet.

ghost use Rattle.std.specs.Prelude.{◌≡◌};
ghost use Rattle.ground_model.specs.Contour.{cut_of as cut_of_of, cut_on as cut_on_of};
ghost use Rattle.contours.specs.Cuts.{Parts};

use crate::edge::{Post, cut_on};
use ground_model::{Cut, Level, Slope};

// The cut of a facet whose corner x is alone low, with y and z the next ones counterclockwise.
fn below(contour: Level, x: &Post, y: &Post, z: &Post) -> Cut
    requires y { Parts contour x.now y.now }
    requires z { Parts contour x.now z.now }
    ensures { result ≡ record { from = cut_on_of contour x.now z.now; to = cut_on_of contour x.now y.now } }
{
    Cut {
        from: cut_on(contour, x, z),
        to: cut_on(contour, x, y),
    }
}

// The cut of a facet whose corner x is alone high, with y and z the next ones counterclockwise.
fn above(contour: Level, x: &Post, y: &Post, z: &Post) -> Cut
    requires y { Parts contour y.now x.now }
    requires z { Parts contour z.now x.now }
    ensures { result ≡ record { from = cut_on_of contour y.now x.now; to = cut_on_of contour z.now x.now } }
{
    Cut {
        from: cut_on(contour, y, x),
        to: cut_on(contour, z, x),
    }
}

/// The cut of a facet, with the higher ground on its left. None where all corners are below the
/// contour, or none is. A cut whose ends coincide is one all the same.
pub(crate) fn cut_of(contour: Level, slope: &Slope) -> Option<Cut>
    ensures { result ≡ cut_of_of contour slope.now }
{
    let a = Post::new(slope.facet.a, slope.za);
    let b = Post::new(slope.facet.b, slope.zb);
    let c = Post::new(slope.facet.c, slope.zc);
    match (a.is_low(contour), b.is_low(contour), c.is_low(contour)) {
        (true, true, true) | (false, false, false) => None,
        (true, false, false) => Some(below(contour, &a, &b, &c)),
        (false, true, true) => Some(above(contour, &a, &b, &c)),
        (false, true, false) => Some(below(contour, &b, &c, &a)),
        (true, false, true) => Some(above(contour, &b, &c, &a)),
        (false, false, true) => Some(below(contour, &c, &a, &b)),
        (true, true, false) => Some(above(contour, &c, &a, &b)),
    }
}
