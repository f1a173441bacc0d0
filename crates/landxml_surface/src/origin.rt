//! Where the coordinates of a surface are counted from.

ghost use Rattle.std.specs.Prelude.{◌≡◌, ◌≤◌, ◌^◌, unsigned_abs, All};
ghost use Rattle.ground_num.specs.Decimal.{IsWithin};
ghost use Rattle.ground_num.specs.Spelling.{number_limit};
ghost use Rattle.ground_num.specs.Head.{IsOrigin};
ghost use Rattle.landxml_read.specs.Lawful.{IsLawfulTriple};
ghost use Rattle.landxml_surface.specs.Drafts.{IsRule};
ghost use Rattle.landxml_surface.specs.Origins.{nearest as nearest_of, origin_by as origin_by_rule};

use ground_num::{Origin, Thousandths};
use landxml_read::Triple;

/// Which origin the surfaces of a document have.
#[derive(Clone, Copy, Debug, PartialEq, Eq)]
pub enum OriginRule {
    /// This one.
    Given(Origin),
    /// On each axis the multiple of 100,000,000 thousandths nearest to the surface's first triple, a half
    /// going up; 0 0 where the surface has no triple.
    Nearest,
}

/// How far apart the origins are that the nearest rule chooses among.
const STEP: i64 = 100_000_000;

// The nearest multiple of the step, a half going up.
fn nearest(x: i64) -> i64
    requires { unsigned_abs x ≤ number_limit }
    ensures value { result ≡ nearest_of x }
    ensures within { unsigned_abs result ≤ 2 ^ 50 }
{
    (2 * x + STEP).div_euclid(2 * STEP) * STEP
}

// A number of thousandths of the origin that is nearest to it.
fn nearest_to(x: Thousandths) -> Thousandths
    requires { unsigned_abs x.0 ≤ number_limit }
    ensures value { result.0 ≡ nearest_of x.0 }
    ensures within { IsWithin (2 ^ 50) result.0 }
{
    Thousandths(nearest(x.0))
}

/// The origin of a surface with these triples.
pub(crate) fn origin_by(rule: OriginRule, triples: &[Triple]) -> Origin
    requires rule { IsRule rule }
    requires triples { All IsLawfulTriple triples.now }
    ensures origin { result ≡ origin_by_rule rule triples.now }
    ensures within { IsOrigin result }
{
    match (rule, triples.first()) {
        (OriginRule::Given(origin), _) => origin,
        (OriginRule::Nearest, None) => Origin {
            n: Thousandths(0),
            e: Thousandths(0),
        },
        (OriginRule::Nearest, Some(first)) => Origin {
            n: nearest_to(first.n),
            e: nearest_to(first.e),
        },
    }
}
