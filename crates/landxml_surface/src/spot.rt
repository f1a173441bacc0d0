//! Where a point is in the document's system.

ghost use Rattle.std.specs.Prelude.{◌≡◌};
ghost use Rattle.landxml_surface.specs.Heights.{spot_of as spot_of_triple};
ghost use Rattle.landxml_surface.specs.Faults.{pair_spot as spot_of_pair};

use landxml_read::{Pair2, Triple};

/// A northing and an easting, in thousandths of the document's system.
#[derive(Clone, Copy, Debug, PartialEq, Eq, Hash)]
pub(crate) struct Spot {
    pub(crate) n: i64,
    pub(crate) e: i64,
}

/// Where a triple is.
pub(crate) fn spot_of(triple: &Triple) -> Spot
    ensures { result ≡ spot_of_triple triple.now }
{
    Spot {
        n: triple.n.0,
        e: triple.e.0,
    }
}

/// Where a pair is.
pub(crate) fn pair_spot(pair: &Pair2) -> Spot
    ensures { result ≡ spot_of_pair pair.now }
{
    Spot {
        n: pair.n.0,
        e: pair.e.0,
    }
}
