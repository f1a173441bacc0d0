//! Reliefs of one facet. Places are written easting first, all in thousandths.

ghost use Rattle.std.specs.Prelude.{◌≡◌, IsTrue, false};
ghost use Rattle.ground_model.specs.Place.{is_same};
ghost use Rattle.ground_model.specs.Side.{is_left};

use crate::fixtures::{At, place};
use ground_model::{Facet, Level, Listed, Place, Slope};
use measures::SlopeList;
use predicates::orientation;
use std::alloc::{AllocError, Global};
use std::process::Abort;
use std::test::Fail;

/// A corner and its level.
pub(crate) type Peg = (At, i32);

/// The highest level.
pub(crate) const Z: i32 = 67_108_864;

pub(crate) fn level_of(rt: &impl Abort, z: i32) -> Level {
    Level::new(z).expect(rt, "a level")
}

fn turns_left(a: Place, b: Place, c: Place) -> bool
    ensures { result ≡ is_left a b c }
{
    orientation(a, b, c).is_positive()
}

fn are_same(p: Place, q: Place) -> bool
    ensures { result ≡ is_same p q }
{
    p == q
}

/// A relief of one facet.
pub(crate) fn sole(rt: &impl Abort, alloc: Global, pegs: [Peg; 3]) -> Result<SlopeList, Fail> {
    let [at_a, at_b, at_c] = pegs;
    let (a, b, c) = (place(rt, at_a.0), place(rt, at_b.0), place(rt, at_c.0));
    assert!(rt; turns_left(a, b, c));
    assert!(rt; !are_same(a, b));
    assert!(rt; !are_same(a, c));
    assert!(rt; !are_same(b, c));
    let slope = Slope {
        facet: Facet {
            a,
            b,
            c,
            ab: 0,
            bc: 0,
            ca: 0,
        },
        za: level_of(rt, at_a.1),
        zb: level_of(rt, at_b.1),
        zc: level_of(rt, at_c.1),
    };
    Ok(list_of(alloc, slope)?)
}

fn list_of(alloc: Global, slope: Slope) -> Result<SlopeList, AllocError>
    requires turned { IsTrue (is_left slope.facet.a slope.facet.b slope.facet.c) }
    requires ab { is_same slope.facet.a slope.facet.b ≡ false }
    requires ac { is_same slope.facet.a slope.facet.c ≡ false }
    requires bc { is_same slope.facet.b slope.facet.c ≡ false }
{
    let mut slopes = Vec::new(alloc);
    slopes.push(slope)?;
    Ok(SlopeList::new(Listed::from_vec(slopes)))
}
