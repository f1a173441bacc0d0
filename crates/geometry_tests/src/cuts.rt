//! Cuts of one facet worked out by hand. Places are written easting first, all in thousandths.

use crate::fixtures::{At, L};
use crate::reliefs::{Z, level_of, sole};
use contours::contour;
use ground_model::{Cut, Cuts};
use measures::SlopeList;
use std::alloc::{AllocError, Global};
use std::process::Abort;
use std::test::Fail;

type Ends = (At, At);

// The contour, without the clause of the call, which only makes the proof of its caller slow.
fn cuts_at(rt: &impl Abort, alloc: Global, relief: &SlopeList, z: i32) -> Result<Cuts, AllocError> {
    contour(alloc, relief, level_of(rt, z))
}

fn ends(cut: &Cut) -> Ends {
    ((cut.from.e(), cut.from.n()), (cut.to.e(), cut.to.n()))
}

// The cut of a facet with these corners and levels, if there is one.
fn sole_cut(
    rt: &impl Abort,
    alloc: Global,
    [a, b, c]: [At; 3],
    [za, zb, zc]: [i32; 3],
    z: i32,
) -> Result<Option<Ends>, Fail> {
    let relief = sole(rt, alloc, [(a, za), (b, zb), (c, zc)])?;
    let cuts = cuts_at(rt, alloc, &relief, z)?;
    assert!(rt; cuts.len() <= 1);
    Ok(cuts.get(0).map(|cut| ends(cut)))
}

#[test]
fn each_way_to_cut_a_facet_has_higher_ground_on_the_left(rt: HostRuntime) -> Result<(), Fail> {
    let corners = [(0, 0), (10, 0), (0, 10)];
    let (ab, bc, ca) = ((5, 0), (5, 5), (0, 5));
    let cases = [
        ("a low", [0, 2, 2], Some((ca, ab))),
        ("a high", [2, 0, 0], Some((ab, ca))),
        ("b low", [2, 0, 2], Some((ab, bc))),
        ("b high", [0, 2, 0], Some((bc, ab))),
        ("c low", [2, 2, 0], Some((bc, ca))),
        ("c high", [0, 0, 2], Some((ca, bc))),
        ("all low", [0, 0, 0], None),
        ("all high", [2, 2, 2], None),
        (
            "two at the level, one below",
            [1, 1, 0],
            Some(((10, 0), (0, 0))),
        ),
        ("two at the level, one above", [1, 1, 2], None),
        (
            "one at the level, two below",
            [1, 0, 0],
            Some(((0, 0), (0, 0))),
        ),
        ("one at the level, two above", [1, 2, 2], None),
    ];
    for (name, levels, want) in cases {
        assert_eq!(rt;
            sole_cut(&rt, rt.alloc(), corners, levels, 1)?,
            want,
            "{name}"
        );
    }
    Ok(())
}

#[test]
fn ends_are_rounded_from_the_low_corner(rt: HostRuntime) -> Result<(), Fail> {
    let corners = [(0, 0), (1, 0), (0, 1)];
    let low = sole_cut(&rt, rt.alloc(), corners, [0, 2, 2], 1)?;
    assert_eq!(rt; low, Some(((0, 1), (1, 0))));
    let high = sole_cut(&rt, rt.alloc(), corners, [2, 0, 0], 1)?;
    assert_eq!(rt; high, Some(((1, 0), (0, 1))));
    let half = [(-L, -L), (L, -L), (-L, L)];
    let across = sole_cut(&rt, rt.alloc(), half, [-Z, Z, Z], 0)?;
    assert_eq!(rt; across, Some(((-L, 0), (0, -L))));
    Ok(())
}
