//! Levels worked out by hand. Places are written easting first, all in thousandths.

use crate::fixtures::{At, L, place};
use crate::reliefs::{Peg, Z, sole};
use ground_model::{Place, Relief};
use measures::{SlopeList, level};
use std::alloc::Global;
use std::process::Abort;
use std::test::Fail;

fn level_at(relief: &SlopeList, at: Place) -> Option<i32> {
    match level(relief, at) {
        Some(level) => Some(level.get()),
        None => None,
    }
}

// The levels at these places of a relief of one facet.
fn compare(
    rt: &impl Abort,
    alloc: Global,
    pegs: [Peg; 3],
    cases: &[(&str, At, Option<i32>)],
) -> Result<(), Fail> {
    let relief = sole(rt, alloc, pegs)?;
    for (name, at, want) in cases {
        assert_eq!(rt; level_at(&relief, place(rt, *at)), *want, "{name}");
    }
    Ok(())
}

// The level at an easting along an edge of this length from the origin, which rises by so much.
#[test]
fn levels_are_means_rounded_half_up(rt: HostRuntime) -> Result<(), Fail> {
    let cases = [
        ("a half", 2, 1, 1, 1),
        ("a half below zero", 2, -1, 1, 0),
        ("one and a half", 2, 3, 1, 2),
        ("one and a half below zero", 2, -3, 1, -1),
        ("a third", 3, 1, 1, 0),
        ("two thirds", 3, 1, 2, 1),
        ("a third below zero", 3, -1, 1, 0),
        ("two thirds below zero", 3, -1, 2, -1),
    ];
    for (name, length, rise, e, want) in cases {
        let pegs = [((0, 0), 0), ((length, 0), rise), ((0, length), 0)];
        compare(&rt, rt.alloc(), pegs, &[(name, (e, 0), Some(want))])?;
    }
    Ok(())
}

#[test]
fn levels_lie_on_the_plane_of_three(rt: HostRuntime) -> Result<(), Fail> {
    let pegs = [((0, 0), 7), ((3, 0), 8), ((0, 3), 9)];
    let cases = [
        ("in the middle of three", (1, 1), Some(8)),
        ("at a corner", (0, 3), Some(9)),
        ("outside", (2, 2), None),
        ("collinear with an edge", (4, 0), None),
    ];
    compare(&rt, rt.alloc(), pegs, &cases)?;
    let pegs = [((-L, -L), Z), ((L, -L), -Z), ((-L, L), Z)];
    let cases = [
        ("at the limit", (-L, -L), Some(Z)),
        ("lowest at the limit", (L, -L), Some(-Z)),
        ("half way at the limit", (0, 0), Some(0)),
        ("past the limit's edge", (1, 0), None),
    ];
    compare(&rt, rt.alloc(), pegs, &cases)
}

// The square 0 0 to 10 10 with levels 2 and 4 at the ends of its diagonal, and a flat grid of
// squares with side 1 but for its middle at 1 1.
#[test]
fn both_facets_of_an_edge_have_its_level(rt: HostRuntime) -> Result<(), Fail> {
    let below = [((0, 0), 2000), ((10_000, 0), 0), ((10_000, 10_000), 4000)];
    let above = [((0, 0), 2000), ((10_000, 10_000), 4000), ((0, 10_000), 0)];
    let diagonal = [("on the diagonal", (5000, 5000), Some(3000))];
    compare(&rt, rt.alloc(), below, &diagonal)?;
    compare(&rt, rt.alloc(), above, &diagonal)?;
    let towards = [((0, 0), 0), ((1000, 0), 0), ((1000, 1000), 1000)];
    let middle = [("towards the middle", (500, 500), Some(500))];
    compare(&rt, rt.alloc(), towards, &middle)?;
    let beside = [((1000, 0), 0), ((2000, 0), 0), ((2000, 1000), 0)];
    let flat = [("beside the middle", (1500, 500), Some(0))];
    compare(&rt, rt.alloc(), beside, &flat)
}

#[test]
fn a_list_has_each_slope_at_its_index(rt: HostRuntime) -> Result<(), Fail> {
    let relief = sole(&rt, rt.alloc(), [((0, 0), 7), ((3, 0), 8), ((0, 3), 9)])?;
    assert_eq!(rt; relief.slots(), 1);
    assert_eq!(rt; relief.as_slice().len(), 1);
    let first = relief.slope(0).map(|s| s.facet);
    assert!(rt; first.is_some());
    assert!(rt; relief.slope(1).is_none());
    assert_eq!(rt; relief.holding(place(&rt, (1, 1))).map(|s| s.facet), first);
    assert!(rt; relief.holding(place(&rt, (2, 2))).is_none());
    Ok(())
}
