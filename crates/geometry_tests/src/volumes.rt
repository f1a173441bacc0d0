//! Volumes of one facet worked out by hand, in sixths of a cubic thousandth.

use crate::fixtures::{At, L};
use crate::reliefs::{Peg, Z, level_of, sole};
use measures::{SlopeList, volume};
use std::process::Abort;
use std::test::Fail;

// The cut, the fill and the net over a datum.
fn sixths(rt: &impl Abort, relief: &SlopeList, datum: i32) -> (i128, i128, i128) {
    let volume = volume(relief, level_of(rt, datum));
    (volume.cut, volume.fill, volume.net)
}

// Twice the area is 9, and the third corner's place comes before the second's.
const CORNERS: [At; 3] = [(0, 0), (3, 0), (0, 3)];

fn pegs([a, b, c]: [At; 3], [za, zb, zc]: [i32; 3]) -> [Peg; 3] {
    [(a, za), (b, zb), (c, zc)]
}

#[test]
fn each_case_of_a_facet_has_its_volume(rt: HostRuntime) -> Result<(), Fail> {
    let cases = [
        ("flat at the datum", [5, 5, 5], 5, (0, 0, 0)),
        ("flat above", [5, 5, 5], 4, (27, 0, 27)),
        ("flat below", [5, 5, 5], 6, (0, 27, -27)),
        (
            "a corner at the datum, the others above",
            [0, 1, 2],
            0,
            (27, 0, 27),
        ),
        (
            "a corner at the datum, the others below",
            [0, -1, -2],
            0,
            (0, 27, -27),
        ),
        (
            "one above, the others as far below",
            [1, -1, -1],
            0,
            (3, 12, -9),
        ),
        (
            "one above, the lesser place nearer",
            [2, -2, -1],
            0,
            (6, 15, -9),
        ),
        (
            "one above, the lesser place farther",
            [2, -1, -2],
            0,
            (8, 17, -9),
        ),
        (
            "one above, one at the datum, one below",
            [1, 0, -1],
            0,
            (5, 5, 0),
        ),
        (
            "two above, the lesser place nearer",
            [-2, 2, 1],
            0,
            (15, 6, 9),
        ),
        (
            "two above, the lesser place farther",
            [-2, 1, 2],
            0,
            (17, 8, 9),
        ),
        ("the second corner above", [-1, 1, -1], 0, (3, 12, -9)),
        ("the third corner below", [1, 1, -1], 0, (12, 3, 9)),
    ];
    for (name, levels, datum, want) in cases {
        let relief = sole(&rt, rt.alloc(), pegs(CORNERS, levels))?;
        assert_eq!(rt; sixths(&rt, &relief, datum), want, "{name}");
    }
    Ok(())
}

// Half the square of all places, whose area twice over is 2^60.
#[test]
fn volumes_reach_the_limits(rt: HostRuntime) -> Result<(), Fail> {
    let half = [(-L, -L), (L, -L), (-L, L)];
    let cases = [
        ("the most", [Z, Z, Z], -Z, (3 << 87, 0, 3 << 87)),
        ("the least", [-Z, -Z, -Z], Z, (0, 3 << 87, -3 << 87)),
        (
            "a corner above",
            [Z, -Z, -Z],
            0,
            (1 << 84, 5 << 84, -1 << 86),
        ),
    ];
    for (name, levels, datum, want) in cases {
        let relief = sole(&rt, rt.alloc(), pegs(half, levels))?;
        assert_eq!(rt; sixths(&rt, &relief, datum), want, "{name}");
    }
    Ok(())
}
