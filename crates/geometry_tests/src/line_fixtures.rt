//! Lines over seven points, for the tests of lines and of crossings. Places are written easting first.

ghost use Rattle.std.specs.Prelude.{IfOk};
ghost use Rattle.std.specs.List.Sorted.{IsStrictlySortedBy};
ghost use Rattle.ground_model.specs.Place.{place_cmp};

use crate::fixtures::{At, places};
use ground_model::{LineKind, Place, Places};
use line_table::Lines;
use std::alloc::{AllocError, Global};
use std::process::Abort;

pub(crate) const RING: [At; 4] = [(0, 0), (10, 0), (10, 10), (0, 10)];

const OVER_A_SIDE: [At; 3] = [(0, 0), (5, 0), (5, 5)];

const THERE_AND_BACK: [At; 3] = [(5, 0), (10, 0), (5, 0)];

pub(crate) const POINTS: [At; 7] = [(0, 0), (0, 10), (5, 0), (5, 5), (10, 0), (10, 5), (10, 10)];

// Puts the places in order, and leaves each once.
pub(crate) fn order(places: &mut Vec<Place>)
    ensures { IsStrictlySortedBy place_cmp places.new.items }
{
    places.sort_unstable();
    places.dedup();
}

// The points of a surface, in order.
pub(crate) fn points(rt: &impl Abort, alloc: Global, ats: &[At]) -> Result<Vec<Place>, AllocError>
    ensures { IfOk result (λ points. IsStrictlySortedBy place_cmp points.items) }
{
    let mut all = places(rt, alloc, ats)?;
    order(&mut all);
    Ok(all)
}

pub(crate) fn add(rt: &impl Abort, lines: &mut Lines, kind: LineKind, places: Places) -> u32 {
    assert!(rt; lines.len() < 65_535);
    assert!(rt; lines.next().0 < u32::MAX);
    assert!(rt; places.len() < 4_294_967_296);
    match lines.add(kind, places) {
        Ok(id) => id.0,
        Err(_) => 0,
    }
}

pub(crate) fn table(
    rt: &impl Abort,
    alloc: Global,
    rows: &[(LineKind, &'static [At])],
) -> Result<Lines, AllocError> {
    let mut lines = Lines::empty(alloc);
    for (kind, ats) in rows {
        let places = Places::from_vec(places(rt, alloc, ats)?);
        let _number = add(rt, &mut lines, *kind, places);
    }
    Ok(lines)
}

// A ring, a breakline over a part of one of its sides, and one that goes over another twice.
pub(crate) fn three_lines(rt: &impl Abort, alloc: Global) -> Result<Lines, AllocError> {
    table(
        rt,
        alloc,
        &[
            (LineKind::Outer, &RING),
            (LineKind::Breakline, &OVER_A_SIDE),
            (LineKind::Breakline, &THERE_AND_BACK),
        ],
    )
}
