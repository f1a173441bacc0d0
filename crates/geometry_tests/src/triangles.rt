//! Triangulations worked out by hand. Places are written easting first.

use crate::fixtures::{At, Corners, GRID, Joined, facets as facets_at, pieces, place, places};
use ground_model::Place;
use slow_tri::{FacetList, facets};
use std::alloc::{AllocError, Global};
use std::process::Abort;
use std::test::Fail;

/// The facets of these points and pieces.
pub(crate) fn found(
    rt: &impl Abort,
    alloc: Global,
    ats: &[At],
    joined: &[Joined],
) -> Result<FacetList, AllocError> {
    let points = places(rt, alloc, ats)?;
    let pieces = pieces(rt, alloc, joined)?;
    facets(alloc, points.as_slice(), pieces.as_slice())
}

// Compares the whole list, its order too.
fn check(
    rt: &impl Abort,
    alloc: Global,
    ats: &[At],
    joined: &[Joined],
    want: &[Corners],
) -> Result<(), AllocError> {
    let found = found(rt, alloc, ats, joined)?;
    let want = facets_at(rt, alloc, want)?;
    assert_eq!(rt; found.as_slice(), want.as_slice());
    Ok(())
}

const SQUARE: [At; 4] = [(0, 0), (0, 10), (10, 0), (10, 10)];

const ALONG_THE_LEAST: [Corners; 2] = [
    ([(0, 0), (10, 0), (10, 10)], [0, 0, 0]),
    ([(0, 0), (10, 10), (0, 10)], [0, 0, 0]),
];

fn insert(rt: &impl Abort, ats: &mut Vec<At>, index: usize, at: At) -> Result<(), AllocError> {
    assert!(rt; index <= ats.len());
    Ok(ats.insert(index, at)?)
}

// The corners of the square in one of their 24 orders.
fn square(rt: &impl Abort, alloc: Global, order: usize) -> Result<Vec<At>, AllocError> {
    let [a, b, c, d] = SQUARE;
    let mut ats = vec![in alloc; a]?;
    insert(rt, &mut ats, order % 2, b)?;
    insert(rt, &mut ats, order % 3, c)?;
    insert(rt, &mut ats, order / 6, d)?;
    Ok(ats)
}

// The square with the facets in order, whatever the order of its points.
fn check_order(rt: &impl Abort, alloc: Global, order: usize) -> Result<(), AllocError> {
    let ats = square(rt, alloc, order)?;
    let points = places(rt, alloc, ats.as_slice())?;
    let mut found = facets(alloc, points.as_slice(), &[])?.into_vec();
    found.sort_unstable();
    let want = facets_at(rt, alloc, &ALONG_THE_LEAST)?;
    assert_eq!(rt; found.as_slice(), want.as_slice(), "in order {order}");
    Ok(())
}

#[test]
fn square_keeps_the_diagonal_of_the_least_place(rt: HostRuntime) -> Result<(), Fail> {
    for order in 0..24 {
        check_order(&rt, rt.alloc(), order)?;
    }
    Ok(())
}

#[test]
fn a_piece_turns_the_diagonal_of_the_square(rt: HostRuntime) -> Result<(), Fail> {
    let across = [((0, 10), (10, 0), 2)];
    let turned = [
        ([(0, 0), (10, 0), (0, 10)], [0, 2, 0]),
        ([(0, 10), (10, 0), (10, 10)], [2, 0, 0]),
    ];
    check(&rt, rt.alloc(), &SQUARE, &across, &turned)?;
    let along = [((0, 0), (0, 10), 1), ((10, 10), (0, 0), 3)];
    let kept = [
        ([(0, 0), (10, 0), (10, 10)], [0, 0, 3]),
        ([(0, 0), (10, 10), (0, 10)], [3, 0, 1]),
    ];
    Ok(check(&rt, rt.alloc(), &SQUARE, &along, &kept)?)
}

#[test]
fn hexagon_with_its_centre_has_six_facets(rt: HostRuntime) -> Result<(), Fail> {
    let ats = [(-5, 0), (-3, -4), (-3, 4), (0, 0), (3, -4), (3, 4), (5, 0)];
    let middle = [((-5, 0), (0, 0), 1), ((0, 0), (5, 0), 1)];
    let want = [
        ([(-5, 0), (-3, -4), (0, 0)], [0, 0, 1]),
        ([(-5, 0), (0, 0), (-3, 4)], [1, 0, 0]),
        ([(-3, -4), (3, -4), (0, 0)], [0, 0, 0]),
        ([(-3, 4), (0, 0), (3, 4)], [0, 0, 0]),
        ([(0, 0), (3, -4), (5, 0)], [0, 0, 1]),
        ([(0, 0), (5, 0), (3, 4)], [1, 0, 0]),
    ];
    Ok(check(&rt, rt.alloc(), &ats, &middle, &want)?)
}

#[test]
fn each_square_of_a_grid_keeps_its_least_diagonal(rt: HostRuntime) -> Result<(), Fail> {
    let want = [
        ([(0, 0), (1, 0), (1, 1)], [0, 0, 0]),
        ([(0, 0), (1, 1), (0, 1)], [0, 0, 0]),
        ([(0, 1), (1, 1), (1, 2)], [0, 0, 0]),
        ([(0, 1), (1, 2), (0, 2)], [0, 0, 0]),
        ([(1, 0), (2, 0), (2, 1)], [0, 0, 0]),
        ([(1, 0), (2, 1), (1, 1)], [0, 0, 0]),
        ([(1, 1), (2, 1), (2, 2)], [0, 0, 0]),
        ([(1, 1), (2, 2), (1, 2)], [0, 0, 0]),
    ];
    check(&rt, rt.alloc(), &GRID, &[], &want)?;
    let across = [((0, 2), (1, 1), 1), ((1, 1), (2, 0), 1)];
    let turned = [
        ([(0, 0), (1, 0), (1, 1)], [0, 0, 0]),
        ([(0, 0), (1, 1), (0, 1)], [0, 0, 0]),
        ([(0, 1), (1, 1), (0, 2)], [0, 1, 0]),
        ([(0, 2), (1, 1), (1, 2)], [1, 0, 0]),
        ([(1, 0), (2, 0), (1, 1)], [0, 1, 0]),
        ([(1, 1), (2, 0), (2, 1)], [1, 0, 0]),
        ([(1, 1), (2, 1), (2, 2)], [0, 0, 0]),
        ([(1, 1), (2, 2), (1, 2)], [0, 0, 0]),
    ];
    Ok(check(&rt, rt.alloc(), &GRID, &across, &turned)?)
}

#[test]
fn points_without_an_area_have_no_facet(rt: HostRuntime) -> Result<(), Fail> {
    check(&rt, rt.alloc(), &[], &[], &[])?;
    check(&rt, rt.alloc(), &[(0, 0), (1, 0)], &[], &[])?;
    let collinear = [(0, 0), (1, 1), (2, 2), (3, 3)];
    Ok(check(&rt, rt.alloc(), &collinear, &[], &[])?)
}

/// One more than the places on a ray: a prime, so that steps of any length come to each of them.
const RAY: i32 = 173;

// The origin and three rays from it. The order is scattered, so that a triangle with a point
// inside is soon seen to have one.
fn three_rays(rt: &impl Abort, alloc: Global) -> Result<Vec<Place>, AllocError> {
    let mut all = vec![in alloc; place(rt, (0, 0))]?;
    for j in 1..RAY {
        let k = j.wrapping_mul(107) % RAY;
        all.push(place(rt, (k, 0)))?;
        all.push(place(rt, (0, k)))?;
        all.push(place(rt, (-k, -k)))?;
    }
    Ok(all)
}

// There are twice as many facets as the 517 points, less two and the three corners of the hull.
#[test]
fn more_than_a_thousand_facets_are_found(rt: HostRuntime) -> Result<(), Fail> {
    let points = three_rays(&rt, rt.alloc())?;
    let found = facets(rt.alloc(), points.as_slice(), &[])?;
    assert_eq!(rt; found.len(), 1029);
    Ok(())
}
