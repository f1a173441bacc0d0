//! Lines and pieces worked out by hand. Places are written easting first.

ghost use Rattle.std.specs.Prelude.{IfOk, IsTrue, IsSome};
ghost use Rattle.std.specs.List.Sorted.{IsStrictlySortedBy};
ghost use Rattle.std.specs.FinMap as finmap;
ghost use Rattle.ground_model.specs.Place.{place_cmp};

use crate::fixtures::{At, Joined, pieces, place, places};
use crate::line_fixtures::{POINTS, RING, add, order, points, three_lines};
use ground_model::{LineId, LineKind, Piece, Place, Places};
use line_table::Lines;
use std::alloc::{AllocError, Global};
use std::process::Abort;
use std::test::Fail;

fn is_live(lines: &Lines, id: LineId) -> bool
    ensures { IsTrue result → IsSome (finmap.get lines.now.lines id.0) }
{
    match lines.get(id) {
        Some(_) => true,
        None => false,
    }
}

fn compare(
    rt: &impl Abort,
    alloc: Global,
    found: &[Piece],
    want: &[Joined],
) -> Result<(), AllocError> {
    let want = pieces(rt, alloc, want)?;
    assert_eq!(rt; found, want.as_slice());
    Ok(())
}

const PIECES: [Joined; 7] = [
    ((0, 0), (0, 10), 1),
    ((0, 0), (5, 0), 2),
    ((0, 10), (10, 10), 1),
    ((5, 0), (5, 5), 1),
    ((5, 0), (10, 0), 2),
    ((10, 0), (10, 5), 1),
    ((10, 5), (10, 10), 1),
];

const PIECES_OF_THE_SECOND: [Joined; 2] = [((0, 0), (5, 0), 2), ((5, 0), (5, 5), 1)];

fn check_pieces(
    rt: &impl Abort,
    alloc: Global,
    lines: &Lines,
    points: &[Place],
) -> Result<(), AllocError>
    requires { IsStrictlySortedBy place_cmp points.now }
{
    let found = lines.pieces(points)?;
    compare(rt, alloc, found.as_slice(), &PIECES)
}

#[test]
fn shared_pieces_are_counted_once_a_line(rt: HostRuntime) -> Result<(), Fail> {
    let lines = three_lines(&rt, rt.alloc())?;
    let points = points(&rt, rt.alloc(), &POINTS)?;
    Ok(check_pieces(&rt, rt.alloc(), &lines, points.as_slice())?)
}

fn pieces_of(
    rt: &impl Abort,
    lines: &Lines,
    number: u32,
    points: &[Place],
) -> Result<Vec<Piece>, AllocError>
    requires { IsStrictlySortedBy place_cmp points.now }
{
    assert!(rt; is_live(lines, LineId(number)));
    lines.pieces_of(LineId(number), points)
}

fn check_pieces_of(
    rt: &impl Abort,
    alloc: Global,
    lines: &Lines,
    points: &[Place],
) -> Result<(), AllocError>
    requires { IsStrictlySortedBy place_cmp points.now }
{
    let found = pieces_of(rt, lines, 2, points)?;
    compare(rt, alloc, found.as_slice(), &PIECES_OF_THE_SECOND)
}

#[test]
fn pieces_of_a_line_have_the_counts_of_all(rt: HostRuntime) -> Result<(), Fail> {
    let lines = three_lines(&rt, rt.alloc())?;
    let points = points(&rt, rt.alloc(), &POINTS)?;
    Ok(check_pieces_of(&rt, rt.alloc(), &lines, points.as_slice())?)
}

fn counts(lines: &Lines) -> (u32, u64, u32) {
    (lines.len(), lines.places(), lines.next().0)
}

// The number of the last line, or 0.
fn last_number(lines: &Lines) -> u32 {
    match lines.iter().next_back() {
        Some((id, _)) => id.0,
        None => 0,
    }
}

// Takes a line, and gives how many places it had, or 0.
fn take(lines: &mut Lines, number: u32) -> Result<usize, AllocError> {
    match lines.take(LineId(number))? {
        Some((_, places)) => Ok(places.len()),
        None => Ok(0),
    }
}

fn take_third(rt: &impl Abort, lines: &mut Lines) -> Result<(), AllocError> {
    assert_eq!(rt; take(lines, 3)?, 3);
    assert_eq!(rt; take(lines, 3)?, 0, "again");
    assert!(rt; !is_live(lines, LineId(3)));
    assert_eq!(rt; counts(lines), (2, 7, 4));
    Ok(())
}

#[test]
fn numbers_are_never_given_again(rt: HostRuntime) -> Result<(), Fail> {
    let mut lines = three_lines(&rt, rt.alloc())?;
    let before = lines.share()?;
    take_third(&rt, &mut lines)?;
    let ring = Places::from_vec(places(&rt, rt.alloc(), &RING)?);
    assert_eq!(rt; add(&rt, &mut lines, LineKind::Void, ring), 4);
    assert_eq!(rt; last_number(&lines), 4);
    assert_eq!(rt; counts(&before), (3, 10, 4), "shared");
    assert!(rt; is_live(&before, LineId(3)), "shared");
    Ok(())
}

// The points of a zigzag from west to east.
fn zigzag(rt: &impl Abort, alloc: Global) -> Result<Vec<Place>, AllocError>
    ensures { IfOk result (λ points. IsStrictlySortedBy place_cmp points.items) }
{
    let mut all = Vec::new(alloc);
    for e in 0..1_000 {
        all.push(place(rt, (e, e % 2)))?;
    }
    order(&mut all);
    Ok(all)
}

#[test]
fn a_line_of_a_thousand_places_is_added_and_taken(rt: HostRuntime) -> Result<(), Fail> {
    let points = zigzag(&rt, rt.alloc())?;
    let mut lines = Lines::empty(rt.alloc());
    let places = Places::from_slice(rt.alloc(), points.as_slice())?;
    assert_eq!(rt; add(&rt, &mut lines, LineKind::Void, places), 1);
    let of_it = pieces_of(&rt, &lines, 1, points.as_slice())?;
    assert_eq!(rt; of_it.len(), 1_000);
    assert_eq!(rt; take(&mut lines, 1)?, 1_000);
    Ok(())
}
