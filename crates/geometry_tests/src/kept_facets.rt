//! Rings and centres worked out by hand. Places are written easting first.

use crate::fixtures::{At, L, facet, places};
use ground_model::{Facet, LineKind, Places};
use line_table::Lines;
use rings::kept;
use std::alloc::{AllocError, Global};
use std::process::Abort;
use std::test::Fail;

// The line that a letter of a row stands for. A ring does not repeat its first place.
fn line(letter: u8) -> (LineKind, &'static [At]) {
    match letter {
        // a square of 100, and squares of 60 and of 20 in its middle
        b'O' => (LineKind::Outer, &[(0, 0), (100, 0), (100, 100), (0, 100)]),
        b'V' => (LineKind::Void, &[(20, 20), (80, 20), (80, 80), (20, 80)]),
        b'I' => (LineKind::Island, &[(40, 40), (60, 40), (60, 60), (40, 60)]),
        b'v' => (LineKind::Void, &[(40, 40), (60, 40), (60, 60), (40, 60)]),
        b'i' => (LineKind::Island, &[(20, 20), (80, 20), (80, 80), (20, 80)]),
        // the first square again, clockwise and as a breakline
        b'C' => (LineKind::Outer, &[(0, 0), (0, 100), (100, 100), (100, 0)]),
        b'B' => (
            LineKind::Breakline,
            &[(0, 0), (100, 0), (100, 100), (0, 100), (0, 0)],
        ),
        // a square to the east of it
        b'E' => (
            LineKind::Outer,
            &[(200, 0), (300, 0), (300, 100), (200, 100)],
        ),
        // an hourglass that touches itself at 50 50
        b'H' => (
            LineKind::Outer,
            &[(0, 0), (100, 0), (50, 50), (100, 100), (0, 100), (50, 50)],
        ),
        // a square with four collinear places on its west side
        b'S' => (
            LineKind::Outer,
            &[(0, 0), (100, 0), (100, 100), (0, 100), (0, 60), (0, 30)],
        ),
        // a square on its corner
        b'D' => (LineKind::Outer, &[(0, 50), (50, 0), (100, 50), (50, 100)]),
        // a triangle of the least size, and one of half of all places
        b't' => (LineKind::Void, &[(0, 0), (1, 0), (0, 1)]),
        b'T' => (LineKind::Void, &[(-L, -L), (L, -L), (L, L)]),
        _ => (LineKind::Breakline, &[]),
    }
}

fn add(rt: &impl Abort, lines: &mut Lines, kind: LineKind, places: Places) {
    assert!(rt; lines.len() < 65_535);
    assert!(rt; lines.next().0 < u32::MAX);
    assert!(rt; places.len() < 4_294_967_296);
    assert!(rt; lines.add(kind, places).is_ok());
}

// The lines of the letters, numbered from 1.
fn table(rt: &impl Abort, alloc: Global, letters: &str) -> Result<Lines, AllocError> {
    let mut lines = Lines::empty(alloc);
    for letter in letters.as_bytes() {
        let (kind, ats) = line(*letter);
        add(
            rt,
            &mut lines,
            kind,
            Places::from_vec(places(rt, alloc, ats)?),
        );
    }
    Ok(lines)
}

// A facet whose centre is the place.
fn facet_round(rt: &impl Abort, at: At) -> Facet {
    let (e, n) = at;
    assert!(rt; -1000 < e && e < 1000 && -1000 < n && n < 1000);
    let corners = [(e - 1, n - 1), (e + 2, n - 1), (e - 1, n + 2)];
    facet(rt, &(corners, [0; 3]))
}

fn check(
    rt: &impl Abort,
    alloc: Global,
    name: &str,
    letters: &str,
    facet: Facet,
    want: bool,
) -> Result<(), AllocError> {
    let lines = table(rt, alloc, letters)?;
    assert_eq!(rt; kept(&lines, &facet), want, "{name}");
    Ok(())
}

// Each row: the letters of the lines, the easting and northing of a centre, whether its facet is
// kept, and what the row shows.
const CENTRES: &str = "\
|50|50|kept|no lines
OVI|10|50|kept|in the outer ring
OVI|30|50|out|in the void
OVI|50|50|kept|in the island in the void
OVI|150|50|out|east of the outer ring
OVI|-10|50|out|west of the outer ring
OVI|50|150|out|north of the outer ring
OVI|50|-10|out|south of the outer ring
V|50|50|out|a void alone
V|90|50|kept|beside a void alone
I|50|50|kept|an island alone
I|90|50|kept|beside an island alone
O|0|50|kept|on the west side
O|100|50|out|on the east side
O|50|0|kept|on the south side
O|50|100|out|on the north side
OE|50|50|kept|in the first outer ring
OE|250|50|kept|in the second outer ring
OE|150|50|out|between two outer rings
OIV|50|50|out|an island numbered before its void
OIV|30|50|out|in that void
OIV|10|50|kept|beside that void
vi|50|50|kept|an island round a void
VIv|50|50|out|a void again in the island
C|50|50|kept|in a clockwise ring
C|150|50|out|beside a clockwise ring
H|50|20|kept|in the south of an hourglass
H|50|80|kept|in the north of an hourglass
H|20|50|out|west of its waist
H|80|50|out|east of its waist
S|50|30|kept|level with a collinear place
S|-10|30|out|west of four collinear places
D|50|50|kept|level with two corners
D|-10|50|out|west of two corners
D|110|50|out|east of two corners
D|10|100|out|level with the north corner
D|10|0|out|level with the south corner
B|50|50|kept|in a breakline that comes back
B|150|50|kept|beside that breakline
VB|50|50|out|a breakline in a void";

fn columns(row: &str) -> [&str; 5] {
    let mut columns = row.split('|');
    let letters = columns.next().unwrap_or("");
    let e = columns.next().unwrap_or("");
    let n = columns.next().unwrap_or("");
    let kept = columns.next().unwrap_or("");
    [letters, e, n, kept, columns.next().unwrap_or("")]
}

fn check_row(rt: &impl Abort, alloc: Global, row: &str) -> Result<(), Fail> {
    let [letters, e, n, want, name] = columns(row);
    let facet = facet_round(rt, (e.parse()?, n.parse()?));
    Ok(check(rt, alloc, name, letters, facet, want == "kept")?)
}

#[test]
fn the_last_void_or_island_round_the_centre_decides(rt: HostRuntime) -> Result<(), Fail> {
    for row in CENTRES.split('\n') {
        check_row(&rt, rt.alloc(), row)?;
    }
    Ok(())
}

#[test]
fn centres_are_exact_to_the_limit(rt: HostRuntime) -> Result<(), Fail> {
    let cases = [
        ("a third inside", "t", [(0, 0), (1, 0), (0, 1)], false),
        ("a third outside", "t", [(1, 0), (1, 1), (0, 1)], true),
        ("one half", "T", [(-L, -L), (L, -L), (L, L)], false),
        ("the other half", "T", [(-L, -L), (L, L), (-L, L)], true),
        // its side of the longest link is more than 64 bits hold
        ("far", "T", [(L - 1, -L), (L, -L), (L, 1 - L)], false),
    ];
    for (name, letters, corners, want) in cases {
        let facet = facet(&rt, &(corners, [0; 3]));
        check(&rt, rt.alloc(), name, letters, facet, want)?;
    }
    Ok(())
}
