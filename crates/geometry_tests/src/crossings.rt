//! Crossings and joints worked out by hand. Places are written easting first.

ghost use Rattle.std.specs.Prelude.{◌≡◌, IsTrue};
ghost use Rattle.std.specs.List.{All};
ghost use Rattle.ground_model.specs.Line.{is_point as is_point_of};
ghost use Rattle.ground_model.specs.Crossings.{is_on_points};
ghost use Rattle.ground_model.specs.Table.{live};

use crate::fixtures::{At, place, places};
use crate::line_fixtures::{POINTS, RING, points, table, three_lines};
use ground_model::{LineId, LineKind, Place, Places};
use line_table::{Line, Lines, self_cross};
use std::alloc::{AllocError, Global};
use std::process::Abort;
use std::test::Fail;

#[tactic(auto, unfolding(ground_model::specs::Crossings::is_on_points))]
fn is_on(points: &[Place], line: &Line) -> bool
    ensures { result ≡ is_on_points points.now line.now }
{
    line.places()
        .as_slice()
        .iter()
        .all(|at| is_point(points, *at))
}

fn is_point(points: &[Place], at: Place) -> bool
    ensures { result ≡ is_point_of points.now at }
{
    points.iter().any(|point| at == *point)
}

// Whether each place of each line is a point.
fn are_on(points: &[Place], lines: &Lines) -> bool
    ensures { IsTrue result → All (λ line. IsTrue (is_on_points points.now line)) (live lines.now) }
{
    lines.iter().all(|(_, line)| is_on(points, line))
}

fn number_of(found: Option<LineId>) -> u32 {
    match found {
        Some(id) => id.0,
        None => 0,
    }
}

// The least line that has the place, and the least one that crosses the segment from it, or 0.
fn found_at(
    rt: &impl Abort,
    lines: &Lines,
    points: &[Place],
    p: At,
    q: At,
) -> Result<(u32, u32), AllocError> {
    assert!(rt; are_on(points, lines));
    let (p, q) = (place(rt, p), place(rt, q));
    let crossing = lines.crossing(p, q, points)?;
    Ok((number_of(lines.holding(p)), number_of(crossing)))
}

const SEGMENTS: [(At, At, u32, u32, &str); 6] = [
    ((2, -3), (2, 3), 0, 1, "over a side"),
    ((5, -3), (5, 3), 0, 0, "over a side at a point"),
    ((-3, 4), (3, 4), 0, 1, "over the closing link"),
    ((5, 0), (12, 3), 2, 1, "from a breakline"),
    ((10, 5), (4, 2), 0, 2, "over a breakline"),
    ((2, 0), (12, 0), 0, 0, "along a side"),
];

fn segments_cross(rt: &impl Abort, lines: &Lines, points: &[Place]) -> Result<(), AllocError> {
    for (p, q, holding, crossing, what) in SEGMENTS {
        let found = found_at(rt, lines, points, p, q)?;
        assert_eq!(rt; found, (holding, crossing), "{what}");
    }
    Ok(())
}

#[test]
fn a_segment_crosses_between_points(rt: HostRuntime) -> Result<(), Fail> {
    let lines = three_lines(&rt, rt.alloc())?;
    let points = points(&rt, rt.alloc(), &POINTS)?;
    Ok(segments_cross(&rt, &lines, points.as_slice())?)
}

// The least line that the line crosses, or 0, and the least pair of its links that cross.
fn crossings(
    rt: &impl Abort,
    alloc: Global,
    lines: &Lines,
    points: &[Place],
    kind: LineKind,
    ats: &[At],
) -> Result<(u32, Option<(u32, u32)>), AllocError> {
    let line = Line::new(kind, Places::from_vec(places(rt, alloc, ats)?));
    assert!(rt; line.places().len() < 4_294_967_296);
    assert!(rt; is_on(points, &line));
    assert!(rt; are_on(points, lines));
    let crossed = lines.crossed(&line, points);
    Ok((number_of(crossed), self_cross(&line, points)))
}

const EIGHT: [At; 4] = [(0, 0), (10, 0), (0, 10), (10, 10)];

const BOW: [At; 4] = [(0, 0), (10, 0), (0, 10), (10, 5)];

const FORK: [At; 4] = [(0, 0), (10, 5), (10, 0), (0, 10)];

fn lines_cross(
    rt: &impl Abort,
    alloc: Global,
    lines: &Lines,
    points: &[Place],
) -> Result<(), AllocError> {
    for (kind, ats, crossed, self_crossed) in [
        (LineKind::Outer, EIGHT, 0, None),
        (LineKind::Breakline, FORK, 2, Some((1, 3))),
        (LineKind::Breakline, RING, 0, None),
    ] {
        let found = crossings(rt, alloc, lines, points, kind, &ats)?;
        assert_eq!(rt; found, (crossed, self_crossed), "{ats:?}");
    }
    Ok(())
}

#[test]
fn a_line_crosses_lines_between_points(rt: HostRuntime) -> Result<(), Fail> {
    let lines = three_lines(&rt, rt.alloc())?;
    let points = points(&rt, rt.alloc(), &POINTS)?;
    Ok(lines_cross(&rt, rt.alloc(), &lines, points.as_slice())?)
}

#[test]
fn a_ring_crosses_itself_by_its_closing_link(rt: HostRuntime) -> Result<(), Fail> {
    let none = Lines::empty(rt.alloc());
    let points = points(&rt, rt.alloc(), &POINTS)?;
    let found = crossings(
        &rt,
        rt.alloc(),
        &none,
        points.as_slice(),
        LineKind::Outer,
        &BOW,
    )?;
    assert_eq!(rt; found, (0, Some((2, 4))));
    Ok(())
}

fn joint(lines: &Lines, place: Place) -> (u32, u32) {
    match lines.joint(place) {
        Some((first, second)) => (first.0, second.0),
        None => (0, 0),
    }
}

fn joints(rt: &impl Abort, lines: &Lines) {
    for (at, want, what) in [
        ((5, 5), (2, 3), "two lines"),
        ((25, 5), (4, 4), "one line"),
        ((3, 3), (0, 0), "a point of one link"),
        ((0, 0), (0, 0), "the end of two lines"),
    ] {
        assert_eq!(rt; joint(lines, place(rt, at)), want, "{what}");
    }
}

#[test]
fn a_point_may_join_two_lines_or_one(rt: HostRuntime) -> Result<(), Fail> {
    let lines = table(
        &rt,
        rt.alloc(),
        &[
            (LineKind::Island, &RING),
            (LineKind::Breakline, &[(0, 0), (10, 10)]),
            (LineKind::Breakline, &[(0, 10), (10, 0)]),
            (LineKind::Breakline, &[(20, 0), (30, 10), (30, 0), (20, 10)]),
        ],
    )?;
    joints(&rt, &lines);
    Ok(())
}
