//! Locally Delaunay sheets worked out by hand, far corners included: their triangles of places are the facets of
//! their contents. Places are written easting first.

ghost use Rattle.std.specs.Prelude.{IsTrue};
ghost use Rattle.ground_model.specs.Corner.{is_corner};

use crate::fixtures::{At, GRID, Joined, place, turns_left};
use crate::triangles::found;
use ground_model::{Corner, Facet};
use predicates::in_circle;
use std::alloc::Global;
use std::process::Abort;
use std::test::Fail;

/// A place, or a far corner.
#[derive(Clone, Copy, PartialEq, Eq, Debug)]
enum Named {
    P(i32, i32),
    F(u8),
}

use Named::{F, P};

/// A triangle of a sheet, from one of its corners on.
type Turn = [Named; 3];

fn corner(rt: &impl Abort, named: Named) -> Corner
    ensures { IsTrue (is_corner result) }
{
    match named {
        P(e, n) => Corner::At(place(rt, (e, n))),
        F(k) => {
            assert!(rt; k < 3, "a far corner");
            Corner::Far(k)
        }
    }
}

// Whether d lies inside the circle of a triangle, which is counterclockwise.
fn is_inside(rt: &impl Abort, triangle: Turn, d: Named) -> bool {
    let [a, b, c] = triangle;
    let (a, b, c, d) = (corner(rt, a), corner(rt, b), corner(rt, c), corner(rt, d));
    assert!(rt; turns_left(&a, &b, &c), "{triangle:?}");
    in_circle(a, b, c, d)
}

fn is_outer(a: Named, b: Named) -> bool {
    [(F(0), F(1)), (F(1), F(2)), (F(2), F(0))].contains(&(a, b))
}

fn is_joined(joined: &[Joined], a: Named, b: Named) -> bool {
    joined.iter().any(|(p, q, _)| {
        let (p, q) = (P(p.0, p.1), P(q.0, q.1));
        p == a && q == b || p == b && q == a
    })
}

// The triangle on the other side of an edge that is no piece has its third corner outside the circle.
fn check_across(rt: &impl Abort, triangle: Turn, other: Turn, joined: &[Joined]) {
    let ([a, b, _], [c, d, opposite]) = (triangle, other);
    if c == b && d == a && !is_joined(joined, a, b) {
        assert!(rt;
            !is_inside(rt, triangle, opposite),
            "{triangle:?} {opposite:?}"
        );
    }
}

fn count_edge(turns: &[Turn], a: Named, b: Named) -> usize {
    turns.iter().filter(|t| t[0] == a && t[1] == b).count()
}

// An edge stands once, with its reverse, unless it is one of the outer three.
fn check_turn(rt: &impl Abort, turns: &[Turn], turn: Turn, joined: &[Joined]) {
    let [a, b, _] = turn;
    assert_eq!(rt; count_edge(turns, a, b), 1, "{a:?} {b:?}");
    assert_eq!(rt; count_edge(turns, b, a) == 0, is_outer(a, b), "{b:?} {a:?}");
    for other in turns {
        check_across(rt, turn, *other, joined);
    }
}

fn all_turns(alloc: Global, sheet: &[Turn]) -> Result<Vec<Turn>, Fail> {
    let mut turns = Vec::new(alloc);
    for [a, b, c] in sheet {
        turns.push([*a, *b, *c])?;
        turns.push([*b, *c, *a])?;
        turns.push([*c, *a, *b])?;
    }
    Ok(turns)
}

fn is_facet_of(sheet: &[Turn], f: &Facet) -> bool {
    let corners = [
        P(f.a.e(), f.a.n()),
        P(f.b.e(), f.b.n()),
        P(f.c.e(), f.c.n()),
    ];
    sheet.contains(&corners)
}

fn is_of_places(turn: &Turn) -> bool {
    turn.iter().all(|named| matches!(named, P(_, _)))
}

fn check_facets(rt: &impl Abort, sheet: &[Turn], found: &[Facet]) {
    assert_eq!(rt;
        sheet.iter().filter(|t| is_of_places(t)).count(),
        found.len()
    );
    for f in found {
        assert!(rt; is_facet_of(sheet, f), "{f:?}");
    }
}

fn check(
    rt: &impl Abort,
    alloc: Global,
    ats: &[At],
    joined: &[Joined],
    sheet: &[Turn],
) -> Result<(), Fail> {
    let turns = all_turns(alloc, sheet)?;
    for turn in turns.as_slice() {
        check_turn(rt, turns.as_slice(), *turn, joined);
    }
    let found = found(rt, alloc, ats, joined)?;
    check_facets(rt, sheet, found.as_slice());
    Ok(())
}

#[test]
fn sheet_of_nine_points_of_a_grid(rt: HostRuntime) -> Result<(), Fail> {
    let sheet = [
        [P(0, 0), P(0, 1), F(2)],
        [P(0, 0), P(1, 0), P(1, 1)],
        [P(0, 0), P(1, 1), P(0, 1)],
        [P(0, 0), F(2), P(1, 0)],
        [P(0, 1), P(0, 2), F(2)],
        [P(0, 1), P(1, 1), P(1, 2)],
        [P(0, 1), P(1, 2), P(0, 2)],
        [P(0, 2), P(1, 2), F(1)],
        [P(0, 2), F(1), F(2)],
        [P(1, 0), P(2, 0), P(2, 1)],
        [P(1, 0), P(2, 1), P(1, 1)],
        [P(1, 0), F(2), P(2, 0)],
        [P(1, 1), P(2, 1), P(2, 2)],
        [P(1, 1), P(2, 2), P(1, 2)],
        [P(1, 2), P(2, 2), F(1)],
        [P(2, 0), F(0), P(2, 1)],
        [P(2, 0), F(2), F(0)],
        [P(2, 1), F(0), P(2, 2)],
        [P(2, 2), F(0), F(1)],
    ];
    check(&rt, rt.alloc(), &GRID, &[], &sheet)
}

#[test]
fn sheet_of_collinear_points(rt: HostRuntime) -> Result<(), Fail> {
    let ats = [(0, 0), (1, 1), (2, 2), (3, 3)];
    let sheet = [
        [P(0, 0), P(1, 1), F(1)],
        [P(0, 0), F(1), F(2)],
        [P(0, 0), F(2), P(1, 1)],
        [P(1, 1), P(2, 2), F(1)],
        [P(1, 1), F(2), P(2, 2)],
        [P(2, 2), P(3, 3), F(1)],
        [P(2, 2), F(2), P(3, 3)],
        [P(3, 3), F(0), F(1)],
        [P(3, 3), F(2), F(0)],
    ];
    check(&rt, rt.alloc(), &ats, &[], &sheet)
}

#[test]
fn sheet_of_six_points_on_a_circle(rt: HostRuntime) -> Result<(), Fail> {
    let ats = [(-5, 0), (-3, -4), (-3, 4), (3, -4), (3, 4), (5, 0)];
    let sheet = [
        [P(-5, 0), P(-3, -4), P(3, -4)],
        [P(-5, 0), P(-3, 4), F(1)],
        [P(-5, 0), P(3, -4), P(5, 0)],
        [P(-5, 0), P(3, 4), P(-3, 4)],
        [P(-5, 0), P(5, 0), P(3, 4)],
        [P(-5, 0), F(1), F(2)],
        [P(-5, 0), F(2), P(-3, -4)],
        [P(-3, -4), F(2), P(3, -4)],
        [P(-3, 4), P(3, 4), F(1)],
        [P(3, -4), F(2), P(5, 0)],
        [P(3, 4), P(5, 0), F(0)],
        [P(3, 4), F(0), F(1)],
        [P(5, 0), F(2), F(0)],
    ];
    check(&rt, rt.alloc(), &ats, &[], &sheet)
}

#[test]
fn sheet_of_a_ring_with_a_breakline(rt: HostRuntime) -> Result<(), Fail> {
    let ats = [(0, 0), (0, 10), (4, 4), (6, 5), (10, 0), (10, 10)];
    let joined = [
        ((0, 0), (0, 10), 1),
        ((0, 0), (4, 4), 1),
        ((0, 0), (10, 0), 1),
        ((0, 10), (10, 10), 1),
        ((4, 4), (10, 10), 1),
        ((10, 0), (10, 10), 1),
    ];
    let sheet = [
        [P(0, 0), P(0, 10), F(2)],
        [P(0, 0), P(4, 4), P(0, 10)],
        [P(0, 0), P(10, 0), P(4, 4)],
        [P(0, 0), F(2), P(10, 0)],
        [P(0, 10), P(4, 4), P(10, 10)],
        [P(0, 10), P(10, 10), F(1)],
        [P(0, 10), F(1), F(2)],
        [P(4, 4), P(6, 5), P(10, 10)],
        [P(4, 4), P(10, 0), P(6, 5)],
        [P(6, 5), P(10, 0), P(10, 10)],
        [P(10, 0), F(0), P(10, 10)],
        [P(10, 0), F(2), F(0)],
        [P(10, 10), F(0), F(1)],
    ];
    check(&rt, rt.alloc(), &ats, &joined, &sheet)
}
