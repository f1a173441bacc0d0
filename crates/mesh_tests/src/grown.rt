//! Meshes that grow point by point, compared after each with the triangulation by its definition.

ghost use Rattle.std.specs.Prelude.{◌<◌, OnOk};
ghost use Rattle.predicates.specs.Sheet.{IsLocallyDelaunay};
ghost use Rattle.mesh.specs.Sheets.{IsSheetMesh, net_in};
ghost use Rattle.mesh.specs.Suspects.{KeepsSuspects};

use ground_model::{Corner, Facet, Piece, Place};
use locate::{Spot, locate};
use mesh::{Mesh, Script};
use slow_tri::{FacetList, facets};
use std::alloc::{AllocError, Global};
use std::process::Abort;
use std::test::Fail;
use tri_pages::TriSlot;

/// Splits the triangle or the edge on which the place lies.
pub(crate) fn split_at(mesh: &mut Mesh, place: Place, script: &mut Script) -> Result<(), AllocError>
    requires { IsSheetMesh mesh.old.slots }
    ensures sheet { OnOk result (IsSheetMesh mesh.new.slots) }
    ensures suspects { OnOk result (KeepsSuspects mesh.old.slots mesh.new.slots script.old script.new) }
{
    match locate(mesh, place, 0) {
        Spot::Inside(slot) => {
            mesh.split(slot, place, script)?;
        }
        Spot::OnEdge(slot, edge) => {
            mesh.split_edge(slot, edge, place, script)?;
        }
        Spot::Corner(_, _) => {}
    }
    Ok(())
}

/// Inserts a place into a locally Delaunay mesh.
pub(crate) fn insert(mesh: &mut Mesh, place: Place, alloc: Global) -> Result<(), AllocError>
    requires sheet { IsSheetMesh mesh.old.slots }
    requires local { IsLocallyDelaunay (net_in mesh.old.slots) }
    ensures sheet { OnOk result (IsSheetMesh mesh.new.slots) }
    ensures local { OnOk result (IsLocallyDelaunay (net_in mesh.new.slots)) }
{
    let mut script = Script::new(alloc);
    split_at(mesh, place, &mut script)?;
    mesh.legalize(&mut script)?;
    Ok(())
}

fn place_of(corner: Corner) -> Option<Place> {
    match corner {
        Corner::At(p) => Some(p),
        Corner::Far(_) => None,
    }
}

// The facet of a triangle of three places, its least corner first.
fn facet_of(t: &TriSlot) -> Option<Facet> {
    let [ca, cb, cc] = t.corners;
    let [ab, bc, ca_count] = t.counts;
    let a = place_of(ca)?;
    let b = place_of(cb)?;
    let c = place_of(cc)?;
    let whole = Facet {
        a,
        b,
        c,
        ab,
        bc,
        ca: ca_count,
    };
    Some(least_first(whole))
}

// The facet with its least corner first.
fn least_first(f: Facet) -> Facet {
    if f.a < f.b && f.a < f.c {
        f
    } else if f.b < f.c {
        Facet {
            a: f.b,
            b: f.c,
            c: f.a,
            ab: f.bc,
            bc: f.ca,
            ca: f.ab,
        }
    } else {
        Facet {
            a: f.c,
            b: f.a,
            c: f.b,
            ab: f.ca,
            bc: f.ab,
            ca: f.bc,
        }
    }
}

// The facet of a slot, if it has one.
fn facet_in(mesh: &Mesh, slot: u32) -> Option<Facet> {
    match mesh.triangle(slot) {
        Some(t) => facet_of(&t),
        None => None,
    }
}

/// Whether the facets of the mesh are these, however they are ordered.
pub(crate) fn has_facets(mesh: &Mesh, expected: &FacetList) -> bool {
    let mut count: usize = 0;
    for slot in 0..mesh.pages().len() {
        if let Some(f) = facet_in(mesh, slot) {
            if !expected.as_slice().contains(&f) {
                return false;
            }
            count = count.saturating_add(1);
        }
    }
    count == expected.len()
}

/// The points, with one more.
pub(crate) fn with_point(points: &mut Vec<Place>, p: Place) -> Result<(), AllocError> {
    if !points.contains(&p) {
        points.push(p)?;
    }
    Ok(())
}

/// Whether the mesh has the facets that the points have by the definition.
pub(crate) fn is_right(mesh: &Mesh, points: &[Place], alloc: Global) -> Result<bool, AllocError> {
    let none: Vec<Piece> = Vec::new(alloc);
    let expected = facets(alloc, points, &none)?;
    Ok(has_facets(mesh, &expected))
}

/// The k-th place of a sequence within a square of this width: many are cocircular or collinear, and
/// some come again.
pub(crate) fn place_at<R: Abort>(rt: &R, k: u32, width: u32) -> Place
    requires { 0 < width }
{
    let state = k.wrapping_mul(2_654_435_761).wrapping_add(40_503);
    let e = (state >> 9) % width;
    let n = (state >> 20) % width;
    Place::new(e as i32, n as i32).expect(rt, "a place")
}

// Inserts some places of the sequence, and compares after each.
fn grow<R: Abort>(
    rt: &R,
    alloc: Global,
    mesh: &mut Mesh,
    points: &mut Vec<Place>,
    width: u32,
    places: (u32, u32),
) -> Result<(), AllocError>
    requires width { 0 < width }
    requires sheet { IsSheetMesh mesh.old.slots }
    requires local { IsLocallyDelaunay (net_in mesh.old.slots) }
    ensures sheet { OnOk result (IsSheetMesh mesh.new.slots) }
    ensures local { OnOk result (IsLocallyDelaunay (net_in mesh.new.slots)) }
{
    for k in places.0..places.1 {
        let p = place_at(rt, k, width);
        insert(mesh, p, alloc)?;
        with_point(points, p)?;
        assert!(rt; is_right(mesh, points, alloc)?, "after {k} in {width}");
    }
    Ok(())
}

// Inserts this many places into an empty mesh.
fn grow_from_empty<R: Abort>(
    rt: &R,
    alloc: Global,
    width: u32,
    count: u32,
) -> Result<(), AllocError>
    requires { 0 < width }
{
    let mut mesh = Mesh::empty(alloc)?;
    let mut points: Vec<Place> = Vec::new(alloc);
    grow(rt, alloc, &mut mesh, &mut points, width, (0, count))
}

const CASES: [([(i32, i32); 6], &str); 5] = [
    (
        [(0, 0), (2, 0), (2, 2), (0, 2), (1, 1), (3, 1)],
        "a square, its centre, and a place beside it",
    ),
    (
        [(0, 0), (1, 1), (3, 3), (2, 2), (4, 4), (2, 3)],
        "collinear, and a place beside them",
    ),
    (
        [(5, 0), (3, 4), (0, 5), (-3, 4), (-4, -3), (3, -4)],
        "on one circle",
    ),
    (
        [(0, 0), (4, 0), (0, 4), (2, 2), (2, 0), (1, 1)],
        "on the edges of the hull, and within",
    ),
    (
        [
            (0, 0),
            (4, 1),
            (1, 4),
            (-9, -9),
            (0, 0),
            (536_870_912, -536_870_912),
        ],
        "outside the hull, again, and at the limit",
    ),
];

// Inserts these places into an empty mesh, and compares after each.
fn grow_case<R: Abort>(
    rt: &R,
    alloc: Global,
    places: [(i32, i32); 6],
    name: &str,
) -> Result<(), AllocError> {
    let mut mesh = Mesh::empty(alloc)?;
    let mut points: Vec<Place> = Vec::new(alloc);
    for at in places {
        let p = Place::new(at.0, at.1).expect(rt, "a place");
        insert(&mut mesh, p, alloc)?;
        with_point(&mut points, p)?;
        assert!(rt;
            is_right(&mesh, &points, alloc)?,
            "{name}: {}, {}",
            at.0,
            at.1
        );
    }
    Ok(())
}

#[test]
fn squares_lines_circles_and_hulls(rt: HostRuntime) -> Result<(), Fail> {
    for case in CASES {
        grow_case(&rt, rt.alloc(), case.0, case.1)?;
    }
    Ok(())
}

#[test]
fn small_grid_with_places_again(rt: HostRuntime) -> Result<(), Fail> {
    grow_from_empty(&rt, rt.alloc(), 8, 60)?;
    Ok(())
}

#[test]
fn scattered_places(rt: HostRuntime) -> Result<(), Fail> {
    grow_from_empty(&rt, rt.alloc(), 1_000, 40)?;
    Ok(())
}

#[test]
fn share_stays_as_it_was(rt: HostRuntime) -> Result<(), Fail> {
    let mut mesh = Mesh::empty(rt.alloc())?;
    let mut points: Vec<Place> = Vec::new(rt.alloc());
    grow(&rt, rt.alloc(), &mut mesh, &mut points, 9, (0, 12))?;
    let held = mesh.share()?;
    let then = points.len();
    grow(&rt, rt.alloc(), &mut mesh, &mut points, 9, (12, 30))?;
    points.truncate(then);
    assert!(rt; is_right(&held, &points, rt.alloc())?, "the share");
    Ok(())
}
