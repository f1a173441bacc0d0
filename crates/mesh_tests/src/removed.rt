//! Points taken out of meshes, compared after each with the triangulation by its definition.

ghost use Rattle.std.specs.Prelude.{◌<◌, OnOk};
ghost use Rattle.predicates.specs.Sheet.{IsLocallyDelaunay};
ghost use Rattle.mesh.specs.Sheets.{IsSheetMesh, net_in};
ghost use Rattle.point_edit.specs.Removals.{IsLivePoint};

use crate::grown::{insert, is_right, place_at, with_point};
use ground_model::Place;
use locate::{Spot, locate};
use mesh::{Mesh, PointId};
use point_edit::{is_removable, number_of, remove_point};
use std::alloc::{AllocError, Global};
use std::process::Abort;
use std::test::Fail;

// Takes a point out. False where it can't be taken out.
fn remove_at(mesh: &mut Mesh, point: PointId, alloc: Global) -> Result<bool, AllocError>
    requires sheet { IsSheetMesh mesh.old.slots }
    requires local { IsLocallyDelaunay (net_in mesh.old.slots) }
    requires live { IsLivePoint mesh.old.slots point.0 }
    ensures sheet { OnOk result (IsSheetMesh mesh.new.slots) }
    ensures local { OnOk result (IsLocallyDelaunay (net_in mesh.new.slots)) }
{
    if !is_removable(mesh, point) {
        return Ok(false);
    }
    let _script = remove_point(alloc, mesh, point)?;
    Ok(true)
}

/// Takes the point at a place out. False where there is none, or it can't be taken out.
pub fn remove(mesh: &mut Mesh, place: Place, alloc: Global) -> Result<bool, AllocError>
    requires sheet { IsSheetMesh mesh.old.slots }
    requires local { IsLocallyDelaunay (net_in mesh.old.slots) }
    ensures sheet { OnOk result (IsSheetMesh mesh.new.slots) }
    ensures local { OnOk result (IsLocallyDelaunay (net_in mesh.new.slots)) }
{
    match locate(mesh, place, 0) {
        Spot::Corner(slot, corner) => {
            let point = number_of(mesh, slot, corner, place);
            remove_at(mesh, point, alloc)
        }
        Spot::Inside(_) => Ok(false),
        Spot::OnEdge(_, _) => Ok(false),
    }
}

/// The points, with one less.
pub fn without_point(points: &mut Vec<Place>, p: Place) {
    if let Some(k) = points.iter().position(|q| *q == p) {
        points.swap_remove(k);
    }
}

// Puts a place in, if there is no point there, else takes the point out.
fn change<R: Abort>(
    rt: &R,
    alloc: Global,
    mesh: &mut Mesh,
    points: &mut Vec<Place>,
    p: Place,
    name: &str,
) -> Result<(), AllocError>
    requires sheet { IsSheetMesh mesh.old.slots }
    requires local { IsLocallyDelaunay (net_in mesh.old.slots) }
    ensures sheet { OnOk result (IsSheetMesh mesh.new.slots) }
    ensures local { OnOk result (IsLocallyDelaunay (net_in mesh.new.slots)) }
{
    if points.contains(&p) {
        let taken = remove(mesh, p, alloc)?;
        assert!(rt; taken, "{name}: taken out");
        without_point(points, p);
        return Ok(());
    }
    insert(mesh, p, alloc)?;
    with_point(points, p)?;
    Ok(())
}

// Does so, and compares.
fn toggle<R: Abort>(
    rt: &R,
    alloc: Global,
    mesh: &mut Mesh,
    points: &mut Vec<Place>,
    p: Place,
    name: &str,
) -> Result<(), AllocError>
    requires sheet { IsSheetMesh mesh.old.slots }
    requires local { IsLocallyDelaunay (net_in mesh.old.slots) }
    ensures sheet { OnOk result (IsSheetMesh mesh.new.slots) }
    ensures local { OnOk result (IsLocallyDelaunay (net_in mesh.new.slots)) }
{
    change(rt, alloc, mesh, points, p, name)?;
    assert!(rt;
        is_right(mesh, points, alloc)?,
        "{name}: {} points",
        points.len()
    );
    Ok(())
}

const STARS: [([(i32, i32); 6], &str); 6] = [
    (
        [(1, 1), (0, 0), (4, 0), (0, 4), (9, 9), (-9, 2)],
        "three triangles first",
    ),
    (
        [(2, 2), (0, 0), (4, 0), (4, 4), (0, 4), (7, 2)],
        "four, straight between two neighbours both ways",
    ),
    (
        [(0, 0), (5, 1), (1, 5), (-4, 3), (-3, -4), (4, -4)],
        "five round one",
    ),
    (
        [(3, 0), (0, 0), (6, 0), (0, 6), (6, 6), (3, 3)],
        "on the edge of the hull, and its corners",
    ),
    (
        [(1, 1), (0, 0), (3, 3), (2, 2), (4, 4), (2, 3)],
        "collinear, and a place beside them",
    ),
    (
        [(5, 0), (3, 4), (0, 5), (-3, 4), (-4, -3), (3, -4)],
        "on one circle",
    ),
];

// Puts these places in, and takes them out in the same order, the last of all too.
fn in_and_out<R: Abort>(
    rt: &R,
    alloc: Global,
    places: [(i32, i32); 6],
    name: &str,
) -> Result<(), AllocError> {
    let mut mesh = Mesh::empty(alloc)?;
    let mut points: Vec<Place> = Vec::new(alloc);
    for k in 0..12usize {
        let at = places[k % 6];
        let p = Place::new(at.0, at.1).expect(rt, "a place");
        toggle(rt, alloc, &mut mesh, &mut points, p, name)?;
    }
    assert!(rt; points.is_empty(), "{name}: all are taken out");
    Ok(())
}

#[test]
fn stars_of_three_four_and_more_down_to_the_last_point(rt: HostRuntime) -> Result<(), Fail> {
    for case in STARS {
        in_and_out(&rt, rt.alloc(), case.0, case.1)?;
    }
    Ok(())
}

// Places of the sequence put in or taken out, so many times.
fn toggles<R: Abort>(rt: &R, alloc: Global, width: u32, count: u32) -> Result<(), AllocError>
    requires { 0 < width }
{
    let mut mesh = Mesh::empty(alloc)?;
    let mut points: Vec<Place> = Vec::new(alloc);
    for k in 0..count {
        let p = place_at(rt, k, width);
        toggle(rt, alloc, &mut mesh, &mut points, p, "a small grid")?;
    }
    Ok(())
}

#[test]
fn random_places_of_small_grids_put_in_and_taken_out_3_000_times(
    rt: HostRuntime,
) -> Result<(), Fail> {
    toggles(&rt, rt.alloc(), 3, 1_000)?;
    toggles(&rt, rt.alloc(), 5, 2_000)?;
    Ok(())
}
