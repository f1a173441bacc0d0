//! Places and facets in a mesh of four places, none of its edges flipped.

ghost use Rattle.std.specs.Prelude.{OnOk, IfOk};
ghost use Rattle.mesh.specs.Sheets.{IsSheetMesh};

use ground_model::{Facet, Place};
use locate::{Spot, find, locate};
use mesh::{Mesh, Script};
use std::alloc::{AllocError, Global};
use std::process::Abort;
use std::test::Fail;

const LIMIT: i32 = 536_870_912;

// Splits the triangle or the edge on which the place lies.
fn insert(mesh: &mut Mesh, place: Place, alloc: Global) -> Result<(), AllocError>
    requires { IsSheetMesh mesh.old.slots }
    ensures { OnOk result (IsSheetMesh mesh.new.slots) }
{
    let mut script = Script::new(alloc);
    match locate(mesh, place, 0) {
        Spot::Inside(slot) => {
            mesh.split(slot, place, &mut script)?;
        }
        Spot::OnEdge(slot, edge) => {
            mesh.split_edge(slot, edge, place, &mut script)?;
        }
        Spot::Corner(_, _) => {}
    }
    Ok(())
}

fn place<R: Abort>(rt: &R, e: i32, n: i32) -> Place {
    Place::new(e, n).expect(rt, "a place")
}

// The far triangle, split at three places.
fn three<R: Abort>(rt: &R, alloc: Global) -> Result<Mesh, AllocError>
    ensures { IfOk result (λ m. IsSheetMesh m.slots) }
{
    let mut mesh = Mesh::empty(alloc)?;
    insert(&mut mesh, place(rt, 0, 0), alloc)?;
    insert(&mut mesh, place(rt, 10, 2), alloc)?;
    insert(&mut mesh, place(rt, 4, 3), alloc)?;
    Ok(mesh)
}

// 0 strictly inside a triangle, 1 on an edge, 2 at a corner.
fn kind(mesh: &Mesh, place: Place, hint: u32) -> u8
    requires { IsSheetMesh mesh.now.slots }
{
    match locate(mesh, place, hint) {
        Spot::Inside(_) => 0,
        Spot::OnEdge(_, _) => 1,
        Spot::Corner(_, _) => 2,
    }
}

fn compare_spot<R: Abort>(rt: &R, mesh: &Mesh, case: (i32, i32, u8), hint: u32)
    requires { IsSheetMesh mesh.now.slots }
{
    let (e, n, expected) = case;
    assert_eq!(rt;
        kind(mesh, place(rt, e, n), hint),
        expected,
        "{e}, {n} from {hint}"
    );
}

const SPOTS: [(i32, i32, u8); 9] = [
    (0, 0, 2),
    (10, 2, 2),
    (4, 3, 2),
    (5, 1, 1),
    (5, 2, 0),
    (5, 0, 0),
    (-1000, 1000, 0),
    (LIMIT, LIMIT, 0),
    (-LIMIT, -LIMIT, 0),
];

fn compare_spots<R: Abort>(rt: &R, mesh: &Mesh, hint: u32)
    requires { IsSheetMesh mesh.now.slots }
{
    for case in SPOTS {
        compare_spot(rt, mesh, case, hint);
    }
}

#[test]
fn place_has_its_spot_from_any_hint(rt: HostRuntime) -> Result<(), Fail> {
    let mesh = three(&rt, rt.alloc())?;
    compare_spots(&rt, &mesh, 0);
    compare_spots(&rt, &mesh, 3);
    compare_spots(&rt, &mesh, u32::MAX);
    Ok(())
}

fn facet<R: Abort>(rt: &R, b: (i32, i32), c: (i32, i32), ab: u16) -> Facet {
    Facet {
        a: place(rt, 0, 0),
        b: place(rt, b.0, b.1),
        c: place(rt, c.0, c.1),
        ab,
        bc: 0,
        ca: 0,
    }
}

fn is_found(mesh: &Mesh, facet: &Facet, hint: u32) -> bool
    requires { IsSheetMesh mesh.now.slots }
{
    find(mesh, facet, hint).is_some()
}

// The whole triangle at (0, 0), and its half once the edge below is split.
fn compare_facets<R: Abort>(rt: &R, mesh: &Mesh, whole: bool, hint: u32)
    requires { IsSheetMesh mesh.now.slots }
{
    let of_three = facet(rt, (10, 2), (4, 3), 0);
    assert_eq!(rt; is_found(mesh, &of_three, hint), whole, "from {hint}");
    let half = facet(rt, (5, 1), (4, 3), 0);
    assert_eq!(rt; is_found(mesh, &half, hint), !whole, "half, from {hint}");
    let counted = facet(rt, (10, 2), (4, 3), 1);
    assert_eq!(rt;
        is_found(mesh, &counted, hint),
        false,
        "another count, from {hint}"
    );
    let clockwise = facet(rt, (4, 3), (10, 2), 0);
    assert_eq!(rt;
        is_found(mesh, &clockwise, hint),
        false,
        "clockwise, from {hint}"
    );
}

#[test]
fn facet_is_found_until_its_edge_is_split(rt: HostRuntime) -> Result<(), Fail> {
    let mut mesh = three(&rt, rt.alloc())?;
    compare_facets(&rt, &mesh, true, 0);
    compare_facets(&rt, &mesh, true, u32::MAX);
    insert(&mut mesh, place(&rt, 5, 1), rt.alloc())?;
    compare_facets(&rt, &mesh, false, 0);
    compare_facets(&rt, &mesh, false, u32::MAX);
    Ok(())
}
