//! Points on a pair of counted edges taken out, where the pair goes straight on with one count.

ghost use Rattle.std.specs.Prelude.{◌<◌, IfSome, OnOk};
ghost use Rattle.predicates.specs.Sheet.{IsLocallyDelaunay};
ghost use Rattle.mesh.specs.Sheets.{IsSheetMesh, net_in};

use crate::grown::{has_facets, insert, with_point};
use crate::looks::can_add;
use crate::removed::{remove, without_point};
use ground_model::{Corner, Piece, Place};
use mesh::{Mesh, Script, seen_from};
use slow_tri::facets;
use std::alloc::{AllocError, Global};
use std::process::Abort;
use std::test::Fail;

// Whether the edge of a slot goes from a place to another.
fn goes(mesh: &Mesh, slot: u32, edge: u8, a: Place, b: Place) -> bool
    requires { edge < 3 }
{
    match mesh.triangle(slot) {
        Some(t) => {
            let seen = seen_from(&t, edge);
            seen.a == Corner::At(a) && seen.b == Corner::At(b)
        }
        None => false,
    }
}

// Counts an edge once more. False where it can't be counted.
fn count_at(mesh: &mut Mesh, slot: u32, edge: u8, alloc: Global) -> Result<bool, AllocError>
    requires edge { edge < 3 }
    requires sheet { IsSheetMesh mesh.old.slots }
    requires local { IsLocallyDelaunay (net_in mesh.old.slots) }
    ensures sheet { OnOk result (IsSheetMesh mesh.new.slots) }
    ensures local { OnOk result (IsLocallyDelaunay (net_in mesh.new.slots)) }
{
    if !can_add(mesh, slot, edge) {
        return Ok(false);
    }
    let mut script = Script::new(alloc);
    mesh.add_count(slot, edge, &mut script)?;
    mesh.legalize(&mut script)?;
    Ok(true)
}

// The slot and the edge from a place to another.
fn edge_between(mesh: &Mesh, a: Place, b: Place) -> Option<(u32, u8)>
    ensures { IfSome result (λ x. x.1 < 3) }
{
    for slot in 0..mesh.pages().len() {
        if goes(mesh, slot, 0, a, b) {
            return Some((slot, 0));
        }
        if goes(mesh, slot, 1, a, b) {
            return Some((slot, 1));
        }
        if goes(mesh, slot, 2, a, b) {
            return Some((slot, 2));
        }
    }
    None
}

// Counts the edge between two places so many times.
fn count_edge<R: Abort>(
    rt: &R,
    alloc: Global,
    mesh: &mut Mesh,
    ends: (Place, Place),
    count: u16,
) -> Result<(), AllocError>
    requires sheet { IsSheetMesh mesh.old.slots }
    requires local { IsLocallyDelaunay (net_in mesh.old.slots) }
    ensures sheet { OnOk result (IsSheetMesh mesh.new.slots) }
    ensures local { OnOk result (IsLocallyDelaunay (net_in mesh.new.slots)) }
{
    for k in 0..count {
        let (slot, edge) = edge_between(mesh, ends.0, ends.1).expect(rt, "an edge");
        let done = count_at(mesh, slot, edge, alloc)?;
        assert!(rt; done, "counted {k} times");
    }
    Ok(())
}

// Puts places in.
fn sow<R: Abort>(
    rt: &R,
    alloc: Global,
    mesh: &mut Mesh,
    points: &mut Vec<Place>,
    places: [(i32, i32); 5],
) -> Result<(), AllocError>
    requires sheet { IsSheetMesh mesh.old.slots }
    requires local { IsLocallyDelaunay (net_in mesh.old.slots) }
    ensures sheet { OnOk result (IsSheetMesh mesh.new.slots) }
    ensures local { OnOk result (IsLocallyDelaunay (net_in mesh.new.slots)) }
{
    for at in places {
        let p = Place::new(at.0, at.1).expect(rt, "a place");
        insert(mesh, p, alloc)?;
        with_point(points, p)?;
    }
    Ok(())
}

// Whether the mesh has the facets of the points with one piece, or with none where its count is 0.
fn is_right_with(
    mesh: &Mesh,
    points: &[Place],
    piece: Piece,
    alloc: Global,
) -> Result<bool, AllocError> {
    let mut pieces: Vec<Piece> = Vec::new(alloc);
    if piece.count > 0 {
        pieces.push(piece)?;
    }
    let expected = facets(alloc, points, &pieces)?;
    Ok(has_facets(mesh, &expected))
}

const PAIRS: [((i32, i32), (u16, u16), bool, &str); 7] = [
    ((8, 0), (0, 0), true, "straight, counted 0"),
    ((8, 0), (1, 1), true, "straight, counted 1"),
    ((8, 0), (7, 7), true, "straight, counted 7"),
    ((8, 0), (1, 2), false, "straight, counted 1 and 2"),
    ((8, 0), (1, 0), false, "a piece that ends"),
    ((8, 1), (1, 1), false, "a bend"),
    ((8, 1), (0, 0), true, "a bend, counted 0"),
];

// Counts the edges from 0, 0 by 4, 0 to an end, and takes 4, 0 out if it can be.
fn take_pair<R: Abort>(
    rt: &R,
    alloc: Global,
    end: (i32, i32),
    counts: (u16, u16),
    is_removable: bool,
    name: &str,
) -> Result<(), AllocError> {
    let first = Place::new(0, 0).expect(rt, "a place");
    let middle = Place::new(4, 0).expect(rt, "a place");
    let last = Place::new(end.0, end.1).expect(rt, "a place");
    let mut mesh = Mesh::empty(alloc)?;
    let mut points: Vec<Place> = Vec::new(alloc);
    sow(
        rt,
        alloc,
        &mut mesh,
        &mut points,
        [(0, 0), (4, 0), end, (3, 5), (4, -6)],
    )?;
    count_edge(rt, alloc, &mut mesh, (first, middle), counts.0)?;
    count_edge(rt, alloc, &mut mesh, (middle, last), counts.1)?;
    let taken = remove(&mut mesh, middle, alloc)?;
    assert!(rt; taken == is_removable, "{name}: whether it is taken out");
    if taken {
        without_point(&mut points, middle);
        let piece = Piece {
            p: first,
            q: last,
            count: counts.0,
        };
        assert!(rt; is_right_with(&mesh, &points, piece, alloc)?, "{name}");
    }
    Ok(())
}

#[test]
fn pieces_that_go_straight_on_are_joined(rt: HostRuntime) -> Result<(), Fail> {
    for case in PAIRS {
        take_pair(&rt, rt.alloc(), case.0, case.1, case.2, case.3)?;
    }
    Ok(())
}
