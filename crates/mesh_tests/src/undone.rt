//! A step and its inverse give the net that there was.

ghost use Rattle.std.specs.Prelude.{◌≡◌, ◌<◌, OnOk};
ghost use Rattle.mesh.specs.Insides.{IsInSlot, IsOnSlot};
ghost use Rattle.mesh.specs.Meshes.{IsLive};
ghost use Rattle.mesh.specs.Net.{side};
ghost use Rattle.mesh.specs.Sheets.{IsSheetMesh};

use crate::grown::{place_at, split_at};
use crate::looks::{can_add, can_flip, can_take, can_unsplit, can_unsplit_edge};
use crate::nets::is_same_net;
use ground_model::Place;
use locate::{Spot, locate};
use mesh::{Mesh, Script};
use std::alloc::{AllocError, Global};
use std::process::Abort;
use std::test::Fail;

// Splits a triangle and undoes it. False where it can't be undone.
fn split_and_back(
    mesh: &mut Mesh,
    slot: u32,
    place: Place,
    script: &mut Script,
) -> Result<bool, AllocError>
    requires sheet { IsSheetMesh mesh.old.slots }
    requires live { IsLive mesh.old.slots slot }
    requires inside { IsInSlot mesh.old.slots slot place }
    ensures { OnOk result (IsSheetMesh mesh.new.slots) }
{
    mesh.split(slot, place, script)?;
    if !can_unsplit(mesh, slot, 2) {
        return Ok(false);
    }
    mesh.unsplit(slot, 2, script)?;
    Ok(true)
}

// Splits an edge and undoes it. False where it can't be undone.
fn split_edge_and_back(
    mesh: &mut Mesh,
    slot: u32,
    edge: u8,
    place: Place,
    script: &mut Script,
) -> Result<bool, AllocError>
    requires edge { edge < 3 }
    requires sheet { IsSheetMesh mesh.old.slots }
    requires live { IsLive mesh.old.slots slot }
    requires on { IsOnSlot mesh.old.slots slot (side edge) place }
    ensures { OnOk result (IsSheetMesh mesh.new.slots) }
{
    mesh.split_edge(slot, edge, place, script)?;
    if !can_unsplit_edge(mesh, slot, 1) {
        return Ok(false);
    }
    mesh.unsplit_edge(slot, 1, script)?;
    Ok(true)
}

// Splits where a place lies and undoes it.
fn insert_and_back(mesh: &mut Mesh, place: Place, script: &mut Script) -> Result<bool, AllocError>
    requires { IsSheetMesh mesh.old.slots }
    ensures { OnOk result (IsSheetMesh mesh.new.slots) }
{
    match locate(mesh, place, 0) {
        Spot::Inside(slot) => split_and_back(mesh, slot, place, script),
        Spot::OnEdge(slot, edge) => split_edge_and_back(mesh, slot, edge, place, script),
        Spot::Corner(_, _) => Ok(true),
    }
}

// Flips an edge, if it can be flipped, and undoes it. False where it can't be undone.
fn flip_and_back(
    mesh: &mut Mesh,
    slot: u32,
    edge: u8,
    script: &mut Script,
) -> Result<bool, AllocError>
    requires edge { edge < 3 }
    requires sheet { IsSheetMesh mesh.old.slots }
    ensures { OnOk result (IsSheetMesh mesh.new.slots) }
{
    if !can_flip(mesh, slot, edge) {
        return Ok(true);
    }
    mesh.flip(slot, edge, script)?;
    if !can_flip(mesh, slot, 1) {
        return Ok(false);
    }
    mesh.flip(slot, 1, script)?;
    Ok(true)
}

// Counts a line over an edge that joins places, and undoes it. False where it can't be undone.
fn add_and_back(
    mesh: &mut Mesh,
    slot: u32,
    edge: u8,
    script: &mut Script,
) -> Result<bool, AllocError>
    requires edge { edge < 3 }
    requires sheet { IsSheetMesh mesh.old.slots }
    ensures { OnOk result (IsSheetMesh mesh.new.slots) }
{
    if !can_add(mesh, slot, edge) {
        return Ok(true);
    }
    mesh.add_count(slot, edge, script)?;
    if !can_take(mesh, slot, 0) {
        return Ok(false);
    }
    mesh.take_count(slot, 0, script)?;
    Ok(true)
}

// Inserts a place and undoes it, and compares.
fn compare_insertion<R: Abort>(
    rt: &R,
    mesh: &mut Mesh,
    place: Place,
    alloc: Global,
) -> Result<(), AllocError>
    requires { IsSheetMesh mesh.old.slots }
    ensures { OnOk result (IsSheetMesh mesh.new.slots) }
{
    let before = mesh.share()?;
    let mut script = Script::new(alloc);
    assert!(rt;
        insert_and_back(mesh, place, &mut script)?,
        "insertion undone"
    );
    assert!(rt;
        is_same_net(&before, mesh),
        "the net after an insertion undone"
    );
    Ok(())
}

// Flips and counts an edge and undoes both, and compares.
fn compare_edge<R: Abort>(
    rt: &R,
    mesh: &mut Mesh,
    slot: u32,
    edge: u8,
    alloc: Global,
) -> Result<(), AllocError>
    requires edge { edge < 3 }
    requires sheet { IsSheetMesh mesh.old.slots }
    ensures { OnOk result (IsSheetMesh mesh.new.slots) }
{
    let before = mesh.share()?;
    let mut script = Script::new(alloc);
    assert!(rt;
        add_and_back(mesh, slot, edge, &mut script)?,
        "count undone"
    );
    assert!(rt; is_same_net(&before, mesh), "the net after a count undone");
    assert!(rt;
        flip_and_back(mesh, slot, edge, &mut script)?,
        "flip undone"
    );
    assert!(rt; is_same_net(&before, mesh), "the net after a flip undone");
    Ok(())
}

// Counts the first edge of a slot, if it joins places.
fn count_edge(mesh: &mut Mesh, slot: u32, script: &mut Script) -> Result<(), AllocError>
    requires { IsSheetMesh mesh.old.slots }
    ensures { OnOk result (IsSheetMesh mesh.new.slots) }
{
    if can_add(mesh, slot, 0) {
        mesh.add_count(slot, 0, script)?;
    }
    Ok(())
}

// A mesh of places in a grid of eight by eight, with counts.
fn sow<R: Abort>(rt: &R, mesh: &mut Mesh, alloc: Global) -> Result<(), AllocError>
    requires { IsSheetMesh mesh.old.slots }
    ensures { OnOk result (IsSheetMesh mesh.new.slots) }
{
    let mut script = Script::new(alloc);
    for k in 0..16 {
        split_at(mesh, place_at(rt, k, 8), &mut script)?;
        count_edge(mesh, k, &mut script)?;
    }
    Ok(())
}

#[test]
fn step_undone_leaves_the_net(rt: HostRuntime) -> Result<(), Fail> {
    let mut mesh = Mesh::empty(rt.alloc())?;
    sow(&rt, &mut mesh, rt.alloc())?;
    for k in 16..80 {
        compare_insertion(&rt, &mut mesh, place_at(&rt, k, 8), rt.alloc())?;
    }
    for k in 0..90 {
        compare_edge(&rt, &mut mesh, k / 3, (k % 3) as u8, rt.alloc())?;
    }
    Ok(())
}
