//! Steps drawn at random, and the definition of a sheet's mesh evaluated after each.

ghost use Rattle.std.specs.Prelude.{ℕ, ◌<◌, List, OnOk};
ghost use Rattle.mesh.specs.Sheets.{IsSheetMesh};
ghost use Rattle.mesh.specs.Suspects.{AreSuspects};

use crate::grown::{place_at, split_at};
use crate::looks::{can_add, can_flip, can_take, can_unsplit, can_unsplit_edge};
use crate::nets::is_right_net;
use ground_model::Place;
use mesh::{Mesh, Script};
use std::alloc::{AllocError, Global};
use std::process::Abort;
use std::test::Fail;

const STEPS: u64 = 2_000;

// Takes a corner out, if it can be.
fn take_out(mesh: &mut Mesh, slot: u32, corner: u8, script: &mut Script) -> Result<(), AllocError>
    requires corner { corner < 3 }
    requires sheet { IsSheetMesh mesh.old.slots }
    requires suspects { AreSuspects mesh.old.slots script.old }
    ensures sheet { OnOk result (IsSheetMesh mesh.new.slots) }
    ensures suspects { OnOk result (AreSuspects mesh.new.slots script.new) }
{
    if can_unsplit(mesh, slot, corner) {
        mesh.unsplit(slot, corner, script)?;
        return Ok(());
    }
    if can_unsplit_edge(mesh, slot, corner) {
        mesh.unsplit_edge(slot, corner, script)?;
    }
    Ok(())
}

// Changes the count of an edge, if it can be.
fn recount(
    mesh: &mut Mesh,
    slot: u32,
    edge: u8,
    more: bool,
    script: &mut Script,
) -> Result<(), AllocError>
    requires edge { edge < 3 }
    requires sheet { IsSheetMesh mesh.old.slots }
    requires suspects { AreSuspects mesh.old.slots script.old }
    ensures sheet { OnOk result (IsSheetMesh mesh.new.slots) }
    ensures suspects { OnOk result (AreSuspects mesh.new.slots script.new) }
{
    if more {
        if can_add(mesh, slot, edge) {
            mesh.add_count(slot, edge, script)?;
        }
        return Ok(());
    }
    if can_take(mesh, slot, edge) {
        mesh.take_count(slot, edge, script)?;
    }
    Ok(())
}

// Flips an edge, if it can be.
fn turn(mesh: &mut Mesh, slot: u32, edge: u8, script: &mut Script) -> Result<(), AllocError>
    requires edge { edge < 3 }
    requires sheet { IsSheetMesh mesh.old.slots }
    requires suspects { AreSuspects mesh.old.slots script.old }
    ensures sheet { OnOk result (IsSheetMesh mesh.new.slots) }
    ensures suspects { OnOk result (AreSuspects mesh.new.slots script.new) }
{
    if can_flip(mesh, slot, edge) {
        mesh.flip(slot, edge, script)?;
    }
    Ok(())
}

fn insert(mesh: &mut Mesh, place: Place, script: &mut Script) -> Result<(), AllocError>
    requires sheet { IsSheetMesh mesh.old.slots }
    requires suspects { AreSuspects mesh.old.slots script.old }
    ensures sheet { OnOk result (IsSheetMesh mesh.new.slots) }
    ensures suspects { OnOk result (AreSuspects mesh.new.slots script.new) }
{
    split_at(mesh, place, script)
}

fn legalize(mesh: &mut Mesh, script: &mut Script) -> Result<(), AllocError>
    requires sheet { IsSheetMesh mesh.old.slots }
    requires suspects { AreSuspects mesh.old.slots script.old }
    ensures sheet { OnOk result (IsSheetMesh mesh.new.slots) }
    ensures suspects { OnOk result (AreSuspects mesh.new.slots script.new) }
{
    mesh.legalize(script)?;
    Ok(())
}

// One step of the kind that a number draws, at a slot and an edge or at a place.
fn step(
    mesh: &mut Mesh,
    kind: u32,
    slot: u32,
    edge: u8,
    place: Place,
    script: &mut Script,
) -> Result<(), AllocError>
    requires edge { edge < 3 }
    requires sheet { IsSheetMesh mesh.old.slots }
    requires suspects { AreSuspects mesh.old.slots script.old }
    ensures sheet { OnOk result (IsSheetMesh mesh.new.slots) }
    ensures suspects { OnOk result (AreSuspects mesh.new.slots script.new) }
{
    match kind {
        0 => insert(mesh, place, script),
        1 => turn(mesh, slot, edge, script),
        2 => take_out(mesh, slot, edge, script),
        3 => recount(mesh, slot, edge, true, script),
        4 => recount(mesh, slot, edge, false, script),
        _ => legalize(mesh, script),
    }
}

// A number of a sequence (Knuth's linear congruence), by its high bits.
fn draw(state: u64, bound: u32) -> u32
    requires { 0 < bound }
    ensures { result < bound }
{
    ((state >> 33) as u32) % bound
}

fn next(state: u64) -> u64 {
    state
        .wrapping_mul(6_364_136_223_846_793_005)
        .wrapping_add(1_442_695_040_888_963_407)
}

// The kind of a step: of 32 draws one legalizes.
fn kind_of(state: u64) -> u32 {
    let number = draw(state, 32);
    if number == 31 { 5 } else { number % 5 }
}

// The drawn step, and the net looked at if it was made.
fn step_at<R: Abort>(
    rt: &R,
    mesh: &mut Mesh,
    state: u64,
    script: &mut Script,
) -> Result<(), AllocError>
    requires sheet { IsSheetMesh mesh.old.slots }
    requires suspects { AreSuspects mesh.old.slots script.old }
    ensures sheet { OnOk result (IsSheetMesh mesh.new.slots) }
    ensures suspects { OnOk result (AreSuspects mesh.new.slots script.new) }
{
    let before = mesh.turns();
    let corner = next(state);
    let site = next(corner);
    let slot = draw(next(site), 52);
    let place = place_at(rt, draw(site, 1_000), 5);
    step(
        mesh,
        kind_of(state),
        slot,
        draw(corner, 3) as u8,
        place,
        script,
    )?;
    let after = mesh.turns();
    if after > before {
        assert!(rt; is_right_net(mesh), "after {after} steps");
    }
    Ok(())
}

// Steps until so many were made.
fn steps<R: Abort>(rt: &R, mesh: &mut Mesh, alloc: Global) -> Result<(), AllocError>
    requires sheet { IsSheetMesh mesh.old.slots }
    requires suspects { (script : List ℕ) → AreSuspects mesh.old.slots script }
{
    let mut script = Script::new(alloc);
    let mut state: u64 = 20_261_201;
    for _ in 0..40_000 {
        if mesh.turns() >= STEPS {
            return Ok(());
        }
        step_at(rt, mesh, state, &mut script)?;
        state = next(next(next(next(state))));
    }
    Ok(())
}

#[test]
fn net_is_right_after_each_of_2_000_random_steps(rt: HostRuntime) -> Result<(), Fail> {
    let mut mesh = Mesh::empty(rt.alloc())?;
    steps(&rt, &mut mesh, rt.alloc())?;
    assert!(rt; mesh.turns() >= STEPS, "{} steps", mesh.turns());
    Ok(())
}
