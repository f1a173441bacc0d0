//! The definition of a sheet's mesh, evaluated.

ghost use Rattle.mesh.specs.Sheets.{IsSheetMesh};

use crate::looks::is_left;
use ground_model::Corner;
use mesh::{Mesh, Seen, seen_from};
use tri_pages::TriSlot;

const OUTSIDE: u32 = u32::MAX;

fn is_edge(seen: &Seen, tail: &Corner, head: &Corner) -> bool {
    seen.a == *tail && seen.b == *head
}

// The triangle from its edge that goes from tail to head, if it has one.
fn seen_between(t: &TriSlot, tail: &Corner, head: &Corner) -> Option<Seen> {
    for edge in 0..3u8 {
        let seen = seen_from(t, edge);
        if is_edge(&seen, tail, head) {
            return Some(seen);
        }
    }
    None
}

fn has_edge(mesh: &Mesh, slot: u32, tail: &Corner, head: &Corner) -> bool {
    match mesh.triangle(slot) {
        Some(t) => seen_between(&t, tail, head).is_some(),
        None => false,
    }
}

// How many triangles have the edge from tail to head.
fn edges_between(mesh: &Mesh, tail: &Corner, head: &Corner) -> u32 {
    let mut count: u32 = 0;
    for slot in 0..mesh.pages().len() {
        if has_edge(mesh, slot, tail, head) {
            count = count.saturating_add(1);
        }
    }
    count
}

fn has_count_back(t: &TriSlot, seen: &Seen) -> bool {
    match seen_between(t, &seen.b, &seen.a) {
        Some(back) => back.ab == seen.ab,
        None => false,
    }
}

fn is_far(corner: &Corner, number: u8) -> bool {
    *corner == Corner::Far(number)
}

fn is_place(corner: &Corner) -> bool {
    match corner {
        Corner::At(_) => true,
        Corner::Far(_) => false,
    }
}

fn is_rim(seen: &Seen) -> bool {
    is_far(&seen.a, 0) && is_far(&seen.b, 1)
        || is_far(&seen.a, 1) && is_far(&seen.b, 2)
        || is_far(&seen.a, 2) && is_far(&seen.b, 0)
}

// Whether the slot beyond an edge has it the other way, with its count. Beyond the far triangle is none.
fn is_met(mesh: &Mesh, seen: &Seen) -> bool {
    if is_rim(seen) {
        return seen.beyond_ab == OUTSIDE;
    }
    match mesh.triangle(seen.beyond_ab) {
        Some(t) => has_count_back(&t, seen),
        None => false,
    }
}

// Whether an edge joins places, if it has a count.
fn is_counted_well(seen: &Seen) -> bool {
    seen.ab == 0 || is_place(&seen.a) && is_place(&seen.b)
}

fn is_right_edge(mesh: &Mesh, seen: &Seen) -> bool {
    seen.a != seen.b
        && is_counted_well(seen)
        && is_met(mesh, seen)
        && edges_between(mesh, &seen.a, &seen.b) == 1
}

fn are_right_edges(mesh: &Mesh, t: &TriSlot) -> bool {
    for edge in 0..3u8 {
        if !is_right_edge(mesh, &seen_from(t, edge)) {
            return false;
        }
    }
    true
}

// Whether the triangle of a slot is as a sheet's has to be, or the slot is free.
fn is_right_slot(mesh: &Mesh, slot: u32) -> bool
    requires { IsSheetMesh mesh.now.slots }
{
    let Some(t) = mesh.triangle(slot) else {
        return !mesh.pages().is_taken(slot);
    };
    let seen = seen_from(&t, 0);
    if !is_left(seen.a, seen.b, seen.c) {
        return false;
    }
    are_right_edges(mesh, &t)
}

/// Whether the triangles are counterclockwise, each directed edge is there once, the slot beyond it has
/// its reverse with the same count, and no far edge has a count.
pub(crate) fn is_right_net(mesh: &Mesh) -> bool
    requires { IsSheetMesh mesh.now.slots }
{
    for slot in 0..mesh.pages().len() {
        if !is_right_slot(mesh, slot) {
            return false;
        }
    }
    true
}

fn has_same_counts(one: &Seen, other: &Seen) -> bool {
    one.ab == other.ab && one.bc == other.bc && one.ca == other.ca
}

fn has_face_in(mesh: &Mesh, slot: u32, seen: &Seen) -> bool {
    let Some(t) = mesh.triangle(slot) else {
        return false;
    };
    match seen_between(&t, &seen.a, &seen.b) {
        Some(other) => other.c == seen.c && has_same_counts(seen, &other),
        None => false,
    }
}

fn has_face(mesh: &Mesh, seen: &Seen) -> bool {
    for slot in 0..mesh.pages().len() {
        if has_face_in(mesh, slot, seen) {
            return true;
        }
    }
    false
}

fn has_face_of(mesh: &Mesh, other: &Mesh, slot: u32) -> bool {
    match other.triangle(slot) {
        Some(t) => has_face(mesh, &seen_from(&t, 0)),
        None => true,
    }
}

fn has_faces_of(mesh: &Mesh, other: &Mesh) -> bool {
    for slot in 0..other.pages().len() {
        if !has_face_of(mesh, other, slot) {
            return false;
        }
    }
    true
}

/// Whether two meshes have the same triangles with the same counts, whatever their slots.
pub(crate) fn is_same_net(one: &Mesh, other: &Mesh) -> bool {
    has_faces_of(one, other) && has_faces_of(other, one)
}
