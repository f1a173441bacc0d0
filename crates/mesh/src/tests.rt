//! A mesh of one place.

use crate::{Mesh, Script};
use ground_model::{Corner, Place};
use std::alloc::Global;
use std::process::Abort;
use std::test::Fail;
use tri_pages::TriSlot;

// After the far triangle was split at a place: the triangle of a far edge, with the slots beyond.
fn part(place: Place, from: u8, to: u8, next: [u32; 3]) -> TriSlot {
    TriSlot {
        corners: [Corner::Far(from), Corner::Far(to), Corner::At(place)],
        counts: [0, 0, 0],
        next,
        stamp: 0,
    }
}

// The far triangle, split at a place.
fn split_at<R: Abort>(rt: &R, alloc: Global, place: Place) -> Result<Mesh, Fail> {
    let mut mesh = Mesh::empty(alloc)?;
    let mut script = Script::new(alloc);
    // For the proof: a place is within the limit.
    let _easting = place.e();
    let point = mesh.split(0, place, &mut script)?;
    assert_eq!(rt; point.0, 2, "the third corner of slot 0");
    assert_eq!(rt; script.len(), 3, "three triangles were written");
    Ok(mesh)
}

fn compare<R: Abort>(rt: &R, mesh: &Mesh, place: Place) {
    let first = part(place, 0, 1, [u32::MAX, 1, 2]);
    let second = part(place, 1, 2, [u32::MAX, 2, 0]);
    let third = part(place, 2, 0, [u32::MAX, 0, 1]);
    assert_eq!(rt; mesh.triangle(0), Some(first), "slot 0");
    assert_eq!(rt; mesh.triangle(1), Some(second), "slot 1");
    assert_eq!(rt; mesh.triangle(2), Some(third), "slot 2");
    assert_eq!(rt; mesh.triangle(3), None, "no further slot");
}

#[test]
fn place_in_the_far_triangle_has_three_triangles_round_it(rt: HostRuntime) -> Result<(), Fail> {
    let place = Place::new(7, -3).expect(&rt, "a place");
    let mesh = split_at(&rt, rt.alloc(), place)?;
    compare(&rt, &mesh, place);
    assert_eq!(rt; mesh.turns(), 1, "one step");
    let other = mesh.share()?;
    compare(&rt, &other, place);
    assert_eq!(rt; other.turns(), 1, "a share keeps the number of steps");
    Ok(())
}
