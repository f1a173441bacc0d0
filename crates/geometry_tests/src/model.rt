//! Each public call once on its happy path, and the limits.

use crate::fixtures::{At, place};
use ground_model::{Level, Limits, LineKind, Place, Places};
use std::test::Fail;

fn is_place(e: i32, n: i32) -> bool {
    Place::new(e, n).is_some()
}

fn is_level(z: i32) -> bool {
    Level::new(z).is_some()
}

#[test]
fn places_and_levels_end_at_their_limits(rt: HostRuntime) {
    assert!(rt; is_place(536_870_912, -536_870_912));
    assert!(rt; is_place(-536_870_912, 536_870_912));
    assert!(rt; !is_place(536_870_913, 0));
    assert!(rt; !is_place(0, -536_870_913));
    assert!(rt; is_level(67_108_864) && is_level(-67_108_864));
    assert!(rt; !is_level(67_108_865) && !is_level(-67_108_865));
}

fn get_back(z: i32) -> Option<i32> {
    match Level::new(z) {
        Some(level) => Some(level.get()),
        None => None,
    }
}

fn is_before(p: At, q: At) -> bool {
    Place::new(p.0, p.1) < Place::new(q.0, q.1)
}

#[test]
fn places_are_ordered_by_easting_then_northing(rt: HostRuntime) {
    assert!(rt; is_before((1, 9), (2, 3)));
    assert!(rt; is_before((2, 3), (2, 4)));
    let north = place(&rt, (2, 4));
    assert_eq!(rt; (north.e(), north.n()), (2, 4));
    assert_eq!(rt; get_back(-7), Some(-7));
}

#[test]
fn a_list_is_made_and_read(rt: HostRuntime) -> Result<(), Fail> {
    let pair = [place(&rt, (0, 1)), place(&rt, (2, 3))];
    let places = Places::from_slice(rt.alloc(), &pair)?;
    assert_eq!(rt; (places.len(), places.is_empty()), (2, false));
    assert_eq!(rt; places.get(1).copied(), Some(pair[1]));
    assert_eq!(rt; places.get(2).copied(), None);
    assert_eq!(rt; places.as_slice(), pair.as_slice());
    assert_eq!(rt; Places::from_vec(places.into_vec()).len(), 2);
    Ok(())
}

#[test]
fn a_ring_has_at_least_three_places(rt: HostRuntime) {
    let (breakline, outer) = (LineKind::Breakline, LineKind::Outer);
    assert_eq!(rt; (breakline.is_ring(), breakline.least_places()), (false, 2));
    assert_eq!(rt; (outer.is_ring(), outer.least_places()), (true, 3));
    assert!(rt; outer.is_outer() && !outer.is_void_or_island());
    assert!(rt; LineKind::Void.is_void_or_island() && !LineKind::Void.is_island());
    assert!(rt; LineKind::Island.is_void_or_island() && LineKind::Island.is_island());
}

#[test]
fn the_full_limits_are_those_of_the_program(rt: HostRuntime) {
    let full = Limits::FULL;
    assert_eq!(rt;
        (full.points, full.lines, full.places),
        (1_048_576, 65_535, 65_536)
    );
    assert_eq!(rt; (full.vertices, full.log), (1_048_576, 16_777_216));
}
