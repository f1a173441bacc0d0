//! The table of points, by hand.

use ground_model::{Level, Place};
use point_table::Points;
use std::process::Abort;
use std::test::Fail;

// Easting, northing and level of each point, in the order in which they are set: the second last has its level set
// anew by the last.
const POINTS: [(i32, i32, i32); 6] = [
    (10, 0, 1),
    (0, 10, 2),
    (-10, 5, 3),
    (0, 0, 4),
    (0, -10, 5),
    (0, -10, 6),
];

// The same in place order.
const IN_ORDER: [(i32, i32, i32); 5] = [
    (-10, 5, 3),
    (0, -10, 6),
    (0, 0, 4),
    (0, 10, 2),
    (10, 0, 1),
];

fn place(e: i32, n: i32) -> Result<Place, Fail> {
    Ok(Place::new(e, n).ok_or("no place")?)
}

fn set(points: &mut Points, e: i32, n: i32, z: i32) -> Result<(), Fail> {
    let level = Level::new(z).ok_or("no level")?;
    if points.len() == 16_777_216 {
        return Err("full".into());
    }
    Ok(points.set(place(e, n)?, level, 7)?)
}

fn level_at(points: &Points, e: i32, n: i32) -> Result<Option<i32>, Fail> {
    match points.level_of(place(e, n)?) {
        Some(level) => Ok(Some(level.get())),
        None => Ok(None),
    }
}

#[test]
fn points_stand_in_place_order(rt: HostRuntime) -> Result<(), Fail> {
    let mut points = Points::empty(rt.alloc());
    for (e, n, z) in POINTS {
        set(&mut points, e, n, z)?;
    }
    assert_eq!(&rt; points.len(), 5);
    for (k, (e, n, z)) in IN_ORDER.iter().enumerate() {
        let (at, level) = points.at(k as u32).ok_or("no point")?;
        assert_eq!(&rt; (at.e(), at.n(), level.get()), (*e, *n, *z));
        assert_eq!(&rt; level_at(&points, *e, *n)?, Some(*z));
        assert_eq!(&rt; points.near(at), Some(7));
    }
    assert!(&rt; points.at(5).is_none());
    Ok(())
}

#[test]
fn a_version_keeps_its_points(rt: HostRuntime) -> Result<(), Fail> {
    let mut points = Points::empty(rt.alloc());
    set(&mut points, 1, 1, 1)?;
    let kept = points.share()?;
    let taken = points.remove(place(1, 1)?)?;
    assert!(&rt; taken.is_some());
    assert!(&rt; points.remove(place(1, 1)?)?.is_none());
    assert_eq!(&rt; (points.len(), kept.len()), (0, 1));
    assert_eq!(&rt;
        (level_at(&points, 1, 1)?, level_at(&kept, 1, 1)?),
        (None, Some(1))
    );
    assert!(&rt; points.near(place(1, 1)?).is_none());
    Ok(())
}
