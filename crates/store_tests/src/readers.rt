//! A version that several threads read at once.

use crate::conflicts::SQUARE;
use crate::script::site_after;
use ground_model::{Level, Limits, Mark, Place};
use measures::level;
use std::alloc::Global;
use std::process::Abort;
use std::test::Fail;
use std::thread;
use std::thread::Threads;
use store::Version;

// The level of the square's middle, its point at the origin with the birth, its counts.
fn reads_square(version: &Version) -> bool {
    let (Some(middle), Some(corner)) = (Place::new(5_000, 5_000), Place::new(0, 0)) else {
        return false;
    };
    level(version, middle) == Level::new(3_000)
        && version.level_of(corner) == Level::new(2_000)
        && version.born(&Mark::Point(corner)) == Some(1)
        && (version.front(), version.points(), version.lines()) == (4, 4, 0)
}

fn keeps_reading(version: &Version) -> bool {
    (0..100).all(|_| reads_square(version))
}

fn read_in_threads<R: Threads + Sync + Abort>(rt: &R, alloc: Global, version: &Version) {
    let Ok(read) = thread::map_indices(rt, alloc, 4, &|_| keeps_reading(version)) else {
        panic!(rt; "memory")
    };
    assert_eq!(rt; read.as_slice(), [true; 4].as_slice());
}

#[test]
fn threads_read_one_version(rt: HostRuntime) -> Result<(), Fail> {
    let site = site_after(&rt, rt.alloc(), Limits::FULL, "the square", &SQUARE)?;
    read_in_threads(&rt, rt.alloc(), site.held());
    Ok(())
}
