//! Random calls, with versions of the index kept, and the calls of a small index by hand.

use crate::fixtures::{LIMIT, compare, remove, set};
use page_index::PageIndex;
use std::alloc::Global;
use std::collections::BTreeMap;
use std::process::Abort;
use std::test::Fail;

const CALLS: u32 = 5_000;

// Few enough that a key often comes again.
const KEYS: u64 = 1_500;

fn next(x: u64) -> u64 {
    x.wrapping_mul(6_364_136_223_846_793_005)
        .wrapping_add(1_442_695_040_888_963_407)
}

// Sets a key in two of three calls, and takes it out in the third.
fn call<R: Abort>(
    rt: &R,
    index: &mut PageIndex<u32>,
    map: &mut BTreeMap<u64, u32>,
    state: u64,
) -> Result<(), Fail> {
    let key = (state >> 33) % KEYS;
    if (state >> 20) % 3 == 0 {
        remove(rt, index, map, key)
    } else {
        set(rt, index, map, key, (state >> 40) as u32)
    }
}

fn calls<R: Abort>(
    rt: &R,
    index: &mut PageIndex<u32>,
    map: &mut BTreeMap<u64, u32>,
    seed: u64,
    count: u32,
) -> Result<(), Fail> {
    let mut state = seed;
    for _call in 0..count {
        state = next(state);
        call(rt, index, map, state)?;
    }
    Ok(())
}

// A version kept while the newest goes on, and then changed in its turn.
fn keep_a_version<R: Abort>(
    rt: &R,
    index: &mut PageIndex<u32>,
    map: &mut BTreeMap<u64, u32>,
    seed: u64,
) -> Result<(), Fail> {
    let mut kept = index.share()?;
    let mut kept_map = map.clone()?;
    calls(rt, index, map, seed, CALLS / 10)?;
    compare(rt, &kept, &kept_map);
    calls(
        rt,
        &mut kept,
        &mut kept_map,
        seed.wrapping_add(1),
        CALLS / 10,
    )?;
    compare(rt, &kept, &kept_map);
    compare(rt, index, map);
    Ok(())
}

#[test]
fn versions_are_as_the_maps_that_they_stand_for(rt: HostRuntime) -> Result<(), Fail> {
    let mut index = PageIndex::empty(rt.alloc());
    let mut map = BTreeMap::new(rt.alloc());
    for seed in 0..10u64 {
        keep_a_version(&rt, &mut index, &mut map, seed)?;
    }
    Ok(())
}

fn two_keys<R: Abort>(rt: &R, alloc: Global) -> Result<PageIndex<u32>, Fail> {
    let mut index = PageIndex::empty(alloc);
    for (key, value) in [(5u64, 1u32), (70, 2)] {
        assert!(rt; index.len() < LIMIT);
        index.set(key, value)?;
    }
    Ok(index)
}

#[test]
fn removal_in_a_share_is_its_own(rt: HostRuntime) -> Result<(), Fail> {
    let index = two_keys(&rt, rt.alloc())?;
    assert_eq!(&rt; index.next(6).copied(), Some((70, 2)));
    assert_eq!(&rt; index.next(71).copied(), None);
    assert_eq!(&rt; index.at(1).copied(), Some((70, 2)));
    assert_eq!(&rt; index.at(2).copied(), None);
    assert_eq!(&rt; index.run(6), [(70u64, 2u32)].as_slice());
    let mut share = index.share()?;
    assert_eq!(&rt; share.remove(70)?, Some(2));
    assert_eq!(&rt; share.remove(70)?, None);
    assert_eq!(&rt; share.get(70).copied(), None);
    assert_eq!(&rt; index.get(70).copied(), Some(2));
    Ok(())
}
