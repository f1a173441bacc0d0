//! Calls of an index beside those of the map that it is compared with.

use page_index::PageIndex;
use std::collections::BTreeMap;
use std::process::Abort;
use std::test::Fail;

/// An index has at most so many keys.
pub(crate) const LIMIT: u32 = 16_777_216;

/// Gives a key a value in both.
pub(crate) fn set<R: Abort>(
    rt: &R,
    index: &mut PageIndex<u32>,
    map: &mut BTreeMap<u64, u32>,
    key: u64,
    value: u32,
) -> Result<(), Fail> {
    assert!(rt; index.len() < LIMIT);
    index.set(key, value)?;
    map.insert(key, value)?;
    Ok(())
}

/// Takes a key out of both.
pub(crate) fn remove<R: Abort>(
    rt: &R,
    index: &mut PageIndex<u32>,
    map: &mut BTreeMap<u64, u32>,
    key: u64,
) -> Result<(), Fail> {
    let found = index.remove(key)?;
    assert_eq!(rt; found, map.remove(&key), "the value of {key}, taken out");
    Ok(())
}

/// Compares every pair: by its key, by its rank, and as the one that follows the key before it.
pub(crate) fn compare<R: Abort>(rt: &R, index: &PageIndex<u32>, map: &BTreeMap<u64, u32>) {
    let mut rank = 0u32;
    let mut from = 0u64;
    for (key, value) in map {
        assert_eq!(rt;
            index.get(*key).copied(),
            Some(*value),
            "the value of {key}"
        );
        assert_eq!(rt;
            index.at(rank).copied(),
            Some((*key, *value)),
            "the pair of rank {rank}"
        );
        assert_eq!(rt;
            index.next(from).copied(),
            Some((*key, *value)),
            "from {from} on"
        );
        rank = rank.wrapping_add(1);
        from = key.wrapping_add(1);
    }
    assert_eq!(rt; index.len(), rank);
    assert_eq!(rt; index.at(rank).copied(), None);
    assert_eq!(rt; index.next(from).copied(), None, "behind the last");
}
