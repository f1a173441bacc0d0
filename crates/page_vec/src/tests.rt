//! What no clause says: that calls find the memory that there is, that versions share pages, and
//! that a counter takes no room.

ghost use Rattle.std.specs.Prelude.{◌≡◌, ◌<◌};

use crate::{PageVec, Shared, Steps};
use std::alloc::Global;
use std::marker::Brand;
use std::mem::size_of;
use std::process::Abort;
use std::sync::ledger::{Blank, Ledger};
use std::test::Fail;

const LIMIT: u32 = 1_073_741_824;

// The lengths at which the list is shared: about the ends of a page, and of two, three and four levels.
const LENGTHS: [u32; 9] = [0, 1, 63, 64, 65, 4_096, 4_097, 262_144, 262_145];

// A version of the list, shared at a length: from there on its entries are salted, and every 61st
// before is the salt.
#[derive(Drop)]
struct Version {
    list: PageVec<u32>,
    shared_at: u32,
    salt: u32,
}

fn grow<L: Ledger>(
    rt: &impl Abort,
    list: &mut PageVec<u32>,
    length: u32,
    salt: u32,
    steps: &mut Steps<L>,
) -> Result<(), Fail> {
    for k in list.len()..length {
        assert!(rt; list.len() < LIMIT);
        list.push(k ^ salt, steps)?;
    }
    Ok(())
}

fn scatter<L: Ledger>(
    list: &mut PageVec<u32>,
    salt: u32,
    steps: &mut Steps<L>,
) -> Result<(), Fail> {
    for k in 0..list.len() {
        if k % 61 == 0 && k < list.len() {
            list.set(k, salt, steps)?;
        }
    }
    Ok(())
}

// Shares the list at its length, and changes the version all over.
fn version_of<L: Ledger>(
    rt: &impl Abort,
    list: &PageVec<u32>,
    salt: u32,
    steps: &mut Steps<L>,
) -> Result<Version, Fail> {
    let shared_at = list.len();
    let mut list = list.share()?;
    scatter(&mut list, salt, steps)?;
    grow(rt, &mut list, shared_at.saturating_add(70), salt, steps)?;
    Ok(Version {
        list,
        shared_at,
        salt,
    })
}

fn compare<L: Ledger>(rt: &impl Abort, version: &Version, steps: &mut Steps<L>) {
    for k in 0..version.list.len() {
        let wanted = if k >= version.shared_at {
            k ^ version.salt
        } else if k % 61 == 0 {
            version.salt
        } else {
            k
        };
        let found = version.list.get(k, steps).copied();
        assert_eq!(rt;
            found,
            Some(wanted),
            "entry {k} of version {}",
            version.salt
        );
    }
}

fn change_versions<R: Abort, L: Ledger>(rt: &R, alloc: Global, blank: Blank) -> Result<(), Fail>
    requires name { blank.name ≡ L.name }
    requires parts { blank.parts ≡ L.parts }
    requires writable { 0 < L.parts }
{
    let mut steps = Steps::<L>::new(blank);
    let mut list = PageVec::empty(alloc);
    let mut versions = Vec::new(alloc);
    for length in LENGTHS {
        grow(rt, &mut list, length, 0, &mut steps)?;
        versions.push(version_of(rt, &list, length, &mut steps)?)?;
    }
    versions.push(Version {
        list,
        shared_at: 0,
        salt: 0,
    })?;
    for version in &versions {
        compare(rt, version, &mut steps);
    }
    Ok(())
}

#[test]
fn versions_share_pages_and_change_apart(rt: HostRuntime) -> Result<(), Fail> {
    change_versions::<HostRuntime, Brand>(&rt, rt.alloc(), Blank::new(1))
}

fn entry_of(alloc: Global, word: &str) -> Result<Shared<String>, Fail> {
    Ok(Shared::new(alloc, word.to_string(alloc)?)?)
}

// How many pages have entry 0 of the log, where that is the word.
fn pages_with<L: Ledger>(
    log: &PageVec<Shared<String>>,
    word: &str,
    steps: &mut Steps<L>,
) -> Option<usize> {
    let entry = log.get(0, steps)?;
    if entry.get().as_str() != word {
        return None;
    }
    Some(entry.holders())
}

fn fill<L: Ledger>(
    rt: &impl Abort,
    log: &mut PageVec<Shared<String>>,
    alloc: Global,
    steps: &mut Steps<L>,
) -> Result<(), Fail> {
    for _k in 0..65u32 {
        assert!(rt; log.len() < LIMIT);
        log.push(entry_of(alloc, "bo")?, steps)?;
    }
    Ok(())
}

fn write<L: Ledger>(
    rt: &impl Abort,
    log: &mut PageVec<Shared<String>>,
    k: u32,
    alloc: Global,
    steps: &mut Steps<L>,
) -> Result<(), Fail> {
    assert!(rt; k < log.len());
    log.set(k, entry_of(alloc, "bea")?, steps)?;
    Ok(())
}

fn change_log<R: Abort, L: Ledger>(rt: &R, alloc: Global, blank: Blank) -> Result<(), Fail>
    requires name { blank.name ≡ L.name }
    requires parts { blank.parts ≡ L.parts }
    requires writable { 0 < L.parts }
{
    let mut steps = Steps::<L>::new(blank);
    let mut log = PageVec::empty(alloc);
    fill(rt, &mut log, alloc, &mut steps)?;
    let before = log.share()?;
    assert_eq!(rt;
        pages_with(&log, "bo", &mut steps),
        Some(1),
        "one page for both"
    );
    write(rt, &mut log, 64, alloc, &mut steps)?;
    assert_eq!(rt;
        pages_with(&log, "bo", &mut steps),
        Some(1),
        "another page was written"
    );
    write(rt, &mut log, 63, alloc, &mut steps)?;
    assert_eq!(rt;
        pages_with(&log, "bo", &mut steps),
        Some(2),
        "its page was written"
    );
    write(rt, &mut log, 0, alloc, &mut steps)?;
    assert_eq!(rt; pages_with(&log, "bea", &mut steps), Some(1), "in place");
    assert_eq!(rt; pages_with(&before, "bo", &mut steps), Some(1), "as it was");
    Ok(())
}

#[test]
fn page_is_shared_until_one_of_its_entries_is_written(rt: HostRuntime) -> Result<(), Fail> {
    change_log::<HostRuntime, Brand>(&rt, rt.alloc(), Blank::new(1))
}

#[test]
fn counter_takes_no_bytes(rt: HostRuntime) {
    assert_eq!(rt; size_of::<Steps<Brand>>(), 0);
}
