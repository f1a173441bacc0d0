//! Trials: what is reported of them, and the facets after each of their edits.

ghost use Rattle.std.specs.Prelude.{◌≡◌, ◌<◌};

use crate::sessions::ground;
use ground_model::{Edit, Facet, Level, Limits, LineKind, Mark, Piece, Place, Places};
use page_vec::Steps;
use slow_tri::facets;
use std::alloc::{AllocError, Global};
use std::marker::Brand;
use std::process::Abort;
use std::sync::ledger::{Blank, Ledger};
use std::test::Fail;
use store::{Applied, Store, Version};
use trial::{Report, trial};

// Seeds, each with a count.
const TRIALS: [(u64, u8); 7] = [
    (1, 40),
    (0, 1),
    (0, 7),
    (0, 8),
    (u64::MAX, 1),
    (u64::MAX, 7),
    (u64::MAX, 8),
];

// A report without the clauses of a trial, which only make the proofs of its callers slow.
fn report_of(alloc: Global, seed: u64, count: u8) -> Result<Report, AllocError> {
    trial(alloc, seed, u32::from(count))
}

fn adds_up(rt: &impl Abort, alloc: Global, seed: u64, count: u8) -> Result<(), Fail> {
    let report = report_of(alloc, seed, count)?;
    let edits = u64::from(count) + u64::from(count / 4);
    assert_eq!(rt;
        u64::from(report.front) + u64::from(report.refused),
        edits,
        "seed {seed}"
    );
    assert_eq!(rt;
        report.net,
        report.cut.wrapping_sub(report.fill),
        "seed {seed}"
    );
    Ok(())
}

#[test]
fn each_edit_is_made_or_refused(rt: HostRuntime) -> Result<(), Fail> {
    for (seed, count) in TRIALS {
        adds_up(&rt, rt.alloc(), seed, count)?;
    }
    Ok(())
}

// The next draw below a number, as a trial makes it.
fn draw(state: &mut u64, most: u64) -> u64 {
    *state = state
        .wrapping_mul(6_364_136_223_846_793_005)
        .wrapping_add(1_442_695_040_888_963_407);
    (*state >> 32).checked_rem(most).unwrap_or(0)
}

fn coordinate(state: &mut u64, most: u64) -> Result<i32, Fail> {
    Ok(i32::try_from(draw(state, most))?)
}

fn next_point(state: &mut u64) -> Result<Edit, Fail> {
    let e = coordinate(state, 100_000)?;
    let n = coordinate(state, 100_000)?;
    let z = coordinate(state, 10_000)?;
    let place = Place::new(e, n).ok_or("a place outside")?;
    Ok(Edit::AddPoint(place, Level::new(z).ok_or("a level outside")?))
}

fn next_end(state: &mut u64, places: &[Place]) -> Result<Place, Fail> {
    let index = usize::try_from(draw(state, places.len() as u64))?;
    Ok(*places.get(index).ok_or("no point")?)
}

fn apply_on<L: Ledger>(store: &mut Store, edit: Edit, blank: Blank) -> Applied
    requires name { blank.name ≡ L.name }
    requires parts { blank.parts ≡ L.parts }
    requires writable { 0 < L.parts }
{
    store.apply(1, edit, &mut Steps::<L>::new(blank))
}

fn apply(store: &mut Store, edit: Edit) -> Applied {
    apply_on::<Brand>(store, edit, Blank::new(1))
}

// The version after the edit, and whether it was made.
fn version_after(store: &mut Store, edit: Edit) -> Result<(Version, bool), Fail> {
    match apply(store, edit) {
        Applied::Done(version, _) => Ok((version, true)),
        Applied::Refused(version, _) => Ok((version, false)),
        Applied::Memory(_) => Err(AllocError.into()),
    }
}

// Whether the version has these facets and no other.
fn has_facets(version: &Version, found: &[Facet]) -> bool {
    version.facets() as usize == found.len()
        && found.iter().all(|f| version.born(&Mark::Tri(*f)).is_some())
}

// Whether the facets are those of the points and of these pieces, by the definition.
fn agrees(rt: &impl Abort, alloc: Global, version: &Version, pieces: &[Piece]) -> Result<(), Fail> {
    let places = version.places()?;
    let found = facets(alloc, &places, pieces)?;
    assert!(rt;
        has_facets(version, found.as_slice()),
        "front {}",
        version.front()
    );
    Ok(())
}

fn add_point(
    rt: &impl Abort,
    alloc: Global,
    store: &mut Store,
    state: &mut u64,
) -> Result<(), Fail> {
    let edit = next_point(state)?;
    let (version, _) = version_after(store, edit)?;
    agrees(rt, alloc, &version, &[])
}

// The piece of a line over no other point.
fn piece(from: Place, to: Place) -> Piece {
    Piece {
        p: from.min(to),
        q: from.max(to),
        count: 1,
    }
}

fn add_line(
    rt: &impl Abort,
    alloc: Global,
    store: &mut Store,
    ends: [Place; 2],
    pieces: &mut Vec<Piece>,
) -> Result<(), Fail> {
    let edit = Edit::AddLine(LineKind::Breakline, Places::from_slice(alloc, &ends)?);
    let (version, made) = version_after(store, edit)?;
    if made {
        pieces.push(piece(ends[0], ends[1]))?;
    }
    agrees(rt, alloc, &version, pieces)
}

fn add_lines(
    rt: &impl Abort,
    alloc: Global,
    store: &mut Store,
    state: &mut u64,
) -> Result<(), Fail> {
    let places = store.newest()?.places()?;
    let mut pieces = Vec::new(alloc);
    for _ in 0..10 {
        let from = next_end(state, &places)?;
        let to = next_end(state, &places)?;
        add_line(rt, alloc, store, [from, to], &mut pieces)?;
    }
    Ok(())
}

#[test]
fn after_each_edit_the_facets_are_those_of_the_definition(rt: HostRuntime) -> Result<(), Fail> {
    let mut store = ground(rt.alloc(), Limits::FULL)?;
    let mut state = 1;
    for _ in 0..40 {
        add_point(&rt, rt.alloc(), &mut store, &mut state)?;
    }
    add_lines(&rt, rt.alloc(), &mut store, &mut state)?;
    assert_eq!(&rt; store.front(), report_of(rt.alloc(), 1, 40)?.front);
    Ok(())
}
