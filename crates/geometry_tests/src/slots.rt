//! Slots that are taken, written and given back, on more pages than a level has.

ghost use Rattle.std.specs.Prelude.{◌≡◌, ◌<◌};

use ground_model::Corner;
use page_vec::Steps;
use std::alloc::Global;
use std::marker::Brand;
use std::process::Abort;
use std::sync::ledger::{Blank, Ledger};
use std::test::Fail;
use tri_pages::{TriPages, TriSlot};

const LIMIT: u32 = 1_073_741_824;

// One slot more than two levels of pages have.
const COUNT: u32 = 4_097;

fn triangle(stamp: u32) -> TriSlot {
    TriSlot {
        corners: [Corner::Far(0), Corner::Far(1), Corner::Far(2)],
        counts: [0, 1, 2],
        next: [stamp, stamp, stamp],
        stamp,
    }
}

// The slot that is given back at this turn: each once, and never two neighbours in a row.
fn slot_at(turn: u32) -> u32 {
    turn.wrapping_mul(1009) % COUNT
}

#[tactic(auto, using(tri_pages::proofs::Taken::length_taken))]
fn take<R: Abort, L: Ledger>(
    rt: &R,
    pages: &mut TriPages,
    wanted: u32,
    stamp: u32,
    steps: &mut Steps<L>,
) -> Result<(), Fail> {
    assert!(rt; pages.len() < LIMIT);
    let slot = pages.take_free(steps)?;
    pages.write(slot, triangle(stamp), steps)?;
    assert_eq!(rt; slot, wanted, "the slot that is taken");
    Ok(())
}

fn give_back<R: Abort, L: Ledger>(
    rt: &R,
    pages: &mut TriPages,
    slot: u32,
    steps: &mut Steps<L>,
) -> Result<(), Fail> {
    assert!(rt; pages.is_taken(slot));
    pages.give_back(slot, steps)?;
    Ok(())
}

fn compare<R: Abort, L: Ledger>(rt: &R, pages: &TriPages, stamp: u32, steps: &mut Steps<L>) {
    for slot in 0..COUNT {
        let found = pages.read(slot, steps).copied();
        assert_eq!(rt; found, Some(triangle(stamp)), "slot {slot}");
    }
    assert_eq!(rt; pages.read(COUNT, steps).copied(), None, "beyond the pages");
    assert_eq!(rt; pages.len(), COUNT);
}

fn take_in_order<R: Abort, L: Ledger>(
    rt: &R,
    pages: &mut TriPages,
    steps: &mut Steps<L>,
) -> Result<(), Fail> {
    for slot in 0..COUNT {
        take(rt, pages, slot, 0, steps)?;
    }
    Ok(())
}

fn give_all_back<R: Abort, L: Ledger>(
    rt: &R,
    pages: &mut TriPages,
    steps: &mut Steps<L>,
) -> Result<(), Fail> {
    for turn in 0..COUNT {
        give_back(rt, pages, slot_at(turn), steps)?;
    }
    assert_eq!(rt; pages.read(0, steps).copied(), None, "given back");
    Ok(())
}

// Takes the slots again, the one that was given back last first.
fn take_again<R: Abort, L: Ledger>(
    rt: &R,
    pages: &mut TriPages,
    steps: &mut Steps<L>,
) -> Result<(), Fail> {
    for turn in 0..COUNT {
        take(rt, pages, slot_at(COUNT - 1 - turn), 1, steps)?;
    }
    Ok(())
}

fn change<R: Abort, L: Ledger>(
    rt: &R,
    pages: &mut TriPages,
    steps: &mut Steps<L>,
) -> Result<(), Fail> {
    give_all_back(rt, pages, steps)?;
    take_again(rt, pages, steps)
}

fn go_round<R: Abort, L: Ledger>(rt: &R, alloc: Global, blank: Blank) -> Result<(), Fail>
    requires name { blank.name ≡ L.name }
    requires parts { blank.parts ≡ L.parts }
    requires writable { 0 < L.parts }
{
    let mut steps = Steps::<L>::new(blank);
    let mut pages = TriPages::empty(alloc);
    take_in_order(rt, &mut pages, &mut steps)?;
    let before = pages.share()?;
    change(rt, &mut pages, &mut steps)?;
    compare(rt, &pages, 1, &mut steps);
    compare(rt, &before, 0, &mut steps);
    Ok(())
}

#[test]
fn slot_given_back_last_is_taken_first(rt: HostRuntime) -> Result<(), Fail> {
    go_round::<HostRuntime, Brand>(&rt, rt.alloc(), Blank::new(1))
}
