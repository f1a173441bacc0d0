//! Crews of several threads at one desk.

ghost use Rattle.std.specs.Prelude.{◌≡◌, ℕ, ◌<◌, ◌≤◌, vec_len, slice_index_or};
ghost use Rattle.std.specs.List.{All};
ghost use Rattle.turn_lock.specs.Journal.{IsPrefix};
ghost use Rattle.turn_lock.specs.Seat.{Seat, numbers_of, AreAll};

use crate::site::{addition, apply, commit, hold, open_desk, plan};
use desk::{Desk, Pass};
use ground_model::{Facet, Mark};
use slow_tri::facets;
use std::alloc::Global;
use std::marker::Model;
use std::process::Abort;
use std::sync::Wait;
use std::sync::atomic::{AtomicU64, Ordering};
use std::thread;
use std::thread::Threads;
use store::{Commit, Plan, Version};

// The points of a square.
const SQUARE: [(i16, i16, i16); 4] = [(0, 0, 0), (0, 100, 0), (100, 0, 0), (100, 100, 0)];

// Commits the plan of an added point, and applies the edit where that is a conflict, which is counted.
fn commit_or_apply<R: Wait + Abort>(
    rt: &R,
    desk: &Desk,
    conflicts: &AtomicU64,
    pass: Pass,
    plan: Plan,
) -> Pass
    requires desk { pass.table ≡ desk.now.table }
    requires plan { IsPrefix plan.journal pass.seen }
    ensures { (result.table ≡ pass.table) × (numbers_of result ≡ numbers_of pass) }
{
    let (pass, answer) = commit(rt, desk, pass, plan);
    match answer {
        Commit::Done(_, _) => pass,
        Commit::Conflict(_, _, edit) => {
            conflicts.fetch_add(1, Ordering::SeqCst);
            apply(rt, desk, pass, edit).0
        }
        Commit::Refused(_, _) => panic!(rt; "refused"),
        Commit::Memory(_) => panic!(rt; "memory"),
    }
}

// Adds a point by a plan on the newest version.
fn add_point<R: Wait + Abort>(
    rt: &R,
    desk: &Desk,
    conflicts: &AtomicU64,
    pass: Pass,
    point: (i16, i16, i16),
) -> Pass
    requires { pass.table ≡ desk.now.table }
    ensures { (result.table ≡ pass.table) × (numbers_of result ≡ numbers_of pass) }
{
    let (pass, version) = hold(rt, desk, pass);
    let plan = plan(rt, &version, addition(rt, point));
    commit_or_apply(rt, desk, conflicts, pass, plan)
}

// Adds ten points along an easting of the author's own.
fn add_ten<R: Wait + Abort>(rt: &R, desk: &Desk, conflicts: &AtomicU64, pass: Pass) -> Pass
    requires { pass.table ≡ desk.now.table }
    ensures { (result.table ≡ pass.table) × (numbers_of result ≡ numbers_of pass) }
{
    let mut pass = pass;
    for i in 0..10i16 {
        let east = if pass.author() == 1 { 0 } else { 10 };
        pass = add_point(rt, desk, conflicts, pass, (i, east, i));
    }
    pass
}

// Each pass adds ten points, in a thread of its own.
fn add_in_threads<R: Threads + Wait + Sync + Abort>(
    rt: &R,
    desk: &Desk,
    passes: Vec<Pass>,
) -> Vec<Pass>
    requires { All (λ p. p.table ≡ desk.now.table) passes.items }
    ensures len { vec_len result ≡ vec_len passes }
    ensures each { (i : ℕ) (d : Seat) → i < vec_len passes
        → ((slice_index_or result.items i d).table ≡ (slice_index_or passes.items i d).table)
        × (numbers_of (slice_index_or result.items i d)
        ≡ numbers_of (slice_index_or passes.items i d)) }
{
    let conflicts = AtomicU64::new(0);
    let add = |pass: Pass| -> Pass
        requires { pass.table ≡ desk.now.table }
        ensures { (result.table ≡ pass.table) × (numbers_of result ≡ numbers_of pass) }
    { add_ten(rt, desk, &conflicts, pass) };
    let Ok(added) = thread::map_vec(rt, passes, &add) else {
        panic!(rt; "memory")
    };
    added
}

// Closes the desk, and gives the newest version of its store.
fn close<R: Abort>(rt: &R, desk: Desk, passes: Vec<Pass>) -> Version
    requires { AreAll desk passes.items }
{
    let Ok(version) = desk.close(passes).newest() else {
        panic!(rt; "memory")
    };
    version
}

// The number of the entry at this index, if it is the author's.
fn number_by(version: &Version, author: u16, k: u32) -> Option<u32> {
    match version.entry(k) {
        Some(entry) if entry.author == author => Some(entry.number),
        _ => None,
    }
}

// Whether the author's entries are numbered from 1 to 10.
fn has_ten_by(version: &Version, author: u16) -> bool {
    let numbers = (0..version.front()).filter_map(|k| number_by(version, author, k));
    numbers.eq(1..11)
}

fn two_crews<R: Threads + Wait + Sync + Abort>(rt: &R, alloc: Global) -> Version {
    let (desk, passes) = open_desk(rt, alloc, 2, &[]);
    let passes = add_in_threads(rt, &desk, passes);
    close(rt, desk, passes)
}

#[test]
fn two_crews_make_each_entry_once(rt: HostRuntime) {
    let version = two_crews(&rt, rt.alloc());
    assert_eq!(rt; version.front(), 20);
    assert!(rt; has_ten_by(&version, 1) && has_ten_by(&version, 2));
}

// A pass with a plan on a version that it has seen.
#[derive(Drop)]
struct Planned {
    pass: Pass,
    plan: Plan,
}

impl Model for Planned {
    ghost use Rattle.turn_lock.specs.Journal.{IsPrefix};
    ghost use Rattle.turn_lock.specs.Seat.{Seat};

    ghost Value = { Seat };

    ghost view = { λ p. p.pass };

    ghost invariant = { λ p. IsPrefix p.plan.journal p.pass.seen };
}

// Plans a point near those of the others, on the newest version.
fn plan_near<R: Wait + Abort>(rt: &R, desk: &Desk, pass: Pass) -> Planned
    requires { pass.table ≡ desk.now.table }
    ensures { (result.table ≡ pass.table) × (numbers_of result ≡ numbers_of pass) }
{
    let at = (pass.author() % 32) as i16;
    let (pass, version) = hold(rt, desk, pass);
    let plan = plan(rt, &version, addition(rt, (30 + at % 4, 60 + at / 4, at)));
    Planned { pass, plan }
}

// Each pass plans a point in the square, in a thread of its own.
fn plan_in_threads<R: Threads + Wait + Sync + Abort>(
    rt: &R,
    desk: &Desk,
    passes: Vec<Pass>,
) -> Vec<Planned>
    requires { All (λ p. p.table ≡ desk.now.table) passes.items }
    ensures len { vec_len result ≡ vec_len passes }
    ensures each { (i : ℕ) (d : Seat) → i < vec_len passes
        → ((slice_index_or result.items i d).table ≡ (slice_index_or passes.items i d).table)
        × (numbers_of (slice_index_or result.items i d)
        ≡ numbers_of (slice_index_or passes.items i d)) }
{
    let plan = |pass: Pass| -> Planned
        requires { pass.table ≡ desk.now.table }
        ensures { (result.table ≡ pass.table) × (numbers_of result ≡ numbers_of pass) }
    { plan_near(rt, desk, pass) };
    let Ok(planned) = thread::map_vec(rt, passes, &plan) else {
        panic!(rt; "memory")
    };
    planned
}

// Each pass commits its plan, or applies the edit, in a thread of its own.
fn commit_in_threads<R: Threads + Wait + Sync + Abort>(
    rt: &R,
    desk: &Desk,
    conflicts: &AtomicU64,
    planned: Vec<Planned>,
) -> Vec<Pass>
    requires { All (λ p. p.table ≡ desk.now.table) planned.items }
    ensures len { vec_len result ≡ vec_len planned }
    ensures each { (i : ℕ) (d : Seat) → i < vec_len planned
        → ((slice_index_or result.items i d).table ≡ (slice_index_or planned.items i d).table)
        × (numbers_of (slice_index_or result.items i d)
        ≡ numbers_of (slice_index_or planned.items i d)) }
{
    let commit = |planned: Planned| -> Pass
        requires { planned.table ≡ desk.now.table }
        ensures { (result.table ≡ planned.table) × (numbers_of result ≡ numbers_of planned) }
    { commit_or_apply(rt, desk, conflicts, planned.pass, planned.plan) };
    let Ok(passes) = thread::map_vec(rt, planned, &commit) else {
        panic!(rt; "memory")
    };
    passes
}

// Whether the facets are those that the slow triangulation finds.
fn is_triangulated(alloc: Global, version: &Version) -> bool {
    let Ok(places) = version.places() else {
        return false;
    };
    let Ok(found) = facets(alloc, places.as_slice(), &[]) else {
        return false;
    };
    let there = |facet: &Facet| version.born(&Mark::Tri(*facet)).is_some();
    found.len() == version.facets() as usize && found.as_slice().iter().all(there)
}

fn sixteen_crews<R: Threads + Wait + Sync + Abort>(
    rt: &R,
    alloc: Global,
    conflicts: &AtomicU64,
) -> Version {
    let (desk, passes) = open_desk(rt, alloc, 16, &SQUARE);
    let planned = plan_in_threads(rt, &desk, passes);
    let passes = commit_in_threads(rt, &desk, conflicts, planned);
    close(rt, desk, passes)
}

// Each plan destroys both facets of the square, so all but the first to be committed conflict.
#[test]
fn sixteen_crews_near_one_another_conflict(rt: HostRuntime) {
    let conflicts = AtomicU64::new(0);
    let version = sixteen_crews(&rt, rt.alloc(), &conflicts);
    assert_eq!(rt; conflicts.load(Ordering::SeqCst), 15);
    assert_eq!(rt; (version.front(), version.points()), (20, 20));
    assert!(rt; is_triangulated(rt.alloc(), &version));
}
