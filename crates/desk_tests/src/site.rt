//! A desk over some points, and single turns at it.

ghost use Rattle.std.specs.Prelude.{◌≡◌, ◌<◌, ◌≤◌};
ghost use Rattle.turn_lock.specs.Journal.{IsPrefix};
ghost use Rattle.turn_lock.specs.Seat.{numbers_of, AreFirst, AreAll};

use desk::{Desk, Pass};
use ground_model::{Edit, Level, Limits, Place};
use ground_num::{Head, LinearUnit, Name, Origin, Thousandths};
use page_vec::Steps;
use std::alloc::Global;
use std::marker::Brand;
use std::process::Abort;
use std::sync::Wait;
use std::sync::ledger::{Blank, Ledger};
use store::{Applied, Commit, Plan, Store, Version};

// Adds the points, as the author 0.
fn add_all<R: Abort, L: Ledger>(rt: &R, store: &mut Store, points: &[(i16, i16, i16)], blank: Blank)
    requires name { blank.name ≡ L.name }
    requires parts { blank.parts ≡ L.parts }
    requires writable { 0 < L.parts }
{
    let mut steps = Steps::<L>::new(blank);
    for point in points {
        let Applied::Done(_, _) = store.apply(0, addition(rt, *point), &mut steps) else {
            panic!(rt; "not made")
        };
    }
}

/// A desk over a surface of these points, and its passes.
pub(crate) fn open_desk<R: Abort>(
    rt: &R,
    alloc: Global,
    passes: u16,
    points: &[(i16, i16, i16)],
) -> (Desk, Vec<Pass>)
    requires { (0 < passes) × (passes ≤ 16) }
    ensures seats { result.0.seats ≡ passes }
    ensures first { AreFirst result.0 result.1.items }
    ensures all { AreAll result.0 result.1.items }
{
    let Ok(name) = Name::from_bytes(alloc, b"ground") else {
        panic!(rt; "memory")
    };
    let zero = Thousandths(0);
    let head = Head {
        name,
        unit: LinearUnit::Meter,
        origin: Origin { n: zero, e: zero },
    };
    let Ok(mut store) = Store::empty(alloc, head, Limits::FULL) else {
        panic!(rt; "memory")
    };
    add_all::<R, Brand>(rt, &mut store, points, Blank::new(1));
    let Ok(opened) = Desk::open(alloc, store, passes) else {
        panic!(rt; "memory")
    };
    opened
}

/// The place with this northing and easting, in whole units.
pub(crate) fn place<R: Abort>(rt: &R, n: i16, e: i16) -> Place {
    let Some(place) = Place::new(i32::from(e) * 1000, i32::from(n) * 1000) else {
        panic!(rt; "no place")
    };
    place
}

/// A point that is added, with its northing, easting and level in whole units.
pub(crate) fn addition<R: Abort>(rt: &R, point: (i16, i16, i16)) -> Edit {
    let (n, e, z) = point;
    let Some(level) = Level::new(i32::from(z) * 1000) else {
        panic!(rt; "no level")
    };
    Edit::AddPoint(place(rt, n, e), level)
}

/// Holds the newest version.
pub(crate) fn hold<R: Wait + Abort>(rt: &R, desk: &Desk, pass: Pass) -> (Pass, Version)
    requires { pass.table ≡ desk.now.table }
    ensures pass { (result.0.table ≡ pass.table) × (numbers_of result.0 ≡ numbers_of pass) }
    ensures version { result.1.journal ≡ result.0.seen }
{
    let (pass, version) = desk.hold(rt, pass);
    let Ok(version) = version else {
        panic!(rt; "memory")
    };
    (pass, version)
}

/// Applies an edit, which is to be made: the front then.
pub(crate) fn apply<R: Wait + Abort>(rt: &R, desk: &Desk, pass: Pass, edit: Edit) -> (Pass, u32)
    requires { pass.table ≡ desk.now.table }
    ensures { (result.0.table ≡ pass.table) × (numbers_of result.0 ≡ numbers_of pass) }
{
    let (pass, applied) = desk.apply(rt, pass, edit);
    let Applied::Done(version, _) = applied else {
        panic!(rt; "not made")
    };
    (pass, version.front())
}

/// A plan of the edit on the version.
pub(crate) fn plan<R: Abort>(rt: &R, version: &Version, edit: Edit) -> Plan
    ensures { result.journal ≡ version.now.journal }
{
    let Ok(plan) = version.plan(edit) else {
        panic!(rt; "not planned")
    };
    plan
}

/// Commits a plan.
pub(crate) fn commit<R: Wait>(rt: &R, desk: &Desk, pass: Pass, plan: Plan) -> (Pass, Commit)
    requires desk { pass.table ≡ desk.now.table }
    requires plan { IsPrefix plan.journal pass.seen }
    ensures { (result.0.table ≡ pass.table) × (numbers_of result.0 ≡ numbers_of pass) }
{
    desk.commit(rt, pass, plan)
}
