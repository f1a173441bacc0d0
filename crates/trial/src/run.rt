//! Trials, from the first draw to the report.

ghost use Rattle.std.specs.Prelude.{◌≡◌, ◌≤◌, ◌<◌, ◌*◌, ◌^◌, ℕ, length, OnOk, IfOk};
ghost use Rattle.turn_lock.specs.Setting.{setting};
ghost use Rattle.trial.specs.Draws.{state_after};
ghost use Rattle.trial.specs.Trials.{IsReport, empty_trial, after_points, after_lines, with_lines};

use crate::course::Course;
use crate::draws::Draws;
use crate::edits::{next_line, next_point};
use crate::report::Report;
use ground_model::Place;
use std::alloc::{AllocError, Global};

// Makes so many points.
fn add_points(course: &mut Course, draws: &mut Draws, count: u32) -> Result<(), AllocError>
    requires fresh { course.old ≡ empty_trial (setting course.old.journal) }
    requires few { count ≤ 100000 }
    ensures points { OnOk result (course.new ≡ after_points (setting course.old.journal) draws.old count) }
    ensures state { OnOk result (draws.new ≡ state_after draws.old (3 * count)) }
{
    for k in 0..count {
        course.step(k + 1, next_point(draws))?;
    }
    Ok(())
}

// Makes so many breaklines over these places.
fn add_lines(
    alloc: Global,
    course: &mut Course,
    draws: &mut Draws,
    places: &[Place],
    count: u32,
) -> Result<(), AllocError>
    requires some { 0 < length places.now }
    requires few_places { length places.now < 2 ^ 32 }
    requires few { count ≤ 100000 }
    requires room { course.old.refused ≤ 100000 }
    ensures lines { (seed before : ℕ) → draws.old ≡ state_after seed before → OnOk result (course.new ≡ after_lines course.old seed before places.now count) }
{
    for k in 0..count {
        let edit = next_line(alloc, draws, places)?;
        course.apply(edit)?;
    }
    Ok(())
}

// Makes a breakline for every four points, where there are two points.
fn add_lines_between(
    alloc: Global,
    course: &mut Course,
    draws: &mut Draws,
    count: u32,
) -> Result<(), AllocError>
    requires few { count ≤ 100000 }
    requires room { course.old.refused ≤ 100000 }
    ensures { (seed : ℕ) → draws.old ≡ state_after seed (3 * count) → OnOk result (course.new ≡ with_lines course.old seed count) }
{
    let places = course.places()?;
    if places.len() < 2 {
        return Ok(());
    }
    add_lines(alloc, course, draws, &places, count / 4)
}

/// A trial: `count` points drawn from the seed, each eighth of which is planned on an older version,
/// and then a breakline for every four of them. It is the same at each run. It takes memory for its
/// store and the places of its points.
pub fn trial(alloc: Global, seed: u64, count: u32) -> Result<Report, AllocError>
    requires { count ≤ 100000 }
    ensures { IfOk result (IsReport seed count) }
{
    let mut course = Course::empty(alloc)?;
    let mut draws = Draws::new(seed);
    add_points(&mut course, &mut draws, count)?;
    add_lines_between(alloc, &mut course, &mut draws, count)?;
    let report = course.report(seed, count)?;
    Ok(report)
}
