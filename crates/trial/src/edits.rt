//! The edits of a trial.

ghost use Rattle.std.specs.Prelude.{◌≡◌, ◌+◌, ◌*◌, ◌/◌, ◌<◌, ◌^◌, ℕ, suc, pos, length, IfOk};
ghost use Rattle.trial.specs.Draws.{next_state, state_after, picked, point_edit, line_edit};

use crate::draws::Draws;
use ground_model::{Edit, Level, LineKind, Place, Places};
use std::alloc::{AllocError, Global};

/// Coordinates are below 100, in units.
const WIDTH: u32 = 100_000;

/// Levels are below 10, in units.
const HEIGHT: u32 = 10_000;

fn place_at(e: u32, n: u32) -> Place
    requires e { e < 100000 }
    requires n { n < 100000 }
    ensures { result ≡ record { e = pos e; n = pos n } }
{
    match Place::new(e as i32, n as i32) {
        Some(place) => place,
        None => unreachable!(),
    }
}

fn level_at(z: u32) -> Level
    requires { z < 10000 }
    ensures { result ≡ pos z }
{
    match Level::new(z as i32) {
        Some(level) => level,
        None => unreachable!(),
    }
}

/// The next point, of three draws: easting, northing and level.
pub(crate) fn next_point(draws: &mut Draws) -> Edit
    ensures edit { (seed k : ℕ) → draws.old ≡ state_after seed (3 * k) → result ≡ point_edit seed k }
    ensures state { (seed k : ℕ) → draws.old ≡ state_after seed (3 * k) → draws.new ≡ state_after seed (3 * suc k) }
{
    let e = draws.below(WIDTH);
    let n = draws.below(WIDTH);
    let z = draws.below(HEIGHT);
    Edit::AddPoint(place_at(e, n), level_at(z))
}

// One of the places, by a draw.
fn next_place(draws: &mut Draws, places: &[Place]) -> Place
    requires some { 0 < length places.now }
    requires few { length places.now < 2 ^ 32 }
    ensures place { result ≡ picked places.now (next_state draws.old / 2 ^ 32) }
    ensures state { draws.new ≡ next_state draws.old }
{
    let index = draws.below(places.len() as u32);
    places[index as usize]
}

/// The next breakline over two of the places, of two draws.
pub(crate) fn next_line(
    alloc: Global,
    draws: &mut Draws,
    places: &[Place],
) -> Result<Edit, AllocError>
    requires some { 0 < length places.now }
    requires few { length places.now < 2 ^ 32 }
    ensures edit { (seed before k : ℕ) → draws.old ≡ state_after seed (before + 2 * k) → IfOk result (λ edit. edit ≡ line_edit seed before places.now k) }
    ensures state { (seed before k : ℕ) → draws.old ≡ state_after seed (before + 2 * k) → draws.new ≡ state_after seed (before + 2 * suc k) }
{
    let from = next_place(draws, places);
    let to = next_place(draws, places);
    Ok(Edit::AddLine(LineKind::Breakline, Places::from_slice(alloc, &[from, to])?))
}
