//! Where a contour cuts an edge.

ghost use Rattle.std.specs.Prelude.{◌≡◌, ◌≤◌, ◌^◌, pos, neg_ℤ, ◌+ℤ◌, ◌-ℤ◌, ◌*ℤ◌, ◌<ℤ◌, ◌≤ℤ◌, int_lt, unsigned_abs};
ghost use Rattle.ground_model.specs.Contour.{cut_on as cut_on_of};
ghost use Rattle.ground_model.specs.Rounding.{rounded_half_up as rounded_half_up_of};
ghost use Rattle.contours.specs.Cuts.{Parts};

use ground_model::{Level, Place};
use std::marker::Model;

/// A corner and its level.
#[derive(Drop)]
pub(crate) struct Post {
    at: Place,
    level: Level,
}

impl Model for Post {
    ghost use Rattle.ground_model.specs.Contour.{Post};

    ghost Value = { Post };

    ghost view = { λ p. record { at = p.at; level = p.level } };
}

impl Post {
    /// The corner at this place.
    pub(crate) fn new(at: Place, level: Level) -> Post
        ensures { result ≡ record { at = at; level = level } }
    {
        Post { at, level }
    }

    /// Whether it is low: below the contour.
    pub(crate) fn is_low(&self, contour: Level) -> bool
        ensures { result ≡ int_lt self.now.level contour }
    {
        self.level < contour
    }
}

// How far a level is above a lower one.
fn rise(above: Level, below: Level) -> i64
    requires { below <ℤ above }
    ensures value { result ≡ above -ℤ below }
    ensures some { pos 0 <ℤ result }
    ensures size { unsigned_abs result ≤ 2 ^ 27 }
{
    i64::from(above.get()) - i64::from(below.get())
}

// The gap times the rise.
fn product(gap: i64, rise: i64) -> i64
    requires gap { unsigned_abs gap ≤ 2 ^ 30 }
    requires rise { unsigned_abs rise ≤ 2 ^ 27 }
    ensures value { result ≡ gap *ℤ rise }
    ensures size { unsigned_abs result ≤ 2 ^ 57 }
{
    gap * rise
}

// Twice the product and once the whole, so that the quotient by twice the whole is more by a half.
fn raised(product: i64, whole: i64) -> i64
    requires product { unsigned_abs product ≤ 2 ^ 57 }
    requires whole { unsigned_abs whole ≤ 2 ^ 27 }
    ensures value { result ≡ pos 2 *ℤ product +ℤ whole }
    ensures size { unsigned_abs result ≤ 2 ^ 59 }
{
    2 * product + whole
}

// The quotient, rounded half up.
fn rounded_half_up(product: i64, whole: i64) -> i64
    requires product { unsigned_abs product ≤ 2 ^ 57 }
    requires some { pos 0 <ℤ whole }
    requires whole { unsigned_abs whole ≤ 2 ^ 27 }
    ensures { result ≡ rounded_half_up_of product whole }
{
    raised(product, whole).div_euclid(2 * whole)
}

// The coordinate as far from the first to the second as a rise is of a whole one.
fn along(from: i64, to: i64, rise: i64, whole: i64) -> i64
    requires from { unsigned_abs from ≤ 2 ^ 29 }
    requires to { unsigned_abs to ≤ 2 ^ 29 }
    requires rise { pos 0 ≤ℤ rise }
    requires within { rise ≤ℤ whole }
    requires some { pos 0 <ℤ whole }
    requires whole { unsigned_abs whole ≤ 2 ^ 27 }
    ensures value { result ≡ from +ℤ rounded_half_up_of ((to -ℤ from) *ℤ rise) whole }
    ensures size { unsigned_abs result ≤ 2 ^ 29 }
{
    from + rounded_half_up(product(to - from, rise), whole)
}

// The like of coordinates of places.
fn coordinate(from: i32, to: i32, rise: i64, whole: i64) -> i64
    requires from { unsigned_abs from ≤ 2 ^ 29 }
    requires to { unsigned_abs to ≤ 2 ^ 29 }
    requires rise { pos 0 ≤ℤ rise }
    requires within { rise ≤ℤ whole }
    requires some { pos 0 <ℤ whole }
    requires whole { unsigned_abs whole ≤ 2 ^ 27 }
    ensures value { result ≡ from +ℤ rounded_half_up_of ((to -ℤ from) *ℤ rise) whole }
    ensures size { unsigned_abs result ≤ 2 ^ 29 }
{
    along(i64::from(from), i64::from(to), rise, whole)
}

// The place with coordinates that are within the limit.
fn place_at(e: i64, n: i64) -> Place
    requires e { unsigned_abs e ≤ 2 ^ 29 }
    requires n { unsigned_abs n ≤ 2 ^ 29 }
    ensures { result ≡ record { e = e; n = n } }
{
    match Place::new(e as i32, n as i32) {
        Some(place) => place,
        None => unreachable!(),
    }
}

// The place as far from the first to the second as a rise is of a whole one.
fn place_along(from: Place, to: Place, rise: i64, whole: i64) -> Place
    requires some { pos 0 <ℤ rise }
    requires within { rise ≤ℤ whole }
    requires whole { unsigned_abs whole ≤ 2 ^ 27 }
    ensures e { result.e ≡ from.e +ℤ rounded_half_up_of ((to.e -ℤ from.e) *ℤ rise) whole }
    ensures n { result.n ≡ from.n +ℤ rounded_half_up_of ((to.n -ℤ from.n) *ℤ rise) whole }
{
    place_at(
        coordinate(from.e(), to.e(), rise, whole),
        coordinate(from.n(), to.n(), rise, whole),
    )
}

/// Where the contour cuts the edge from a low corner to a high one. What is added to the low corner
/// is rounded half up on each axis, so that both facets of an edge have one place on it.
pub(crate) fn cut_on(contour: Level, low: &Post, high: &Post) -> Place
    requires { Parts contour low.now high.now }
    ensures { result ≡ cut_on_of contour low.now high.now }
{
    let part = rise(contour, low.level);
    place_along(low.at, high.at, part, rise(high.level, low.level))
}
