//! The level at a place.

ghost use Rattle.std.specs.Prelude.{◌≡◌, IsTrue, IfSome, is_some, option_map};
ghost use Rattle.std.specs.List.{list_any};
ghost use Rattle.ground_model.specs.Place.{IsLevel};
ghost use Rattle.ground_model.specs.Side.{is_left};
ghost use Rattle.ground_model.specs.Level.{is_on_slope, level_on as level_on_of, level_at};

use crate::mean::{rounded_half_up, weighted_sum};
use ground_model::{Level, Place, Relief, Slope};
use predicates::exact_side;

/// The level at the place by linear interpolation on the least kept facet that has it, rounded
/// half up. None outside the surface. It costs one `holding` of the relief.
#[tactic(auto, using(crate::proofs::Found::is_some_level), unfolding(ground_model::specs::Level::level_at))]
pub fn level<R: Relief>(relief: &R, place: Place) -> Option<Level>
    ensures value { result ≡ level_at (R.slopes relief.now) place }
    ensures inside { is_some result ≡ list_any (is_on_slope place) (R.slopes relief.now) }
{
    level_found(relief.holding(place), place)
}

// The level at the place on the slope that has it, if one was found.
fn level_found(found: Option<Slope>, place: Place) -> Option<Level>
    requires turned { IfSome found (λ s. IsTrue (is_left s.facet.a s.facet.b s.facet.c)) }
    requires on { IfSome found (λ s. IsTrue (is_on_slope place s)) }
    ensures { result ≡ option_map (level_on_of place) found }
{
    match found {
        None => None,
        Some(slope) => Some(level_on(&slope, place)),
    }
}

// The level on the slope, whose closed triangle has the place.
fn level_on(slope: &Slope, place: Place) -> Level
    requires turned { IsTrue (is_left slope.now.facet.a slope.now.facet.b slope.now.facet.c) }
    requires on { IsTrue (is_on_slope place slope.now) }
    ensures { result ≡ level_on_of place slope.now }
{
    match Level::new(mean_on(slope, place)) {
        Some(level) => level,
        None => unreachable!(),
    }
}

// The rounded mean, which is a level since the three levels are and no weight is negative.
fn mean_on(slope: &Slope, place: Place) -> i32
    requires turned { IsTrue (is_left slope.now.facet.a slope.now.facet.b slope.now.facet.c) }
    requires on { IsTrue (is_on_slope place slope.now) }
    ensures value { result ≡ level_on_of place slope.now }
    ensures level { IsLevel result }
{
    let area = exact_side(slope.facet.a, slope.facet.b, slope.facet.c);
    let mean = rounded_half_up(weighted_sum(slope, place), area);
    mean as i32
}
