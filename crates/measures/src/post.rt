//! The corners of a facet, by their heights over a datum.

ghost use Rattle.std.specs.Prelude.{◌≡◌, ◌≤◌, ◌^◌, unsigned_abs};
ghost use Rattle.ground_model.specs.Place.{is_before};
ghost use Rattle.ground_model.specs.Volume.{over, turned_over, is_above, is_below};

use ground_model::{Level, Place};
use std::marker::Model;

/// A corner with its height over a datum, in thousandths: positive where it lies above.
#[derive(Drop)]
pub(crate) struct Post {
    at: Place,
    height: i32,
}

impl Model for Post {
    ghost use Rattle.std.specs.Prelude.{◌≤◌, ◌^◌, unsigned_abs};
    ghost use Rattle.ground_model.specs.Contour.{Post};

    ghost Value = { Post };

    ghost view = { λ p. record { at = p.at; level = p.height } };

    ghost invariant = { λ p. unsigned_abs p.height ≤ 2 ^ 27 };
}

impl Post {
    /// The corner at this place and level.
    pub(crate) fn over(datum: Level, at: Place, level: Level) -> Post
        ensures { result ≡ over datum at level }
    {
        Post {
            at,
            height: level.get() - datum.get(),
        }
    }

    /// Its height over the datum.
    pub(crate) fn height(&self) -> i128
        ensures value { result ≡ self.now.level }
        ensures size { unsigned_abs result ≤ 2 ^ 27 }
    {
        i128::from(self.height)
    }

    /// The corner as far on the other side of the datum.
    pub(crate) fn turned_over(&self) -> Post
        ensures { result ≡ turned_over self.now }
    {
        Post {
            at: self.at,
            height: -self.height,
        }
    }

    /// Whether it lies above the datum.
    pub(crate) fn is_above(&self) -> bool
        ensures { result ≡ is_above self.now }
    {
        self.height > 0
    }

    /// Whether it lies below the datum.
    pub(crate) fn is_below(&self) -> bool
        ensures { result ≡ is_below self.now }
    {
        self.height < 0
    }

    /// Whether its place comes before the other's.
    pub(crate) fn is_before(&self, other: &Post) -> bool
        ensures { result ≡ is_before self.now.at other.now.at }
    {
        self.at < other.at
    }
}
