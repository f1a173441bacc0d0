//! A point of a table.

ghost use Rattle.std.specs.Prelude.{◌≡◌};

use ground_model::{Level, Place};
use std::alloc::AllocError;
use std::marker::Model;

/// A point with its level, and a slot of a mesh near it, which is no part of what it is.
#[derive(Drop)]
pub(crate) struct Vertex {
    pub(crate) place: Place,
    pub(crate) level: Level,
    pub(crate) near: u32,
}

impl Model for Vertex {
    ghost use Rattle.std.specs.Coded.{coded×, coded_ℤ};
    ghost use Rattle.ground_model.specs.Place.{coded_coords};
    ghost use Rattle.point_table.specs.Vertices.{Levelled};

    ghost Value = { Levelled };

    ghost coded = { coded× coded_coords coded_ℤ };

    ghost view = { λ v. (v.place, v.level) };
}

impl Clone for Vertex {
    ghost is_clone = { λ x y. y ≡ x };

    fn clone(&self) -> Result<Vertex, AllocError> {
        Ok(Vertex {
            place: self.place,
            level: self.level,
            near: self.near,
        })
    }
}
