//! Corners of a mesh.

use crate::place::Place;

/// A vertex of the mesh: a place, or one of the three far corners 0 to 2, whose triangle holds
/// all places and which are known by sign rules alone.
#[derive(Clone, Copy, Debug, PartialEq, Eq)]
pub enum Corner {
    At(Place),
    Far(u8),
}
