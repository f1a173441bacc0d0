//! Pieces.

use crate::place::Place;

/// A constrained edge: two points on one link of a line with no point between, `p` before `q`,
/// and how many lines have it.
#[derive(Clone, Copy, Debug, PartialEq, Eq, PartialOrd, Ord)]
pub struct Piece {
    pub p: Place,
    pub q: Place,
    pub count: u16,
}
