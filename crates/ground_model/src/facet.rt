//! Facets.

use crate::place::Place;

/// A constrained Delaunay triangle: its corners counterclockwise, the least first, and for each
/// edge how many lines run over it.
#[derive(Clone, Copy, Debug, PartialEq, Eq, PartialOrd, Ord)]
pub struct Facet {
    pub a: Place,
    pub b: Place,
    pub c: Place,
    pub ab: u16,
    pub bc: u16,
    pub ca: u16,
}
