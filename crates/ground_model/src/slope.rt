//! Slopes.

use crate::facet::Facet;
use crate::place::Level;

/// A facet with the levels of its corners `a`, `b` and `c`.
#[derive(Clone, Copy, Debug, PartialEq, Eq)]
pub struct Slope {
    pub facet: Facet,
    pub za: Level,
    pub zb: Level,
    pub zc: Level,
}
