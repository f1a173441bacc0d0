//! Contour chains.

use crate::line::Places;
use crate::listed::Listed;

/// A whole contour line: cuts of which each ends where the next begins. A closed one ends at its
/// first point, which stands there again.
#[derive(Drop)]
pub struct Chain {
    pub closed: bool,
    pub points: Places,
}

/// The chains of a contour, by their first cuts in facet order.
pub type Chains = Listed<Chain>;
