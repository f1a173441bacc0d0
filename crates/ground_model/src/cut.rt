//! Cuts of a contour.

use crate::listed::Listed;
use crate::place::Place;

/// A contour's part in one facet. It runs with the higher ground on its left.
#[derive(Clone, Copy, Debug, PartialEq, Eq)]
pub struct Cut {
    pub from: Place,
    pub to: Place,
}

/// The cuts of a contour, in facet order.
pub type Cuts = Listed<Cut>;
