//! A triangle that is to be installed.

use ground_model::Corner;

/// The corners of a new triangle, and the counts of its edges: `counts[i]` is that of the edge from
/// `corners[i]` to the next corner.
#[derive(Clone, Copy, Debug, PartialEq, Eq)]
pub struct Patch {
    pub corners: [Corner; 3],
    pub counts: [u16; 3],
}
