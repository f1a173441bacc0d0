//! The record of a triangle.

use ground_model::Corner;

/// A triangle's record. A far corner's number is at most 2.
///
/// `counts[i]` says how many lines run over the edge from `corners[i]` to the next corner, and
/// `next[i]` is the slot of the triangle beyond that edge. `stamp` is the front of its birth.
#[derive(Clone, Copy, Debug, PartialEq, Eq)]
pub struct TriSlot {
    pub corners: [Corner; 3],
    pub counts: [u16; 3],
    pub next: [u32; 3],
    pub stamp: u32,
}
