//! A persistent vector: a list on pages of 64, which versions of it share, and a counter of steps.
//! It never asks what its entries are, only that a clone of one equals it.
#![tactic(auto)]

mod kid;
mod leaf;
mod levels;
mod node;
mod page;
mod shared;
mod steps;
#[cfg(test)]
mod tests;
mod tree;
mod vector;

pub use shared::Shared;
pub use steps::Steps;
pub use vector::PageVec;
