//! A persistent ordered index: a map from keys to numbers, on pages that versions of it share.
//! It never asks what a key or a number stands for.
#![tactic(auto)]

mod index;
mod kid;
mod leaf;
mod level;
mod node;
mod search;

pub use index::PageIndex;
