//! Rings: which facets of a surface its boundaries keep. It never asks for memory, nor how the
//! facets were found.
#![tactic(auto)]

mod keep;
mod ray;
mod tripled;

pub use keep::kept;
