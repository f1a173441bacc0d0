//! The points of a surface.
#![tactic(auto)]

mod points;
mod vertex;

pub use points::Points;
