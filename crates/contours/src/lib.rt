//! Contours of a relief: the cuts of its facets at a level. They ask of a surface its relief alone.
#![tactic(auto)]

mod cuts;
mod edge;
mod facet;

pub use cuts::contour;
