//! Measures of a relief: the level at a place, and the volume over a datum.
//! They take no memory, and ask of a surface its relief alone.
#![tactic(auto)]

mod cap;
mod levels;
mod mean;
mod part;
mod post;
mod slope_list;
mod volumes;

pub use levels::level;
pub use slope_list::SlopeList;
pub use volumes::volume;
