//! The lines of a surface: breaklines and rings by their numbers, their pieces, and where they
//! cross. It never asks for a triangulation.
#![tactic(auto)]

mod by_place;
mod crossing;
mod line;
mod lines;
mod links;
mod live;
mod numbers;
mod pieces;
mod segment;

pub use crossing::self_cross;
pub use line::Line;
pub use lines::Lines;
pub use links::Links;
pub use live::LiveLines;
pub use numbers::LinesAt;
