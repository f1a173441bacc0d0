//! Exact predicates over the places of a surface: each test is its definition, ties included.
//! They never ask for memory, for a mesh or for floating point.
#![tactic(auto)]

mod circle;
mod corner;
mod crossing;
mod far;
mod laws;
mod sides;
mod sign;
mod triangle;
mod vector;
mod wall;

pub use circle::is_inside;
pub use corner::{in_circle, side};
pub use crossing::crosses;
pub use ground_model::Corner;
pub use laws::{closed_law, cover_law, cross_law, owner_law, pack_law, tie_law};
pub use sides::{exact_side, orientation};
pub use sign::Sign;
pub use triangle::{holds, triangle_holds};
pub use wall::walled;
