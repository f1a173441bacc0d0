//! Points put into a locally Delaunay mesh and taken out of it, which is locally Delaunay after.
//! It walks nowhere: the caller says where the place lies.
#![tactic(auto)]

mod insert;
mod laws;
mod pieces;
mod point;
mod remove;
mod star;

pub use insert::insert_point;
pub use laws::{added_law, content_law, progress_law, removable_law, removed_law, straight_law};
pub use pieces::is_removable;
pub use point::number_of;
pub use remove::remove_point;
