//! Where a place lies in a mesh, by a walk from triangle to triangle, and in which slot a facet stands.
//! It never changes a mesh, and takes no memory.
#![tactic(auto)]

mod around;
mod facet;
mod part;
mod round;
mod scan;
mod search;
mod sides;
mod spot;
mod walk;

pub use round::next_round;
pub use search::find;
pub use spot::Spot;
pub use walk::locate;
