//! A mesh of triangles as a net over slots that versions share, and the steps that change it.
//! It asks where corners lie only to find the line through one, and which edges to flip.
#![tactic(auto)]

mod across;
mod count;
mod count_steps;
mod edge_find;
mod edge_line;
mod edge_split;
mod edge_unsplit;
mod flip;
mod install;
mod laws;
mod lay;
mod legalize;
mod lookups;
mod mesh;
mod patch;
mod point_id;
mod read;
mod redirect;
mod script;
mod seen_edges;
mod slot_lists;
mod split;
mod stamp;
mod steps;
mod take;
#[cfg(test)]
mod tests;
mod turn;
mod unsplit;
mod writes;

pub use across::Across;
pub use laws::{
    convex_law, delaunay_law, edge_split_law, edge_unsplit_law, flips_law, illegal_law,
    recount_law, sheet_law, split_law, unsplit_law,
};
pub use mesh::Mesh;
pub use patch::Patch;
pub use point_id::PointId;
pub use script::Script;
pub use seen_edges::{Seen, seen_from};
