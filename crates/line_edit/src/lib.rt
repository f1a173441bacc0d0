//! Pieces of lines put into a locally Delaunay mesh and taken out of it, which is locally Delaunay after.
//! It never searches the mesh: it goes round a point, or from a point along a straight way.
#![tactic(auto)]

mod ahead;
mod between;
mod half_edge;
mod march;
mod pieces;
mod remove;
mod sides;
mod spoke;

pub use between::edge_between;
pub use half_edge::HalfEdge;
pub use march::{Way, way_between};
pub use pieces::{PieceEnd, pieces_at};
pub use remove::remove_piece;
