//! The ground model: its types, and in `specs/` what a surface, an edit and a history are.
//! It never asks how a surface is kept, nor what is printed of it.
#![tactic(auto)]

mod chain;
mod corner;
mod cut;
mod edit;
mod entry;
mod facet;
mod laws;
mod limits;
mod line;
mod listed;
mod mark;
mod piece;
mod place;
mod refusal;
mod relief;
mod slope;
mod station;
mod volume;

pub use chain::{Chain, Chains};
pub use corner::Corner;
pub use cut::{Cut, Cuts};
pub use edit::Edit;
pub use entry::Entry;
pub use facet::Facet;
pub use laws::planar_law;
pub use limits::Limits;
pub use line::{LineId, LineKind, Places};
pub use listed::Listed;
pub use mark::Mark;
pub use piece::Piece;
pub use place::{Level, Place};
pub use refusal::Refusal;
pub use relief::Relief;
pub use slope::Slope;
pub use station::{Station, Stations};
pub use volume::Volume;
