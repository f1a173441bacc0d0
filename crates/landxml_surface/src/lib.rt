//! From the lists of a document to what its surfaces are loaded from.
//! It never asks whether a surface is lawful.
#![tactic(auto)]

mod check;
mod document;
mod draft;
mod fault;
mod heights;
mod ids;
mod line;
mod origin;
mod points;
mod spot;

pub use document::surfaces;
pub use draft::{Draft, Drafts, FaceList, LineList, PointList};
pub use origin::OriginRule;
