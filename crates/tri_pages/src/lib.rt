//! The slots of triangles on pages that versions share, with a chain of the free ones among them.
//! It never asks what the triangles are, nor whether their neighbours fit.
#![tactic(auto)]

mod entry;
mod pages;
mod tri_slot;

pub use pages::TriPages;
pub use tri_slot::TriSlot;
