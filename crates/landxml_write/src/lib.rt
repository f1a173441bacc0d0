//! The writer of LandXML documents: a surface as text, and the length of that text.
//! It never asks where the surface comes from.
#![tactic(auto)]

mod bytes;
mod counter;
mod definition;
mod document;
mod export;
mod find;
mod head;
mod line;
mod output;
mod source;
mod vertex;
mod writer;

pub use document::{surface_len, write_surface};
pub use export::Export;
