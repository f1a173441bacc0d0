//! Documents, read from a source piece by piece into the drafts of their surfaces.
//! It never asks what is done with the drafts.
#![tactic(auto)]

mod drafted;
mod fault;
mod feeding;

pub use drafted::{Drafted, read_drafts};
pub use fault::SourceFault;
