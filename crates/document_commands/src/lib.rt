//! The commands on documents: a report on a document, and one of its surfaces written anew.
//! It never asks what the words of a command line are.
#![tactic(auto)]

mod agreeing;
mod checking;
mod ending;
mod fault_line;
mod opening;
mod reaching;
mod refusal;
mod report;
mod rewriting;
mod surface_line;

pub use checking::check;
pub use ending::Ending;
pub use opening::open_surface;
pub use rewriting::rewrite;
