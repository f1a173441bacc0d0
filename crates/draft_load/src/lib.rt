//! From a draft of a document to a store.
//! It never asks where the draft comes from, nor what is done with the store.
#![tactic(auto)]

mod fault;
mod law;
mod loading;

pub use fault::LoadFault;
pub use law::load_law;
pub use loading::load;
