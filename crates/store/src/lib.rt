//! One surface under edits: versions that share what they have, plans made on them without a lock,
//! and the store that commits them. It never asks who edits, nor how a plan or an answer is written.
#![tactic(auto)]

mod answers;
mod authors;
mod births;
mod event;
mod facets;
mod member;
mod outcome;
mod plan;
mod refusals;
mod run;
mod shown;
mod slopes;
mod state;
mod store;
mod surface;
mod version;
mod zone;

pub use answers::{Applied, Commit, Settled};
pub use event::{CoreReply, Event, Query};
pub use plan::{Plan, PlanFault};
pub use run::run_core;
pub use state::copied;
pub use store::Store;
pub use version::Version;
