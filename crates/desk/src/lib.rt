//! A desk: several sessions edit one store, each by a pass, in turns. It never asks what an edit is,
//! nor how an answer is written.
#![tactic(auto)]

mod close;
mod desk;
mod pass;
mod turn;

pub use desk::Desk;
pub use pass::Pass;
