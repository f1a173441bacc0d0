//! Trials: large lawful inputs made from a number, run on a store of their own, and reported.
//! They never ask where a report goes.
#![tactic(auto)]

mod course;
mod draws;
mod edits;
mod report;
mod run;
mod text;

pub use report::Report;
pub use run::trial;
