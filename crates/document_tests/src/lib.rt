//! Tests of documents that are read, checked and written anew, over the crates as they are built: in a
//! crate of their own they do not prove these again.
#![tactic(auto)]

#[cfg(test)]
mod check_tests;
#[cfg(test)]
mod documents;
#[cfg(test)]
mod rewrite_tests;
#[cfg(test)]
mod runs;
#[cfg(test)]
mod size_tests;
