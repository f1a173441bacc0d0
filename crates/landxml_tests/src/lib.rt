//! Tests of reading documents and of drafting their surfaces, over the crates as they are built. In a crate of their own they
//! prove none of them again.
#![tactic(auto)]

#[cfg(test)]
mod draft_tests;
#[cfg(test)]
mod drafting;
#[cfg(test)]
mod fault_tests;
#[cfg(test)]
mod list_tests;
#[cfg(test)]
mod outline_tests;
#[cfg(test)]
mod reading;
#[cfg(test)]
mod shown;
