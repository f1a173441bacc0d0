//! Tests of several sessions on one store, over the crates as they are built. In a crate of their
//! own they prove none of them again.
#![tactic(auto)]

#[cfg(test)]
mod conflicts;
#[cfg(test)]
mod crews;
#[cfg(test)]
mod plans;
#[cfg(test)]
mod readers;
#[cfg(test)]
mod runs;
#[cfg(test)]
mod script;
#[cfg(test)]
mod site;
#[cfg(test)]
mod versions;
