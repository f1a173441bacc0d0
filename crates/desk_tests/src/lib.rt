//! Tests of `desk`, over the crate as it is built: in a crate of their own they do not prove it
//! again.
#![tactic(auto)]

#[cfg(test)]
mod crews;
#[cfg(test)]
mod rows;
#[cfg(test)]
mod site;
