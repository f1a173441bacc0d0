//! Tests of `ground_num` and `ground_io`, over the crates as they are built: in a crate of their own they do not
//! prove them again.
#![tactic(auto)]

#[cfg(test)]
mod ground_io_tests;
#[cfg(test)]
mod ground_num_tests;
