//! Tests of the persistent ordered index and of the table of points, over the crates as they are built.
#![tactic(auto)]

#[cfg(test)]
mod fixtures;
#[cfg(test)]
mod orders;
#[cfg(test)]
mod points;
#[cfg(test)]
mod random_calls;
