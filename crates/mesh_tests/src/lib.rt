//! Tests of the crates of the mesh, over the crates as they are built.
//! In a crate of their own they prove none of them again.
#![tactic(auto)]

#[cfg(test)]
mod grown;
#[cfg(test)]
mod looks;
#[cfg(test)]
mod nets;
#[cfg(test)]
mod pairs;
#[cfg(test)]
mod random_steps;
#[cfg(test)]
mod removed;
#[cfg(test)]
mod spots;
#[cfg(test)]
mod undone;
