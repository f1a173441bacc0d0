//! Tests of the crates between the ground model and the rings, over the crates as they are built.
//! In a crate of their own they prove none of them again.
#![tactic(auto)]

#[cfg(test)]
mod crossings;
#[cfg(test)]
mod cuts;
#[cfg(test)]
mod far_corners;
#[cfg(test)]
mod fixtures;
#[cfg(test)]
mod kept_facets;
#[cfg(test)]
mod levels;
#[cfg(test)]
mod line_fixtures;
#[cfg(test)]
mod lines;
#[cfg(test)]
mod model;
#[cfg(test)]
mod places;
#[cfg(test)]
mod reliefs;
#[cfg(test)]
mod sheets;
#[cfg(test)]
mod slots;
#[cfg(test)]
mod stale_plans;
#[cfg(test)]
mod surfaces;
#[cfg(test)]
mod triangles;
#[cfg(test)]
mod volumes;
