//! The triangulation by its definition: every triple of points is tested by itself.
//! It is the yardstick of the fast mesh, and never asks for speed.
#![tactic(auto)]

mod facet_rule;
mod triples;

pub use triples::{FacetList, facets};
