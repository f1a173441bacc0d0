//! Lines: breaklines and rings.

ghost use Rattle.std.specs.Prelude.{◌≡◌, IfOk};
ghost use Rattle.ground_model.specs.Kind.{is_ring as is_ring_of, is_outer as is_outer_of, is_void_or_island as is_void_or_island_of, is_island as is_island_of, least_places as least_places_of};

use crate::listed::Listed;
use crate::place::Place;
use std::alloc::{AllocError, Global};

/// A breakline, or one of the three kinds of ring, whose last place is joined to its first.
#[derive(Clone, Copy, Debug, PartialEq, Eq)]
pub enum LineKind {
    Breakline,
    Outer,
    Void,
    Island,
}

impl LineKind {
    /// Whether the last place is joined to the first.
    pub fn is_ring(self) -> bool
        ensures { result ≡ is_ring_of self }
    {
        match self {
            LineKind::Breakline => false,
            LineKind::Outer | LineKind::Void | LineKind::Island => true,
        }
    }

    /// Whether it is an outer ring: facets outside all of these are no part of the surface.
    pub fn is_outer(self) -> bool
        ensures { result ≡ is_outer_of self }
    {
        matches!(self, LineKind::Outer)
    }

    /// Whether it is a void, which cuts out the facets inside it, or an island.
    pub fn is_void_or_island(self) -> bool
        ensures { result ≡ is_void_or_island_of self }
    {
        matches!(self, LineKind::Void | LineKind::Island)
    }

    /// Whether it is an island: it keeps the facets inside it, in a void of a lesser number too.
    pub fn is_island(self) -> bool
        ensures { result ≡ is_island_of self }
    {
        matches!(self, LineKind::Island)
    }

    /// How many places a line of this kind has at the least.
    pub fn least_places(self) -> usize
        ensures { result ≡ least_places_of self }
    {
        if self.is_ring() { 3 } else { 2 }
    }
}

/// A line's number. Numbers are given from 1 in the order of the additions, and never again.
#[derive(Clone, Copy, Debug, PartialEq, Eq, PartialOrd, Ord)]
pub struct LineId(pub u32);

/// The places of a line, in order. A ring does not repeat its first place.
pub type Places = Listed<Place>;

impl Listed<Place> {
    /// A copy of the places.
    pub fn from_slice(alloc: Global, places: &[Place]) -> Result<Places, AllocError>
        ensures { IfOk result (λ list. list ≡ places.now) }
    {
        Ok(Listed::from_vec(places.to_vec(alloc)?))
    }
}
