//! A line and its links.

ghost use Rattle.std.specs.Prelude.{◌≡◌};
ghost use Rattle.ground_model.specs.Line.{links as links_of, has_place as has_place_of};

use crate::links::Links;
use ground_model::{LineKind, Place, Places};
use std::marker::Model;

/// A breakline or a ring: contracts see its kind and its places.
#[derive(Drop)]
pub struct Line {
    kind: LineKind,
    places: Places,
}

impl Model for Line {
    ghost use Rattle.ground_model.specs.Line.{Line as Seen};

    ghost Value = { Seen };

    ghost view = { λ l. record { kind = l.kind; places = l.places } };
}

impl Line {
    /// The line of these places. It takes no memory.
    pub fn new(kind: LineKind, places: Places) -> Line
        ensures { result ≡ record { kind = kind; places = places } }
    {
        Line { kind, places }
    }

    /// Breakline, outer, void or island.
    pub fn kind(&self) -> LineKind
        ensures { result ≡ self.now.kind }
    {
        self.kind
    }

    /// The places in order; a ring does not repeat its first one.
    pub fn places(&self) -> &Places
        ensures { result.now ≡ self.now.places }
    {
        &self.places
    }

    /// The kind and the places, which are those that the line was made of. It takes no memory.
    pub fn into_parts(self) -> (LineKind, Places)
        ensures { result ≡ (self.kind, self.places) }
    {
        let Line { kind, places } = self;
        (kind, places)
    }

    /// The links in order, each from a place to the next; a ring's last one goes back to its first
    /// place. It takes no memory.
    pub fn links(&self) -> Links<'_>
        ensures { result ≡ links_of self.now }
    {
        let places = self.places.as_slice();
        if self.kind.is_ring() {
            Links::new(places, places.first().copied())
        } else {
            Links::new(places, None)
        }
    }

    /// Whether the line has the place.
    pub fn has_place(&self, place: Place) -> bool
        ensures { result ≡ has_place_of place self.now }
    {
        self.places.as_slice().iter().any(|at| place == *at)
    }
}
