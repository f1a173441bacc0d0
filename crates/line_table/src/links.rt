//! The links of a line, one after the other.

ghost use Rattle.std.specs.Prelude.{◌≡◌, ◌++◌, drop, option_to_list};
ghost use Rattle.std.specs.List.{zip};
ghost use Rattle.std.specs.Iterator.{YieldsFirst, item_count};

use ground_model::Place;
use std::marker::Model;

/// The links of a line that are left, in order. What a step costs does not grow with the length.
#[derive(Drop)]
pub struct Links<'a> {
    // From the place where the next link starts.
    rest: &'a [Place],
    // Where a ring's last link ends.
    close: Option<Place>,
}

impl<'a> Model for Links<'a> {
    ghost use Rattle.std.specs.Prelude.{List, ◌++◌, drop, option_to_list};
    ghost use Rattle.std.specs.List.{zip};
    ghost use Rattle.ground_model.specs.Place.{Coords};

    ghost Value = { List (Coords × Coords) };

    ghost view = { λ s. zip s.rest.now (drop 1 s.rest.now ++ option_to_list s.close) };
}

impl<'a> Links<'a> {
    /// The links from place to place, and one from the last place to `close`, if there is one.
    pub(crate) fn new(places: &'a [Place], close: Option<Place>) -> Links<'a>
        ensures { result ≡ zip places.entry.now (drop 1 places.entry.now ++ option_to_list close) }
    {
        Links {
            rest: places,
            close,
        }
    }

    /// The links that are left, to be walked beside this walk.
    pub(crate) fn again(&self) -> Links<'a>
        ensures { result ≡ self.now }
    {
        Links {
            rest: self.rest,
            close: self.close,
        }
    }
}

impl<'a> Iterator for Links<'a> {
    type Item = (Place, Place);

    ghost next_gives = { YieldsFirst (λ links. links) };

    ghost remaining = { item_count (λ links. links) };

    fn next(&mut self) -> Option<(Place, Place)> {
        let (from, others) = self.rest.split_first()?;
        self.rest = others;
        match others.first() {
            Some(to) => Some((*from, *to)),
            None => Some((*from, self.close?)),
        }
    }
}
