//! Marks.

use crate::facet::Facet;
use crate::place::Place;

/// What a plan rests on: a point whose level it sets or that it removes, or a facet.
#[derive(Clone, Copy, Debug, PartialEq, Eq)]
pub enum Mark {
    Point(Place),
    Tri(Facet),
}
