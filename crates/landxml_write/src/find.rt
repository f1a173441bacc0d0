//! Where a place stands among the points.

ghost use Rattle.std.specs.Prelude.{◌≡◌, ◌+◌, ◌<◌, ◌^◌, length, slice_get, Some, true};
ghost use Rattle.ground_model.specs.Place.{is_before};
ghost use Rattle.landxml_write.specs.Exports.{is_vertex};
ghost use Rattle.landxml_write.specs.Text.{id_of, level_at};

use crate::export::Export;
use ground_model::{Level, Place};

// Whether p comes before q.
fn comes_before(p: Place, q: Place) -> bool
    ensures { result ≡ is_before p q }
{
    p < q
}

// The point at an index below the count.
fn vertex_at<E: Export>(export: &E, index: u32) -> (Place, Level)
    requires { index < length (E.shown export.now).points }
    ensures { slice_get (E.shown export.now).points index ≡ Some result }
{
    match export.point(index) {
        Some(vertex) => vertex,
        None => unreachable!(),
    }
}

// The index of the point at the place, by halving.
fn index_of<E: Export>(export: &E, place: Place) -> u32
    requires { is_vertex (E.shown export.now).points place ≡ true }
    ensures below { result < length (E.shown export.now).points }
    ensures fits { result + 1 < 2 ^ 32 }
    ensures id { result + 1 ≡ id_of (E.shown export.now).points place }
    ensures at { slice_get (E.shown export.now).points result ≡ Some (place, level_at (E.shown export.now).points place) }
{
    let mut low = 0;
    let mut high = export.points();
    while high - low > 1 {
        let middle = low + (high - low) / 2;
        if comes_before(place, vertex_at(export, middle).0) {
            high = middle;
        } else {
            low = middle;
        }
    }
    low
}

/// The id of the point at the place, found by halving.
pub(crate) fn id_at<E: Export>(export: &E, place: Place) -> u32
    requires { is_vertex (E.shown export.now).points place ≡ true }
    ensures { result ≡ id_of (E.shown export.now).points place }
{
    index_of(export, place) + 1
}

/// The level of the point at the place, found by halving.
pub(crate) fn level_of<E: Export>(export: &E, place: Place) -> Level
    requires { is_vertex (E.shown export.now).points place ≡ true }
    ensures { result ≡ level_at (E.shown export.now).points place }
{
    vertex_at(export, index_of(export, place)).1
}
