//! All triples of points, in order.

ghost use Rattle.std.specs.Prelude.{◌≡◌, ◌++◌, IfOk, OnOk, ◌&&◌, ◌||◌, [], find};
ghost use Rattle.std.specs.List.{cons_option};
ghost use Rattle.ground_model.specs.Place.{is_same};
ghost use Rattle.ground_model.specs.Tri.{joins, count_at, facets as facets_of};
ghost use Rattle.ground_model.specs.Loops.{facet_at as facet_at_of, facets_on, facets_from, facets_by_loops as by_loops};

use crate::facet_rule::{are_same, is_facet};
use ground_model::{Facet, Listed, Piece, Place};
use std::alloc::{AllocError, Global};

/// Facets in order.
pub type FacetList = Listed<Facet>;

/// The constrained Delaunay triangulation of the points with the pieces, in facet order. It tests
/// each triple of points against all points and pieces, so its cost grows with the fourth power of
/// their number.
pub fn facets(alloc: Global, points: &[Place], pieces: &[Piece]) -> Result<FacetList, AllocError>
    ensures { IfOk result (λ found. found ≡ facets_of points.now pieces.now) }
{
    Ok(Listed::from_vec(facets_by_loops(alloc, points, pieces)?))
}

// The facets by three loops over the points.
#[tactic(auto, unfolding(ground_model::specs::Loops::facets_by_loops))]
fn facets_by_loops(
    alloc: Global,
    points: &[Place],
    pieces: &[Piece],
) -> Result<Vec<Facet>, AllocError>
    ensures { IfOk result (λ found. found.items ≡ by_loops points.now pieces.now) }
{
    let mut found = Vec::new(alloc);
    for a in points {
        add_facets_from(&mut found, points, pieces, *a)?;
    }
    Ok(found)
}

// Adds the facets whose least corner is a.
fn add_facets_from(
    found: &mut Vec<Facet>,
    points: &[Place],
    pieces: &[Piece],
    a: Place,
) -> Result<(), AllocError>
    ensures ok { OnOk result (found.new.items ≡ found.old.items ++ facets_from points.now pieces.now a) }
{
    for b in points {
        add_facets_on(found, points, pieces, a, *b)?;
    }
    Ok(())
}

// Adds the facets that begin with the edge ab.
fn add_facets_on(
    found: &mut Vec<Facet>,
    points: &[Place],
    pieces: &[Piece],
    a: Place,
    b: Place,
) -> Result<(), AllocError>
    ensures ok { OnOk result (found.new.items ≡ found.old.items ++ facets_on points.now pieces.now a b) }
{
    for c in points {
        add_found(found, facet_at(points, pieces, a, b, *c))?;
    }
    Ok(())
}

// Adds a facet that was found.
fn add_found(found: &mut Vec<Facet>, facet: Option<Facet>) -> Result<(), AllocError>
    ensures ok { OnOk result (found.new.items ≡ found.old.items ++ cons_option facet []) }
{
    if let Some(facet) = facet {
        found.push(facet)?;
    }
    Ok(())
}

// The facet with these corners, if there is one.
fn facet_at(points: &[Place], pieces: &[Piece], a: Place, b: Place, c: Place) -> Option<Facet>
    ensures { result ≡ facet_at_of points.now pieces.now a b c }
{
    if is_facet(points, pieces, a, b, c) {
        Some(Facet {
            a,
            b,
            c,
            ab: count_between(pieces, a, b),
            bc: count_between(pieces, b, c),
            ca: count_between(pieces, c, a),
        })
    } else {
        None
    }
}

// How many lines have the edge.
fn count_between(pieces: &[Piece], p: Place, q: Place) -> u16
    ensures { result ≡ count_at pieces.now p q }
{
    match piece_between(pieces, p, q) {
        None => 0,
        Some(piece) => piece.count,
    }
}

// The first piece that joins p and q.
fn piece_between(pieces: &[Piece], p: Place, q: Place) -> Option<Piece>
    ensures { result ≡ find (joins p q) pieces.now }
{
    pieces.iter().copied().find(|piece| is_between(piece, p, q))
}

// Whether the piece joins p and q, in either direction.
fn is_between(piece: &Piece, p: Place, q: Place) -> bool
    ensures { result ≡ joins p q piece.now }
{
    are_same(piece.p, p) && are_same(piece.q, q) || are_same(piece.p, q) && are_same(piece.q, p)
}
