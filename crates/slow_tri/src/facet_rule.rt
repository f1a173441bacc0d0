//! The facet rule: which three points are the corners of a facet.

ghost use Rattle.std.specs.Prelude.{◌≡◌, IsTrue, ◌&&◌, ◌||◌};
ghost use Rattle.ground_model.specs.Place.{is_same, is_before};
ghost use Rattle.ground_model.specs.Side.{is_left, is_right};
ghost use Rattle.ground_model.specs.Tri.{is_empty, is_crossed_by_none, is_walled_from, is_walled_if_beyond, is_walled_off, is_facet as is_facet_of};

use ground_model::{Piece, Place};
use predicates::{crosses, is_inside, orientation, triangle_holds, walled};

/// Whether the three points are the corners of a constrained Delaunay triangle, the least first.
#[tactic(auto, unfolding(ground_model::specs::Tri::is_facet))]
pub(crate) fn is_facet(points: &[Place], pieces: &[Piece], a: Place, b: Place, c: Place) -> bool
    ensures { result ≡ is_facet_of points.now pieces.now a b c }
{
    starts_at_least(a, b, c)
        && is_clear_of_points(points, a, b, c)
        && are_edges_crossed_by_none(pieces, a, b, c)
        && is_circle_walled_off(points, pieces, a, b, c)
}

// Whether a is the least of the three, and they are counterclockwise.
fn starts_at_least(a: Place, b: Place, c: Place) -> bool
    ensures { result ≡ (is_before a b && is_before a c && is_left a b c) }
{
    precedes(a, b) && precedes(a, c) && turns_left(a, b, c)
}

// Whether the closed triangle has no point but its corners.
#[tactic(auto, unfolding(ground_model::specs::Tri::is_empty))]
fn is_clear_of_points(points: &[Place], a: Place, b: Place, c: Place) -> bool
    ensures { result ≡ is_empty points.now a b c }
{
    points.iter().all(|p| !triangle_holds(a, b, c, *p)
        || are_same(*p, a)
        || are_same(*p, b)
        || are_same(*p, c))
}

// Whether no piece crosses an edge of the triangle.
fn are_edges_crossed_by_none(pieces: &[Piece], a: Place, b: Place, c: Place) -> bool
    ensures { result ≡ (is_crossed_by_none pieces.now a b && is_crossed_by_none pieces.now b c && is_crossed_by_none pieces.now c a) }
{
    is_edge_crossed_by_none(pieces, a, b)
        && is_edge_crossed_by_none(pieces, b, c)
        && is_edge_crossed_by_none(pieces, c, a)
}

// Whether no piece crosses the edge ab.
#[tactic(auto, unfolding(ground_model::specs::Tri::is_crossed_by_none))]
fn is_edge_crossed_by_none(pieces: &[Piece], a: Place, b: Place) -> bool
    ensures { result ≡ is_crossed_by_none pieces.now a b }
{
    pieces.iter().all(|piece| !crosses(a, b, piece.p, piece.q))
}

// Whether each point inside the circle is walled from the edge beyond which it lies.
#[tactic(auto, unfolding(ground_model::specs::Tri::is_walled_off))]
fn is_circle_walled_off(points: &[Place], pieces: &[Piece], a: Place, b: Place, c: Place) -> bool
    requires { IsTrue (is_left a b c) }
    ensures { result ≡ is_walled_off points.now pieces.now a b c }
{
    points.iter().all(|p| !is_inside(a, b, c, *p) || has_walls(pieces, a, b, c, *p))
}

// Whether p is walled from each edge beyond which it lies.
fn has_walls(pieces: &[Piece], a: Place, b: Place, c: Place, p: Place) -> bool
    ensures { result ≡ (is_walled_if_beyond pieces.now a b p && is_walled_if_beyond pieces.now b c p && is_walled_if_beyond pieces.now c a p) }
{
    has_wall_if_beyond(pieces, a, b, p)
        && has_wall_if_beyond(pieces, b, c, p)
        && has_wall_if_beyond(pieces, c, a, p)
}

// Whether p is walled from ab if it lies beyond it.
fn has_wall_if_beyond(pieces: &[Piece], a: Place, b: Place, p: Place) -> bool
    ensures { result ≡ is_walled_if_beyond pieces.now a b p }
{
    !lies_right(a, b, p) || has_wall(pieces, a, b, p)
}

// Whether one piece walls p from the edge ab.
#[tactic(auto, unfolding(ground_model::specs::Tri::is_walled_from))]
fn has_wall(pieces: &[Piece], a: Place, b: Place, p: Place) -> bool
    ensures { result ≡ is_walled_from pieces.now a b p }
{
    pieces.iter().any(|piece| walled(a, b, p, piece.p, piece.q))
}

// Whether a, b, c turn counterclockwise.
#[tactic(auto, using(predicates::proofs::Orders::order_sign))]
fn turns_left(a: Place, b: Place, c: Place) -> bool
    ensures { result ≡ is_left a b c }
{
    orientation(a, b, c).is_positive()
}

// Whether p lies to the right of ab.
#[tactic(auto, using(predicates::proofs::Orders::order_sign))]
fn lies_right(a: Place, b: Place, p: Place) -> bool
    ensures { result ≡ is_right a b p }
{
    orientation(a, b, p).is_negative()
}

// Whether p comes before q, by easting, then northing.
fn precedes(p: Place, q: Place) -> bool
    ensures { result ≡ is_before p q }
{
    p < q
}

/// Whether p and q are one place.
pub(crate) fn are_same(p: Place, q: Place) -> bool
    ensures { result ≡ is_same p q }
{
    p == q
}
