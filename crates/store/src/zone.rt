//! The zone of an edit: the marks that its plan rests on.

ghost use Rattle.std.specs.Prelude.{◌≡◌, ◌<◌, ◌^◌, ◌||◌, ◌∷◌, [], not, length, map, IfOk};
ghost use Rattle.std.specs.List.{filter, list_any};
ghost use Rattle.ground_model.specs.declared.edit.Edit.{Edit as Seen};
ghost use Rattle.ground_model.specs.Mark.{is_same_facet, share_edge as share_edge_of, edges as edges_of, is_same_edge};
ghost use Rattle.ground_model.specs.Tri.{tri, is_facet_of};
ghost use Rattle.ground_model.specs.Content.{after};
ghost use Rattle.ground_model.specs.declared.mark.Mark.TheVariants.{Point, Tri};
ghost use Rattle.ground_model.specs.Zone.{zone as zone_of_edit, shaken as shaken_of};

use crate::surface::Surface;
use ground_model::{Edit, Facet, Mark, Place};
use std::alloc::{AllocError, Global};

// The edges of a facet, each with its ends.
fn edges(facet: &Facet) -> [(Place, Place); 3]
    ensures { result ≡ edges_of facet.now }
{
    [(facet.a, facet.b), (facet.b, facet.c), (facet.c, facet.a)]
}

// Whether the two edges have the same ends.
fn is_same(edge: &(Place, Place), other: &(Place, Place)) -> bool
    ensures { result ≡ is_same_edge edge.now other.now }
{
    edge.0 == other.0 && edge.1 == other.1 || edge.0 == other.1 && edge.1 == other.0
}

// Whether the facet has the edge.
fn has_edge(facet: &Facet, edge: &(Place, Place)) -> bool
    ensures { result ≡ list_any (is_same_edge edge.now) (edges_of facet.now) }
{
    edges(facet).iter().any(|other| is_same(edge, other))
}

// Whether the two facets have an edge in common.
#[tactic(auto, unfolding(ground_model::specs::Mark::share_edge))]
fn share_edge(facet: &Facet, other: &Facet) -> bool
    ensures { result ≡ share_edge_of facet.now other.now }
{
    edges(facet).iter().any(|edge| has_edge(other, edge))
}

// Whether the two are one facet, or have an edge in common.
fn touches(facet: &Facet, other: &Facet) -> bool
    ensures { result ≡ (is_same_facet facet.now other.now || share_edge_of facet.now other.now) }
{
    facet == other || share_edge(facet, other)
}

// The facets of one surface that the other has not.
fn destroyed(alloc: Global, before: &Surface, now: &Surface) -> Result<Vec<Facet>, AllocError>
    ensures { IfOk result (λ facets. facets.items ≡ filter (λ f. not (is_facet_of now.now f)) (tri before.now)) }
{
    before
        .facets()
        .iter()
        .filter(|facet| !now.has_facet(facet))
        .copied()
        .collect(alloc)
}

// Whether the facet is one of these, or shares an edge with one.
fn touches_any(facet: &Facet, facets: &[Facet]) -> bool
    ensures { result ≡ list_any (λ g. is_same_facet facet.now g || share_edge_of facet.now g) facets.now }
{
    facets.iter().any(|other| touches(facet, other))
}

// The facets that are among these, or share an edge with one of them.
fn shaken(alloc: Global, facets: &[Facet], destroyed: &[Facet]) -> Result<Vec<Facet>, AllocError>
    ensures { IfOk result (λ list. list.items ≡ filter (λ f. list_any (λ g. is_same_facet f g || share_edge_of f g) destroyed.now) facets.now) }
{
    facets
        .iter()
        .filter(|facet| touches_any(facet, destroyed))
        .copied()
        .collect(alloc)
}

// The facets that an edit destroys, which made one surface of the other, and those that share an edge
// with one of them, as marks.
fn shaken_marks(alloc: Global, before: &Surface, now: &Surface) -> Result<Vec<Mark>, AllocError>
    ensures value { IfOk result (λ marks. (edit : Seen) → now.now ≡ after before.now edit → marks.items ≡ map Tri (shaken_of before.now edit)) }
    ensures few { IfOk result (λ marks. length marks.items < 2 ^ 30) }
{
    let gone = destroyed(alloc, before, now)?;
    let found = shaken(alloc, before.facets(), gone.as_slice())?;
    facet_marks(alloc, found.as_slice())
}

// Facets as marks.
fn facet_marks(alloc: Global, facets: &[Facet]) -> Result<Vec<Mark>, AllocError>
    ensures { IfOk result (λ marks. marks.items ≡ map Tri facets.now) }
{
    facets.iter().copied().map(Mark::Tri).collect(alloc)
}

// The mark of a point alone.
fn point_mark(alloc: Global, place: Place) -> Result<Vec<Mark>, AllocError>
    ensures { IfOk result (λ marks. marks.items ≡ Point place ∷ []) }
{
    let mut marks = Vec::new(alloc);
    marks.push(Mark::Point(place))?;
    Ok(marks)
}

// The mark of a point before other marks.
fn with_point(mut marks: Vec<Mark>, place: Place) -> Result<Vec<Mark>, AllocError>
    ensures { IfOk result (λ list. list.items ≡ Point place ∷ marks.items) }
{
    marks.insert(0, Mark::Point(place))?;
    Ok(marks)
}

/// The marks of an edit's zone, in order, where the edit made one surface of the other. Its cost is
/// that of a search among the facets for each facet, and of comparing each with those destroyed.
pub(crate) fn zone_of(
    alloc: Global,
    edit: &Edit,
    before: &Surface,
    now: &Surface,
) -> Result<Vec<Mark>, AllocError>
    requires { now.now ≡ after before.now edit.now }
    ensures value { IfOk result (λ marks. marks.items ≡ zone_of_edit before.now edit.now) }
    ensures few { IfOk result (λ marks. length marks.items < 2 ^ 31) }
{
    match edit {
        Edit::SetLevel(place, _) => point_mark(alloc, *place),
        Edit::RemovePoint(place) => with_point(shaken_marks(alloc, before, now)?, *place),
        Edit::AddPoint(_, _) => shaken_marks(alloc, before, now),
        Edit::AddLine(_, _) => shaken_marks(alloc, before, now),
        Edit::RemoveLine(_) => shaken_marks(alloc, before, now),
    }
}
