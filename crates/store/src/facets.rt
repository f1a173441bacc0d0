//! The facets of points and lines.

ghost use Rattle.std.specs.Prelude.{◌≡◌, ◌<◌, ◌^◌, length, IfOk};
ghost use Rattle.std.specs.BTreeMap.{keys};
ghost use Rattle.std.specs.List.{position};
ghost use Rattle.std.specs.List.Sorted.{IsStrictlySortedBy};
ghost use Rattle.ground_model.specs.Place.{place_cmp};
ghost use Rattle.ground_model.specs.Mark.{is_same_facet};
ghost use Rattle.ground_model.specs.Tri.{tri};
ghost use Rattle.store.specs.Surfaces.{content_by};

use ground_model::{Facet, Level, Place};
use line_table::Lines;
use slow_tri::{FacetList, facets};
use std::alloc::{AllocError, Global};
use std::collections::BTreeMap;

// A surface has fewer facets than this.
const MOST_FACETS: usize = 1 << 30;

/// The places of the points, in order.
pub(crate) fn places_of(
    alloc: Global,
    points: &BTreeMap<Place, Level>,
) -> Result<Vec<Place>, AllocError>
    ensures value { IfOk result (λ places. places.items ≡ keys points.now) }
    ensures ordered { IsStrictlySortedBy place_cmp (keys points.now) }
{
    points.keys().copied().collect(alloc)
}

// 2^30 facets or more, which no surface within its limits has, are refused as out of memory.
fn few(facets: FacetList) -> Result<FacetList, AllocError>
    ensures value { IfOk result (λ list. list ≡ facets) }
    ensures few { IfOk result (λ list. length list < 2 ^ 30) }
{
    if facets.len() >= MOST_FACETS {
        return Err(AllocError);
    }
    Ok(facets)
}

/// The facets of these points and lines, in facet order. Its cost is that of the slow triangulation.
pub(crate) fn facets_of(
    alloc: Global,
    points: &BTreeMap<Place, Level>,
    lines: &Lines,
) -> Result<FacetList, AllocError>
    ensures value { IfOk result (λ found. found ≡ tri (content_by points.now.entries lines.now)) }
    ensures few { IfOk result (λ found. length found < 2 ^ 30) }
    ensures ordered { IsStrictlySortedBy place_cmp (keys points.now) }
{
    let places = places_of(alloc, points)?;
    let pieces = lines.pieces(places.as_slice())?;
    few(facets(alloc, places.as_slice(), pieces.as_slice())?)
}

// Whether the two have the same corners and the same counts.
fn is_same(facet: &Facet, other: &Facet) -> bool
    ensures { result ≡ is_same_facet facet.now other.now }
{
    facet == other
}

/// The index of a facet among these, None where it is none of them.
pub(crate) fn index_of(facets: &[Facet], facet: &Facet) -> Option<usize>
    ensures { result ≡ position (is_same_facet facet.now) facets.now }
{
    facets.iter().position(|other| is_same(facet, other))
}
