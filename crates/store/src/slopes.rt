//! The relief of points and lines.

ghost use Rattle.std.specs.Prelude.{◌≡◌, ◌<◌, ◌^◌, pos, [], length, map, filter, IfOk, unwrap_or};
ghost use Rattle.std.specs.BTreeMap.{get, keys};
ghost use Rattle.std.specs.List.Sorted.{IsStrictlySortedBy};
ghost use Rattle.ground_model.specs.Place.{place_cmp};
ghost use Rattle.ground_model.specs.Slope.{relief, slope_of};
ghost use Rattle.ground_model.specs.Tri.{tri};
ghost use Rattle.ground_model.specs.Table.{live};
ghost use Rattle.ground_model.specs.Kept.{is_kept};
ghost use Rattle.store.specs.Surfaces.{content_by};

use ground_model::{Facet, Level, Listed, Place, Slope};
use line_table::Lines;
use measures::SlopeList;
use rings::kept;
use std::alloc::{AllocError, Global};
use std::collections::BTreeMap;

/// The relief of no points. It takes no memory.
pub(crate) fn no_slopes(alloc: Global) -> SlopeList
    ensures { result ≡ [] }
{
    let slopes = Vec::new(alloc);
    SlopeList::new(Listed::from_vec(slopes))
}

// The level, or 0 where there is none.
fn level_or_zero(level: Option<Level>) -> Level
    ensures { result ≡ unwrap_or level (pos 0) }
{
    match level {
        Some(level) => level,
        None => match Level::new(0) {
            Some(zero) => zero,
            None => unreachable!(),
        },
    }
}

// The level of the point at this place, or 0 where there is none.
fn level_at(points: &BTreeMap<Place, Level>, at: Place) -> Level
    ensures { result ≡ unwrap_or (get place_cmp points.now at) (pos 0) }
{
    level_or_zero(points.get(&at).copied())
}

// The facet with the levels of its corners.
fn slope_of(points: &BTreeMap<Place, Level>, facet: Facet) -> Slope
    ensures { result ≡ slope_of (get place_cmp points.now) facet }
{
    Slope {
        facet,
        za: level_at(points, facet.a),
        zb: level_at(points, facet.b),
        zc: level_at(points, facet.c),
    }
}

// Those of the facets that are part of the surface, with the levels of their corners.
fn kept_slopes(
    alloc: Global,
    points: &BTreeMap<Place, Level>,
    lines: &Lines,
    facets: &[Facet],
) -> Result<Vec<Slope>, AllocError>
    ensures { IfOk result (λ slopes. slopes.items ≡ map (slope_of (get place_cmp points.now)) (filter (is_kept (live lines.now)) facets.now)) }
{
    facets
        .iter()
        .filter(|facet| kept(lines, facet))
        .map(|facet| slope_of(points, *facet))
        .collect(alloc)
}

/// The relief of these points and lines, whose facets these are. Its cost is that of the links of all
/// rings for each facet, and of finding three points.
pub(crate) fn relief_on(
    alloc: Global,
    points: &BTreeMap<Place, Level>,
    lines: &Lines,
    facets: &[Facet],
) -> Result<SlopeList, AllocError>
    requires ordered { IsStrictlySortedBy place_cmp (keys points.now) }
    requires facets { facets.now ≡ tri (content_by points.now.entries lines.now) }
    requires few { length facets.now < 2 ^ 30 }
    ensures { IfOk result (λ slopes. slopes ≡ relief (content_by points.now.entries lines.now)) }
{
    let slopes = kept_slopes(alloc, points, lines, facets)?;
    Ok(SlopeList::new(Listed::from_vec(slopes)))
}

// The facets of these slopes with the levels of these points.
fn slopes_on(
    alloc: Global,
    points: &BTreeMap<Place, Level>,
    slopes: &[Slope],
) -> Result<Vec<Slope>, AllocError>
    ensures { IfOk result (λ list. list.items ≡ map (λ s. slope_of (get place_cmp points.now) s.facet) slopes.now) }
{
    slopes
        .iter()
        .map(|slope| slope_of(points, slope.facet))
        .collect(alloc)
}

/// The facets of these slopes with the levels of these points. Its cost is that of finding three
/// points for each facet.
pub(crate) fn releveled(
    alloc: Global,
    points: &BTreeMap<Place, Level>,
    slopes: &SlopeList,
) -> Result<SlopeList, AllocError>
    ensures { IfOk result (λ list. list ≡ map (λ s. slope_of (get place_cmp points.now) s.facet) slopes.now) }
{
    let slopes = slopes_on(alloc, points, slopes.as_slice())?;
    Ok(SlopeList::new(Listed::from_vec(slopes)))
}
