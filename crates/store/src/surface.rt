//! The surface of a content: its points, its lines and their relief.

ghost use Rattle.std.specs.Prelude.{◌≡◌, ◌<◌, ◌^◌, ◌-◌, length, slice_get, IfOk, IsSome, T};
ghost use Rattle.std.specs.FinMap as map;
ghost use Rattle.std.specs.BTreeMap.{keys};
ghost use Rattle.ground_model.specs.declared.edit.Edit.TheVariants.{AddPoint, RemovePoint, SetLevel, AddLine, RemoveLine};
ghost use Rattle.ground_model.specs.Place.{place_cmp};
ghost use Rattle.ground_model.specs.Content.{empty, after, level_of, points_of};
ghost use Rattle.std.specs.List.{position};
ghost use Rattle.ground_model.specs.Mark.{is_same_facet};
ghost use Rattle.ground_model.specs.Tri.{tri, is_facet_of};
ghost use Rattle.ground_model.specs.Slope.{relief};
ghost use Rattle.ground_model.specs.Table.{Table, with_line, without_line};
ghost use Rattle.store.specs.Surfaces.{content_by};

use crate::facets::{facets_of, index_of, places_of};
use crate::shown::vertex_at;
use crate::slopes::{no_slopes, releveled, relief_on};
use ground_model::{Facet, Level, LineId, Listed, Place};
use line_table::{Line, Lines};
use measures::SlopeList;
use page_vec::Shared;
use slow_tri::FacetList;
use std::alloc::{AllocError, Global};
use std::collections::BTreeMap;
use std::marker::Model;

/// The points and the live lines of a surface, with the facets and the relief that they have.
#[derive(Drop)]
pub(crate) struct Surface {
    points: BTreeMap<Place, Level>,
    lines: Lines,
    facets: Shared<FacetList>,
    slopes: SlopeList,
}

impl Model for Surface {
    ghost use Rattle.ground_model.specs.Content.{Content};
    ghost use Rattle.store.specs.Surfaces.{content_by, IsSurface};
    ghost use Rattle.ground_model.specs.Codes.{coded_content};

    ghost Value = { Content };

    ghost coded = { coded_content };

    ghost view = { λ s. content_by s.points.entries s.lines };

    ghost invariant = { λ s. IsSurface s.points.entries s.lines s.facets s.slopes };
}

impl Surface {
    /// The surface of no points.
    pub(crate) fn empty(alloc: Global) -> Result<Surface, AllocError>
        ensures { IfOk result (λ surface. surface ≡ empty) }
    {
        let facets = Shared::new(alloc, Listed::from_vec(Vec::new(alloc)))?;
        Ok(Surface {
            points: BTreeMap::new(alloc),
            lines: Lines::empty(alloc),
            facets,
            slopes: no_slopes(alloc),
        })
    }

    /// How many points there are.
    pub(crate) fn points(&self) -> usize
        ensures { result ≡ map.len self.now.points }
    {
        self.points.len()
    }

    /// The live lines.
    pub(crate) fn lines(&self) -> &Lines
        ensures { result.now ≡ self.now.table }
    {
        &self.lines
    }

    /// The level of a point.
    pub(crate) fn level_of(&self, place: Place) -> Option<Level>
        ensures { result ≡ level_of self.now place }
    {
        self.points.get(&place).copied()
    }

    /// The point at the index, in place order, with its level. It goes over those before it.
    pub(crate) fn vertex(&self, k: u32) -> Option<(Place, Level)>
        ensures { result ≡ slice_get (map.entries self.now.points) k }
    {
        vertex_at(&self.points, k)
    }

    /// The places of the points, in order.
    pub(crate) fn places(&self, alloc: Global) -> Result<Vec<Place>, AllocError>
        ensures { IfOk result (λ places. places.items ≡ points_of self.now) }
    {
        places_of(alloc, &self.points)
    }

    /// The facets, in facet order.
    pub(crate) fn facets(&self) -> &[Facet]
        ensures value { result.now ≡ tri self.now }
        ensures few { length result.now < 2 ^ 30 }
    {
        self.facets.get().as_slice()
    }

    /// The index of a facet among those of the surface, None where it is none of them.
    pub(crate) fn index_of(&self, facet: &Facet) -> Option<usize>
        ensures { result ≡ position (is_same_facet facet.now) (tri self.now) }
    {
        index_of(self.facets(), facet)
    }

    /// Whether the surface has the facet, with these counts.
    pub(crate) fn has_facet(&self, facet: &Facet) -> bool
        ensures { result ≡ is_facet_of self.now facet.now }
    {
        self.index_of(facet).is_some()
    }

    /// The relief: the kept facets with their levels.
    pub(crate) fn slopes(&self) -> &SlopeList
        ensures { result.now ≡ relief self.now }
    {
        &self.slopes
    }

    // The surface of these points and lines.
    fn of(
        alloc: Global,
        points: BTreeMap<Place, Level>,
        lines: Lines,
    ) -> Result<Surface, AllocError>
        requires { T (map.is_sorted place_cmp points.entries) }
        ensures { IfOk result (λ surface. surface ≡ content_by points.entries lines) }
    {
        let facets = facets_of(alloc, &points, &lines)?;
        let slopes = relief_on(alloc, &points, &lines, facets.as_slice())?;
        let facets = Shared::new(alloc, facets)?;
        Ok(Surface {
            points,
            lines,
            facets,
            slopes,
        })
    }

    // A copy of the points, with this level at the place.
    fn points_with(&self, place: Place, level: Level) -> Result<BTreeMap<Place, Level>, AllocError>
        ensures content { IfOk result (λ points. content_by points.entries self.now.table ≡ after self.now (AddPoint place level)) }
        ensures sorted { IfOk result (λ points. T (map.is_sorted place_cmp points.entries)) }
        ensures places { IsSome (level_of self.now place) → IfOk result (λ points. keys points ≡ points_of self.now) }
    {
        let mut points = self.points.clone()?;
        points.insert(place, level)?;
        Ok(points)
    }

    // A copy of the points without that at the place.
    fn points_without(&self, place: Place) -> Result<BTreeMap<Place, Level>, AllocError>
        ensures content { IfOk result (λ points. content_by points.entries self.now.table ≡ after self.now (RemovePoint place)) }
        ensures sorted { IfOk result (λ points. T (map.is_sorted place_cmp points.entries)) }
    {
        let mut points = self.points.clone()?;
        let _level = points.remove(&place);
        Ok(points)
    }

    /// This surface with a point added.
    pub(crate) fn with_point(
        &self,
        alloc: Global,
        place: Place,
        level: Level,
    ) -> Result<Surface, AllocError>
        ensures { IfOk result (λ surface. surface ≡ after self.now (AddPoint place level)) }
    {
        Surface::of(alloc, self.points_with(place, level)?, self.lines.share()?)
    }

    /// This surface with a point removed.
    pub(crate) fn without_point(&self, alloc: Global, place: Place) -> Result<Surface, AllocError>
        ensures { IfOk result (λ surface. surface ≡ after self.now (RemovePoint place)) }
    {
        Surface::of(alloc, self.points_without(place)?, self.lines.share()?)
    }

    /// This surface with another level of a point: its facets stay.
    pub(crate) fn with_level(
        &self,
        alloc: Global,
        place: Place,
        level: Level,
    ) -> Result<Surface, AllocError>
        requires { IsSome (level_of self.now place) }
        ensures { IfOk result (λ surface. surface ≡ after self.now (SetLevel place level)) }
    {
        let points = self.points_with(place, level)?;
        let slopes = releveled(alloc, &points, &self.slopes)?;
        let lines = self.lines.share()?;
        let facets = self.facets.clone()?;
        Ok(Surface {
            points,
            lines,
            facets,
            slopes,
        })
    }

    // A copy of the points.
    fn same_points(&self) -> Result<BTreeMap<Place, Level>, AllocError>
        ensures content { IfOk result (λ points. (t : Table) → content_by points.entries t ≡ record self.now { table = t }) }
        ensures sorted { IfOk result (λ points. T (map.is_sorted place_cmp points.entries)) }
    {
        self.points.clone()
    }

    // The lines with one more, under the next number.
    fn lines_with(&self, line: Line) -> Result<Lines, AllocError>
        requires few { map.len self.now.table.lines < 65535 }
        requires numbers { self.now.table.next < 2 ^ 32 - 1 }
        requires short { length line.places < 2 ^ 32 }
        ensures { IfOk result (λ lines. lines ≡ with_line self.now.table line) }
    {
        let mut lines = self.lines.share()?;
        let (kind, places) = line.into_parts();
        match lines.add(kind, places) {
            Ok(_) => Ok(lines),
            Err(_) => Err(AllocError),
        }
    }

    // The lines without one.
    fn lines_without(&self, id: LineId) -> Result<Lines, AllocError>
        ensures { IfOk result (λ lines. lines ≡ without_line self.now.table id.0) }
    {
        let mut lines = self.lines.share()?;
        let _line = lines.take(id)?;
        Ok(lines)
    }

    /// This surface with a line more, under the next number.
    pub(crate) fn with_line(&self, alloc: Global, line: Line) -> Result<Surface, AllocError>
        requires few { map.len self.now.table.lines < 65535 }
        requires numbers { self.now.table.next < 2 ^ 32 - 1 }
        requires short { length line.places < 2 ^ 32 }
        ensures { IfOk result (λ surface. surface ≡ after self.now (AddLine line.kind line.places)) }
    {
        Surface::of(alloc, self.same_points()?, self.lines_with(line)?)
    }

    /// This surface with a line taken out.
    pub(crate) fn without_line(&self, alloc: Global, id: LineId) -> Result<Surface, AllocError>
        ensures { IfOk result (λ surface. surface ≡ after self.now (RemoveLine id)) }
    {
        Surface::of(alloc, self.same_points()?, self.lines_without(id)?)
    }
}
