//! The fronts at which points and facets were born.

ghost use Rattle.std.specs.Prelude.{◌≡◌, ℕ, map, cond, None, Some, IfOk, unwrap_or};
ghost use Rattle.std.specs.BTreeMap.{is_at};
ghost use Rattle.std.specs.Map.{lookup};
ghost use Rattle.ground_model.specs.declared.edit.Edit.TheVariants.{AddPoint};
ghost use Rattle.ground_model.specs.declared.mark.Mark.{Mark as Seen};
ghost use Rattle.ground_model.specs.Place.{Coords, place_cmp};
ghost use Rattle.ground_model.specs.Content.{after, empty as no_content};
ghost use Rattle.ground_model.specs.Tri.{tri};
ghost use Rattle.store.specs.Births.{AreBirths, birth_of, point_birth, facet_birth, renewed, renewed_point};

use crate::surface::Surface;
use ground_model::{Edit, Facet, Level, Mark, Place};
use std::alloc::{AllocError, Global};
use std::collections::BTreeMap;

/// The front at which each point got its level, and each facet, in facet order, came to be.
#[derive(Drop)]
pub(crate) struct Births {
    points: BTreeMap<Place, u32>,
    facets: Vec<u32>,
}

impl Births {
    /// Those of no surface. It takes no memory.
    pub(crate) fn empty(alloc: Global) -> Births
        ensures { (birth : Seen → ℕ) → AreBirths no_content birth result }
    {
        Births {
            points: BTreeMap::new(alloc),
            facets: Vec::new(alloc),
        }
    }

    /// The birth of the level of a point.
    fn point(&self, place: Place) -> Option<u32>
        ensures { result ≡ point_birth self.now place }
    {
        self.points.get(&place).copied()
    }

    /// The birth of a facet of the surface that these are the births of.
    fn facet(&self, surface: &Surface, facet: &Facet) -> Option<u32>
        ensures { result ≡ facet_birth (tri surface.now) self.now facet.now }
    {
        match surface.index_of(facet) {
            Some(index) => self.facets.get(index).copied(),
            None => None,
        }
    }

    /// The birth of a mark of the surface that these are the births of, None where it isn't there.
    pub(crate) fn of(&self, surface: &Surface, mark: &Mark) -> Option<u32>
        ensures { (birth : Seen → ℕ) → AreBirths surface.now birth self.now → result ≡ birth_of surface.now birth mark.now }
    {
        match mark {
            Mark::Point(place) => self.point(*place),
            Mark::Tri(facet) => self.facet(surface, facet),
        }
    }

    // The birth of a facet after an edit, at the front where it is none of the surface before.
    fn facet_after(&self, surface: &Surface, facet: &Facet, front: u32) -> u32
        ensures { result ≡ unwrap_or (facet_birth (tri surface.now) self.now facet.now) front }
    {
        match self.facet(surface, facet) {
            Some(birth) => birth,
            None => front,
        }
    }

    // The births of the facets of a surface, where these are those of the one before.
    fn facets_after(
        &self,
        alloc: Global,
        before: &Surface,
        facets: &[Facet],
        front: u32,
    ) -> Result<Vec<u32>, AllocError>
        ensures { IfOk result (λ list. list.items ≡ map (λ f. unwrap_or (facet_birth (tri before.now) self.now f) front) facets.now) }
    {
        facets
            .iter()
            .map(|facet| self.facet_after(before, facet, front))
            .collect(alloc)
    }

    // The births of the points with one born at this front.
    fn points_with(&self, place: Place, front: u32) -> Result<BTreeMap<Place, u32>, AllocError>
        ensures { IfOk result (λ points. (p : Coords) → lookup (is_at (place_cmp p)) points.entries ≡ cond (is_at (place_cmp place) p) (Some front) (point_birth self.now p)) }
    {
        let mut points = self.points.clone()?;
        points.insert(place, front)?;
        Ok(points)
    }

    // The births of the points without one.
    fn points_without(&self, place: Place) -> Result<BTreeMap<Place, u32>, AllocError>
        ensures { IfOk result (λ points. (p : Coords) → lookup (is_at (place_cmp p)) points.entries ≡ cond (is_at (place_cmp place) p) None (point_birth self.now p)) }
    {
        let mut points = self.points.clone()?;
        let _birth = points.remove(&place);
        Ok(points)
    }

    // The births of the points.
    fn same_points(&self) -> Result<BTreeMap<Place, u32>, AllocError>
        ensures { IfOk result (λ points. (p : Coords) → lookup (is_at (place_cmp p)) points.entries ≡ point_birth self.now p) }
    {
        self.points.clone()
    }

    // The births of the points once this level is set at a place, which is no birth of the level that
    // the point there has.
    fn points_leveled(
        &self,
        before: &Surface,
        place: Place,
        level: Level,
        front: u32,
    ) -> Result<BTreeMap<Place, u32>, AllocError>
        ensures { IfOk result (λ points. (birth : Seen → ℕ) → AreBirths before.now birth self.now → (p : Coords) → lookup (is_at (place_cmp p)) points.entries ≡ renewed_point before.now (AddPoint place level) front birth p) }
    {
        if before.level_of(place) == Some(level) {
            self.same_points()
        } else {
            self.points_with(place, front)
        }
    }

    // The births of the points after an edit.
    fn points_after(
        &self,
        edit: &Edit,
        before: &Surface,
        front: u32,
    ) -> Result<BTreeMap<Place, u32>, AllocError>
        ensures { IfOk result (λ points. (birth : Seen → ℕ) → AreBirths before.now birth self.now → (p : Coords) → lookup (is_at (place_cmp p)) points.entries ≡ renewed_point before.now edit.now front birth p) }
    {
        match edit {
            Edit::AddPoint(place, level) => self.points_leveled(before, *place, *level, front),
            Edit::RemovePoint(place) => self.points_without(*place),
            Edit::SetLevel(place, level) => self.points_leveled(before, *place, *level, front),
            Edit::AddLine(_, _) => self.same_points(),
            Edit::RemoveLine(_) => self.same_points(),
        }
    }

    /// The births after an edit at this front, which made one surface of the other. Its cost is a
    /// search among the facets before for each facet, and a copy of the births of the points.
    pub(crate) fn renewed(
        &self,
        alloc: Global,
        edit: &Edit,
        before: &Surface,
        now: &Surface,
        front: u32,
    ) -> Result<Births, AllocError>
        requires { now.now ≡ after before.now edit.now }
        ensures { IfOk result (λ births. (birth : Seen → ℕ) → AreBirths before.now birth self.now → AreBirths (after before.now edit.now) (renewed before.now edit.now front birth) births) }
    {
        let points = self.points_after(edit, before, front)?;
        let facets = self.facets_after(alloc, before, now.facets(), front)?;
        Ok(Births { points, facets })
    }
}
