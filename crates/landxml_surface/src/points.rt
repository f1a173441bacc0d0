//! The points and the faces of a draft.

ghost use Rattle.std.specs.Prelude.{◌≡◌, ◌&&◌, Some, true, map, bytes_eq, All, IfOk, filter_map};
ghost use Rattle.ground_model.specs.Place.{IsPlace, IsLevel};
ghost use Rattle.indexmap.specs.IndexMap.{get_by};
ghost use Rattle.landxml_read.specs.Lawful.{IsLawfulSurface};
ghost use Rattle.landxml_surface.specs.Drafts.{point_of, corner_place, face_of};
ghost use Rattle.landxml_surface.specs.Ids.{AreIds, is_id};
ghost use Rattle.landxml_surface.specs.Origins.{from_origin};
ghost use Rattle.landxml_surface.specs.Placed.{IsPlaced};

use crate::heights::Heights;
use crate::ids::Ids;
use crate::line::place_from;
use crate::spot::{Spot, spot_of};
use ground_model::{Level, Place};
use ground_num::{Name, Origin, Thousandths};
use landxml_read::{RawFace, RawSurface};
use std::alloc::{AllocError, Global};

// A level within the limit.
fn level_from(level: Thousandths) -> Level
    requires { IsLevel level.0 }
    ensures { result ≡ level.0 }
{
    match Level::new(level.0 as i32) {
        Some(level) => level,
        None => unreachable!(),
    }
}

// A point, as it is seen from the origin.
fn point_from(origin: &Origin, spot: &Spot, level: Thousandths) -> (Place, Level)
    requires place { IsPlace (from_origin origin.now spot.now) }
    requires level { IsLevel level.0 }
    ensures { result ≡ point_of origin.now (spot.now, level) }
{
    (place_from(origin, spot), level_from(level))
}

/// The points of a surface.
pub(crate) fn points_of(
    alloc: Global,
    origin: &Origin,
    heights: &Heights,
) -> Result<Vec<(Place, Level)>, AllocError>
    requires { All (λ h. IsPlace (from_origin origin.now h.0) × IsLevel h.1.0) heights.now.levels.entries }
    ensures { IfOk result (λ points. points.items ≡ map (point_of origin.now) heights.now.levels.entries) }
{
    let mut points = Vec::new(alloc);
    for k in 0..heights.levels.len() {
        let Some((spot, level)) = heights.levels.get_index(k) else {
            unreachable!()
        };
        points.push(point_from(origin, spot, *level))?;
    }
    Ok(points)
}

// The corner that an id names.
fn corner_of(surface: &RawSurface, origin: &Origin, ids: &Ids<'_>, name: &Name) -> Place
    requires placed { IsPlaced origin.now surface.now }
    requires lawful { IsLawfulSurface surface.now }
    requires ids { AreIds surface.now.ids (λ name. get_by (λ k. bytes_eq name k.now) ids.now.triples) }
    requires id { is_id surface.now.ids name.now ≡ true }
    ensures { corner_place origin.now surface.now name.now ≡ Some result }
{
    let Some(triple) = ids.triple(name.as_bytes()) else {
        unreachable!()
    };
    let Some(triple) = surface.triples.get(triple as usize) else {
        unreachable!()
    };
    place_from(origin, &spot_of(triple))
}

// The corners of a face.
#[tactic(auto, unfolding(crate::specs::Drafts::face_of))]
fn corners_of(
    surface: &RawSurface,
    origin: &Origin,
    ids: &Ids<'_>,
    face: &RawFace,
) -> (Place, Place, Place)
    requires placed { IsPlaced origin.now surface.now }
    requires lawful { IsLawfulSurface surface.now }
    requires ids { AreIds surface.now.ids (λ name. get_by (λ k. bytes_eq name k.now) ids.now.triples) }
    requires named { (is_id surface.now.ids face.now.a && is_id surface.now.ids face.now.b && is_id surface.now.ids face.now.c) ≡ true }
    ensures { face_of origin.now surface.now face.now ≡ Some result }
{
    let a = corner_of(surface, origin, ids, &face.a);
    let b = corner_of(surface, origin, ids, &face.b);
    let c = corner_of(surface, origin, ids, &face.c);
    (a, b, c)
}

/// The faces of a surface.
pub(crate) fn faces_of(
    alloc: Global,
    surface: &RawSurface,
    origin: &Origin,
    ids: &Ids<'_>,
) -> Result<Vec<(Place, Place, Place)>, AllocError>
    requires placed { IsPlaced origin.now surface.now }
    requires lawful { IsLawfulSurface surface.now }
    requires ids { AreIds surface.now.ids (λ name. get_by (λ k. bytes_eq name k.now) ids.now.triples) }
    requires named { All (λ f. (is_id surface.now.ids f.a && is_id surface.now.ids f.b && is_id surface.now.ids f.c) ≡ true) surface.now.faces }
    ensures { IfOk result (λ faces. faces.items ≡ filter_map (face_of origin.now surface.now) surface.now.faces) }
{
    let mut faces = Vec::new(alloc);
    for face in surface.faces.as_slice() {
        faces.push(corners_of(surface, origin, ids, face))?;
    }
    Ok(faces)
}
