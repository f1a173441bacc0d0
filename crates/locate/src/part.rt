//! Where a place lies by one triangle.

ghost use Rattle.std.specs.Prelude.{◌≡◌, ◌<◌, IfSome, IfNone};
ghost use Rattle.ground_model.specs.declared.corner.Corner.TheVariants.{At};
ghost use Rattle.ground_model.specs.Corner.{corner_side};
ghost use Rattle.predicates.specs.Far.{IsKnown};
ghost use Rattle.mesh.specs.Net.{Side, after, corner_at, first, second, third, side as side_of};
ghost use Rattle.mesh.specs.Sheets.{IsTurned};
ghost use Rattle.locate.specs.Parts.{IsSigned, sign_at, IsPart, HasNoRight, IsRightAt};

use ground_model::{Corner, Place};
use mesh::seen_from;
use predicates::{Sign, side};
use tri_pages::TriSlot;

/// Where a place lies by a triangle: strictly inside, on an edge, at a corner, or beyond an edge.
#[derive(Clone, Copy)]
pub(crate) enum Part {
    Inside,
    OnEdge(u8),
    Corner(u8),
    Beyond(u8),
}

/// On which side of each edge of a triangle abc a place lies.
#[derive(Clone, Copy)]
pub(crate) struct Sides {
    pub(crate) ab: Sign,
    pub(crate) bc: Sign,
    pub(crate) ca: Sign,
}

/// The orientation of two corners and a place.
pub(crate) fn sign_of(a: &Corner, b: &Corner, place: Place) -> Sign
    requires a { IsKnown a.now }
    requires b { IsKnown b.now }
    ensures { IsSigned (corner_side a.now b.now (At place)) result }
{
    side(*a, *b, Corner::At(place))
}

// On which sides of a triangle's edges a place lies.
fn sides_of(t: &TriSlot, place: Place) -> Sides
    requires turned { IsTurned t.now }
    ensures ab { IsSigned (corner_side (corner_at t.now first) (corner_at t.now second) (At place)) result.ab }
    ensures bc { IsSigned (corner_side (corner_at t.now second) (corner_at t.now third) (At place)) result.bc }
    ensures ca { IsSigned (corner_side (corner_at t.now third) (corner_at t.now first) (At place)) result.ca }
{
    let seen = seen_from(t, 0);
    let ab = sign_of(&seen.a, &seen.b, place);
    let bc = sign_of(&seen.b, &seen.c, place);
    let ca = sign_of(&seen.c, &seen.a, place);
    Sides { ab, bc, ca }
}

// An edge beyond which the place lies, the one with the number `from` first.
fn beyond(sides: Sides, from: u32) -> Option<u8>
    ensures some { IfSome result (λ k. (k < 3) × IsRightAt sides (side_of k)) }
    ensures none { IfNone result (HasNoRight sides) }
{
    if from == 1 && sides.bc.is_negative() {
        return Some(1);
    }
    if from == 2 && sides.ca.is_negative() {
        return Some(2);
    }
    if sides.ab.is_negative() {
        return Some(0);
    }
    if sides.bc.is_negative() {
        return Some(1);
    }
    if sides.ca.is_negative() {
        return Some(2);
    }
    None
}

// Where a place lies that is beyond no edge.
fn part_within(sides: Sides, t: &TriSlot, place: Place) -> Part
    requires turned { IsTurned t.now }
    requires signed { (k : Side) → IsSigned (corner_side (corner_at t.now k) (corner_at t.now (after k)) (At place)) (sign_at sides k) }
    requires within { HasNoRight sides }
    ensures { IsPart t.now place result }
{
    let _easting = place.e();
    if sides.ab.is_zero() {
        if sides.ca.is_zero() {
            return Part::Corner(0);
        }
        if sides.bc.is_zero() {
            return Part::Corner(1);
        }
        return Part::OnEdge(0);
    }
    if sides.bc.is_zero() {
        if sides.ca.is_zero() {
            return Part::Corner(2);
        }
        return Part::OnEdge(1);
    }
    if sides.ca.is_zero() {
        return Part::OnEdge(2);
    }
    Part::Inside
}

/// Where a place lies by a triangle: beyond an edge, the one with the number `from` before the
/// others, or in the closed triangle.
pub(crate) fn part_of(t: &TriSlot, place: Place, from: u32) -> Part
    requires turned { IsTurned t.now }
    ensures { IsPart t.now place result }
{
    let sides = sides_of(t, place);
    match beyond(sides, from) {
        Some(edge) => Part::Beyond(edge),
        None => part_within(sides, t, place),
    }
}
