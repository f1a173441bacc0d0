//! The lines of a draft.

ghost use Rattle.std.specs.Prelude.{◌≡◌, ◌<◌, ◌≤◌, ◌^◌, ◌-ℤ◌, List, Some, length, map, count_by, not, IfOk, All, filter, filter_map, ◌+◌, ◌++◌, ◌∷◌, [], OnOk, if◌then◌else◌};
ghost use Rattle.ground_num.specs.Decimal.{IsWithin};
ghost use Rattle.ground_model.specs.Place.{IsPlace};
ghost use Rattle.landxml_read.specs.Lawful.{IsVertex, IsLawfulLine, IsLawfulSurface};
ghost use Rattle.landxml_surface.specs.Drafts.{kind_of as kind_of_raw, vertex_spot, vertex_place, cleaned, opened, line_of, is_short};
ghost use Rattle.landxml_surface.specs.Origins.{from_origin};
ghost use Rattle.landxml_surface.specs.Placed.{IsPlaced};

use crate::spot::{Spot, pair_spot, spot_of};
use ground_model::{LineKind, Listed, Place, Places};
use ground_num::{Origin, Thousandths, shift};
use landxml_read::{RawKind, RawLine, RawSurface, RawVertex};
use std::alloc::{AllocError, Global};

// The kind of a line.
fn kind_of(kind: RawKind) -> LineKind
    ensures { result ≡ kind_of_raw kind }
{
    match kind {
        RawKind::Breakline => LineKind::Breakline,
        RawKind::Outer => LineKind::Outer,
        RawKind::Void => LineKind::Void,
        RawKind::Island => LineKind::Island,
    }
}

// A coordinate as it is seen from the origin.
fn coordinate(value: i64, origin: Thousandths) -> i32
    requires { IsWithin (2 ^ 29) (value -ℤ origin.0) }
    ensures { result ≡ value -ℤ origin.0 }
{
    (value - origin.0) as i32
}

// The place of two coordinates within the limit.
fn place_at(e: i32, n: i32) -> Place
    requires { IsPlace (record { e = e; n = n }) }
    ensures { result ≡ record { e = e; n = n } }
{
    match Place::new(e, n) {
        Some(place) => place,
        None => unreachable!(),
    }
}

/// The place as it is seen from the origin.
pub(crate) fn place_from(origin: &Origin, spot: &Spot) -> Place
    requires { IsPlace (from_origin origin.now spot.now) }
    ensures { result ≡ from_origin origin.now spot.now }
{
    let e = coordinate(spot.e, origin.e);
    let n = coordinate(spot.n, origin.n);
    place_at(e, n)
}

// A ring's places without a last one that is equal to the first.
fn open(places: &mut Vec<Place>)
    ensures { places.new.items ≡ opened places.old.items }
{
    if places.len() >= 2 && places.first() == places.last() {
        places.pop();
    }
}

// Of equal places that follow each other one is left; then a ring is opened.
fn clean(kind: LineKind, places: &mut Vec<Place>)
    ensures { places.new.items ≡ cleaned kind places.old.items }
{
    places.dedup();
    if kind.is_ring() {
        open(places);
    }
}

// Where a vertex is.
fn spot_at(surface: &RawSurface, vertex: RawVertex) -> Spot
    requires { IsVertex (length surface.now.triples) (length surface.now.pairs) vertex }
    ensures { vertex_spot surface.now vertex ≡ Some result }
{
    match vertex {
        RawVertex::Triple(k) => match surface.triples.get(k as usize) {
            Some(triple) => spot_of(triple),
            None => unreachable!(),
        },
        RawVertex::Pair(k) => match surface.pairs.get(k as usize) {
            Some(pair) => pair_spot(pair),
            None => unreachable!(),
        },
    }
}

// The place of a vertex, as it is seen from the origin.
fn place_of(surface: &RawSurface, origin: &Origin, vertex: RawVertex) -> Place
    requires placed { IsPlaced origin.now surface.now }
    requires vertex { IsVertex (length surface.now.triples) (length surface.now.pairs) vertex }
    ensures { vertex_place origin.now surface.now vertex ≡ Some result }
{
    place_from(origin, &spot_at(surface, vertex))
}

// The places of a line's vertices.
fn places_of(
    alloc: Global,
    surface: &RawSurface,
    origin: &Origin,
    line: &RawLine,
) -> Result<Vec<Place>, AllocError>
    requires placed { IsPlaced origin.now surface.now }
    requires line { IsLawfulLine (length surface.now.triples) (length surface.now.pairs) line.now }
    ensures { IfOk result (λ places. places.items ≡ filter_map (vertex_place origin.now surface.now) line.now.vertices) }
{
    let mut places = Vec::new(alloc);
    for vertex in line.vertices.as_slice() {
        places.push(place_of(surface, origin, *vertex))?;
    }
    Ok(places)
}

// A line, cleaned.
#[tactic(auto, unfolding(crate::specs::Drafts::line_of))]
fn draft_line(
    alloc: Global,
    surface: &RawSurface,
    origin: &Origin,
    line: &RawLine,
) -> Result<(LineKind, Places), AllocError>
    requires placed { IsPlaced origin.now surface.now }
    requires line { IsLawfulLine (length surface.now.triples) (length surface.now.pairs) line.now }
    ensures { IfOk result (λ draft. draft ≡ line_of origin.now surface.now line.now) }
{
    let kind = kind_of(line.kind);
    let mut places = places_of(alloc, surface, origin, line)?;
    clean(kind, &mut places);
    Ok((kind, Listed::from_vec(places)))
}

// Whether a line has too few places for its kind.
fn is_too_short(kind: LineKind, places: &Places) -> bool
    ensures { result ≡ is_short (kind, places.now) }
{
    places.len() < kind.least_places()
}

/// Lines, and how many were left out.
#[derive(Drop)]
pub(crate) struct Lines {
    pub(crate) kept: Vec<(LineKind, Places)>,
    pub(crate) short: u32,
}

impl Lines {
    // No line.
    fn new(alloc: Global) -> Lines
        ensures kept { result.kept.items ≡ [] }
        ensures short { result.short ≡ 0 }
    {
        Lines {
            kept: Vec::new(alloc),
            short: 0,
        }
    }

    // One line more.
    fn note(&mut self, line: (LineKind, Places)) -> Result<(), AllocError>
        requires { self.old.short + 1 < 2 ^ 32 }
        ensures kept { OnOk result (self.new.kept.items ≡ self.old.kept.items ++ (if is_short line then [] else line ∷ [])) }
        ensures short { OnOk result (self.new.short ≡ self.old.short + (if is_short line then 1 else 0)) }
    {
        if is_too_short(line.0, &line.1) {
            self.short += 1;
        } else {
            self.kept.push(line)?;
        }
        Ok(())
    }

    /// The lines of a surface.
    pub(crate) fn of(
        alloc: Global,
        surface: &RawSurface,
        origin: &Origin,
    ) -> Result<Lines, AllocError>
        requires placed { IsPlaced origin.now surface.now }
        requires lawful { IsLawfulSurface surface.now }
        ensures kept { IfOk result (λ lines. lines.kept.items ≡ filter (λ l. not (is_short l)) (map (line_of origin.now surface.now) surface.now.lines)) }
        ensures short { IfOk result (λ lines. lines.short ≡ count_by is_short (map (line_of origin.now surface.now) surface.now.lines)) }
    {
        let mut lines = Lines::new(alloc);
        for line in surface.lines.as_slice() {
            lines.note(draft_line(alloc, surface, origin, line)?)?;
        }
        Ok(lines)
    }
}
