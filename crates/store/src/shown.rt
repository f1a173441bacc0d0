//! What a version shows to be written.

ghost use Rattle.std.specs.Prelude.{◌≡◌, not, length, slice_get, option_map, find};
ghost use Rattle.std.specs.FinMap as finmap;
ghost use Rattle.std.specs.List.{position_or_len};
ghost use Rattle.std.specs.List.Sorted.{IsStrictlySortedBy};
ghost use Rattle.std.specs.Ordering.{is_lt};
ghost use Rattle.ground_model.specs.Table.{live};
ghost use Rattle.ground_model.specs.Kept.{is_kept};
ghost use Rattle.landxml_write.specs.Exports.{corners_cmp, comes_after};
ghost use Rattle.landxml_write.specs.Text.{document};
ghost use Rattle.store.specs.Shown.{shown_by};

use crate::version::Version;
use ground_model::{Facet, Level, LineId, LineKind, Place, Places};
use ground_num::Head;
use landxml_write::{Export, surface_len};
use line_table::{Line, Lines};
use rings::kept;
use std::collections::BTreeMap;

/// The point at the index with its level. It goes over those before it.
pub(crate) fn vertex_at(points: &BTreeMap<Place, Level>, k: u32) -> Option<(Place, Level)>
    ensures { result ≡ slice_get points.now.entries k }
{
    match points.iter().nth(k as usize) {
        Some((place, level)) => Some((*place, *level)),
        None => None,
    }
}

// The live line at the index with its number.
fn entry_at(lines: &Lines, k: u32) -> Option<(LineId, &Line)>
    ensures { option_map (λ entry. (entry.0.0, entry.1.now)) result ≡ slice_get (finmap.entries lines.now.lines) k }
{
    lines.iter().nth(k as usize)
}

/// The live line at the index. It goes over those before it.
pub(crate) fn line_at(lines: &Lines, k: u32) -> Option<(LineKind, &Places)>
    ensures { option_map (λ line. record { kind = line.0; places = line.1.now }) result ≡ slice_get (live lines.now) k }
{
    match entry_at(lines, k) {
        Some((_, line)) => Some((line.kind(), line.places())),
        None => None,
    }
}

// Whether the corners of the other facet come after those of the facet.
fn is_before(facet: &Facet, other: &Facet) -> bool
    ensures { result ≡ is_lt (corners_cmp facet.now other.now) }
{
    let from_b = facet.b.cmp(&other.b).then(facet.c.cmp(&other.c));
    facet.a.cmp(&other.a).then(from_b).is_lt()
}

// The index of the first facet whose corners come after those of the given one, by halving.
fn halved(facets: &[Facet], facet: &Facet) -> usize
    requires { IsStrictlySortedBy corners_cmp facets.now }
    ensures { result ≡ position_or_len (λ f. is_lt (corners_cmp facet.now f)) facets.now }
{
    facets.partition_point(|other| !is_before(facet, other))
}

// The same, or 0 where no facet is given.
fn index_after(facets: &[Facet], after: Option<Facet>) -> usize
    requires { IsStrictlySortedBy corners_cmp facets.now }
    ensures { result ≡ position_or_len (comes_after after) facets.now }
{
    match after {
        Some(facet) => halved(facets, &facet),
        None => 0,
    }
}

// The facet at the index.
fn facet_at(facets: &[Facet], index: usize) -> Option<Facet>
    ensures { result ≡ slice_get facets.now index }
{
    facets.get(index).copied()
}

/// The first facet whose corners come after those of the given one, found by halving, or the first of
/// all where none is given.
pub(crate) fn facet_after(facets: &[Facet], after: Option<Facet>) -> Option<Facet>
    requires { IsStrictlySortedBy corners_cmp facets.now }
    ensures { result ≡ find (comes_after after) facets.now }
{
    facet_at(facets, index_after(facets, after))
}

/// The facet, and whether these lines keep it.
pub(crate) fn with_kept(lines: &Lines, facet: Option<Facet>) -> Option<(Facet, bool)>
    ensures { result ≡ option_map (λ f. (f, is_kept (live lines.now) f)) facet }
{
    match facet {
        Some(facet) => Some((facet, kept(lines, &facet))),
        None => None,
    }
}

impl Export for Version {
    ghost use Rattle.store.specs.Shown.{shown_by};

    ghost shown = { λ v. shown_by v.journal };

    fn head(&self) -> &Head {
        self.state.get().head()
    }

    fn points(&self) -> u32 {
        self.state.get().surface().points() as u32
    }

    fn point(&self, k: u32) -> Option<(Place, Level)> {
        self.state.get().surface().vertex(k)
    }

    fn lines(&self) -> u32 {
        self.state.get().surface().lines().len()
    }

    fn line(&self, k: u32) -> Option<(LineKind, &Places)> {
        line_at(self.state.get().surface().lines(), k)
    }

    fn faces(&self) -> u32 {
        self.state.get().surface().facets().len() as u32
    }

    fn face_after(&self, after: Option<Facet>) -> Option<(Facet, bool)> {
        let surface = self.state.get().surface();
        with_kept(surface.lines(), facet_after(surface.facets(), after))
    }
}

impl Version {
    /// How many bytes the version has as a LandXML document. It is counted over the whole surface, and
    /// takes no memory.
    pub fn document_len(&self) -> u64
        ensures { result ≡ length (document (shown_by self.now.journal)) }
    {
        // Only the proof reads it: the lines have so few places that the count is one of 64 bits.
        let _places = self.state.get().surface().lines().places();
        surface_len(self)
    }
}
