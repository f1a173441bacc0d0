//! The pieces of lines, with their counts.

ghost use Rattle.std.specs.Prelude.{◌≡◌, ◌++◌, ◌∷◌, ◌&&◌, IfOk, IfSome, IsSome, OnOk, List, [], map};
ghost use Rattle.std.specs.List.{cons_option, filter_map, find, flat_map, list_any};
ghost use Rattle.std.specs.List.Sorted.{IsStrictlySortedBy};
ghost use Rattle.std.specs.FinMap as finmap;
ghost use Rattle.ground_model.specs.Place.{Coords, is_same, place_cmp};
ghost use Rattle.ground_model.specs.Side.{is_on_segment};
ghost use Rattle.ground_model.specs.Table.{counted_pieces, live, pieces_on};
ghost use Rattle.line_table.specs.Along.{AreEnoughAlong};
ghost use Rattle.line_table.specs.Ends.{AreEnds, goes_on as goes_on_of, next_on as next_on_of, next_points as next_points_of, spans as spans_of, count_over as count_over_of};

use crate::line::Line;
use crate::lines::Lines;
use crate::links::Links;
use crate::live::LiveLines;
use crate::segment::{Link, lies_on};
use ground_model::{LineId, Piece, Place};
use std::alloc::AllocError;

impl Lines {
    /// The pieces of a live line with their counts in the table, in order by p, then q. Of the
    /// points those on the line's links are enough. Each point is tried with each link of the
    /// line, and each piece with each line.
    pub fn pieces_of(&self, id: LineId, points: &[Place]) -> Result<Vec<Piece>, AllocError>
        requires live { IsSome (finmap.get self.now.lines id.0) }
        requires ordered { IsStrictlySortedBy place_cmp points.now }
        ensures pieces { IfOk result (λ ps. IfSome (finmap.get self.now.lines id.0) (λ line. ps.items ≡ counted_pieces points.now (live self.now) line)) }
        ensures of_all { (all : List Coords) → IsStrictlySortedBy place_cmp all → IfOk result (λ ps. IfSome (finmap.get self.now.lines id.0) (λ line. AreEnoughAlong all points.now line → ps.items ≡ counted_pieces all (live self.now) line)) }
    {
        let Some(line) = self.line(id) else {
            unreachable!()
        };
        let mut found = Vec::new(self.alloc);
        let mut ends = Vec::new(self.alloc);
        let mut rest = points;
        'points: while let Some((p, later)) = rest.split_first() {
            find_ends_on(&mut ends, line, *p, later)?;
            self.add_pieces(&mut found, *p, ends.as_slice())?;
            rest = later;
        }
        Ok(found)
    }

    /// The pieces of all live lines with their counts, in order by p, then q. Each point is tried
    /// with each link, and each piece with each line.
    pub fn pieces(&self, points: &[Place]) -> Result<Vec<Piece>, AllocError>
        requires ordered { IsStrictlySortedBy place_cmp points.now }
        ensures { IfOk result (λ ps. ps.items ≡ pieces_on points.now (live self.now)) }
    {
        let mut found = Vec::new(self.alloc);
        let mut ends = Vec::new(self.alloc);
        let mut rest = points;
        'points: while let Some((p, later)) = rest.split_first() {
            self.find_ends(&mut ends, *p, later)?;
            self.add_pieces(&mut found, *p, ends.as_slice())?;
            rest = later;
        }
        Ok(found)
    }

    // Leaves the next points after p on the links of all lines, each once and in order.
    fn find_ends(&self, ends: &mut Vec<Place>, p: Place, later: &[Place]) -> Result<(), AllocError>
        ensures { OnOk result (AreEnds later.now p (live self.now) ends.new.items) }
    {
        self.gather_ends(ends, p, later)?;
        order(ends);
        Ok(())
    }

    fn gather_ends(
        &self,
        ends: &mut Vec<Place>,
        p: Place,
        later: &[Place],
    ) -> Result<(), AllocError>
        ensures { OnOk result (ends.new.items ≡ flat_map (next_points_of later.now p) (live self.now)) }
    {
        ends.clear();
        for (_, line) in self.iter() {
            add_ends(ends, line.links(), p, later)?;
        }
        Ok(())
    }

    // Adds a piece from p to each of the ends.
    fn add_pieces(&self, found: &mut Vec<Piece>, p: Place, ends: &[Place]) -> Result<(), AllocError>
        ensures { OnOk result (found.new.items ≡ found.old.items ++ map (λ q. record { p = p; q = q; count = count_over_of (live self.now) p q }) ends.now) }
    {
        for q in ends {
            let count = self.count_over(p, *q);
            found.push(Piece { p, q: *q, count })?;
        }
        Ok(())
    }

    // How many lines have a link over both places.
    fn count_over(&self, p: Place, q: Place) -> u16
        ensures { result ≡ count_over_of (live self.now) p q }
    {
        LiveLines::new(&self.lines)
            .filter(|(_, line)| spans(line, p, q))
            .count() as u16
    }
}

// Leaves the next points after p on the links of one line, each once and in order.
fn find_ends_on(
    ends: &mut Vec<Place>,
    line: &Line,
    p: Place,
    later: &[Place],
) -> Result<(), AllocError>
    ensures { OnOk result (AreEnds later.now p (line.now ∷ []) ends.new.items) }
{
    gather_ends_on(ends, line, p, later)?;
    order(ends);
    Ok(())
}

#[tactic(auto, unfolding(crate::specs::Ends::next_points))]
fn gather_ends_on(
    ends: &mut Vec<Place>,
    line: &Line,
    p: Place,
    later: &[Place],
) -> Result<(), AllocError>
    ensures { OnOk result (ends.new.items ≡ next_points_of later.now p line.now) }
{
    ends.clear();
    add_ends(ends, line.links(), p, later)?;
    Ok(())
}

/// Puts the places in order, and leaves each once.
pub(crate) fn order(places: &mut Vec<Place>)
    ensures each { (q : Coords) → list_any (is_same q) places.new.items ≡ list_any (is_same q) places.old.items }
    ensures in_order { IsStrictlySortedBy place_cmp places.new.items }
{
    places.sort_unstable();
    places.dedup();
}

fn add_ends(
    ends: &mut Vec<Place>,
    links: Links<'_>,
    p: Place,
    later: &[Place],
) -> Result<(), AllocError>
    ensures { OnOk result (ends.new.items ≡ ends.old.items ++ filter_map (next_on_of later.now p) links.entry) }
{
    for link in links {
        add_end(ends, next_on(&link, p, later))?;
    }
    Ok(())
}

fn add_end(ends: &mut Vec<Place>, end: Option<Place>) -> Result<(), AllocError>
    ensures { OnOk result (ends.new.items ≡ ends.old.items ++ cons_option end []) }
{
    if let Some(end) = end {
        ends.push(end)?;
    }
    Ok(())
}

// The first of the later points on the link, if it goes on from p.
fn next_on(link: &Link, p: Place, later: &[Place]) -> Option<Place>
    ensures { result ≡ next_on_of later.now p link.now }
{
    if goes_on(link, p) {
        first_on(link, later)
    } else {
        None
    }
}

// Whether the link holds p, and an end of it comes after p.
fn goes_on(link: &Link, p: Place) -> bool
    ensures { result ≡ goes_on_of p link.now }
{
    (p < link.0 || p < link.1) && lies_on(link, p)
}

fn first_on(link: &Link, later: &[Place]) -> Option<Place>
    ensures { result ≡ find (is_on_segment link.now.0 link.now.1) later.now }
{
    later.iter().copied().find(|q| lies_on(link, *q))
}

// Whether one link of the line holds both places.
#[tactic(auto, unfolding(crate::specs::Ends::spans))]
fn spans(line: &Line, p: Place, q: Place) -> bool
    ensures { result ≡ spans_of p q line.now }
{
    any_holds(line.links(), p, q)
}

fn any_holds(mut links: Links<'_>, p: Place, q: Place) -> bool
    ensures { result ≡ list_any (λ link. is_on_segment link.0 link.1 p && is_on_segment link.0 link.1 q) links.entry }
{
    links.any(|link| lies_on(&link, p) && lies_on(&link, q))
}
