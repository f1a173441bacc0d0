//! Where lines cross, and which line holds a place.

ghost use Rattle.std.specs.Prelude.{◌≡◌, ◌+◌, ◌^◌, ◌<◌, ◌≤◌, ◌&&◌, IfOk, IfSome, IsOk, option_map, List, false, IsTrue, nat_le, length};
ghost use Rattle.std.specs.List.{All, list_any, find, position_from};
ghost use Rattle.std.specs.FinMap as finmap;
ghost use Rattle.ground_model.specs.Place.{Coords};
ghost use Rattle.ground_model.specs.Side.{is_on_segment};
ghost use Rattle.ground_model.specs.Line.{links as links_of, has_place as has_place_of};
ghost use Rattle.ground_model.specs.Crossings.{lines_cross, self_cross as self_cross_of, joint, AreWithout, is_on_points, piece_crosses, cross_between, link_crosses, links_cross};
ghost use Rattle.ground_model.specs.Table.{least_where, live};
ghost use Rattle.line_table.specs.Joints.{cross_over, links_cross_over, pair_over};

use crate::line::Line;
use crate::lines::Lines;
use crate::links::Links;
use crate::segment::{Link, cross_apart, cross_over as segments_cross_over, lies_on};
use ground_model::{LineId, Place};
use std::alloc::AllocError;

impl Lines {
    /// The least line that has the place. Its cost is a search by place.
    pub fn holding(&self, place: Place) -> Option<LineId>
        ensures { option_map (λ id. id.0) result ≡ least_where (has_place_of place) self.now }
    {
        let mut lines = self.at(place);
        lines.next()
    }

    /// The least line with a piece that crosses the segment pq, None exactly where none does. It
    /// takes no memory and never fails. Its cost is that of the links of all lines up to the one
    /// found, and of the points once for each link that crosses the segment.
    pub fn crossing(
        &self,
        p: Place,
        q: Place,
        points: &[Place],
    ) -> Result<Option<LineId>, AllocError>
        requires { All (λ line. IsTrue (is_on_points points.now line)) (live self.now) }
        ensures found { IfOk result (λ found. option_map (λ id. id.0) found ≡ least_where (piece_crosses points.now (p, q)) self.now) }
        ensures answers { IsOk result }
    {
        Ok(number_of(self.entry_crossing(&(p, q), points)))
    }

    fn entry_crossing(&self, s: &Link, points: &[Place]) -> Option<(LineId, &Line)>
        ensures { option_map (λ entry. (entry.0.0, entry.1.now)) result ≡ find (λ entry. link_crosses points.now s.now entry.1) (finmap.entries self.now.lines) }
    {
        self.iter()
            .find(|(_, line)| has_crossing_link(points, s, line))
    }

    /// The least line with a piece that crosses a piece of this one, which need not be in the
    /// table. Each link of the one is tried with each link of the other.
    pub fn crossed(&self, line: &Line, points: &[Place]) -> Option<LineId>
        requires own { IsTrue (is_on_points points.now line.now) }
        requires others { All (λ other. IsTrue (is_on_points points.now other)) (live self.now) }
        ensures { option_map (λ id. id.0) result ≡ least_where (lines_cross points.now line.now) self.now }
    {
        number_of(self.entry_crossed(line, points))
    }

    fn entry_crossed(&self, line: &Line, points: &[Place]) -> Option<(LineId, &Line)>
        ensures { option_map (λ entry. (entry.0.0, entry.1.now)) result ≡ find (λ entry. links_cross points.now line.now entry.1) (finmap.entries self.now.lines) }
    {
        self.iter()
            .find(|(_, other)| have_crossing_links(points, line, other))
    }

    /// The least pair of lines of which pieces would cross without the point at this place, the
    /// lesser number first. A line may pair with itself. Of every table it is the least pair with
    /// links that cross and both hold the place. That these are the pieces that would cross holds
    /// for the points of a surface that lawful edits made (`ground_model::planar_law`), where no
    /// two pieces cross, and for a point that no line has as a place. Only a line with a link over
    /// the place is tried with the others.
    pub fn joint(&self, place: Place) -> Option<(LineId, LineId)>
        ensures links { option_map (λ pair. (pair.0.0, pair.1.0)) result ≡ pair_over place self.now }
        ensures pieces { (points rest : List Coords)
            → AreWithout rest points place
            → All (λ l. All (λ m. lines_cross points l m ≡ false) (live self.now)) (live self.now)
            → All (λ line. IsTrue (is_on_points rest line)) (live self.now)
            → option_map (λ pair. (pair.0.0, pair.1.0)) result ≡ joint rest self.now }
    {
        self.joint_links(place)
    }

    fn joint_links(&self, place: Place) -> Option<(LineId, LineId)>
        ensures { option_map (λ pair. (pair.0.0, pair.1.0)) result ≡ pair_over place self.now }
    {
        for (id, line) in self.iter() {
            if let Some(partner) = self.partner(id, line, place) {
                return Some((id, partner));
            }
        }
        None
    }

    // The least line from this one on, with a link that crosses one of this line over the place.
    fn partner(&self, id: LineId, line: &Line, place: Place) -> Option<LineId>
        ensures { option_map (λ id. id.0) result ≡ option_map (λ entry. entry.0) (find (λ entry. nat_le id.0 entry.0 && links_cross_over place line.now entry.1) (finmap.entries self.now.lines)) }
    {
        if has_link_over(line, place) {
            number_of(self.entry_joined(id, line, place))
        } else {
            None
        }
    }

    fn entry_joined(&self, id: LineId, line: &Line, place: Place) -> Option<(LineId, &Line)>
        ensures { option_map (λ entry. (entry.0.0, entry.1.now)) result ≡ find (λ entry. nat_le id.0 entry.0 && links_cross_over place line.now entry.1) (finmap.entries self.now.lines) }
    {
        self.iter().find(|(other_id, other)| id.0 <= other_id.0
            && have_links_crossing_over(place, line, other))
    }
}

/// The least pair of links of the line, counted from 1, with pieces that cross. Each two links are
/// tried.
pub fn self_cross(line: &Line, points: &[Place]) -> Option<(u32, u32)>
    requires short { length line.now.places < 2 ^ 32 }
    requires own { IsTrue (is_on_points points.now line.now) }
    ensures { result ≡ self_cross_of points.now line.now }
{
    let mut rest = line.links();
    let mut number = 1;
    'links: while let Some(link) = rest.next() {
        if let Some(other) = first_crossing(points, &link, rest.again(), number + 1) {
            return Some((number as u32, other as u32));
        }
        number += 1;
    }
    None
}

// The number of the first link that crosses this one, where the first of them has the number
// `first`.
fn first_crossing(points: &[Place], s: &Link, links: Links<'_>, first: usize) -> Option<usize>
    requires { first + length links ≤ 2 ^ 32 }
    ensures value { result ≡ position_from (cross_between points.now s.now) first links.entry }
    ensures bound { IfSome result (λ number. number < 2 ^ 32) }
{
    let mut number = first;
    for link in links {
        if cross_apart(points, s, &link) {
            return Some(number);
        }
        number += 1;
    }
    None
}

fn number_of(entry: Option<(LineId, &Line)>) -> Option<LineId>
    ensures { option_map (λ id. id.0) result ≡ option_map (λ entry. entry.0.0) entry.entry }
{
    match entry {
        Some((id, _)) => Some(id),
        None => None,
    }
}

#[tactic(auto, unfolding(ground_model::specs::Crossings::link_crosses))]
fn has_crossing_link(points: &[Place], s: &Link, line: &Line) -> bool
    ensures { result ≡ link_crosses points.now s.now line.now }
{
    crosses_any(points, s, line.links())
}

fn crosses_any(points: &[Place], s: &Link, mut links: Links<'_>) -> bool
    ensures { result ≡ list_any (cross_between points.now s.now) links.entry }
{
    links.any(|link| cross_apart(points, s, &link))
}

#[tactic(auto, unfolding(ground_model::specs::Crossings::links_cross))]
fn have_crossing_links(points: &[Place], l: &Line, m: &Line) -> bool
    ensures { result ≡ links_cross points.now l.now m.now }
{
    any_crosses(points, l.links(), m)
}

fn any_crosses(points: &[Place], mut links: Links<'_>, line: &Line) -> bool
    ensures { result ≡ list_any (λ s. link_crosses points.now s line.now) links.entry }
{
    links.any(|link| has_crossing_link(points, &link, line))
}

// Whether a link of the line holds the place.
fn has_link_over(line: &Line, place: Place) -> bool
    ensures { result ≡ list_any (λ link. is_on_segment link.0 link.1 place) (links_of line.now) }
{
    holds_any(place, line.links())
}

fn holds_any(place: Place, mut links: Links<'_>) -> bool
    ensures { result ≡ list_any (λ link. is_on_segment link.0 link.1 place) links.entry }
{
    links.any(|link| lies_on(&link, place))
}

#[tactic(auto, unfolding(crate::specs::Joints::links_cross_over))]
fn have_links_crossing_over(place: Place, l: &Line, m: &Line) -> bool
    ensures { result ≡ links_cross_over place l.now m.now }
{
    any_crosses_over(place, l.links(), m)
}

fn any_crosses_over(place: Place, mut links: Links<'_>, line: &Line) -> bool
    ensures { result ≡ list_any (λ s. list_any (cross_over place s) (links_of line.now)) links.entry }
{
    links.any(|link| crosses_any_over(place, &link, line.links()))
}

fn crosses_any_over(place: Place, s: &Link, mut links: Links<'_>) -> bool
    ensures { result ≡ list_any (cross_over place s.now) links.entry }
{
    links.any(|link| segments_cross_over(place, s, &link))
}
