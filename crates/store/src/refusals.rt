//! Why an edit is refused.

ghost use Rattle.std.specs.Prelude.{◌≡◌, ◌<◌, ◌^◌, ◌+◌, ◌||◌, not, ℤ, nat_le, nat_lt, [], ◌∷◌, length, None, IfOk, IfNone, IsTrue};
ghost use Rattle.std.specs.List.{position, position_from};
ghost use Rattle.ground_model.specs.Place.{is_same};
ghost use Rattle.ground_model.specs.Line.{links as links_of};
ghost use Rattle.std.specs.FinMap as map;
ghost use Rattle.ground_model.specs.declared.limits.Limits.{Limits};
ghost use Rattle.ground_model.specs.declared.refusal.Refusal.TheVariants.{TooShort, Repeated, NotPoint, VerticesFull, LinesFull, SelfCross, Crosses, LogFull};
ghost use Rattle.ground_model.specs.declared.edit.Edit.TheVariants.{AddPoint, RemovePoint, SetLevel, AddLine, RemoveLine};
ghost use Rattle.ground_model.specs.Content.{points_of};
ghost use Rattle.ground_model.specs.Refusal.{edit_refusal, line_refusal, first_of, when, because, id, repeated as repeated_of};
ghost use Rattle.ground_model.specs.Kind.{least_places};
ghost use Rattle.ground_model.specs.Table.{places_together, least_where};
ghost use Rattle.ground_model.specs.Crossings.{self_cross as self_cross_of, lines_cross, is_on_points};
ghost use Rattle.ground_model.specs.Planar.{IsPlanar};

use crate::surface::Surface;
use ground_model::{Level, Limits, LineId, Place, Refusal};
use line_table::{Line, self_cross};
use std::alloc::{AllocError, Global};

/// The edit's own cause, or that the journal is full.
pub(crate) fn first_cause(own: Option<Refusal>, limits: &Limits, entries: usize) -> Option<Refusal>
    ensures value { result ≡ first_of (own ∷ when (nat_le limits.now.log entries) LogFull ∷ []) }
    ensures own { IfNone result (own ≡ None) }
    ensures room { IfNone result (entries < 2 ^ 24) }
{
    match own {
        Some(cause) => Some(cause),
        None if entries >= limits.log as usize => Some(Refusal::LogFull),
        None => None,
    }
}

// How many links stand before the first without length.
fn first_link_without_length(line: &Line) -> Option<usize>
    requires { length line.now.places < 2 ^ 32 }
    ensures { result ≡ position (λ link. is_same link.0 link.1) (links_of line.now) }
{
    line.links().position(|(from, to)| from == to)
}

// The number of the place, counted from 1, at which the first link without length ends. For a
// ring's last link, which ends at the first place, it is that of the last place.
fn repeated(line: &Line) -> Option<u32>
    requires { length line.now.places < 2 ^ 32 }
    ensures { result ≡ repeated_of line.now }
{
    match first_link_without_length(line) {
        Some(link) => Some((link + 2).min(line.places().len()) as u32),
        None => None,
    }
}

// Why a line of no use is refused: too few places, or a link without length.
fn shape_refusal(line: &Line) -> Option<Refusal>
    requires { length line.now.places < 2 ^ 32 }
    ensures { result ≡ first_of (when (nat_lt (length line.now.places) (least_places line.now.kind)) TooShort ∷ because Repeated (repeated_of line.now) ∷ []) }
{
    if line.places().len() < line.kind().least_places() {
        Some(Refusal::TooShort)
    } else {
        repeated(line).map(Refusal::Repeated)
    }
}

impl Surface {
    /// Why a point is not added: there is one, or there are as many as the limit.
    #[tactic(auto, unfolding(ground_model::specs::Refusal::edit_refusal))]
    pub(crate) fn addition_refusal(&self, limits: &Limits, place: Place) -> Option<Refusal>
        ensures { (z : ℤ) → result ≡ edit_refusal self.now limits.now (AddPoint place z) }
    {
        match self.level_of(place) {
            Some(level) => Some(Refusal::Occupied(level)),
            None if self.points() >= limits.points as usize => Some(Refusal::PointsFull),
            None => None,
        }
    }

    /// Why a point is not removed: there is none, a line has its place, or lines would cross without
    /// it. Its cost is that of the links of all lines.
    #[tactic(auto, unfolding(ground_model::specs::Refusal::edit_refusal))]
    pub(crate) fn removal_refusal(&self, place: Place) -> Option<Refusal>
        requires { IsPlanar self.now }
        ensures { (limits : Limits) → result ≡ edit_refusal self.now limits (RemovePoint place) }
    {
        if self.level_of(place).is_none() {
            Some(Refusal::Absent(place))
        } else if let Some(line) = self.lines().holding(place) {
            Some(Refusal::Held(line))
        } else if let Some((least, other)) = self.lines().joint(place) {
            Some(Refusal::Joint(least, other))
        } else {
            None
        }
    }

    /// Why a level is not set: there is no point.
    #[tactic(auto, unfolding(ground_model::specs::Refusal::edit_refusal))]
    pub(crate) fn level_refusal(&self, place: Place) -> Option<Refusal>
        ensures { (limits : Limits) (z : ℤ) → result ≡ edit_refusal self.now limits (SetLevel place z) }
    {
        if self.level_of(place).is_none() {
            Some(Refusal::Absent(place))
        } else {
            None
        }
    }

    // How many places stand before the first that is no point.
    fn first_missing(&self, places: &[Place]) -> Option<usize>
        ensures { result ≡ position (λ p. not (map.contains_key self.now.points p)) places.now }
    {
        places
            .iter()
            .position(|place| self.level_of(*place).is_none())
    }

    // Why a line is refused for its places: one of them is no point.
    fn place_refusal(&self, line: &Line) -> Option<Refusal>
        requires { length line.now.places < 2 ^ 32 }
        ensures value { result ≡ because NotPoint (position_from (λ p. not (map.contains_key self.now.points p)) 1 line.now.places) }
        ensures on_points { IfNone result (IsTrue (is_on_points (points_of self.now) line.now)) }
    {
        match self.first_missing(line.places().as_slice()) {
            Some(place) => Some(Refusal::NotPoint(place as u32 + 1)),
            None => None,
        }
    }

    // Why a line is refused for the limits: too many places, or too many lines.
    fn room_refusal(&self, limits: &Limits, line: &Line) -> Option<Refusal>
        ensures value { result ≡ first_of (when (nat_lt limits.now.places (length line.now.places) || nat_lt limits.now.vertices (places_together self.now.table + length line.now.places)) VerticesFull ∷ when (nat_le limits.now.lines (map.len self.now.table.lines)) LinesFull ∷ []) }
        ensures room { IfNone result (map.len self.now.table.lines < 65535) }
    {
        let places = line.places().len() as u64;
        if places > limits.places as u64
            || self.lines().places() + places > limits.vertices as u64
        {
            Some(Refusal::VerticesFull)
        } else if self.lines().len() >= limits.lines {
            Some(Refusal::LinesFull)
        } else {
            None
        }
    }

    // Why a line is refused for what it crosses: itself, or a live line. It takes memory for the
    // places of all points.
    fn crossing_refusal(&self, alloc: Global, line: &Line) -> Result<Option<Refusal>, AllocError>
        requires short { length line.now.places < 2 ^ 32 }
        requires own { IsTrue (is_on_points (points_of self.now) line.now) }
        requires planar { IsPlanar self.now }
        ensures { IfOk result (λ cause. cause ≡ first_of (because (λ pair. SelfCross pair.0 pair.1) (self_cross_of (points_of self.now) line.now) ∷ because (λ k. Crosses (id k)) (least_where (lines_cross (points_of self.now) line.now) self.now.table) ∷ [])) }
    {
        let places = self.places(alloc)?;
        if let Some((link, other)) = self_cross(line, places.as_slice()) {
            return Ok(Some(Refusal::SelfCross(link, other)));
        }
        Ok(
            self.lines()
                .crossed(line, places.as_slice())
                .map(Refusal::Crosses),
        )
    }

    /// Why a new line is refused. It takes memory for the places of all points, and each of its
    /// links is tried with the others and with each link of each live line.
    #[tactic(auto, unfolding(ground_model::specs::Refusal::line_refusal))]
    pub(crate) fn line_refusal(
        &self,
        alloc: Global,
        limits: &Limits,
        line: &Line,
    ) -> Result<Option<Refusal>, AllocError>
        requires short { length line.now.places < 2 ^ 32 }
        requires planar { IsPlanar self.now }
        ensures value { IfOk result (λ cause. cause ≡ line_refusal self.now limits.now line.now) }
        ensures room { IfOk result (λ cause. IfNone cause (map.len self.now.table.lines < 65535)) }
    {
        if let Some(cause) = shape_refusal(line) {
            return Ok(Some(cause));
        }
        if let Some(cause) = self.place_refusal(line) {
            return Ok(Some(cause));
        }
        if let Some(cause) = self.room_refusal(limits, line) {
            return Ok(Some(cause));
        }
        self.crossing_refusal(alloc, line)
    }

    /// Why a line is not removed: no live line has the number.
    #[tactic(auto, unfolding(ground_model::specs::Refusal::edit_refusal))]
    pub(crate) fn number_refusal(&self, id: LineId) -> Option<Refusal>
        ensures { (limits : Limits) → result ≡ edit_refusal self.now limits (RemoveLine id) }
    {
        if self.lines().get(id).is_none() {
            Some(Refusal::NoLine(id))
        } else {
            None
        }
    }
}
