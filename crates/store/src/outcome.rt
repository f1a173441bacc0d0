//! What an edit makes of a version, or why it is refused.

ghost use Rattle.std.specs.Prelude.{◌≡◌, ◌<◌, ◌^◌, true, length, None, IfOk, IfErr, IfNone};
ghost use Rattle.ground_model.specs.declared.edit.Edit.{Edit as Seen};
ghost use Rattle.ground_model.specs.declared.edit.Edit.TheVariants.{AddPoint, RemovePoint, SetLevel, AddLine, RemoveLine};
ghost use Rattle.ground_model.specs.Content.{after};
ghost use Rattle.ground_model.specs.History.{content_of};
ghost use Rattle.ground_model.specs.Refusal.{edit_refusal};
ghost use Rattle.store.specs.Versions.{newest_refusal};
ghost use Rattle.store.specs.Outcomes.{takes_room, IsOutcome};

use crate::refusals::first_cause;
use crate::state::{Made, State};
use crate::surface::Surface;
use ground_model::{Edit, Level, LineId, LineKind, Place, Places, Refusal};
use line_table::Line;
use std::alloc::{AllocError, Global};

/// What an edit comes to on a version.
#[derive(Drop)]
pub(crate) enum Outcome {
    /// It is lawful, and makes this surface.
    Lawful(Made),
    /// It is unlawful: the first cause.
    Refused(Refusal),
}

// The line on a copy of its places. 2^32 places or more, as no request can spell, are refused as out
// of memory.
fn copy_of(alloc: Global, kind: LineKind, places: &Places) -> Result<Line, AllocError>
    ensures line { IfOk result (λ line. line ≡ record { kind = kind; places = places.now }) }
    ensures short { IfOk result (λ line. length line.places < 2 ^ 32) }
{
    if places.len() > u32::MAX as usize {
        return Err(AllocError);
    }
    Ok(Line::new(kind, Places::from_slice(alloc, places.as_slice())?))
}

impl State {
    // The edit's own cause, or that the journal is full.
    fn cause(&self, own: Option<Refusal>) -> Option<Refusal>
        ensures value { (edit : Seen) → own ≡ edit_refusal (content_of self.now.journal.entries) self.now.journal.limits edit → result ≡ newest_refusal self.now.journal edit }
        ensures own { IfNone result (own ≡ None) }
        ensures room { IfNone result (length self.now.journal.entries < 2 ^ 24) }
    {
        first_cause(own, &self.limits, self.log.len() as usize)
    }

    // What a lawful edit makes, whose surface this is.
    fn made_by(&self, edit: &Edit, surface: Surface) -> Result<Outcome, AllocError>
        requires lawful { newest_refusal self.now.journal edit.now ≡ None }
        requires made { surface ≡ after (content_of self.now.journal.entries) edit.now }
        ensures { IfOk result (IsOutcome self.now.journal edit.now) }
    {
        let before = self.made.get();
        let births = before.births.renewed(
            self.alloc,
            edit,
            &before.surface,
            &surface,
            self.log.len() + 1,
        )?;
        Ok(Outcome::Lawful(Made { surface, births }))
    }

    // A point that is added.
    fn point_added(&self, edit: &Edit, place: Place, level: Level) -> Result<Outcome, AllocError>
        requires { edit.now ≡ AddPoint place level }
        ensures outcome { IfOk result (IsOutcome self.now.journal edit.now) }
        ensures memory { IfErr result (λ _. takes_room self.now.journal.limits self.now.journal.entries edit.now ≡ true) }
    {
        let surface = &self.made.get().surface;
        if let Some(cause) = self.cause(surface.addition_refusal(&self.limits, place)) {
            return Ok(Outcome::Refused(cause));
        }
        self.made_by(edit, surface.with_point(self.alloc, place, level)?)
    }

    // A point that is removed.
    fn point_removed(&self, edit: &Edit, place: Place) -> Result<Outcome, AllocError>
        requires { edit.now ≡ RemovePoint place }
        ensures outcome { IfOk result (IsOutcome self.now.journal edit.now) }
        ensures memory { IfErr result (λ _. takes_room self.now.journal.limits self.now.journal.entries edit.now ≡ true) }
    {
        let surface = &self.made.get().surface;
        if let Some(cause) = self.cause(surface.removal_refusal(place)) {
            return Ok(Outcome::Refused(cause));
        }
        self.made_by(edit, surface.without_point(self.alloc, place)?)
    }

    // A level that is set.
    fn level_set(&self, edit: &Edit, place: Place, level: Level) -> Result<Outcome, AllocError>
        requires { edit.now ≡ SetLevel place level }
        ensures outcome { IfOk result (IsOutcome self.now.journal edit.now) }
        ensures memory { IfErr result (λ _. takes_room self.now.journal.limits self.now.journal.entries edit.now ≡ true) }
    {
        let surface = &self.made.get().surface;
        if let Some(cause) = self.cause(surface.level_refusal(place)) {
            return Ok(Outcome::Refused(cause));
        }
        self.made_by(edit, surface.with_level(self.alloc, place, level)?)
    }

    // A line that is added, on points. It takes memory before it is known whether it is lawful.
    fn line_added(
        &self,
        edit: &Edit,
        kind: LineKind,
        places: &Places,
    ) -> Result<Outcome, AllocError>
        requires { edit.now ≡ AddLine kind places.now }
        ensures outcome { IfOk result (IsOutcome self.now.journal edit.now) }
        ensures memory { IfErr result (λ _. takes_room self.now.journal.limits self.now.journal.entries edit.now ≡ true) }
    {
        let surface = &self.made.get().surface;
        let line = copy_of(self.alloc, kind, places)?;
        let own = surface.line_refusal(self.alloc, &self.limits, &line)?;
        if let Some(cause) = self.cause(own) {
            return Ok(Outcome::Refused(cause));
        }
        self.made_by(edit, surface.with_line(self.alloc, line)?)
    }

    // A line that is removed.
    fn line_removed(&self, edit: &Edit, id: LineId) -> Result<Outcome, AllocError>
        requires { edit.now ≡ RemoveLine id }
        ensures outcome { IfOk result (IsOutcome self.now.journal edit.now) }
        ensures memory { IfErr result (λ _. takes_room self.now.journal.limits self.now.journal.entries edit.now ≡ true) }
    {
        let surface = &self.made.get().surface;
        if let Some(cause) = self.cause(surface.number_refusal(id)) {
            return Ok(Outcome::Refused(cause));
        }
        self.made_by(edit, surface.without_line(self.alloc, id)?)
    }

    /// What an edit comes to. Its cost is that of the slow triangulation, but for a level that is set,
    /// and for a refused edit.
    pub(crate) fn outcome(&self, edit: &Edit) -> Result<Outcome, AllocError>
        ensures outcome { IfOk result (IsOutcome self.now.journal edit.now) }
        ensures memory { IfErr result (λ _. takes_room self.now.journal.limits self.now.journal.entries edit.now ≡ true) }
    {
        match edit {
            Edit::AddPoint(place, level) => self.point_added(edit, *place, *level),
            Edit::RemovePoint(place) => self.point_removed(edit, *place),
            Edit::SetLevel(place, level) => self.level_set(edit, *place, *level),
            Edit::AddLine(kind, places) => self.line_added(edit, *kind, places),
            Edit::RemoveLine(id) => self.line_removed(edit, *id),
        }
    }
}
