//! Edits that are planned on a version.

ghost use Rattle.std.specs.Prelude.{◌≡◌, None, length, find, IfOk};
ghost use Rattle.ground_model.specs.Answer.{has_changed};
ghost use Rattle.ground_model.specs.History.{content_of};
ghost use Rattle.ground_model.specs.Zone.{zone};
ghost use Rattle.store.specs.Versions.{newest_refusal, IsMadeBy};

use crate::state::Made;
use crate::version::Version;
use ground_model::{Edit, Listed, Mark, Refusal};
use page_vec::Shared;
use std::alloc::AllocError;
use std::marker::Model;

/// An edit that is lawful on a version, with the surface that it makes there, and the marks that it
/// rests on: its zone, the cavity of the edit and its rim.
#[derive(Drop)]
pub struct Plan {
    pub(crate) version: Version,
    pub(crate) edit: Edit,
    pub(crate) made: Shared<Made>,
    pub(crate) marks: Listed<Mark>,
}

impl Model for Plan {
    ghost use Rattle.store.specs.Versions.{PlanView, IsPlan};

    ghost Value = { PlanView };

    ghost view = { λ p. record { journal = p.version.journal; edit = p.edit } };

    ghost invariant = { λ p. IsPlan p.version.journal p.edit p.made p.marks };
}

/// Why an edit is not planned. It comes back.
#[derive(Drop)]
pub enum PlanFault {
    /// The edit is unlawful on the version: the first cause.
    Refused(Edit, Refusal),
    /// Out of memory.
    Memory(Edit),
}

impl Plan {
    /// How many marks the plan rests on.
    pub fn zone(&self) -> u32
        ensures { result ≡ length (zone (content_of self.now.journal.entries) self.now.edit) }
    {
        self.marks.len() as u32
    }

    /// The front of the version that the plan was made on.
    pub fn base(&self) -> u32
        ensures { result ≡ length self.now.journal.entries }
    {
        self.version.front()
    }

    /// The least mark of the plan that has changed since on a version.
    pub(crate) fn first_changed(&self, newest: &Version) -> Option<Mark>
        ensures { result ≡ find (has_changed newest.now.journal.entries (length self.now.journal.entries)) (zone (content_of self.now.journal.entries) self.now.edit) }
    {
        let base = self.base();
        self.marks
            .as_slice()
            .iter()
            .copied()
            .find(|mark| newest.has_changed(mark, base))
    }

    /// A copy of the planned edit, which takes memory for the places of a line alone.
    pub fn copied_edit(&self) -> Result<Edit, AllocError>
        ensures { IfOk result (λ edit. edit ≡ self.now.edit) }
    {
        self.version.copied(&self.edit)
    }

    /// The surface that the edit makes of the plan's version.
    pub(crate) fn made(&self) -> Result<Shared<Made>, AllocError>
        ensures made { IfOk result (IsMadeBy self.now.journal self.now.edit) }
        ensures lawful { newest_refusal self.now.journal self.now.edit ≡ None }
    {
        self.made.clone()
    }
}
