//! What is answered to an edit that is committed or applied.

ghost use Rattle.std.specs.Prelude.{ℕ};
ghost use Rattle.turn_lock.specs.declared.journal.Journal.{Journal};
ghost use Rattle.store.specs.Versions.{as_pending};
ghost use Rattle.store.specs.Answers.{Applies, Commits, Settles, IsNoConflict, at_front};

use crate::plan::Plan;
use crate::version::Version;
use ground_model::{Edit, LineId, Mark, Refusal};
use std::alloc::AllocError;

/// What became of a plan that was committed. The version is the store's newest afterwards.
#[derive(Drop)]
pub enum Commit {
    /// The edit was made: a new line's number.
    Done(Version, Option<LineId>),
    /// A mark of the plan's zone has changed since the plan: the least such one. The edit comes back.
    Conflict(Version, Mark, Edit),
    /// The edit is unlawful on the newest version: the first cause.
    Refused(Version, Refusal),
    /// Out of memory. The plan comes back, and nothing was changed.
    Memory(Plan),
}

/// What became of an edit that was applied. The version is the store's newest afterwards.
#[derive(Drop)]
pub enum Applied {
    /// The edit was made: a new line's number.
    Done(Version, Option<LineId>),
    /// The edit is unlawful: the first cause.
    Refused(Version, Refusal),
    /// Out of memory. The edit comes back, and nothing was changed.
    Memory(Edit),
}

/// What became of an edit that was tried on the newest version. The first version is the store's
/// newest afterwards. What it hands back can be dropped once the store is in other hands.
#[derive(Drop)]
pub enum Settled {
    /// The edit was made: a new line's number, and the version that was the newest before.
    Done(Version, Option<LineId>, Version),
    /// A mark of the plan's zone has changed since the plan: the least such one. The edit comes back.
    Conflict(Version, Mark, Edit),
    /// The edit is unlawful: the first cause. It comes back.
    Refused(Version, Refusal, Edit),
}

impl Commit {
    /// The answer to a plan that was settled so.
    pub fn of(settled: Result<Settled, AllocError>, plan: Plan) -> Commit
        ensures { (author : ℕ) (old new : Journal) → Settles author (as_pending plan) old new settled → Commits author plan old new result }
    {
        match settled {
            Ok(Settled::Done(version, line, _)) => Commit::Done(version, line),
            Ok(Settled::Conflict(version, mark, edit)) => Commit::Conflict(version, mark, edit),
            Ok(Settled::Refused(version, cause, _)) => Commit::Refused(version, cause),
            Err(AllocError) => Commit::Memory(plan),
        }
    }
}

impl Applied {
    /// The answer to an edit that was settled so at the front.
    pub fn of(settled: Result<Settled, AllocError>, edit: Edit) -> Applied
        requires { IsNoConflict settled }
        ensures { (author : ℕ) (old new : Journal) → Settles author (at_front old edit) old new settled → Applies author edit old new result }
    {
        match settled {
            Ok(Settled::Done(version, line, _)) => Applied::Done(version, line),
            Ok(Settled::Conflict(_, _, _)) => unreachable!(),
            Ok(Settled::Refused(version, cause, _)) => Applied::Refused(version, cause),
            Err(AllocError) => Applied::Memory(edit),
        }
    }
}
