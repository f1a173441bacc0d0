//! Events of several sessions on one store, and what is answered to them.

ghost use Rattle.std.specs.Prelude.{◌≡◌};
ghost use Rattle.store.specs.Core.{session_of};

use ground_model::{Cuts, Edit, Level, LineId, Mark, Place, Refusal, Volume};

/// What is read of a version.
#[derive(Clone, Copy, Debug, PartialEq, Eq)]
pub enum Query {
    /// The level at a place.
    Level(Place),
    /// The cuts of the kept facets at a level.
    Contour(Level),
    /// The volumes above and below a level.
    Volume(Level),
    /// The numbers of points and of live lines.
    Stat,
}

/// One atomic action of a session, which has this number.
#[derive(Drop)]
pub enum Event {
    /// Holds the newest version.
    Hold(u16),
    /// Plans an edit on the held version.
    Plan(u16, Edit),
    /// Commits the pending plan.
    Commit(u16),
    /// Plans an edit on the newest version and commits it at once.
    Apply(u16, Edit),
    /// Reads the held version.
    Read(u16, Query),
}

/// What is answered to an event: the protocol's reply without its text. The first number is the
/// front that the reply speaks of.
#[derive(Drop)]
pub enum CoreReply {
    /// The newest version is held.
    Held(u32),
    /// An edit is planned at this front, on so many marks.
    Planned(u32, u32),
    /// An edit was made, and with a new line its number was given.
    Done(u32, Option<LineId>),
    /// This mark of the plan has changed.
    Conflict(u32, Mark),
    /// An edit was refused, by its first cause.
    Refused(u32, Refusal),
    /// The level at a place. None outside the kept facets.
    Level(u32, Option<Level>),
    /// The cuts of the kept facets at a level.
    Contour(u32, Cuts),
    /// The volumes above and below a level.
    Volume(u32, Volume),
    /// The numbers of points and of live lines.
    Stat(u32, u32, u32),
    /// A commit came without a plan.
    NoPlan,
}

impl Event {
    /// The number of the session whose event it is.
    pub fn session(&self) -> u16
        ensures { result ≡ session_of self.now }
    {
        match self {
            Event::Hold(session)
            | Event::Plan(session, _)
            | Event::Commit(session)
            | Event::Apply(session, _)
            | Event::Read(session, _) => *session,
        }
    }
}
