//! Replies.

use ground_model::{Cuts, Level, LineId, Mark, Refusal, Volume};

/// What a session answers. The first number is the front that the reply speaks of, where it
/// speaks of one.
#[derive(Drop)]
pub enum Reply {
    /// The newest version is held.
    Held(u32),
    /// An edit is planned at this front, on so many marks.
    Planned(u32, u32),
    /// An edit was made, and with a new line its number was given.
    Done(u32, Option<LineId>),
    /// This mark of the plan has changed.
    Conflict(u32, Mark),
    /// An edit was refused, by its first cause.
    Refused(u32, Refusal),
    /// The level at a place. None outside the kept facets.
    Level(u32, Option<Level>),
    /// The cuts of the kept facets at a level.
    Contour(u32, Cuts),
    /// The volumes above and below a level.
    Volume(u32, Volume),
    /// The numbers of points and of live lines.
    Stat(u32, u32, u32),
    /// The document follows, of so many bytes.
    Export(u32, u64),
    /// The session ends.
    Bye,
    /// The line is no request; the number is the offset of the first byte that no request allows.
    Syntax(u32),
    /// A place or a level is outside its limit.
    Range,
    /// A commit came without a plan.
    NoPlan,
    /// Out of memory for the request.
    Memory,
}
