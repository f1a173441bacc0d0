//! What a seat of the table knows. No value of these types is made.

use crate::journal::Journal;
use ground_model::Listed;

/// What a seat had seen, and the numbers that it had, before it was joined with another.
pub struct Known {
    pub numbers: Listed<u16>,
    pub seen: Journal,
}

/// What a seat does.
pub enum Stage {
    Idle,
    /// It was made of these two, and has not yet looked at what they knew.
    Joined(Known, Known),
    /// It has drawn this ticket.
    Waits(u64),
    /// Its ticket is served, and it has the slot.
    Holds(u64),
}

/// What a seat knows.
pub struct View {
    pub stage: Stage,
    /// Its own number, then those of the seats that were joined into it; none once it was joined
    /// into another.
    pub numbers: Listed<u16>,
    pub seen: Journal,
    /// What it read at each look at the front.
    pub found: Listed<u32>,
    /// How many numbers were given, where it is the seat that gives them, and else 0.
    pub given: u16,
}
