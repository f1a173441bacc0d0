//! Why an edit is refused.

use crate::line::LineId;
use crate::place::{Level, Place};

/// The first cause that holds of those that `specs/Refusal.antt` lists for the edit.
#[derive(Clone, Copy, Debug, PartialEq, Eq)]
pub enum Refusal {
    /// There is a point at the place, with this level.
    Occupied(Level),
    /// There is no point at the place.
    Absent(Place),
    /// The point is a place of this line, the least such one.
    Held(LineId),
    /// Without the point, pieces of these two lines would cross: the least such pair.
    Joint(LineId, LineId),
    /// A breakline has fewer than two places, or a ring fewer than three.
    TooShort,
    /// The place of this number, counted from 1, is the one before it; in a ring also the first.
    Repeated(u32),
    /// The place of this number, counted from 1, is no point.
    NotPoint(u32),
    /// A piece of the new line would cross a piece of this line, the least such one.
    Crosses(LineId),
    /// Pieces on two links of the new line would cross: the least such pair, counted from 1.
    SelfCross(u32, u32),
    /// No live line has this number.
    NoLine(LineId),
    /// There are as many points as the limit.
    PointsFull,
    /// There are as many live lines as the limit.
    LinesFull,
    /// The line has too many places, or all live lines together with it have.
    VerticesFull,
    /// The journal has as many entries as the limit.
    LogFull,
}
