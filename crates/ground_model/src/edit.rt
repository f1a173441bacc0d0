//! Edits.

use crate::line::{LineId, LineKind, Places};
use crate::place::{Level, Place};

/// One change of the surface: of a point, or of a line.
#[derive(Drop)]
pub enum Edit {
    AddPoint(Place, Level),
    RemovePoint(Place),
    SetLevel(Place, Level),
    AddLine(LineKind, Places),
    RemoveLine(LineId),
}
