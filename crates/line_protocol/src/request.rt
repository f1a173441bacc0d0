//! Requests.

use ground_model::{Edit, Level, Place};

/// What a line asks, with the origin taken off its places.
#[derive(Drop)]
pub enum Request {
    Sync,
    Plan(Edit),
    Commit,
    Apply(Edit),
    Level(Place),
    Contour(Level),
    Volume(Level),
    Stat,
    Export,
    Quit,
}
