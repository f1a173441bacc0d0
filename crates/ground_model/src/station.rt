//! Stations of a profile.

use crate::listed::Listed;
use crate::place::{Level, Place};

/// A place of a profile, and the level there.
#[derive(Clone, Copy, Debug, PartialEq, Eq)]
pub struct Station {
    pub place: Place,
    pub level: Level,
}

/// The stations of a profile, by their way from its start.
pub type Stations = Listed<Station>;
