//! A seat between two turns.

ghost use Rattle.std.specs.Prelude.{◌≡◌, length};

use crate::view::View;
use atomic_table::Badge;
use std::marker::Model;

/// A seat of a turn lock: the right to take turns, and what its owner knows of the journal.
/// Contracts see its number, the numbers of the seats joined into it, the journal that it has seen
/// and the fronts that it has found.
#[derive(Drop)]
pub struct TurnSeat {
    pub(crate) badge: Badge<View>,
    pub(crate) front: u32,
    pub(crate) number: u16,
}

impl Model for TurnSeat {
    ghost use Rattle.turn_lock.specs.Seat.{Seat};
    ghost use Rattle.turn_lock.specs.Insides.{seat_of, view_of, IsAtRest};

    ghost Value = { Seat };

    ghost view = { λ s. seat_of s.badge.table_id s.number (view_of s.badge.views) };

    ghost invariant = { λ s. IsAtRest s.badge.views s.front s.number };
}

impl TurnSeat {
    /// How many entries it has seen.
    pub fn front(&self) -> u32
        ensures front { result ≡ length self.now.seen.entries }
    {
        self.front
    }

    /// Its own number, which is the author of what it notes.
    pub fn number(&self) -> u16
        ensures number { result ≡ self.now.number }
    {
        self.number
    }
}
