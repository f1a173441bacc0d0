//! A pass to a desk.

ghost use Rattle.std.specs.Prelude.{◌≡◌, length};

use std::marker::Model;
use turn_lock::TurnSeat;

/// A pass: the right to edit at a desk, under the number of one author. It is a seat of the desk's
/// lock, and contracts see it as one: its author is the seat's number, and the history that it has
/// seen is the journal that the seat has seen.
#[derive(Drop)]
pub struct Pass {
    pub(crate) seat: TurnSeat,
}

impl Model for Pass {
    ghost use Rattle.turn_lock.specs.Seat.{Seat};

    ghost Value = { Seat };

    ghost view = { λ p. p.seat };
}

impl Pass {
    /// How many entries it has seen.
    pub fn front(&self) -> u32
        ensures front { result ≡ length self.now.seen.entries }
    {
        self.seat.front()
    }

    /// The author of the entries that it makes.
    pub fn author(&self) -> u16
        ensures author { result ≡ self.now.number }
    {
        self.seat.number()
    }
}
