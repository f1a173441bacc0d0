//! A turn, in which a seat has the value.

ghost use Rattle.std.specs.Prelude.{◌≡◌, ◌+◌, ◌<◌, ◌^◌, [], ◌∷◌, length};
ghost use Rattle.std.specs.List.{Contains};
ghost use Rattle.turn_lock.specs.Journal.{extended};
ghost use Rattle.turn_lock.specs.Rule.{IsHolding};
ghost use Rattle.turn_lock.specs.Seat.{with_noted};

use crate::filed::Filed;
use crate::lock::TurnLock;
use crate::seat::TurnSeat;
use crate::steps::{FRONT, Note, Noted, PassOn, SERVING, SharedBoard, TableSeat};
use ground_model::Entry;
use std::marker::{Brand, Model};

/// A turn of a seat. While it lasts no other seat has the value. It has to be left.
pub struct Turn<'a, S: Filed> {
    pub(crate) lock: &'a TurnLock<S>,
    pub(crate) table_seat: TableSeat<S>,
    pub(crate) front: u32,
    pub(crate) ticket: u64,
    pub(crate) number: u16,
}

impl<'a, S: Filed> Model for Turn<'a, S> {
    ghost use Rattle.turn_lock.specs.Seat.{Seat};
    ghost use Rattle.turn_lock.specs.Insides.{seat_of, IsInHand};

    ghost Value = { Seat };

    ghost view = { λ t. seat_of t.table_seat.table_id t.number t.table_seat.me.0 };

    ghost invariant = { λ t. IsInHand t.lock.now.table t.table_seat.table_id t.table_seat.me t.front t.ticket t.number };
}

// The entry is for the proof alone: the table has only how many there are.
fn note_entry<J: Noted, S: Filed>(
    board: &SharedBoard<S>,
    table_seat: &mut TableSeat<S>,
    front: u32,
    entry: &Entry,
)
    requires table { (table_seat.old.table_id ≡ board.now.table_id) × (board.now.table_id.words ≡ 3) }
    requires seat { IsHolding table_seat.old.me.0 × (front ≡ length table_seat.old.me.0.seen.entries) }
    requires picked { entry.now ≡ J.entry }
    requires own { Contains table_seat.old.me.0.numbers entry.now.author }
    ensures table { table_seat.new.table_id ≡ table_seat.old.table_id }
    ensures seat { table_seat.new.me
        ≡ (
          record table_seat.old.me.0 { seen = extended table_seat.old.me.0.seen (entry.now ∷ []) },
          table_seat.old.me.1,
        ) }
{
    let _ = entry;
    board.store::<Note<J>>(table_seat, FRONT, u64::from(front) + 1);
}

impl<'a, S: Filed> Turn<'a, S> {
    /// Notes an entry that the value gets in this turn. It raises the front by one.
    pub fn note(self, entry: &Entry) -> Turn<'a, S>
        requires short { length self.seen.entries + 1 < 2 ^ 32 }
        requires own { entry.now.author ≡ self.number }
        ensures noted { result ≡ with_noted self.entry entry.now }
    {
        let Turn {
            lock,
            mut table_seat,
            front,
            ticket,
            number,
        } = self;
        note_entry::<Brand, S>(&lock.board.shared, &mut table_seat, front, entry);
        Turn {
            lock,
            table_seat,
            front: front + 1,
            ticket,
            number,
        }
    }

    /// Gives the value back with its journal as it was found and all that was noted after it, and
    /// lets the next seat have its turn.
    pub fn leave(self, value: S) -> TurnSeat
        requires { S.journal value ≡ self.seen }
        ensures seat { result ≡ self.entry }
    {
        let Turn {
            lock,
            mut table_seat,
            front,
            ticket,
            number,
        } = self;
        let board = &lock.board.shared;
        let old = board.exchange(&mut table_seat, 0, Some(value));
        let None = old else { unreachable!() };
        board.store::<PassOn>(&mut table_seat, SERVING, ticket.wrapping_add(1));
        TurnSeat {
            badge: table_seat.into_badge(),
            front,
            number,
        }
    }
}
