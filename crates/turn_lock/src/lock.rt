//! The lock.

ghost use Rattle.std.specs.Prelude.{◌≡◌, ◌+◌, ◌%◌, ◌<◌, ◌≤◌, ◌^◌, [], ◌∷◌, length, vec_len, vec_capacity, IfOk, IfErr, Some, None, slice_get};
ghost use Rattle.std.specs.List.{All};
ghost use Rattle.turn_lock.specs.Journal.{OthersAdded, AddedBy};
ghost use Rattle.turn_lock.specs.Rule.{ticket as ticket_of};
ghost use Rattle.turn_lock.specs.Seat.{numbers_of, with_found, with_joined, IsLast};
ghost use Rattle.turn_lock.specs.declared.view.Stage.TheVariants.{Waits, Holds};

use crate::filed::Filed;
use crate::seat::TurnSeat;
use crate::steps::{
    Board, Draw, FRONT, Look, Merge, Recall, SERVING, Serve, SharedBoard, TICKET, TableSeat,
};
use crate::turn::Turn;
use std::marker::Model;
use std::sync::Wait;
use std::thread;

/// A ticket lock (Reed and Kanodia 1979) over one value, with 1 to 16 seats.
/// A seat draws a ticket and waits until it is served; so the seats have the value one after
/// another, in the order in which they drew. A lock has to be closed, which gives the value back.
pub struct TurnLock<S: Filed> {
    pub(crate) board: Board<S>,
}

impl<S: Filed> Model for TurnLock<S> {
    ghost use Rattle.std.specs.Prelude.{◌≡◌};
    ghost use Rattle.turn_lock.specs.Seat.{Lock};

    ghost Value = { Lock };

    ghost view = { λ l. record {
      table = l.board.shared.table_id;
      opening = S.journal l.board.shared.key.opening.value;
      seats = l.board.shared.key.seats;
    } };

    ghost invariant = { λ l. (l.board.shared.table_id.words ≡ 3) × (l.board.shared.table_id.slots ≡ 1) };
}

// Waits until the ticket is served, and takes the slot.
fn wait_for<S: Filed, R: Wait>(
    rt: &R,
    board: &SharedBoard<S>,
    table_seat: &mut TableSeat<S>,
    mine: u64,
) -> S
    requires table { (table_seat.old.table_id ≡ board.now.table_id) × (board.now.table_id.words ≡ 3) }
    requires seat { (table_seat.old.me.1 ≡ [])
        × (table_seat.old.me.0.stage ≡ Waits (ticket_of table_seat.old.me.0.stage))
        × (mine ≡ ticket_of table_seat.old.me.0.stage % 2 ^ 64) }
    ensures table { table_seat.new.table_id ≡ table_seat.old.table_id }
    ensures seat { table_seat.new.me
        ≡ (
          record table_seat.old.me.0 {
            stage = Holds (ticket_of table_seat.old.me.0.stage);
            seen = S.journal result;
          },
          (0, None) ∷ [],
        ) }
    ensures added { OthersAdded table_seat.old.me.0.numbers table_seat.old.me.0.seen (S.journal result) }
{
    for _ in rt.forever() {
        let now = board.load::<Serve>(table_seat, SERVING);
        if now == mine {
            return board.exchange(table_seat, 0, None).unwrap();
        }
        thread::yield_now();
    }
    unreachable!()
}

impl<S: Filed> TurnLock<S> {
    /// Waits for a turn of the seat, which then has the value. Nothing says when the turn comes.
    pub fn take<R: Wait>(&self, rt: &R, seat: TurnSeat) -> (Turn<'_, S>, S)
        requires { seat.table ≡ self.now.table }
        ensures turn { result.0 ≡ with_found seat (S.journal result.1) }
        ensures added { OthersAdded (numbers_of seat) seat.seen (S.journal result.1) }
        ensures bounded { All (λ front. front ≤ length (S.journal result.1).entries) seat.found }
    {
        let TurnSeat {
            badge,
            front: _,
            number,
        } = seat;
        let mut table_seat: TableSeat<S> = badge.into_seat();
        let board = &self.board.shared;
        let ticket = board.fetch_add::<Draw>(&mut table_seat, TICKET, 1);
        let value = wait_for(rt, board, &mut table_seat, ticket);
        board.load::<Look>(&mut table_seat, FRONT);
        let front = value.filed();
        let turn = Turn {
            lock: self,
            table_seat,
            front,
            ticket,
            number,
        };
        (turn, value)
    }

    /// Makes one seat of two: `a`, which now has the numbers of both and the longer journal.
    pub fn join(&self, a: TurnSeat, b: TurnSeat) -> TurnSeat
        requires tables { (a.table ≡ self.now.table) × (b.table ≡ self.now.table) }
        ensures seat { result ≡ with_joined a b }
        ensures a { OthersAdded (numbers_of a) a.seen result.seen }
        ensures b { OthersAdded (numbers_of b) b.seen result.seen }
    {
        let TurnSeat {
            badge,
            front,
            number,
        } = a;
        let TurnSeat {
            badge: other,
            front: other_front,
            number: _,
        } = b;
        let mut table_seat: TableSeat<S> = badge.into_seat();
        let board = &self.board.shared;
        board.join_seat::<Merge>(&mut table_seat, other.into_seat());
        board.load::<Recall>(&mut table_seat, FRONT);
        TurnSeat {
            badge: table_seat.into_badge(),
            front: front.max(other_front),
            number,
        }
    }

    /// Ends the lock by its last seat, and gives the value back.
    pub fn close(self, seat: TurnSeat) -> S
        requires lock { seat.table ≡ self.table }
        requires last { IsLast self seat }
        ensures value { S.journal result ≡ seat.seen }
        ensures entries { AddedBy (numbers_of seat) self.opening seat.seen }
    {
        let TurnSeat {
            badge,
            front: _,
            number: _,
        } = seat;
        let TurnLock { board } = self;
        let mut closed = board.close_with(badge.into_seat());
        let value = closed.take(0).unwrap();
        closed.free();
        value
    }
}
