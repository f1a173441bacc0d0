//! A lock is made, with its seats.

ghost use Rattle.std.specs.Prelude.{◌≡◌, ℕ, ◌+◌, ◌-◌, ◌<◌, ◌≤◌, [], length, vec_len, vec_capacity, IfOk, IfErr, Some, slice_get};
ghost use Rattle.turn_lock.specs.Rule.{IsSeat};
ghost use Rattle.turn_lock.specs.Seat.{fresh_seat, AreFirst};
ghost use Rattle.turn_lock.specs.Steps.{opener};

use crate::filed::Filed;
use crate::lock::TurnLock;
use crate::seat::TurnSeat;
use crate::steps::{Another, Board, Key, SharedBoard, TableSeat};
use atomic_table::{Refused, Table};
use std::alloc::{AllocFailed, Global};
use std::snapshot::Snapshot;

// The table, with the value in its slot, and its first seat.
fn open_board<S: Filed>(
    alloc: Global,
    value: S,
    front: u32,
    seats: u16,
) -> Result<(Board<S>, TableSeat<S>), S>
    requires { (0 < seats) × (front ≡ length (S.journal value).entries) }
    ensures table { IfOk result (λ r. (r.0.shared.table_id.words ≡ 3)
        × (r.0.shared.table_id.slots ≡ 1)
        × (r.1.table_id ≡ r.0.shared.table_id)) }
    ensures key { IfOk result (λ r. (r.0.shared.key.opening.value ≡ value)
        × (r.0.shared.key.seats ≡ seats)) }
    ensures seat { IfOk result (λ r. r.1.me ≡ (opener (S.journal value), [])) }
    ensures err { IfErr result (λ v. v ≡ value) }
{
    let about = Key {
        opening: Snapshot::of(&value),
        seats,
    };
    let mut slots = Vec::new(alloc);
    if let Err(failed) = slots.push(Some(value)) {
        let AllocFailed { value } = failed;
        slots.destroy_empty();
        return Err(value.unwrap());
    }
    match Table::new(alloc, &[u64::from(front), 0, 0], slots, &about) {
        Ok((board, first)) => Ok((board, first)),
        Err(Refused { mut slots }) => {
            let value = slots.pop().unwrap().unwrap();
            slots.destroy_empty();
            Err(value)
        }
    }
}

// Splits the first seat into itself and the seats from number 2 on.
fn split_seats<S: Filed>(
    board: &SharedBoard<S>,
    table_seat: &mut TableSeat<S>,
    others: &mut Vec<TurnSeat>,
    front: u32,
    more: u16,
)
    requires table { (table_seat.old.table_id ≡ board.now.table_id) × (board.now.table_id.words ≡ 3) }
    requires seat { (table_seat.old.me.1 ≡ [])
        × (table_seat.old.me.0.given ≡ 1)
        × (front ≡ length table_seat.old.me.0.seen.entries)
        × IsSeat table_seat.old.me.0 }
    requires room { (vec_len others.old ≡ 0)
        × (more < vec_capacity others.old)
        × (1 + more ≤ board.now.key.seats)
        × (more < 16) }
    ensures table { table_seat.new.table_id ≡ table_seat.old.table_id }
    ensures seat { table_seat.new.me ≡ (record table_seat.old.me.0 { given = 1 + more }, []) }
    ensures count { vec_len others.new ≡ more }
    ensures others { (k : ℕ) → k < more → slice_get others.new.items k
        ≡ Some (fresh_seat board.now.table_id table_seat.old.me.0.seen (k + 2)) }
    ensures room { vec_capacity others.new ≡ vec_capacity others.old }
{
    for i in 0..more {
        let badge = board.split_seat::<Another>(table_seat).into_badge();
        others.push_reserved(TurnSeat {
            badge,
            front,
            number: i + 2,
        });
    }
}

impl<S: Filed> TurnLock<S> {
    /// A lock over the value, and its seats in the order of their numbers.
    /// Where memory can't be had, it hands the value back.
    pub fn new(alloc: Global, value: S, seats: u16) -> Result<(TurnLock<S>, Vec<TurnSeat>), S>
        requires { (0 < seats) × (seats ≤ 16) }
        ensures lock { IfOk result (λ r. (r.0.opening ≡ S.journal value) × (r.0.seats ≡ seats)) }
        ensures seats { IfOk result (λ r. AreFirst r.0 r.1.items) }
        ensures err { IfErr result (λ v. v ≡ value) }
    {
        let Ok(mut all) = Vec::with_capacity(alloc, usize::from(seats)) else {
            return Err(value);
        };
        let front = value.filed();
        let (board, mut first) = open_board(alloc, value, front, seats)?;
        split_seats(&board.shared, &mut first, &mut all, front, seats - 1);
        let seat = TurnSeat {
            badge: first.into_badge(),
            front,
            number: 1,
        };
        let Ok(()) = all.insert(0, seat) else {
            unreachable!()
        };
        Ok((TurnLock { board }, all))
    }
}
