//! How passes are joined, and how a desk is closed.

ghost use Rattle.std.specs.Prelude.{◌≡◌, ◌<◌, vec_len};
ghost use Rattle.std.specs.List.{All};
ghost use Rattle.turn_lock.specs.Journal.{OthersAdded};
ghost use Rattle.turn_lock.specs.Seat.{numbers_of, with_joined, AreAll};
ghost use Rattle.desk.specs.Closing.{Gathers, Closes};

use crate::desk::Desk;
use crate::pass::Pass;
use store::Store;
use turn_lock::{TurnLock, TurnSeat};

// Joins all these passes, one by one, into the seat of the first.
fn join_all(lock: &TurnLock<Store>, passes: Vec<Pass>) -> TurnSeat
    requires lock { All (λ p. p.table ≡ lock.now.table) passes.items }
    requires some { 0 < vec_len passes }
    ensures lock { result.table ≡ lock.now.table }
    ensures all { Gathers passes.items result }
{
    let mut passes = passes;
    let mut left = passes.len() - 1;
    let mut all = passes.remove(0).seat;
    while left > 0 {
        let next = passes.remove(0);
        all = lock.join(all, next.seat);
        left -= 1;
    }
    all
}

impl Desk {
    /// Makes one pass of two: `a`, which now has the authors of both and the longer history. It takes
    /// no memory.
    pub fn join(&self, a: Pass, b: Pass) -> Pass
        requires desk { (a.table ≡ self.now.table) × (b.table ≡ self.now.table) }
        ensures pass { result ≡ with_joined a b }
        ensures a { OthersAdded (numbers_of a) a.seen result.seen }
        ensures b { OthersAdded (numbers_of b) b.seen result.seen }
    {
        Pass {
            seat: self.lock.join(a.seat, b.seat),
        }
    }

    /// Joins all passes and ends the desk. It gives the store, and takes no memory.
    pub fn close(self, passes: Vec<Pass>) -> Store
        requires all { AreAll self passes.items }
        ensures store { Closes self passes.items result.journal }
    {
        let Desk { lock, alloc: _ } = self;
        let seat = join_all(&lock, passes);
        lock.close(seat)
    }
}
