//! The desk: how it is opened, and what a pass does in a turn.

ghost use Rattle.std.specs.Prelude.{◌≡◌, ◌++◌, ◌<◌, ◌≤◌, vec_len, vec_capacity, IfOk, IfErr};
ghost use Rattle.ground_model.specs.History.{IsLegal};
ghost use Rattle.turn_lock.specs.Journal.{IsPrefix};
ghost use Rattle.turn_lock.specs.Seat.{AreFirst};
ghost use Rattle.desk.specs.Turns.{Finds, CommitsInTurn, AppliesInTurn};

use crate::pass::Pass;
use crate::turn::{end_turn, settle_edit, settle_plan};
use ground_model::Edit;
use std::alloc::{AllocError, Global};
use std::marker::{Brand, Model};
use std::sync::Wait;
use std::sync::ledger::Blank;
use store::{Applied, Commit, Plan, Store, Version, copied};
use turn_lock::{TurnLock, TurnSeat};

/// A desk: one store under a ticket lock, and 1 to 16 passes to it. A desk has to be closed, which
/// gives the store back.
///
/// Versions are read and edits are planned on them without a turn. The copy of an edit that its entry
/// will have is made before one, and what a turn leaves is dropped once the store is passed on. A pass
/// that waits for its turn yields the processor.
pub struct Desk {
    pub(crate) lock: TurnLock<Store>,
    pub(crate) alloc: Global,
}

impl Model for Desk {
    ghost use Rattle.std.specs.Prelude.{◌<◌};
    ghost use Rattle.turn_lock.specs.Seat.{Lock};

    ghost Value = { Lock };

    ghost view = { λ d. d.lock };

    ghost invariant = { λ d. 0 < d.lock.seats };
}

// The passes of these seats, in their order.
fn passes_of(seats: Vec<TurnSeat>, room: Vec<Pass>) -> Vec<Pass>
    requires empty { vec_len room ≡ 0 }
    requires room { vec_len seats ≤ vec_capacity room }
    ensures { result.items ≡ seats.items }
{
    let (mut seats, mut passes) = (seats, room);
    while !seats.is_empty() {
        let seat = seats.remove(0);
        passes.push_reserved(Pass { seat });
    }
    passes
}

impl Desk {
    /// A desk over a store, and its passes, whose authors are the numbers from 1 on. Out of memory it
    /// hands the store back.
    pub fn open(alloc: Global, store: Store, passes: u16) -> Result<(Desk, Vec<Pass>), Store>
        requires { (0 < passes) × (passes ≤ 16) }
        ensures desk { IfOk result (λ r. (r.0.opening ≡ store.journal) × (r.0.seats ≡ passes)) }
        ensures passes { IfOk result (λ r. AreFirst r.0 r.1.items) }
        ensures err { IfErr result (λ back. back ≡ store) }
    {
        let Ok(room) = Vec::with_capacity(alloc, usize::from(passes)) else {
            return Err(store);
        };
        let (lock, seats) = TurnLock::new(alloc, store, passes)?;
        Ok((Desk { lock, alloc }, passes_of(seats, room)))
    }

    /// Takes a turn, and gives the newest version in it, at the cost of one reference.
    pub fn hold<R: Wait>(&self, rt: &R, pass: Pass) -> (Pass, Result<Version, AllocError>)
        requires { pass.table ≡ self.now.table }
        ensures turn { Finds pass result.0 result.0.seen }
        ensures version { IfOk result.1 (λ version. version.journal ≡ result.0.seen) }
        ensures legal { IsLegal result.0.seen.limits result.0.seen.entries }
    {
        let (turn, store) = self.lock.take(rt, pass.seat);
        // Only the proof reads it: a store's journal is legal.
        let _front = store.front();
        let version = store.newest();
        let seat = turn.leave(store);
        (Pass { seat }, version)
    }

    /// Takes a turn, and commits a plan in it, as the pass's author. Out of memory the plan comes
    /// back, and nothing is changed but what the pass has seen and found.
    pub fn commit<R: Wait>(&self, rt: &R, pass: Pass, plan: Plan) -> (Pass, Commit)
        requires desk { pass.table ≡ self.now.table }
        requires plan { IsPrefix plan.journal pass.seen }
        ensures turn { CommitsInTurn pass result.0 plan result.1 }
        ensures legal { IsLegal result.0.seen.limits result.0.seen.entries }
    {
        let author = pass.author();
        let copy = plan.copied_edit();
        let (turn, mut store) = self.lock.take(rt, pass.seat);
        let settled = settle_plan::<Brand>(&mut store, author, &plan, copy, Blank::new(1));
        // Only the proof reads it: a store's journal is legal.
        let _front = store.front();
        let seat = end_turn(turn, store, &settled);
        (Pass { seat }, Commit::of(settled, plan))
    }

    /// Takes a turn, and applies an edit in it, as the pass's author: plans it on the newest version
    /// and commits it at once. Out of memory the edit comes back, and nothing is changed but what the
    /// pass has seen and found.
    pub fn apply<R: Wait>(&self, rt: &R, pass: Pass, edit: Edit) -> (Pass, Applied)
        requires { pass.table ≡ self.now.table }
        ensures turn { AppliesInTurn pass result.0 edit result.1 }
        ensures legal { IsLegal result.0.seen.limits result.0.seen.entries }
    {
        let author = pass.author();
        let copy = copied(self.alloc, &edit);
        let (turn, mut store) = self.lock.take(rt, pass.seat);
        let settled = settle_edit::<Brand>(&mut store, author, &edit, copy, Blank::new(1));
        // Only the proof reads it: a store's journal is legal.
        let _front = store.front();
        let seat = end_turn(turn, store, &settled);
        (Pass { seat }, Applied::of(settled, edit))
    }
}
