//! What is done on the store in a turn, and how the turn ends.

ghost use Rattle.std.specs.Prelude.{◌≡◌, ◌<◌, Ok, IfOk};
ghost use Rattle.ground_model.specs.declared.edit.Edit.{Edit as Seen};
ghost use Rattle.turn_lock.specs.Journal.{IsPrefix};
ghost use Rattle.store.specs.Versions.{as_pending, with_next};
ghost use Rattle.store.specs.Answers.{Settles, IsNoConflict, at_front};
ghost use Rattle.desk.specs.Turns.{IsSettled, with_seen};

use ground_model::Edit;
use page_vec::Steps;
use std::alloc::AllocError;
use std::sync::ledger::{Blank, Ledger};
use store::{Plan, Settled, Store, Version};
use turn_lock::{Turn, TurnSeat};

/// Settles a plan, counted by a counter of its own.
pub(crate) fn settle_plan<L: Ledger>(
    store: &mut Store,
    author: u16,
    plan: &Plan,
    copy: Result<Edit, AllocError>,
    blank: Blank,
) -> Result<Settled, AllocError>
    requires name { blank.name ≡ L.name }
    requires parts { blank.parts ≡ L.parts }
    requires writable { 0 < L.parts }
    requires prefix { IsPrefix plan.now.journal store.old.journal }
    requires copy { IfOk copy (λ edit. edit ≡ plan.now.edit) }
    ensures { Settles author (as_pending plan.now) store.old.journal store.new.journal result }
{
    store.settle_plan(author, plan, copy, &mut Steps::<L>::new(blank))
}

/// Settles an edit, counted by a counter of its own.
pub(crate) fn settle_edit<L: Ledger>(
    store: &mut Store,
    author: u16,
    edit: &Edit,
    copy: Result<Edit, AllocError>,
    blank: Blank,
) -> Result<Settled, AllocError>
    requires name { blank.name ≡ L.name }
    requires parts { blank.parts ≡ L.parts }
    requires writable { 0 < L.parts }
    requires copy { IfOk copy (λ copy. copy ≡ edit.now) }
    ensures answer { Settles author (at_front store.old.journal edit.now) store.old.journal store.new.journal result }
    ensures no_conflict { IsNoConflict result }
{
    store.settle(author, edit, copy, &mut Steps::<L>::new(blank))
}

// Notes the last entry of the version, which the store got in this turn.
fn note_last<'a>(turn: Turn<'a, Store>, version: &Version) -> Turn<'a, Store>
    requires { (edit : Seen) × (version.now.journal ≡ with_next turn.number turn.seen edit) }
    ensures { result ≡ with_seen turn.entry version.now.journal }
{
    match version.entry(version.front() - 1) {
        Some(entry) => turn.note(entry),
        None => unreachable!(),
    }
}

// Ends a turn in which there was memory.
fn end_settled(turn: Turn<'_, Store>, store: Store, settled: &Settled) -> TurnSeat
    requires { IsSettled turn store.journal (Ok settled.now) }
    ensures { result ≡ with_seen turn.entry store.journal }
{
    match settled {
        Settled::Done(version, _, _) => note_last(turn, version).leave(store),
        Settled::Conflict(_, _, _) | Settled::Refused(_, _, _) => turn.leave(store),
    }
}

/// Ends a turn: notes the entry if one was made, and passes the store on. Nothing is dropped.
pub(crate) fn end_turn(
    turn: Turn<'_, Store>,
    store: Store,
    settled: &Result<Settled, AllocError>,
) -> TurnSeat
    requires { IsSettled turn store.journal settled.now }
    ensures { result ≡ with_seen turn.entry store.journal }
{
    match settled {
        Ok(settled) => end_settled(turn, store, settled),
        Err(AllocError) => turn.leave(store),
    }
}
