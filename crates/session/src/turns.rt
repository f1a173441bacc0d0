//! Who makes the turns of a session.

ghost use Rattle.std.specs.Prelude.{◌≡◌, ◌<◌, ◌∷◌, [], true, IfOk, length};
ghost use Rattle.line_protocol.specs.Replies.{HasVolumeWithin};
ghost use Rattle.turn_lock.specs.Journal.{IsPrefix, OthersAdded};
ghost use Rattle.session.specs.Sessions.{TurnStep, takes_turn};
ghost use Rattle.session.specs.Turns.{TakesTurn};

use crate::session::{Session, turn_step};
use line_protocol::{Reply, Request};
use page_vec::Steps;
use std::alloc::AllocError;
use std::marker::Brand;
use std::sync::ledger::{Blank, Ledger};
use store::{Store, Version};

/// The author of the edits of a session that has the store to itself.
pub(crate) const AUTHOR: u16 = 1;

/// Who makes the turns of a session: a store that the session has to itself, or a pass to one that
/// others edit too.
pub trait Turns {
    ghost use Rattle.std.specs.Prelude.{ℕ, List, [], ◌++◌};
    ghost use Rattle.turn_lock.specs.declared.journal.Journal.{Journal};

    /// It can make a turn.
    ghost Ready: { Self → Type 0 };

    /// The author of the entries that its turns make.
    ghost number: { Self → ℕ };

    /// The history that it has seen.
    ghost seen: { Self → Journal };

    /// From the one to the other it found these fronts, one in each turn.
    ghost Finds: { Self → Self → List ℕ → Type 0 };

    /// The author.
    fn author(&self) -> u16
        requires { Ready self.now }
        ensures { result ≡ number self.now };

    /// The newest version, in a turn.
    fn hold(&mut self) -> Result<Version, AllocError>
        requires { Ready self.old }
        ensures ready { Ready self.new }
        ensures version { IfOk result (λ version. version.journal ≡ seen self.new) }
        ensures added { OthersAdded (number self.old ∷ []) (seen self.old) (seen self.new) }
        ensures finds { Finds self.old self.new (length (seen self.new).entries ∷ []) }
        ensures author { number self.new ≡ number self.old };

    /// Answers a request that takes a turn, in one.
    fn turn(&mut self, session: &mut Session, request: Request) -> Reply
        requires ready { Ready self.old }
        requires turn { takes_turn session.old.pending request ≡ true }
        requires author { session.old.author ≡ number self.old }
        requires prefix { IsPrefix session.old.journal (seen self.old) }
        ensures ready { Ready self.new }
        ensures turn { TakesTurn (number self.old) (seen self.old, seen self.new) session.old session.new request result (Finds self.old self.new) }
        ensures author { number self.new ≡ number self.old }
        ensures volume { HasVolumeWithin result };

    /// Is told right before a reply is written.
    fn before_reply(&mut self)
        requires { Ready self.old }
        ensures ready { Ready self.new }
        ensures seen { seen self.new ≡ seen self.old }
        ensures finds { Finds self.old self.new [] }
        ensures author { number self.new ≡ number self.old };

    /// Without a turn nothing is found.
    ghost finds_none: { (x : Self) → Finds x x [] };

    /// What is found first comes before what is found later.
    ghost finds_both: { (x y z : Self) (fs gs : List ℕ) → Finds x y fs → Finds y z gs → Finds x z (fs ++ gs) };
}

// Answers a request in a turn on the store, counted by a counter of its own.
fn turn_on<L: Ledger>(
    store: &mut Store,
    session: &mut Session,
    request: Request,
    blank: Blank,
) -> Reply
    requires name { blank.name ≡ L.name }
    requires parts { blank.parts ≡ L.parts }
    requires writable { 0 < L.parts }
    requires turn { takes_turn session.old.pending request ≡ true }
    requires prefix { IsPrefix session.old.journal store.old.journal }
    ensures step { TurnStep (store.old.journal, store.new.journal) session.old session.new request result }
    ensures volume { HasVolumeWithin result }
{
    turn_step(store, session, request, &mut Steps::<L>::new(blank))
}

impl Turns for Store {
    ghost use Rattle.std.specs.Prelude.{◌∷◌, [], ⊤};
    ghost use Rattle.turn_lock.specs.Journal.{AddedBy};
    ghost use Rattle.session.specs.Alone.{added_none, added_both};

    ghost Ready = { λ _. ⊤ };

    ghost number = { λ _. 1 };

    ghost seen = { λ s. s.journal };

    ghost Finds = { λ x y fronts. AddedBy (1 ∷ []) x.journal y.journal };

    fn author(&self) -> u16 {
        AUTHOR
    }

    fn hold(&mut self) -> Result<Version, AllocError> {
        self.newest()
    }

    fn turn(&mut self, session: &mut Session, request: Request) -> Reply {
        let reply = turn_on::<Brand>(self, session, request, Blank::new(1));
        // Only the proof reads it: a store's journal is legal.
        let _front = self.front();
        reply
    }

    fn before_reply(&mut self) {}

    ghost finds_none = { λ x. added_none (1 ∷ []) x.journal };

    ghost finds_both = { λ x y z fs gs p q. added_both (1 ∷ []) x.journal y.journal z.journal p q };
}
