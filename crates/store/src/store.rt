//! The store: the newest version, and how plans are committed.

ghost use Rattle.std.specs.Prelude.{◌≡◌, ◌<◌, ◌≤◌, ◌+◌, [], None, length, IfOk, OnOk, OnErr};
ghost use Rattle.ground_num.specs.Head.{IsOrigin};
ghost use Rattle.ground_model.specs.History.{IsLegal};
ghost use Rattle.turn_lock.specs.Journal.{IsPrefix};
ghost use Rattle.store.specs.Versions.{newest_refusal, with_next, as_pending, IsMadeBy};
ghost use Rattle.store.specs.Costs.{most_steps};
ghost use Rattle.store.specs.Answers.{Applies, Commits, Settles, Tries, IsNoConflict, at_front};

use crate::answers::{Applied, Commit, Settled};
use crate::outcome::Outcome;
use crate::plan::Plan;
use crate::state::{Made, empty_state};
use crate::version::Version;
use ground_model::{Edit, Limits};
use ground_num::Head;
use page_vec::{Shared, Steps};
use std::alloc::{AllocError, Global};
use std::marker::Model;
use std::mem;
use std::sync::ledger::Ledger;
use turn_lock::Filed;

/// One surface: its newest version. Its journal only grows, by one entry at a time.
#[derive(Drop)]
pub struct Store {
    newest: Version,
}

impl Model for Store {
    ghost use Rattle.store.specs.Versions.{StoreView};

    ghost Value = { StoreView };

    ghost view = { λ s. record { journal = s.newest.journal } };
}

impl Store {
    /// An empty surface with this head and these limits.
    pub fn empty(alloc: Global, head: Head, limits: Limits) -> Result<Store, AllocError>
        requires { IsOrigin head.origin }
        ensures { IfOk result (λ store. store.journal ≡ record { head = head; limits = limits; entries = [] }) }
    {
        let state = Shared::new(alloc, empty_state(alloc, head, limits)?)?;
        Ok(Store {
            newest: Version { state },
        })
    }

    /// How many entries the journal has.
    pub fn front(&self) -> u32
        ensures value { result ≡ length self.now.journal.entries }
        ensures legal { IsLegal self.now.journal.limits self.now.journal.entries }
    {
        self.newest.front()
    }

    /// The newest version. It costs one reference.
    pub fn newest(&self) -> Result<Version, AllocError>
        ensures { IfOk result (λ version. version.journal ≡ self.now.journal) }
    {
        self.newest.share()
    }

    // Makes a lawful edit, whose surface this is, as the author's next entry. Gives the version with
    // it, and the one before.
    fn enter<L: Ledger>(
        &mut self,
        author: u16,
        edit: Edit,
        made: Shared<Made>,
        steps: &mut Steps<L>,
    ) -> Result<(Version, Version), AllocError>
        requires lawful { newest_refusal self.old.journal edit ≡ None }
        requires made { IsMadeBy self.old.journal edit made }
        ensures ok { OnOk result (self.new.journal ≡ with_next author self.old.journal edit) }
        ensures version { IfOk result (λ r. r.0.journal ≡ self.new.journal) }
        ensures before { IfOk result (λ r. r.1.journal ≡ self.old.journal) }
        ensures err { OnErr result (self.new.journal ≡ self.old.journal) }
        ensures cost { steps.new ≤ steps.old + 1 }
    {
        let version = self.newest.with_entry(author, edit, made, steps)?;
        let handle = version.share()?;
        let before = mem::replace(&mut self.newest, version);
        Ok((handle, before))
    }

    // Makes the edit as the author's next entry, if it is lawful on the newest version.
    fn make<L: Ledger>(
        &mut self,
        author: u16,
        edit: Edit,
        steps: &mut Steps<L>,
    ) -> Result<Settled, AllocError>
        ensures ok { IfOk result (Tries author edit self.old.journal self.new.journal) }
        ensures err { OnErr result (self.new.journal ≡ self.old.journal) }
        ensures cost { steps.new ≤ steps.old + 1 }
    {
        match self.newest.outcome(&edit)? {
            Outcome::Lawful(made) => {
                let line = self.newest.new_line(&edit);
                let made = self.newest.shared(made)?;
                let (version, before) = self.enter(author, edit, made, steps)?;
                Ok(Settled::Done(version, line, before))
            }
            Outcome::Refused(cause) => Ok(Settled::Refused(self.newest.share()?, cause, edit)),
        }
    }

    // Settles a plan of an older version: a conflict, or what the edit comes to on the newest one.
    fn settle_stale<L: Ledger>(
        &mut self,
        author: u16,
        plan: &Plan,
        copy: Edit,
        steps: &mut Steps<L>,
    ) -> Result<Settled, AllocError>
        requires prefix { IsPrefix plan.now.journal self.old.journal }
        requires stale { length plan.now.journal.entries < length self.old.journal.entries }
        requires copy { copy ≡ plan.now.edit }
        ensures answer { Settles author (as_pending plan.now) self.old.journal self.new.journal result }
        ensures cost { steps.new ≤ steps.old + 1 }
    {
        if let Some(mark) = plan.first_changed(&self.newest) {
            return Ok(Settled::Conflict(self.newest.share()?, mark, copy));
        }
        self.make(author, copy, steps)
    }

    // Settles a plan of the newest version, which is lawful there: its surface is taken over.
    fn settle_fresh<L: Ledger>(
        &mut self,
        author: u16,
        plan: &Plan,
        copy: Edit,
        steps: &mut Steps<L>,
    ) -> Result<Settled, AllocError>
        requires plan { plan.now.journal ≡ self.old.journal }
        requires copy { copy ≡ plan.now.edit }
        ensures answer { Settles author (as_pending plan.now) self.old.journal self.new.journal result }
        ensures cost { steps.new ≤ steps.old + 1 }
    {
        let line = self.newest.new_line(&copy);
        let made = plan.made()?;
        let (version, before) = self.enter(author, copy, made, steps)?;
        Ok(Settled::Done(version, line, before))
    }

    /// Commits a plan, which stays with the caller, as `commit` does. The copy of its edit is what the
    /// entry will have, and where there was no memory for it, there is none for the commit.
    pub fn settle_plan<L: Ledger>(
        &mut self,
        author: u16,
        plan: &Plan,
        copy: Result<Edit, AllocError>,
        steps: &mut Steps<L>,
    ) -> Result<Settled, AllocError>
        requires prefix { IsPrefix plan.now.journal self.old.journal }
        requires copy { IfOk copy (λ edit. edit ≡ plan.now.edit) }
        ensures answer { Settles author (as_pending plan.now) self.old.journal self.new.journal result }
        ensures cost { steps.new ≤ steps.old + most_steps plan.now.journal plan.now.edit self.old.journal self.new.journal }
    {
        let copy = copy?;
        if plan.base() < self.newest.front() {
            self.settle_stale(author, plan, copy, steps)
        } else {
            self.settle_fresh(author, plan, copy, steps)
        }
    }

    /// Applies an edit, which stays with the caller, as `apply` does. The copy of it is what the entry
    /// will have, and where there was no memory for it, there is none for the edit.
    pub fn settle<L: Ledger>(
        &mut self,
        author: u16,
        edit: &Edit,
        copy: Result<Edit, AllocError>,
        steps: &mut Steps<L>,
    ) -> Result<Settled, AllocError>
        requires copy { IfOk copy (λ copy. copy ≡ edit.now) }
        ensures answer { Settles author (at_front self.old.journal edit.now) self.old.journal self.new.journal result }
        ensures no_conflict { IsNoConflict result }
        ensures cost { steps.new ≤ steps.old + most_steps self.old.journal edit.now self.old.journal self.new.journal }
    {
        let _ = edit;
        self.make(author, copy?, steps)
    }

    /// Commits a plan: makes its edit as the author's next entry, unless a mark of its zone has
    /// changed since the plan, which is a conflict, or the edit is unlawful on the newest version. A
    /// plan of the newest version brings its surface, and for any other the newest surface is
    /// triangulated anew. Unless the edit is made, the store is as before.
    pub fn commit<L: Ledger>(&mut self, author: u16, plan: Plan, steps: &mut Steps<L>) -> Commit
        requires { IsPrefix plan.journal self.old.journal }
        ensures answer { Commits author plan self.old.journal self.new.journal result }
        ensures cost { steps.new ≤ steps.old + most_steps plan.journal plan.edit self.old.journal self.new.journal }
    {
        let copy = plan.copied_edit();
        let settled = self.settle_plan(author, &plan, copy, steps);
        Commit::of(settled, plan)
    }

    /// Plans an edit on the newest version and commits it at once.
    pub fn apply<L: Ledger>(&mut self, author: u16, edit: Edit, steps: &mut Steps<L>) -> Applied
        ensures answer { Applies author edit self.old.journal self.new.journal result }
        ensures cost { steps.new ≤ steps.old + most_steps self.old.journal edit self.old.journal self.new.journal }
    {
        let copy = self.newest.copied(&edit);
        let settled = self.settle(author, &edit, copy, steps);
        Applied::of(settled, edit)
    }
}

impl Filed for Store {
    ghost journal = { λ store. store.journal };

    fn filed(&self) -> u32 {
        self.newest.front()
    }
}
