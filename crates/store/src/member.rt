//! A session of a run: what it holds, and what its events do.

ghost use Rattle.std.specs.Prelude.{◌≡◌, None, Some, length, IfOk};
ghost use Rattle.ground_model.specs.History.{content_of};
ghost use Rattle.ground_model.specs.Zone.{zone};
ghost use Rattle.turn_lock.specs.Journal.{IsPrefix};
ghost use Rattle.turn_lock.specs.declared.journal.Journal.{Journal};
ghost use Rattle.store.specs.declared.event.CoreReply.TheVariants.{Planned};
ghost use Rattle.store.specs.Versions.{as_pending};
ghost use Rattle.store.specs.Answers.{answer_at};
ghost use Rattle.store.specs.Core.{held, plan_at, answered, committed, applied, read};
ghost use Rattle.store.specs.Members.{holding_of, Makes};

use crate::answers::{Applied, Commit};
use crate::event::{CoreReply, Query};
use crate::plan::{Plan, PlanFault};
use crate::state::copied;
use crate::store::Store;
use crate::version::Version;
use contours::contour;
use ground_model::Edit;
use measures::{level, volume};
use page_vec::Steps;
use std::alloc::{AllocError, Global};
use std::marker::Model;
use std::sync::ledger::Ledger;

/// A session of a run: the version that it holds, and its pending plan.
#[derive(Drop)]
pub(crate) struct Member {
    version: Version,
    plan: Option<Plan>,
}

impl Model for Member {
    ghost use Rattle.std.specs.Prelude.{option_map};
    ghost use Rattle.store.specs.Versions.{as_pending, IsPending};
    ghost use Rattle.store.specs.Members.{MemberView};

    ghost Value = { MemberView };

    ghost view = { λ m. record { journal = m.version.journal; pending = option_map as_pending m.plan } };

    ghost invariant = { λ m. IsPending m.version.journal m.plan };
}

impl Member {
    /// One who holds this version, without a plan.
    pub(crate) fn start(version: Version) -> Member
        ensures { result ≡ record { journal = version.journal; pending = None } }
    {
        Member {
            version,
            plan: None,
        }
    }

    // Holds this version, and gives its front.
    fn holds(&mut self, version: Version) -> u32
        requires { IsPrefix self.old.journal version.journal }
        ensures front { result ≡ length version.journal.entries }
        ensures holds { self.new ≡ record self.old { journal = version.journal } }
    {
        self.version = version;
        self.version.front()
    }

    /// Holds the newest version.
    pub(crate) fn hold(&mut self, store: &Store) -> Result<CoreReply, AllocError>
        requires { IsPrefix self.old.journal store.now.journal }
        ensures { IfOk result (Makes (store.now.journal, store.now.journal) (held store.now.journal.entries (holding_of self.old)) self.new) }
    {
        let version = store.newest()?;
        Ok(CoreReply::Held(self.holds(version)))
    }

    // Keeps a plan of the held version as the pending one.
    fn keep(&mut self, plan: Plan) -> CoreReply
        requires { plan.journal ≡ self.old.journal }
        ensures reply { result ≡ Planned (length plan.journal.entries) (length (zone (content_of plan.journal.entries) plan.edit)) }
        ensures kept { self.new ≡ record self.old { pending = Some (as_pending plan) } }
    {
        let reply = CoreReply::Planned(plan.base(), plan.zone());
        self.plan = Some(plan);
        reply
    }

    /// Plans an edit on the held version. A refusal leaves the pending plan.
    pub(crate) fn plan(&mut self, alloc: Global, edit: &Edit) -> Result<CoreReply, AllocError>
        ensures { IfOk result (λ reply. (j : Journal) → IsPrefix self.old.journal j → Makes (j, j) (plan_at j.limits j.entries (holding_of self.old) edit.now) self.new reply) }
    {
        match self.version.plan(copied(alloc, edit)?) {
            Ok(plan) => Ok(self.keep(plan)),
            Err(PlanFault::Refused(_edit, cause)) => {
                Ok(CoreReply::Refused(self.version.front(), cause))
            }
            Err(PlanFault::Memory(_edit)) => Err(AllocError),
        }
    }

    // Commits a plan, which was the pending one.
    fn commit_plan<L: Ledger>(
        &mut self,
        author: u16,
        plan: Plan,
        store: &mut Store,
        steps: &mut Steps<L>,
    ) -> Result<CoreReply, AllocError>
        requires held { IsPrefix self.old.journal store.old.journal }
        requires plan { IsPrefix plan.journal self.old.journal }
        requires none { self.old.pending ≡ None }
        ensures { IfOk result (Makes (store.old.journal, store.new.journal) (answered author store.old.journal.entries None plan.edit (answer_at store.old.journal (length plan.journal.entries) plan.edit)) self.new) }
    {
        match store.commit(author, plan, steps) {
            Commit::Done(version, line) => Ok(CoreReply::Done(self.holds(version), line)),
            Commit::Conflict(version, mark, _edit) => {
                Ok(CoreReply::Conflict(self.holds(version), mark))
            }
            Commit::Refused(version, cause) => Ok(CoreReply::Refused(self.holds(version), cause)),
            Commit::Memory(_plan) => Err(AllocError),
        }
    }

    /// Commits the pending plan, if there is one.
    pub(crate) fn commit<L: Ledger>(
        &mut self,
        author: u16,
        store: &mut Store,
        steps: &mut Steps<L>,
    ) -> Result<CoreReply, AllocError>
        requires { IsPrefix self.old.journal store.old.journal }
        ensures { IfOk result (Makes (store.old.journal, store.new.journal) (committed store.old.journal.limits author store.old.journal.entries (holding_of self.old) self.old.pending) self.new) }
    {
        match self.plan.take() {
            Some(plan) => self.commit_plan(author, plan, store, steps),
            None => Ok(CoreReply::NoPlan),
        }
    }

    /// Plans an edit on the newest version and commits it at once.
    pub(crate) fn apply<L: Ledger>(
        &mut self,
        author: u16,
        edit: Edit,
        store: &mut Store,
        steps: &mut Steps<L>,
    ) -> Result<CoreReply, AllocError>
        requires { IsPrefix self.old.journal store.old.journal }
        ensures { IfOk result (Makes (store.old.journal, store.new.journal) (applied store.old.journal.limits author store.old.journal.entries (holding_of self.old) edit) self.new) }
    {
        match store.apply(author, edit, steps) {
            Applied::Done(version, line) => Ok(CoreReply::Done(self.holds(version), line)),
            Applied::Refused(version, cause) => Ok(CoreReply::Refused(self.holds(version), cause)),
            Applied::Memory(_edit) => Err(AllocError),
        }
    }

    /// Reads the held version.
    pub(crate) fn read(&self, alloc: Global, query: &Query) -> Result<CoreReply, AllocError>
        ensures { IfOk result (λ reply. reply ≡ read (length self.now.journal.entries) (content_of self.now.journal.entries) query.now) }
    {
        let front = self.version.front();
        match query {
            Query::Level(place) => Ok(CoreReply::Level(front, level(&self.version, *place))),
            Query::Contour(level) => {
                Ok(CoreReply::Contour(front, contour(alloc, &self.version, *level)?))
            }
            Query::Volume(datum) => Ok(CoreReply::Volume(front, volume(&self.version, *datum))),
            Query::Stat => {
                Ok(CoreReply::Stat(front, self.version.points(), self.version.lines()))
            }
        }
    }
}
