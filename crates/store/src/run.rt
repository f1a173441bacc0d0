//! A run of the core: events of several sessions, one after another, on one store.

ghost use Rattle.std.specs.Prelude.{◌≡◌, ◌<◌, IfOk};
ghost use Rattle.ground_num.specs.Head.{IsOrigin};
ghost use Rattle.turn_lock.specs.Journal.{IsPrefix};
ghost use Rattle.store.specs.Core.{first_state, move, core_from, core};
ghost use Rattle.store.specs.Members.{holding_of, Makes};
ghost use Rattle.store.specs.Runs.{state_of, IsRun, IsTaken, Serves};

use crate::event::{CoreReply, Event};
use crate::member::Member;
use crate::state::copied;
use crate::store::Store;
use crate::version::Version;
use ground_model::Limits;
use ground_num::Head;
use page_vec::Steps;
use std::alloc::{AllocError, Global};
use std::collections::BTreeMap;
use std::marker::Brand;
use std::sync::ledger::{Blank, Ledger};

/// A store, its first version, and the sessions that had an event.
#[derive(Drop)]
pub(crate) struct Run {
    store: Store,
    first: Version,
    members: BTreeMap<u16, Member>,
    alloc: Global,
}

impl Run {
    // An empty store, and no session.
    fn start(alloc: Global, head: Head, limits: Limits) -> Result<Run, AllocError>
        requires { IsOrigin head.origin }
        ensures run { IfOk result IsRun }
        ensures limits { IfOk result (λ run. run.store.journal.limits ≡ limits) }
        ensures state { IfOk result (λ run. state_of run ≡ first_state) }
    {
        let store = Store::empty(alloc, head, limits)?;
        let first = store.newest()?;
        Ok(Run {
            store,
            first,
            members: BTreeMap::new(alloc),
            alloc,
        })
    }

    // Takes a session out, which holds the first version if it had no event yet.
    fn take(&mut self, session: u16) -> Result<Member, AllocError>
        requires { IsRun self.old }
        ensures { IfOk result (IsTaken (self.old, self.new) session) }
    {
        match self.members.remove(&session) {
            Some(member) => Ok(member),
            None => Ok(Member::start(self.first.share()?)),
        }
    }

    // What a session's event does to it.
    fn answer<L: Ledger>(
        &mut self,
        member: &mut Member,
        event: &Event,
        steps: &mut Steps<L>,
    ) -> Result<CoreReply, AllocError>
        requires { IsPrefix member.old.journal self.old.store.journal }
        ensures moves { IfOk result (Makes (self.old.store.journal, self.new.store.journal) (move self.old.store.journal.limits self.old.store.journal.entries (holding_of member.old) event.now) member.new) }
        ensures first { self.new.first ≡ self.old.first }
        ensures members { self.new.members.entries ≡ self.old.members.entries }
    {
        match event {
            Event::Hold(_) => member.hold(&self.store),
            Event::Plan(_, edit) => member.plan(self.alloc, edit),
            Event::Commit(session) => member.commit(*session, &mut self.store, steps),
            Event::Apply(session, edit) => {
                let edit = copied(self.alloc, edit)?;
                member.apply(*session, edit, &mut self.store, steps)
            }
            Event::Read(_, query) => member.read(self.alloc, query),
        }
    }

    // One event.
    fn step<L: Ledger>(
        &mut self,
        event: &Event,
        steps: &mut Steps<L>,
    ) -> Result<CoreReply, AllocError>
        requires { IsRun self.old }
        ensures { IfOk result (Serves (self.old, self.new) event.now) }
    {
        let session = event.session();
        let mut member = self.take(session)?;
        let reply = self.answer(&mut member, event, steps)?;
        self.members.insert(session, member)?;
        Ok(reply)
    }

    // Some events, one after another.
    fn answer_all<L: Ledger>(
        &mut self,
        events: &[Event],
        steps: &mut Steps<L>,
    ) -> Result<Vec<CoreReply>, AllocError>
        requires { IsRun self.old }
        ensures { IfOk result (λ replies. replies.items ≡ (core_from self.old.store.journal.limits (state_of self.old) events.now).1) }
    {
        let mut replies = Vec::with_capacity(self.alloc, events.len())?;
        for event in events {
            replies.push(self.step(event, steps)?)?;
        }
        Ok(replies)
    }
}

// Some events, counted by a counter of their own.
fn run_counted<L: Ledger>(
    run: &mut Run,
    events: &[Event],
    blank: Blank,
) -> Result<Vec<CoreReply>, AllocError>
    requires name { blank.name ≡ L.name }
    requires parts { blank.parts ≡ L.parts }
    requires writable { 0 < L.parts }
    requires run { IsRun run.old }
    ensures { IfOk result (λ replies. replies.items ≡ (core_from run.old.store.journal.limits (state_of run.old) events.now).1) }
{
    run.answer_all(events, &mut Steps::<L>::new(blank))
}

/// A run of the core: the replies to these events of some sessions on one store, which is empty at
/// first and has this head and these limits. Each session begins with the empty version and no plan.
/// Its cost is that of the events, and of finding each one's session.
pub fn run_core(
    alloc: Global,
    head: Head,
    limits: Limits,
    events: &[Event],
) -> Result<Vec<CoreReply>, AllocError>
    requires { IsOrigin head.origin }
    ensures { IfOk result (λ replies. replies.items ≡ (core limits events.now).1) }
{
    let mut run = Run::start(alloc, head, limits)?;
    run_counted::<Brand>(&mut run, events, Blank::new(1))
}
