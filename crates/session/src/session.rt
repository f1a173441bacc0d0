//! A session: who edits, on which version, with which plan.

ghost use Rattle.std.specs.Prelude.{◌≡◌, true, false, None, Some, length};
ghost use Rattle.ground_model.specs.History.{content_of, IsLegal};
ghost use Rattle.line_protocol.specs.Replies.{HasVolumeWithin};
ghost use Rattle.ground_model.specs.Zone.{zone};
ghost use Rattle.line_protocol.specs.declared.reply.Reply.TheVariants.{Planned};
ghost use Rattle.line_protocol.specs.declared.request.Request.TheVariants.{Plan as AsksPlan};
ghost use Rattle.turn_lock.specs.Journal.{IsPrefix};
ghost use Rattle.store.specs.Versions.{as_pending};
ghost use Rattle.session.specs.Sessions.{OwnStep, TurnStep, Begins, MayEnd, Ends, IsUnplanned, takes_turn};

use crate::queries::{contour_reply, volume_reply};
use ground_model::Edit;
use line_protocol::{Reply, Request};
use measures::level;
use page_vec::Steps;
use std::alloc::{AllocError, Global};
use std::marker::Model;
use std::sync::ledger::Ledger;
use store::{Applied, Commit, Plan, PlanFault, Store, Version};

/// One who edits: the author of his entries, the version that he holds, and a plan that he may commit.
#[derive(Drop)]
pub struct Session {
    author: u16,
    version: Version,
    plan: Option<Plan>,
}

impl Model for Session {
    ghost use Rattle.std.specs.Prelude.{option_map};
    ghost use Rattle.store.specs.Versions.{as_pending, IsPending};
    ghost use Rattle.session.specs.Sessions.{SessionView};

    ghost Value = { SessionView };

    ghost view = { λ s. record { author = s.author; journal = s.version.journal; pending = option_map as_pending s.plan } };

    ghost invariant = { λ s. IsPending s.version.journal s.plan };
}

/// What a turn on the store is to do.
#[derive(Drop)]
pub enum Work {
    /// Hold the newest version.
    Hold,
    /// Commit this plan.
    Commit(Plan),
    /// Apply this edit.
    Apply(Edit),
}

/// What a turn on the store did.
#[derive(Drop)]
pub enum WorkDone {
    Held(Result<Version, AllocError>),
    Committed(Commit),
    Applied(Applied),
}

impl Session {
    /// A session of this author, on this version, without a plan.
    pub fn start(author: u16, version: Version) -> Session
        ensures { result ≡ record { author = author; journal = version.journal; pending = None } }
    {
        Session {
            author,
            version,
            plan: None,
        }
    }

    /// The front of the version that the session holds.
    pub fn front(&self) -> u32
        ensures value { result ≡ length self.now.journal.entries }
        ensures legal { IsLegal self.now.journal.limits self.now.journal.entries }
    {
        self.version.front()
    }

    /// The version that the session holds.
    pub fn version(&self) -> &Version
        ensures { result.now.journal ≡ self.now.journal }
    {
        &self.version
    }

    // Keeps a plan of the held version as the pending one.
    fn keep(&mut self, plan: Plan) -> Reply
        requires { plan.journal ≡ self.old.journal }
        ensures reply { result ≡ Planned (length plan.journal.entries) (length (zone (content_of plan.journal.entries) plan.edit)) }
        ensures kept { self.new ≡ record self.old { pending = Some (as_pending plan) } }
    {
        let reply = Reply::Planned(plan.base(), plan.zone());
        self.plan = Some(plan);
        reply
    }

    // The reply to an edit that is not planned.
    fn unplanned(&self, fault: PlanFault) -> Reply
        ensures { IsUnplanned (length self.now.journal.entries) fault result }
    {
        match fault {
            PlanFault::Refused(_edit, cause) => Reply::Refused(self.version.front(), cause),
            PlanFault::Memory(_edit) => Reply::Memory,
        }
    }

    // Plans an edit on the held version. A refusal leaves the pending plan, and so does out of memory.
    fn plan(&mut self, edit: Edit) -> Reply
        ensures step { OwnStep self.old self.new (AsksPlan edit) result }
        ensures volume { HasVolumeWithin result }
    {
        match self.version.plan(edit) {
            Ok(plan) => self.keep(plan),
            Err(fault) => self.unplanned(fault),
        }
    }
}

/// Whether a request takes a turn on the store: `sync`, `do`, and `commit` where a plan is pending.
pub fn needs_turn(session: &Session, request: &Request) -> bool
    ensures { result ≡ takes_turn session.now.pending request.now }
{
    match request {
        Request::Sync | Request::Apply(_) => true,
        Request::Commit => session.plan.is_some(),
        Request::Plan(_)
        | Request::Level(_)
        | Request::Contour(_)
        | Request::Volume(_)
        | Request::Stat
        | Request::Export
        | Request::Quit => false,
    }
}

/// Answers a request that takes no turn, at the held version. It touches no store.
pub fn own_step(alloc: Global, session: &mut Session, request: Request) -> Reply
    requires { takes_turn session.old.pending request ≡ false }
    ensures step { OwnStep session.old session.new request result }
    ensures volume { HasVolumeWithin result }
{
    match request {
        Request::Plan(edit) => session.plan(edit),
        Request::Commit => Reply::NoPlan,
        Request::Level(place) => Reply::Level(session.front(), level(&session.version, place)),
        Request::Stat => Reply::Stat(
            session.front(),
            session.version.points(),
            session.version.lines(),
        ),
        Request::Quit => Reply::Bye,
        Request::Contour(level) => contour_reply(alloc, &session.version, level),
        Request::Volume(datum) => volume_reply(&session.version, datum),
        Request::Export => Reply::Export(session.front(), session.version.document_len()),
        Request::Sync | Request::Apply(_) => unreachable!(),
    }
}

/// Begins a turn for a request that takes one: says what it is to do. A pending plan leaves the
/// session. It takes no memory.
pub fn begin_turn(session: &mut Session, request: Request) -> Work
    requires { takes_turn session.old.pending request ≡ true }
    ensures { Begins session.old session.new request result }
{
    match request {
        Request::Sync => Work::Hold,
        Request::Apply(edit) => Work::Apply(edit),
        Request::Commit => match session.plan.take() {
            Some(plan) => Work::Commit(plan),
            None => unreachable!(),
        },
        Request::Plan(_)
        | Request::Level(_)
        | Request::Contour(_)
        | Request::Volume(_)
        | Request::Stat
        | Request::Export
        | Request::Quit => unreachable!(),
    }
}

impl Session {
    // Holds this version, and gives its front.
    fn hold(&mut self, version: Version) -> u32
        requires { IsPrefix self.old.journal version.journal }
        ensures front { result ≡ length version.journal.entries }
        ensures holds { self.new ≡ record self.old { journal = version.journal } }
    {
        self.version = version;
        self.version.front()
    }
}

/// Ends a turn: holds the version that it answered, and makes the reply. A plan that comes back out
/// of memory is pending again. It takes no memory.
pub fn end_turn(session: &mut Session, done: WorkDone) -> Reply
    requires { MayEnd session.old done }
    ensures ends { Ends session.old session.new done result }
    ensures volume { HasVolumeWithin result }
{
    match done {
        WorkDone::Held(Ok(version)) => Reply::Held(session.hold(version)),
        WorkDone::Held(Err(AllocError)) => Reply::Memory,
        WorkDone::Committed(Commit::Done(version, line)) => {
            Reply::Done(session.hold(version), line)
        }
        WorkDone::Committed(Commit::Conflict(version, mark, _)) => {
            Reply::Conflict(session.hold(version), mark)
        }
        WorkDone::Committed(Commit::Refused(version, cause)) => {
            Reply::Refused(session.hold(version), cause)
        }
        WorkDone::Committed(Commit::Memory(plan)) => {
            session.plan = Some(plan);
            Reply::Memory
        }
        WorkDone::Applied(Applied::Done(version, line)) => {
            Reply::Done(session.hold(version), line)
        }
        WorkDone::Applied(Applied::Refused(version, cause)) => {
            Reply::Refused(session.hold(version), cause)
        }
        WorkDone::Applied(Applied::Memory(_)) => Reply::Memory,
    }
}

/// Answers a request that takes a turn, at the newest version of the store.
pub fn turn_step<L: Ledger>(
    store: &mut Store,
    session: &mut Session,
    request: Request,
    steps: &mut Steps<L>,
) -> Reply
    requires turn { takes_turn session.old.pending request ≡ true }
    requires prefix { IsPrefix session.old.journal store.old.journal }
    ensures step { TurnStep (store.old.journal, store.new.journal) session.old session.new request result }
    ensures volume { HasVolumeWithin result }
{
    let author = session.author;
    let done = match begin_turn(session, request) {
        Work::Hold => WorkDone::Held(store.newest()),
        Work::Commit(plan) => WorkDone::Committed(store.commit(author, plan, steps)),
        Work::Apply(edit) => WorkDone::Applied(store.apply(author, edit, steps)),
    };
    end_turn(session, done)
}
