//! A site: one store, and three crews with a session each.

ghost use Rattle.std.specs.Prelude.{◌≡◌, ◌<◌, ◌^◌, true, length, IfOk};
ghost use Rattle.ground_num.specs.Head.{IsOrigin};
ghost use Rattle.line_protocol.specs.Replies.{HasVolumeWithin};
ghost use Rattle.turn_lock.specs.Journal.{IsPrefix};
ghost use Rattle.session.specs.Sessions.{takes_turn};

use ground_io::MemSink;
use ground_model::Limits;
use ground_num::{Head, Name, Origin, Thousandths};
use line_protocol::{LineFault, Reply, Request, put_reply, read_request};
use page_vec::Steps;
use session::{Session, needs_turn, own_step, turn_step};
use std::alloc::Global;
use std::marker::{Brand, Model};
use std::sync::ledger::{Blank, Ledger};
use std::test::Fail;
use store::{Store, Version};

/// Who asks. Their sessions have the authors 1, 2 and 3.
#[derive(Clone, Copy, Debug, PartialEq, Eq)]
pub(crate) enum Crew {
    A,
    B,
    C,
}

impl Crew {
    /// The number of the crew's session, which is its author.
    pub(crate) fn author(self) -> u16 {
        match self {
            Crew::A => 1,
            Crew::B => 2,
            Crew::C => 3,
        }
    }
}

/// What a line asks, None where it is no request within its limits.
pub(crate) fn asked(alloc: Global, line: &str) -> Option<Request>
    requires { length line.now < 2 ^ 32 }
{
    read_request(alloc, line.as_bytes(), &zero()).ok()
}

/// One store and the sessions of its crews.
#[derive(Drop)]
pub(crate) struct Site {
    store: Store,
    a: Session,
    b: Session,
    c: Session,
}

impl Model for Site {
    ghost use Rattle.turn_lock.specs.Journal.{IsPrefix};
    ghost use Rattle.turn_lock.specs.declared.journal.Journal.{Journal};

    ghost Value = { Journal };

    ghost view = { λ s. s.store.journal };

    ghost invariant = { λ s. IsPrefix s.a.journal s.store.journal × IsPrefix s.b.journal s.store.journal × IsPrefix s.c.journal s.store.journal };
}

fn zero() -> Origin
    ensures { IsOrigin result }
{
    Origin {
        n: Thousandths(0),
        e: Thousandths(0),
    }
}

/// The head of each surface here.
pub(crate) fn head(alloc: Global) -> Result<Head, Fail>
    ensures { IfOk result (λ head. IsOrigin head.origin) }
{
    Ok(Head::plain(Name::from_bytes(alloc, b"ground")?))
}

fn ground(alloc: Global, limits: Limits) -> Result<Store, Fail> {
    let head = head(alloc)?;
    Ok(Store::empty(alloc, head, limits)?)
}

// What a turn does to the store and to the session, without the clauses on its reply.
fn take_turn<L: Ledger>(
    store: &mut Store,
    session: &mut Session,
    request: Request,
    blank: Blank,
) -> Reply
    requires name { blank.name ≡ L.name }
    requires parts { blank.parts ≡ L.parts }
    requires writable { 0 < L.parts }
    requires turn { takes_turn session.old.pending request ≡ true }
    requires prefix { IsPrefix session.old.journal store.old.journal }
    ensures grows { IsPrefix store.old.journal store.new.journal }
    ensures holds { IsPrefix session.new.journal store.new.journal }
    ensures volume { HasVolumeWithin result }
{
    turn_step(store, session, request, &mut Steps::<L>::new(blank))
}

fn answer(alloc: Global, store: &mut Store, session: &mut Session, request: Request) -> Reply
    requires { IsPrefix session.old.journal store.old.journal }
    ensures grows { IsPrefix store.old.journal store.new.journal }
    ensures holds { IsPrefix session.new.journal store.new.journal }
    ensures volume { HasVolumeWithin result }
{
    if needs_turn(session, &request) {
        take_turn::<Brand>(store, session, request, Blank::new(1))
    } else {
        own_step(alloc, session, request)
    }
}

impl Site {
    /// An empty surface, which each crew holds.
    pub(crate) fn new(alloc: Global, limits: Limits) -> Result<Site, Fail> {
        let store = ground(alloc, limits)?;
        let a = Session::start(1, store.newest()?);
        let b = Session::start(2, store.newest()?);
        let c = Session::start(3, store.newest()?);
        Ok(Site { store, a, b, c })
    }

    fn answer(&mut self, alloc: Global, crew: Crew, request: Request) -> Reply
        ensures { HasVolumeWithin result }
    {
        match crew {
            Crew::A => answer(alloc, &mut self.store, &mut self.a, request),
            Crew::B => answer(alloc, &mut self.store, &mut self.b, request),
            Crew::C => answer(alloc, &mut self.store, &mut self.c, request),
        }
    }

    /// The version that A holds.
    pub(crate) fn held(&self) -> &Version {
        self.a.version()
    }

    /// The reply to a crew's line.
    pub(crate) fn reply(&mut self, alloc: Global, crew: Crew, line: &str) -> Reply
        requires { length line.now < 2 ^ 32 }
        ensures { HasVolumeWithin result }
    {
        match read_request(alloc, line.as_bytes(), &zero()) {
            Ok(request) => self.answer(alloc, crew, request),
            Err(LineFault::Syntax(offset)) => Reply::Syntax(offset),
            Err(LineFault::Range) => Reply::Range,
            Err(LineFault::Memory) => Reply::Memory,
        }
    }
}

/// The text of a reply, without its line end.
pub(crate) fn text_of(alloc: Global, reply: &Reply) -> Result<String, Fail>
    requires { HasVolumeWithin reply.now }
{
    let mut sink = MemSink::new(alloc, 512, &[])?;
    put_reply(reply, &zero(), &mut sink)?;
    let text = str::from_utf8(sink.written())?;
    Ok(String::from_str(alloc, text.trim_end())?)
}
