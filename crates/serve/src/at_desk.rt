//! A session's turns at a desk.

ghost use Rattle.std.specs.Prelude.{◌≡◌, ◌∷◌, [], true, length, Some, IsSomeAnd};
ghost use Rattle.line_protocol.specs.Replies.{HasVolumeWithin};
ghost use Rattle.turn_lock.specs.Journal.{IsPrefix};
ghost use Rattle.session.specs.Sessions.{takes_turn};
ghost use Rattle.serve.specs.AtDesk.{TurnsAt};

use crate::gate::Gate;
use desk::{Desk, Pass};
use line_protocol::{Reply, Request};
use session::{Session, Turns, Work, WorkDone, begin_turn, end_turn};
use std::alloc::AllocError;
use std::sync::Wait;
use store::Version;

/// A pass to a desk, with the gate that is told of each reply and the number of replies so far.
#[derive(Drop)]
pub(crate) struct AtDesk<'a, R, G> {
    rt: &'a R,
    desk: &'a Desk,
    gate: &'a G,
    pass: Option<Pass>,
    replies: u64,
}

// Makes a turn of a session with a pass.
fn turn_at<R: Wait>(
    rt: &R,
    desk: &Desk,
    pass: Pass,
    session: &mut Session,
    request: Request,
) -> (Pass, Reply)
    requires desk { pass.table ≡ desk.now.table }
    requires author { session.old.author ≡ pass.number }
    requires turn { takes_turn session.old.pending request ≡ true }
    requires prefix { IsPrefix session.old.journal pass.seen }
    ensures turn { TurnsAt pass result.0 session.old session.new request result.1 }
    ensures volume { HasVolumeWithin result.1 }
{
    match begin_turn(session, request) {
        Work::Hold => {
            let (pass, version) = desk.hold(rt, pass);
            (pass, end_turn(session, WorkDone::Held(version)))
        }
        Work::Commit(plan) => {
            let (pass, answer) = desk.commit(rt, pass, plan);
            (pass, end_turn(session, WorkDone::Committed(answer)))
        }
        Work::Apply(edit) => {
            let (pass, answer) = desk.apply(rt, pass, edit);
            (pass, end_turn(session, WorkDone::Applied(answer)))
        }
    }
}

impl<'a, R, G> AtDesk<'a, R, G> {
    /// With this pass, before the first reply.
    pub(crate) fn new(rt: &'a R, desk: &'a Desk, gate: &'a G, pass: Pass) -> Self
        ensures desk { result.desk.now ≡ desk.now }
        ensures pass { result.pass ≡ Some pass }
    {
        AtDesk {
            rt,
            desk,
            gate,
            pass: Some(pass),
            replies: 0,
        }
    }

    /// The pass.
    pub(crate) fn into_pass(self) -> Pass
        requires { IsSomeAnd self.pass (λ p. p.table ≡ self.desk.now.table) }
        ensures { self.entry.pass ≡ Some result }
    {
        let AtDesk {
            rt: _,
            desk: _,
            gate: _,
            pass,
            replies: _,
        } = self;
        match pass {
            Some(pass) => pass,
            None => unreachable!(),
        }
    }
}

impl<'a, R: Wait, G: Gate> Turns for AtDesk<'a, R, G> {
    ghost use Rattle.std.specs.Prelude.{◌≡◌, IsSomeAnd};
    ghost use Rattle.serve.specs.AtDesk.{number_of, seen_of, GoesBy, goes_none, goes_both};

    ghost Ready = { λ s. IsSomeAnd s.pass (λ p. p.table ≡ s.desk.now.table) };

    ghost number = { λ s. number_of s.pass };

    ghost seen = { λ s. seen_of s.desk.now.opening s.pass };

    ghost Finds = { λ x y fronts. GoesBy x.pass y.pass fronts };

    fn author(&self) -> u16 {
        match &self.pass {
            Some(pass) => pass.author(),
            None => unreachable!(),
        }
    }

    fn hold(&mut self) -> Result<Version, AllocError> {
        let Some(pass) = self.pass.take() else {
            unreachable!()
        };
        let (pass, version) = self.desk.hold(self.rt, pass);
        self.pass = Some(pass);
        version
    }

    fn turn(&mut self, session: &mut Session, request: Request) -> Reply {
        let Some(pass) = self.pass.take() else {
            unreachable!()
        };
        let (pass, reply) = turn_at(self.rt, self.desk, pass, session, request);
        self.pass = Some(pass);
        reply
    }

    fn before_reply(&mut self) {
        self.replies = self.replies.saturating_add(1);
        if let Some(pass) = &self.pass {
            self.gate.before_reply(pass.author(), self.replies);
        }
    }

    ghost finds_none = { λ x. goes_none x.pass };

    ghost finds_both = { λ x y z fs gs p q. goes_both x.pass y.pass z.pass fs gs p q };
}
