//! The scripts as runs of the core.

ghost use Rattle.line_protocol.specs.Replies.{HasVolumeWithin};

use crate::conflicts::CONFLICTS;
use crate::crews::CREWS;
use crate::plans::PLANS;
use crate::script::{Exchange, Script};
use crate::site::{Crew, asked, head, text_of};
use crate::versions::VERSIONS;
use ground_model::Limits;
use line_protocol::{Reply, Request};
use std::alloc::Global;
use std::process::Abort;
use std::test::Fail;
use store::{CoreReply, Event, Query, run_core};

// A crew's request as an event, None where no event asks for the same.
fn event_of(crew: Crew, request: Request) -> Option<Event> {
    let session = crew.author();
    match request {
        Request::Sync => Some(Event::Hold(session)),
        Request::Plan(edit) => Some(Event::Plan(session, edit)),
        Request::Commit => Some(Event::Commit(session)),
        Request::Apply(edit) => Some(Event::Apply(session, edit)),
        Request::Level(place) => Some(Event::Read(session, Query::Level(place))),
        Request::Stat => Some(Event::Read(session, Query::Stat)),
        Request::Contour(_) | Request::Volume(_) | Request::Export | Request::Quit => None,
    }
}

// The reply as one of the protocol. No event of a script gives the last two, nor has one their text.
fn reply_of(reply: &CoreReply) -> Reply
    ensures { HasVolumeWithin result }
{
    match reply {
        CoreReply::Held(front) => Reply::Held(*front),
        CoreReply::Planned(front, zone) => Reply::Planned(*front, *zone),
        CoreReply::Done(front, line) => Reply::Done(*front, *line),
        CoreReply::Conflict(front, mark) => Reply::Conflict(*front, *mark),
        CoreReply::Refused(front, cause) => Reply::Refused(*front, *cause),
        CoreReply::Level(front, level) => Reply::Level(*front, *level),
        CoreReply::Stat(front, points, lines) => Reply::Stat(*front, *points, *lines),
        CoreReply::NoPlan => Reply::NoPlan,
        CoreReply::Contour(_, _) | CoreReply::Volume(_, _) => Reply::Bye,
    }
}

// Some events, and the texts that they are to be answered with.
#[derive(Drop)]
struct Asked {
    events: Vec<Event>,
    texts: Vec<&'static str>,
}

impl Asked {
    fn add(&mut self, event: Event, text: &'static str) -> Result<(), Fail> {
        self.events.push(event)?;
        Ok(self.texts.push(text)?)
    }

    fn add_exchange(
        &mut self,
        rt: &impl Abort,
        alloc: Global,
        exchange: &Exchange,
    ) -> Result<(), Fail> {
        let (crew, line, text) = *exchange;
        assert!(rt; line.len() < 100);
        match asked(alloc, line) {
            Some(request) => match event_of(crew, request) {
                Some(event) => self.add(event, text),
                None => Ok(()),
            },
            None => Ok(()),
        }
    }

    fn add_all(
        &mut self,
        rt: &impl Abort,
        alloc: Global,
        exchanges: &[Exchange],
    ) -> Result<(), Fail> {
        for exchange in exchanges {
            self.add_exchange(rt, alloc, exchange)?;
        }
        Ok(())
    }
}

fn compare(
    rt: &impl Abort,
    alloc: Global,
    name: &str,
    reply: &CoreReply,
    text: &str,
) -> Result<(), Fail> {
    let found = text_of(alloc, &reply_of(reply))?;
    assert_eq!(rt; found.as_str(), text, "{name}");
    Ok(())
}

fn compare_all(
    rt: &impl Abort,
    alloc: Global,
    name: &str,
    replies: &[CoreReply],
    texts: &[&'static str],
) -> Result<(), Fail> {
    assert_eq!(rt; replies.len(), texts.len(), "{name}");
    for (reply, text) in replies.iter().zip(texts) {
        compare(rt, alloc, name, reply, text)?;
    }
    Ok(())
}

fn asked_in(rt: &impl Abort, alloc: Global, script: &Script) -> Result<Asked, Fail> {
    let (_, before, exchanges) = *script;
    let mut asked = Asked {
        events: Vec::new(alloc),
        texts: Vec::new(alloc),
    };
    asked.add_all(rt, alloc, before)?;
    asked.add_all(rt, alloc, exchanges)?;
    Ok(asked)
}

fn run(rt: &impl Abort, alloc: Global, script: &Script) -> Result<(), Fail> {
    let asked = asked_in(rt, alloc, script)?;
    let replies = run_core(alloc, head(alloc)?, Limits::FULL, asked.events.as_slice())?;
    compare_all(
        rt,
        alloc,
        script.0,
        replies.as_slice(),
        asked.texts.as_slice(),
    )
}

fn run_all(rt: &impl Abort, alloc: Global, scripts: &[Script]) -> Result<(), Fail> {
    for script in scripts {
        run(rt, alloc, script)?;
    }
    Ok(())
}

#[test]
fn the_core_answers_as_sessions_do(rt: HostRuntime) -> Result<(), Fail> {
    run_all(&rt, rt.alloc(), &CONFLICTS)?;
    run_all(&rt, rt.alloc(), &PLANS)?;
    run_all(&rt, rt.alloc(), &CREWS)?;
    run_all(&rt, rt.alloc(), &VERSIONS)
}
