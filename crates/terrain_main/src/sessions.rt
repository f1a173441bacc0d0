//! What runs the worked sessions, and what they share with other tests.

ghost use Rattle.std.specs.Prelude.{◌≤◌, IfOk};

use crate::export_texts::EXPORTS;
use crate::line_session_texts::{CROSSINGS, LINES, RINGS};
use crate::refusal_texts::{AFTER_DIAGONAL, AFTER_END, AFTER_JOINT, AFTER_POINT, AFTER_SQUARE};
use crate::session_texts::{MEASURES, POINTS};
use ground_io::{Link, MemLink};
use ground_model::Limits;
use ground_num::{Head, Name};
use session::{Ended, talk};
use std::alloc::{AllocError, Global};
use std::process::Abort;
use std::test::Fail;
use store::Store;

pub(crate) fn ground(alloc: Global, limits: Limits) -> Result<Store, Fail> {
    let name = Name::from_bytes(alloc, b"ground")?;
    Ok(Store::empty(alloc, Head::plain(name), limits)?)
}

/// The named number in words such as `points 1, log 2`, or else the most.
pub(crate) fn number_in(words: &str, name: &str, most: u32) -> Result<u32, Fail>
    ensures { IfOk result (λ number. number ≤ most) }
{
    for word in words.split(", ") {
        match word.split_once(' ') {
            Some((found, number)) if found == name => return Ok(most.min(number.parse()?)),
            _ => {}
        }
    }
    Ok(most)
}

// The full limits, but for those in the words.
fn limits_of(words: &str) -> Result<Limits, Fail> {
    let full = Limits::FULL;
    Ok(Limits {
        points: number_in(words, "points", full.points)?,
        lines: number_in(words, "lines", full.lines)?,
        places: number_in(words, "places", full.places)?,
        vertices: number_in(words, "vertices", full.vertices)?,
        log: number_in(words, "log", full.log)?,
    })
}

// What a session reads, and what it is to write.
#[derive(Drop)]
struct Script {
    input: String,
    output: String,
}

impl Script {
    // Adds points to an empty surface, each `N E Z`.
    fn add_points(&mut self, points: &str) -> Result<(), Fail> {
        let mut front = 0u8;
        for point in points.split(", ") {
            front = front.saturating_add(1);
            writeln!(self.input, "do add {point}")?;
            writeln!(self.output, "done {front}")?;
        }
        Ok(())
    }

    // A request and its reply, whose lines ` / ` parts, or else points.
    fn add_row(&mut self, row: &str) -> Result<(), Fail> {
        let Some((request, reply)) = row.split_once('|') else {
            return self.add_points(row);
        };
        push_line(&mut self.input, request)?;
        for line in reply.split(" / ") {
            push_line(&mut self.output, line)?;
        }
        Ok(())
    }

    fn add_rows(&mut self, rows: &str) -> Result<(), Fail> {
        for row in rows.split('\n') {
            self.add_row(row)?;
        }
        Ok(())
    }

    // Whether an empty surface with these limits gives this output.
    fn run(&self, rt: &impl Abort, alloc: Global, name: &str, limits: Limits) -> Result<(), Fail> {
        let mut store = ground(alloc, limits)?;
        let replies = replies_to(alloc, &mut store, self.input.as_str())?;
        assert_eq!(rt; replies.as_str(), self.output.as_str(), "{name}");
        Ok(())
    }
}

/// What a session on this store writes where it reads this.
pub(crate) fn replies_to(alloc: Global, store: &mut Store, input: &str) -> Result<String, Fail> {
    let mut link = MemLink::new(alloc, input.as_bytes(), 2048, &[], &[])?;
    converse(alloc, store, &mut link, 10_000);
    let written = str::from_utf8(link.written())?;
    Ok(String::from_str(alloc, written)?)
}

/// A session without the clauses of `talk`, which only make the proofs of its callers slow.
pub(crate) fn converse<L: Link>(
    alloc: Global,
    store: &mut Store,
    link: &mut L,
    budget: u64,
) -> Ended {
    talk(alloc, store, link, budget)
}

fn push_line(text: &mut String, line: &str) -> Result<(), AllocError> {
    text.push_str(line)?;
    text.push('\n')
}

fn script_of(alloc: Global, rows: &str) -> Result<Script, Fail> {
    let mut script = Script {
        input: String::new(alloc),
        output: String::new(alloc),
    };
    script.add_rows(rows)?;
    Ok(script)
}

fn run_session(rt: &impl Abort, alloc: Global, text: &str) -> Result<(), Fail> {
    let (name, rows) = text.split_once('\n').ok_or("a session without rows")?;
    script_of(alloc, rows)?.run(rt, alloc, name, Limits::FULL)
}

fn run_sessions(rt: &impl Abort, alloc: Global, texts: &str) -> Result<(), Fail> {
    for text in texts.split("\n\n") {
        run_session(rt, alloc, text)?;
    }
    Ok(())
}

#[test]
fn sessions_give_the_worked_replies(rt: HostRuntime) -> Result<(), Fail> {
    for texts in [POINTS, MEASURES, EXPORTS, LINES, RINGS, CROSSINGS] {
        run_sessions(&rt, rt.alloc(), texts)?;
    }
    Ok(())
}

// Asks the request of a row on a surface of its own, after the rows to begin with.
fn run_refusal(rt: &impl Abort, alloc: Global, before: &str, row: &str) -> Result<(), Fail> {
    let (name, row) = row.split_once('|').ok_or("a row without limits")?;
    let (limits, row) = row.split_once('|').ok_or("a row without a request")?;
    let mut script = script_of(alloc, before)?;
    script.add_row(row)?;
    script.run(rt, alloc, name, limits_of(limits)?)
}

fn run_refusals(rt: &impl Abort, alloc: Global, text: &str) -> Result<(), Fail> {
    let (before, rows) = text.split_once("\n\n").ok_or("no rows to begin with")?;
    for row in rows.split('\n') {
        run_refusal(rt, alloc, before, row)?;
    }
    Ok(())
}

#[test]
fn each_refusal_comes_before_the_next(rt: HostRuntime) -> Result<(), Fail> {
    for text in [
        AFTER_POINT,
        AFTER_JOINT,
        AFTER_END,
        AFTER_SQUARE,
        AFTER_DIAGONAL,
    ] {
        run_refusals(&rt, rt.alloc(), text)?;
    }
    Ok(())
}
