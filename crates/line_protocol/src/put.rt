//! Replies, written as their texts.

ghost use Rattle.std.specs.Prelude.{◌≡◌, ◌+◌, ◌≤◌, ◌++◌, ◌∷◌, [], length, OnOk};
ghost use Rattle.ground_num.specs.Head.{IsOrigin};
ghost use Rattle.ground_io.specs.Causes.{HasCause};
ghost use Rattle.ground_io.specs.Order.{SendsText};
ghost use Rattle.ground_io.specs.Streams.{WritesText};
ghost use Rattle.line_protocol.specs.Replies.{line_text, level_text, stat_words, first_words, cut_text, lines_text, reply_text, Hands, SendsFront, HasVolumeWithin};

use crate::place_text::{add_cut, add_level, add_mark};
use crate::reason_text::{add_counted, add_pair, add_reason};
use crate::reply::Reply;
use crate::text::Text;
use crate::volume_text::{add_sixths, add_volume_texts};
use ground_io::{Failed, Sink, write_all};
use ground_model::{Cut, Level, LineId};
use ground_num::Origin;

/// The most bytes that the pieces of a contour have before a further line: a line more fits in.
const FULL: usize = 400;

// The number of a new line, where the edit made one.
fn add_line(text: &mut Text, line: Option<LineId>)
    requires { length text.old + 26 ≤ 512 }
    ensures text { text.new ≡ text.old ++ line_text line }
    ensures fits { length text.new ≤ length text.old + 26 }
{
    if let Some(id) = line {
        text.add(b" line");
        text.add_number(u64::from(id.0));
    }
}

// The level at a place, or that no kept facet has it.
fn add_level_or_outside(text: &mut Text, front: u32, level: &Option<Level>)
    requires { length text.old + 60 ≤ 512 }
    ensures text { text.new ≡ text.old ++ level_text front level.now }
    ensures fits { length text.new ≤ length text.old + 60 }
{
    match level {
        Some(level) => {
            add_counted(text, b"level", front);
            add_level(text, *level);
        }
        None => add_counted(text, b"outside", front),
    }
}

// The numbers of points and of lines.
fn add_stat(text: &mut Text, front: u32, points: u32, lines: u32)
    requires { length text.old + 90 ≤ 512 }
    ensures text { text.new ≡ text.old ++ stat_words front points lines }
    ensures fits { length text.new ≤ length text.old + 90 }
{
    add_counted(text, b"stat", front);
    add_counted(text, b" points", points);
    add_counted(text, b" lines", lines);
}

// The reply's first line, without its end.
#[tactic(auto, unfolding(crate::specs::Replies::first_words))]
fn first_line(reply: &Reply, origin: &Origin) -> Text
    requires origin { IsOrigin origin.now }
    requires volume { HasVolumeWithin reply.now }
    ensures fits { length result ≤ 400 }
    ensures text { result ≡ first_words origin.now reply.now }
{
    let mut text = Text::new();
    match reply {
        Reply::Held(front) => add_counted(&mut text, b"front", *front),
        Reply::Planned(front, zone) => add_pair(&mut text, b"planned", *front, *zone),
        Reply::Done(front, line) => {
            add_counted(&mut text, b"done", *front);
            add_line(&mut text, *line);
        }
        Reply::Conflict(front, mark) => {
            add_counted(&mut text, b"conflict", *front);
            add_mark(&mut text, origin, mark);
        }
        Reply::Refused(front, reason) => {
            add_counted(&mut text, b"refused", *front);
            text.add(b" ");
            add_reason(&mut text, origin, reason);
        }
        Reply::Level(front, level) => add_level_or_outside(&mut text, *front, level),
        Reply::Contour(front, cuts) => {
            add_counted(&mut text, b"contour", *front);
            text.add_number(cuts.len() as u64);
        }
        Reply::Volume(front, volume) => {
            add_counted(&mut text, b"volume", *front);
            add_volume_texts(&mut text, volume);
            add_sixths(&mut text, volume);
        }
        Reply::Stat(front, points, lines) => add_stat(&mut text, *front, *points, *lines),
        Reply::Export(front, bytes) => {
            add_counted(&mut text, b"export", *front);
            text.add_number(*bytes);
        }
        Reply::Bye => text.add(b"bye"),
        Reply::Syntax(offset) => add_counted(&mut text, b"error syntax", *offset),
        Reply::Range => text.add(b"error range"),
        Reply::NoPlan => text.add(b"error no-plan"),
        Reply::Memory => text.add(b"error memory"),
    }
    text
}

// Writes the text where it leaves no room for a further line.
fn make_room<S: Sink>(text: &mut Text, sink: &mut S) -> Result<(), Failed>
    requires { length text.old ≤ 500 }
    ensures room { OnOk result (length text.new ≤ 400) }
    ensures bytes { Hands (S.written sink.old) (S.written sink.new) text.old text.new result }
    ensures order { SendsFront (S.write_order sink.old) (S.write_order sink.new) text.old text.new result }
    ensures cause { HasCause (S.write_faults sink.old) (S.write_faults sink.new) result }
    ensures rest { S.beside_writes sink.new ≡ S.beside_writes sink.old }
{
    if text.len() <= FULL {
        return Ok(());
    }
    write_all(sink, text.as_bytes())?;
    text.clear();
    Ok(())
}

// Writes the text, then the cuts, each begun with a line end, and a last line end.
fn put_cuts<S: Sink>(text: Text, cuts: &[Cut], origin: &Origin, sink: &mut S) -> Result<(), Failed>
    requires origin { IsOrigin origin.now }
    requires room { length text ≤ 400 }
    ensures text { WritesText (S.written sink.old) (S.written sink.new) result (text ++ lines_text (cut_text origin.now) cuts.now ++ 10 ∷ []) }
    ensures order { SendsText (S.write_order sink.old) (S.write_order sink.new) result (text ++ lines_text (cut_text origin.now) cuts.now ++ 10 ∷ []) }
    ensures cause { HasCause (S.write_faults sink.old) (S.write_faults sink.new) result }
    ensures rest { S.beside_writes sink.new ≡ S.beside_writes sink.old }
{
    let mut text = text;
    for cut in cuts {
        make_room(&mut text, sink)?;
        add_cut(&mut text, origin, cut);
    }
    text.add(b"\n");
    write_all(sink, text.as_bytes())
}

/// Writes the reply's text: one write for each reply, but a contour of many lines in pieces of at
/// most 512 bytes. Of an export it writes the first line alone. After `Failed` a beginning of the
/// text was written. Takes no memory.
#[tactic(auto, unfolding(crate::specs::Replies::reply_text))]
pub fn put_reply<S: Sink>(reply: &Reply, origin: &Origin, sink: &mut S) -> Result<(), Failed>
    requires origin { IsOrigin origin.now }
    requires volume { HasVolumeWithin reply.now }
    ensures text { WritesText (S.written sink.old) (S.written sink.new) result (reply_text origin.now reply.now) }
    ensures order { SendsText (S.write_order sink.old) (S.write_order sink.new) result (reply_text origin.now reply.now) }
    ensures cause { HasCause (S.write_faults sink.old) (S.write_faults sink.new) result }
    ensures rest { S.beside_writes sink.new ≡ S.beside_writes sink.old }
{
    let mut text = first_line(reply, origin);
    match reply {
        Reply::Contour(_, cuts) => put_cuts(text, cuts.as_slice(), origin, sink),
        _ => {
            text.add(b"\n");
            write_all(sink, text.as_bytes())
        }
    }
}
