//! Requests, read from their lines.

ghost use Rattle.std.specs.Prelude.{◌<◌, ◌^◌, ◌∷◌, [], length, option_map};
ghost use Rattle.ground_num.specs.Head.{IsOrigin};
ghost use Rattle.ground_model.specs.Content.{is_new_line};
ghost use Rattle.line_protocol.specs.Grammar.{words_of, place, spot, level, id, edit, request, spoken};
ghost use Rattle.line_protocol.specs.Spoken.{AddPoint, RemovePoint, SetLevel, RemoveLine, Plan, Apply, Level, Contour, Volume};
ghost use Rattle.line_protocol.specs.Within.{edit_within, request_within};
ghost use Rattle.line_protocol.specs.Reading.{IsRead, takes_memory_early, Reads};

use crate::fault::fault_offset;
use crate::line_edit::read_line_edit;
use crate::number::read_id;
use crate::place::{read_level, read_place, read_spot};
use crate::request::Request;
use crate::words::{Unread, first_word};
use ground_model::Edit;
use ground_num::Origin;
use std::alloc::Global;
use thiserror::Error;

/// Why a line has no request.
#[derive(Clone, Copy, Debug, PartialEq, Eq, Error)]
pub enum LineFault {
    /// It is no request; the number is the offset of the first byte that no request allows, or the
    /// line's length.
    #[error("no request allows the byte at {0}")]
    Syntax(u32),
    /// A place or a level is outside its limit.
    #[error("a place or a level is outside its limit")]
    Range,
    /// It is a new line, all of it within its limits, and its places take memory.
    #[error("out of memory for the places of the line")]
    Memory,
}

// A place and a level, of a point to add.
#[tactic(auto, unfolding(crate::specs::Within::edit_within))]
fn read_addition(text: &[u8], origin: &Origin) -> Result<Edit, Unread>
    requires { IsOrigin origin.now }
    ensures { IsRead (option_map (λ s. AddPoint s.0 s.1) (spot (words_of text.now))) (edit_within origin.now) is_new_line result }
{
    match read_spot(text, origin) {
        Ok((place, level)) => Ok(Edit::AddPoint(place, level)),
        Err(unread) => Err(unread),
    }
}

// The place of a point to remove.
#[tactic(auto, unfolding(crate::specs::Within::edit_within))]
fn read_removal(text: &[u8], origin: &Origin) -> Result<Edit, Unread>
    requires { IsOrigin origin.now }
    ensures { IsRead (option_map RemovePoint (place (words_of text.now))) (edit_within origin.now) is_new_line result }
{
    match read_place(text, origin) {
        Ok(place) => Ok(Edit::RemovePoint(place)),
        Err(unread) => Err(unread),
    }
}

// A place and its new level.
#[tactic(auto, unfolding(crate::specs::Within::edit_within))]
fn read_set(text: &[u8], origin: &Origin) -> Result<Edit, Unread>
    requires { IsOrigin origin.now }
    ensures { IsRead (option_map (λ s. SetLevel s.0 s.1) (spot (words_of text.now))) (edit_within origin.now) is_new_line result }
{
    match read_spot(text, origin) {
        Ok((place, level)) => Ok(Edit::SetLevel(place, level)),
        Err(unread) => Err(unread),
    }
}

// The number of a line to take away.
#[tactic(auto, unfolding(crate::specs::Within::edit_within))]
fn read_line_removal(text: &[u8], origin: &Origin) -> Result<Edit, Unread>
    ensures { IsRead (option_map RemoveLine (id (words_of text.now))) (edit_within origin.now) is_new_line result }
{
    match first_word(text) {
        Some(_) => Err(Unread::NoSuch),
        None => match read_id(text) {
            Some(id) => Ok(Edit::RemoveLine(id)),
            None => Err(Unread::NoSuch),
        },
    }
}

// An edit, by its first word.
#[tactic(auto, unfolding(crate::specs::Grammar::edit))]
fn read_edit(alloc: Global, text: &[u8], origin: &Origin) -> Result<Edit, Unread>
    requires { IsOrigin origin.now }
    ensures { IsRead (edit (words_of text.now)) (edit_within origin.now) is_new_line result }
{
    let Some((word, rest)) = first_word(text) else {
        return Err(Unread::NoSuch);
    };
    if word == b"add".as_slice() {
        read_addition(rest, origin)
    } else if word == b"remove".as_slice() {
        read_removal(rest, origin)
    } else if word == b"set".as_slice() {
        read_set(rest, origin)
    } else if word == b"line".as_slice() {
        read_line_edit(alloc, rest, origin)
    } else if word == b"unline".as_slice() {
        read_line_removal(rest, origin)
    } else {
        Err(Unread::NoSuch)
    }
}

// The edit of a plan.
#[tactic(auto, unfolding(crate::specs::Within::request_within))]
fn read_plan(alloc: Global, text: &[u8], origin: &Origin) -> Result<Request, Unread>
    requires { IsOrigin origin.now }
    ensures { IsRead (option_map Plan (edit (words_of text.now))) (request_within origin.now) takes_memory_early result }
{
    match read_edit(alloc, text, origin) {
        Ok(edit) => Ok(Request::Plan(edit)),
        Err(unread) => Err(unread),
    }
}

// The edit that is to be made at once.
#[tactic(auto, unfolding(crate::specs::Within::request_within))]
fn read_apply(alloc: Global, text: &[u8], origin: &Origin) -> Result<Request, Unread>
    requires { IsOrigin origin.now }
    ensures { IsRead (option_map Apply (edit (words_of text.now))) (request_within origin.now) takes_memory_early result }
{
    match read_edit(alloc, text, origin) {
        Ok(edit) => Ok(Request::Apply(edit)),
        Err(unread) => Err(unread),
    }
}

// The place of which the level is asked.
#[tactic(auto, unfolding(crate::specs::Within::request_within))]
fn read_level_request(text: &[u8], origin: &Origin) -> Result<Request, Unread>
    requires { IsOrigin origin.now }
    ensures { IsRead (option_map Level (place (words_of text.now))) (request_within origin.now) takes_memory_early result }
{
    match read_place(text, origin) {
        Ok(place) => Ok(Request::Level(place)),
        Err(unread) => Err(unread),
    }
}

// The level of a contour.
#[tactic(auto, unfolding(crate::specs::Within::request_within))]
fn read_contour(text: &[u8], origin: &Origin) -> Result<Request, Unread>
    ensures { IsRead (option_map Contour (level (words_of text.now))) (request_within origin.now) takes_memory_early result }
{
    match read_level(text) {
        Ok(level) => Ok(Request::Contour(level)),
        Err(unread) => Err(unread),
    }
}

// The level to which a volume is asked.
#[tactic(auto, unfolding(crate::specs::Within::request_within))]
fn read_volume(text: &[u8], origin: &Origin) -> Result<Request, Unread>
    ensures { IsRead (option_map Volume (level (words_of text.now))) (request_within origin.now) takes_memory_early result }
{
    match read_level(text) {
        Ok(level) => Ok(Request::Volume(level)),
        Err(unread) => Err(unread),
    }
}

// A request of more than one word, by its first.
#[tactic(auto, unfolding(crate::specs::Grammar::request))]
fn read_phrase(alloc: Global, word: &[u8], rest: &[u8], origin: &Origin) -> Result<Request, Unread>
    requires { IsOrigin origin.now }
    ensures { IsRead (request (word.now ∷ words_of rest.now)) (request_within origin.now) takes_memory_early result }
{
    if word == b"plan".as_slice() {
        read_plan(alloc, rest, origin)
    } else if word == b"do".as_slice() {
        read_apply(alloc, rest, origin)
    } else if word == b"level".as_slice() {
        read_level_request(rest, origin)
    } else if word == b"contour".as_slice() {
        read_contour(rest, origin)
    } else if word == b"volume".as_slice() {
        read_volume(rest, origin)
    } else {
        Err(Unread::NoSuch)
    }
}

// A request of one word.
#[tactic(auto, unfolding(crate::specs::Grammar::request, crate::specs::Within::request_within))]
fn read_single(word: &[u8], origin: &Origin) -> Result<Request, Unread>
    ensures { IsRead (request (word.now ∷ [])) (request_within origin.now) takes_memory_early result }
{
    if word == b"stat".as_slice() {
        Ok(Request::Stat)
    } else if word == b"sync".as_slice() {
        Ok(Request::Sync)
    } else if word == b"commit".as_slice() {
        Ok(Request::Commit)
    } else if word == b"export".as_slice() {
        Ok(Request::Export)
    } else if word == b"quit".as_slice() {
        Ok(Request::Quit)
    } else {
        Err(Unread::NoSuch)
    }
}

// A request, by its first word and whether more follow.
#[tactic(auto, unfolding(crate::specs::Grammar::spoken))]
fn read_words(alloc: Global, line: &[u8], origin: &Origin) -> Result<Request, Unread>
    requires { IsOrigin origin.now }
    ensures { IsRead (spoken line.now) (request_within origin.now) takes_memory_early result }
{
    match first_word(line) {
        None => read_single(line, origin),
        Some((word, rest)) => read_phrase(alloc, word, rest, origin),
    }
}

/// The request of a line, whose end was taken off. Each byte is looked at a bounded number of times.
/// Only the places of a new line take memory, once the whole line was found to be within its limits:
/// `Memory` comes for no other request, and never instead of `Syntax` or `Range`.
pub fn read_request(alloc: Global, line: &[u8], origin: &Origin) -> Result<Request, LineFault>
    requires length { length line.now < 2 ^ 32 }
    requires origin { IsOrigin origin.now }
    ensures reads { Reads origin.now line.now result }
{
    match read_words(alloc, line, origin) {
        Ok(request) => Ok(request),
        Err(Unread::NoSuch) => Err(LineFault::Syntax(fault_offset(line) as u32)),
        Err(Unread::Outside) => Err(LineFault::Range),
        Err(Unread::NoRoom) => Err(LineFault::Memory),
    }
}
