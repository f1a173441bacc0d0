//! A new line, as a line of the protocol spells it.

ghost use Rattle.std.specs.Prelude.{◌≡◌, ◌<◌, ◌^◌, ◌&&◌, Some, None, IfSome, MatchOption, option_map, option_and_then, length};
ghost use Rattle.ground_num.specs.Decimal.{IsWithin};
ghost use Rattle.ground_num.specs.Head.{IsOrigin};
ghost use Rattle.ground_model.specs.Content.{is_new_line};
ghost use Rattle.line_protocol.specs.Grammar.{words_of, places, kind_named, line_edit};
ghost use Rattle.line_protocol.specs.Within.{is_place, from_origin, edit_within, places_within};
ghost use Rattle.line_protocol.specs.Reading.{IsRead, IsPair, always, never, checked};

use crate::place::{Coordinates, place_from, read_coordinates};
use crate::words::{Unread, first_word};
use ground_model::{Edit, LineKind, Listed, Places};
use ground_num::Origin;
use std::alloc::Global;

// The first pair of a list of pairs, and what comes after its space.
#[tactic(auto, unfolding(crate::specs::Grammar::places))]
fn read_pair(text: &[u8]) -> Option<(Coordinates, Option<&[u8]>)>
    ensures pair { MatchOption result (places (words_of text.now) ≡ None) (λ pair. IsPair (words_of text.now) (record { e = pair.0.e.0; n = pair.0.n.0 }) (option_map (λ rest. words_of rest.now) pair.1)) }
    ensures small { IfSome result (λ pair. IsWithin (10 ^ 12) pair.0.n.0 × IsWithin (10 ^ 12) pair.0.e.0) }
    ensures shorter { IfSome result (λ pair. IfSome pair.1 (λ rest. length rest.now < length text.now)) }
{
    let (n, rest) = first_word(text)?;
    match first_word(rest) {
        None => Some((read_coordinates(n, rest)?, None)),
        Some((e, rest)) => Some((read_coordinates(n, e)?, Some(rest))),
    }
}

// Whether this place and all before it are within the limit.
fn are_still_within(within: bool, coordinates: Coordinates, origin: &Origin) -> bool
    requires n { IsWithin (10 ^ 12) coordinates.n.0 }
    requires e { IsWithin (10 ^ 12) coordinates.e.0 }
    requires origin { IsOrigin origin.now }
    ensures { result ≡ (within && is_place (from_origin origin.now (record { e = coordinates.e.0; n = coordinates.n.0 }))) }
{
    within && place_from(coordinates, origin).is_some()
}

// Whether the text is one place or more, all within the limit. What is no pair comes before what is
// outside. Takes no memory.
fn check_places(text: &[u8], origin: &Origin) -> Result<(), Unread>
    requires { IsOrigin origin.now }
    ensures { IsRead (places (words_of text.now)) (checked origin.now) never result }
{
    let mut within = true;
    let mut left = text;
    'pairs: loop {
        let Some((coordinates, rest)) = read_pair(left) else {
            return Err(Unread::NoSuch);
        };
        within = are_still_within(within, coordinates, origin);
        match rest {
            None if within => return Ok(()),
            None => return Err(Unread::Outside),
            Some(rest) => left = rest,
        }
    }
}

// The places of a text that was checked: memory alone may be wanting.
fn fill_places(alloc: Global, text: &[u8], origin: &Origin) -> Result<Places, Unread>
    requires origin { IsOrigin origin.now }
    requires checked { option_and_then (checked origin.now) (places (words_of text.now)) ≡ Some tt }
    ensures { IsRead (places (words_of text.now)) (places_within origin.now) always result }
{
    let mut places = Vec::new(alloc);
    let mut left = text;
    'pairs: loop {
        let Some((coordinates, rest)) = read_pair(left) else {
            return Err(Unread::NoSuch);
        };
        let Some(place) = place_from(coordinates, origin) else {
            return Err(Unread::Outside);
        };
        let Ok(()) = places.push(place) else {
            return Err(Unread::NoRoom);
        };
        match rest {
            None => return Ok(Listed::from_vec(places)),
            Some(rest) => left = rest,
        }
    }
}

// One place or more. Memory is taken once all are known to be within the limit.
fn read_places(alloc: Global, text: &[u8], origin: &Origin) -> Result<Places, Unread>
    requires { IsOrigin origin.now }
    ensures { IsRead (places (words_of text.now)) (places_within origin.now) always result }
{
    match check_places(text, origin) {
        Ok(()) => fill_places(alloc, text, origin),
        Err(unread) => Err(unread),
    }
}

// The kind that a word names.
#[tactic(auto, unfolding(crate::specs::Grammar::kind_named))]
fn read_kind(word: &[u8]) -> Option<LineKind>
    ensures { result ≡ kind_named word.now }
{
    if word == b"break".as_slice() {
        Some(LineKind::Breakline)
    } else if word == b"outer".as_slice() {
        Some(LineKind::Outer)
    } else if word == b"void".as_slice() {
        Some(LineKind::Void)
    } else if word == b"island".as_slice() {
        Some(LineKind::Island)
    } else {
        None
    }
}

/// A kind and the line's places.
#[tactic(auto, unfolding(crate::specs::Grammar::line_edit, crate::specs::Within::edit_within))]
pub(crate) fn read_line_edit(alloc: Global, text: &[u8], origin: &Origin) -> Result<Edit, Unread>
    requires { IsOrigin origin.now }
    ensures { IsRead (line_edit (words_of text.now)) (edit_within origin.now) is_new_line result }
{
    let Some((word, rest)) = first_word(text) else {
        return Err(Unread::NoSuch);
    };
    let Some(kind) = read_kind(word) else {
        return Err(Unread::NoSuch);
    };
    match read_places(alloc, rest, origin) {
        Ok(places) => Ok(Edit::AddLine(kind, places)),
        Err(unread) => Err(unread),
    }
}
