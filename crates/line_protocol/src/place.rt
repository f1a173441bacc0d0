//! Places and levels, as a line spells them.

ghost use Rattle.std.specs.Prelude.{◌≡◌, ◌^◌, ◌-ℤ◌, ◌≤◌, Some, None, IfSome, MatchOption, option_map, ◌∷◌, []};
ghost use Rattle.ground_num.specs.Decimal.{IsWithin};
ghost use Rattle.ground_num.specs.Head.{IsOrigin};
ghost use Rattle.line_protocol.specs.Grammar.{words_of, number_of, both, place_of, place, spot, level};
ghost use Rattle.line_protocol.specs.Within.{is_place, where_true, place_within, level_within, spot_within};
ghost use Rattle.line_protocol.specs.Reading.{IsRead, never};

use crate::number::read_number;
use crate::words::{Unread, first_word};
use ground_model::{Level, Place};
use ground_num::{Origin, Thousandths, shift};

/// A northing and an easting in the document's system.
#[derive(Clone, Copy, Debug, PartialEq, Eq)]
pub(crate) struct Coordinates {
    n: Thousandths,
    e: Thousandths,
}

/// The coordinates that two words spell.
pub(crate) fn read_coordinates(n: &[u8], e: &[u8]) -> Option<Coordinates>
    ensures value { option_map (λ c. record { e = c.e.0; n = c.n.0 }) result ≡ place_of n.now e.now }
    ensures small { IfSome result (λ c. IsWithin (10 ^ 12) c.n.0 × IsWithin (10 ^ 12) c.e.0) }
{
    let n = read_number(n)?;
    let e = read_number(e)?;
    Some(Coordinates { n, e })
}

/// The place as seen from the origin, where that is within the limit.
pub(crate) fn place_from(coordinates: Coordinates, origin: &Origin) -> Option<Place>
    requires n { IsWithin (10 ^ 12) coordinates.n.0 }
    requires e { IsWithin (10 ^ 12) coordinates.e.0 }
    requires origin { IsOrigin origin.now }
    ensures { result ≡ place_within origin.now (record { e = coordinates.e.0; n = coordinates.n.0 }) }
{
    let n = shift(coordinates.n, origin.n)?;
    let e = shift(coordinates.e, origin.e)?;
    Place::new(e, n)
}

// The level, where it is within the limit.
fn level_from(z: Thousandths) -> Option<Level>
    requires { IsWithin (10 ^ 12) z.0 }
    ensures { result ≡ level_within z.0 }
{
    let z = i32::try_from(z.0).ok()?;
    Level::new(z)
}

// The two words of a text that has just two.
fn two_words(text: &[u8]) -> Option<(&[u8], &[u8])>
    ensures { MatchOption result (place (words_of text.now) ≡ None) (λ words. words_of text.now ≡ words.0.now ∷ words.1.now ∷ []) }
{
    let (first, rest) = first_word(text)?;
    match first_word(rest) {
        Some(_) => None,
        None => Some((first, rest)),
    }
}

// The three words of a text that has just three.
fn three_words(text: &[u8]) -> Option<(&[u8], &[u8], &[u8])>
    ensures { MatchOption result (spot (words_of text.now) ≡ None) (λ words. words_of text.now ≡ words.0.now ∷ words.1.now ∷ words.2.now ∷ []) }
{
    let (first, rest) = first_word(text)?;
    let (second, last) = first_word(rest)?;
    match first_word(last) {
        Some(_) => None,
        None => Some((first, second, last)),
    }
}

// The place that two words spell. What is no number comes before what is outside.
fn place_of_words(n: &[u8], e: &[u8], origin: &Origin) -> Result<Place, Unread>
    requires { IsOrigin origin.now }
    ensures { IsRead (place_of n.now e.now) (place_within origin.now) never result }
{
    match read_coordinates(n, e) {
        None => Err(Unread::NoSuch),
        Some(coordinates) => match place_from(coordinates, origin) {
            None => Err(Unread::Outside),
            Some(place) => Ok(place),
        },
    }
}

/// A northing and an easting.
pub(crate) fn read_place(text: &[u8], origin: &Origin) -> Result<Place, Unread>
    requires { IsOrigin origin.now }
    ensures { IsRead (place (words_of text.now)) (place_within origin.now) never result }
{
    match two_words(text) {
        None => Err(Unread::NoSuch),
        Some((n, e)) => place_of_words(n, e, origin),
    }
}

// The level that a word spells.
fn level_of_word(word: &[u8]) -> Result<Level, Unread>
    ensures { IsRead (number_of word.now) level_within never result }
{
    match read_number(word) {
        None => Err(Unread::NoSuch),
        Some(z) => match level_from(z) {
            None => Err(Unread::Outside),
            Some(level) => Ok(level),
        },
    }
}

/// A level.
pub(crate) fn read_level(text: &[u8]) -> Result<Level, Unread>
    ensures { IsRead (level (words_of text.now)) level_within never result }
{
    match first_word(text) {
        Some(_) => Err(Unread::NoSuch),
        None => level_of_word(text),
    }
}

// The place and the level that three words spell. What is no number comes before what is outside.
fn spot_of_words(n: &[u8], e: &[u8], z: &[u8], origin: &Origin) -> Result<(Place, Level), Unread>
    requires { IsOrigin origin.now }
    ensures { IsRead (both (place_of n.now e.now) (number_of z.now)) (spot_within origin.now) never result }
{
    let Some(coordinates) = read_coordinates(n, e) else {
        return Err(Unread::NoSuch);
    };
    let Some(z) = read_number(z) else {
        return Err(Unread::NoSuch);
    };
    let Some(place) = place_from(coordinates, origin) else {
        return Err(Unread::Outside);
    };
    match level_from(z) {
        None => Err(Unread::Outside),
        Some(level) => Ok((place, level)),
    }
}

/// A place and a level.
pub(crate) fn read_spot(text: &[u8], origin: &Origin) -> Result<(Place, Level), Unread>
    requires { IsOrigin origin.now }
    ensures { IsRead (spot (words_of text.now)) (spot_within origin.now) never result }
{
    match three_words(text) {
        None => Err(Unread::NoSuch),
        Some((n, e, z)) => spot_of_words(n, e, z, origin),
    }
}
