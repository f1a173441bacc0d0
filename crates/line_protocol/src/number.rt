//! Numbers, as a line spells them.

ghost use Rattle.std.specs.Prelude.{◌≡◌, true, ◌≤◌, ◌<◌, ◌*◌, ◌^◌, ◌&&◌, Some, None, length, if◌then◌else◌, nat_lt, IfSome, option_map};
ghost use Rattle.std.specs.Char.{is_ascii_digit};
ghost use Rattle.std.specs.List.{list_all};
ghost use Rattle.std.specs.Str.Parse.{digits_value};
ghost use Rattle.ground_num.specs.Decimal.{IsWithin};
ghost use Rattle.line_protocol.specs.Grammar.{are_digits, fraction_value, unsigned_of, number_of, id_of};

use crate::words::offset_of_byte;
use ground_model::LineId;
use ground_num::Thousandths;

// The number that at most nine digits stand for.
fn value_of_digits(text: &[u8]) -> u64
    requires few { length text.now ≤ 9 }
    requires digits { list_all is_ascii_digit text.now ≡ true }
    ensures value { result ≡ digits_value 10 text.now }
    ensures small { result < 10 ^ length text.now }
{
    let mut value: u64 = 0;
    for b in text {
        value = value * 10 + u64::from(*b - b'0');
    }
    value
}

// Whether each byte is a digit.
fn are_all_digits(text: &[u8]) -> bool
    ensures { result ≡ list_all is_ascii_digit text.now }
{
    text.iter().all(|b| b.is_ascii_digit())
}

// One to `most` digits.
#[tactic(auto, using(crate::proofs::Digits::power_of_ten_mono))]
fn read_digits(text: &[u8], most: usize) -> Option<u64>
    requires { most ≤ 9 }
    ensures value { result ≡ (if are_digits most text.now then Some (digits_value 10 text.now) else None) }
    ensures few { IfSome result (λ n. (0 < length text.now) × (length text.now ≤ most)) }
    ensures small { IfSome result (λ n. n < 10 ^ length text.now) }
    ensures at_most { IfSome result (λ n. n < 10 ^ most) }
{
    if text.is_empty() || text.len() > most || !are_all_digits(text) {
        return None;
    }
    Some(value_of_digits(text))
}

// Up to three digits after a point, in thousandths.
fn read_fraction(text: &[u8]) -> Option<u64>
    ensures value { result ≡ (if are_digits 3 text.now then Some (fraction_value text.now) else None) }
    ensures small { IfSome result (λ n. n < 1000) }
{
    let value = read_digits(text, 3)?;
    Some(match text.len() {
        1 => value * 100,
        2 => value * 10,
        _ => value,
    })
}

// One to nine digits, and a point with one to three digits or none, in thousandths.
fn read_unsigned(text: &[u8]) -> Option<u64>
    ensures value { result ≡ unsigned_of text.now }
    ensures small { IfSome result (λ n. n < 10 ^ 12) }
{
    match offset_of_byte(b'.', text) {
        Some(at) => {
            let whole = read_digits(&text[..at], 9)?;
            let fraction = read_fraction(&text[at + 1..])?;
            Some(whole * 1000 + fraction)
        }
        None => Some(read_digits(text, 9)? * 1000),
    }
}

/// A coordinate or a level: a minus or none, one to nine digits, and a point with one to three
/// digits or none.
#[tactic(auto, unfolding(crate::specs::Grammar::number_of))]
pub fn read_number(word: &[u8]) -> Option<Thousandths>
    ensures value { option_map (λ n. n.0) result ≡ number_of word.now }
    ensures small { IfSome result (λ n. IsWithin (10 ^ 12) n.0) }
{
    match word {
        [b'-', rest @ ..] => Some(Thousandths(-(read_unsigned(rest)? as i64))),
        _ => Some(Thousandths(read_unsigned(word)? as i64)),
    }
}

/// A line's number: one to eight digits, the first of them no zero.
#[tactic(auto, unfolding(crate::specs::Grammar::id_of))]
pub(crate) fn read_id(word: &[u8]) -> Option<LineId>
    ensures { option_map (λ id. id.0) result ≡ id_of word.now }
{
    match word {
        [b'1'..=b'9', ..] => Some(LineId(read_digits(word, 8)? as u32)),
        _ => None,
    }
}
