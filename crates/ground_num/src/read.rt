//! Decimals of documents, read.

ghost use Rattle.std.specs.Prelude.{◌≡◌, ◌≤◌, ◌<◌, ◌+◌, ◌-◌, ◌^◌, ◌↔◌, ℕ, ℤ, min, length, drop, IfOk, IsErrOf};
ghost use Rattle.std.specs.Str.Parse.{digits_value, AllDigits};
ghost use Rattle.ground_num.specs.Decimal.{thousandths_text, IsWithin};
ghost use Rattle.ground_num.specs.FirstFault.{IsFirstFault};
ghost use Rattle.ground_num.specs.Spelling.{Decimal, IsDecimal, IsDecimalText, IsTextOf, IsTooBig, decimal_text, magnitude, number_limit};
ghost use Rattle.ground_num.specs.Parts.{has_minus, after_sign, leading_digits, after_digits, pointed_digits, after_point, exponent_digits, has_minus_exponent, is_minus};

use crate::decimal::Thousandths;
use crate::reading::{first_fault, is_digit_byte};
use crate::rounding::{digits_capped, magnitude_of};
use thiserror::Error;

/// The greatest magnitude of a number of a document, in thousandths.
pub const NUMBER_LIMIT: i64 = 999_999_999_999;

/// Why a text is no number of a document.
#[derive(Clone, Copy, Debug, PartialEq, Eq, Error)]
pub enum NumFault {
    /// It is no decimal; `at` is the offset of the first byte that no decimal allows, or the length.
    #[error("no decimal allows the byte at {at}")]
    NotNumber { at: usize },
    /// Its magnitude, rounded to thousandths, is over the limit.
    #[error("the number is over 999999999.999")]
    TooBig,
}

// Whether a minus stands at the front, and what stands after a sign.
fn split_sign(text: &[u8]) -> (bool, &[u8])
    ensures minus { result.0 ≡ has_minus text.now }
    ensures rest { result.1.now ≡ after_sign text.now }
{
    match text {
        [b'-', rest @ ..] => (true, rest),
        [b'+', rest @ ..] => (false, rest),
        _ => (false, text),
    }
}

// How many digits stand at the front.
fn count_digits(text: &[u8]) -> usize
    ensures count { result ≡ length (leading_digits text.now) }
    ensures within { result ≤ length text.now }
{
    text.iter().take_while(|b| is_digit_byte(**b)).count()
}

// The digits at the front, and what stands after them.
fn split_digits(text: &[u8]) -> (&[u8], &[u8])
    ensures digits { result.0.now ≡ leading_digits text.now }
    ensures rest { result.1.now ≡ after_digits text.now }
{
    text.split_at(count_digits(text))
}

// The digits after a point at the front, and what stands after them.
fn split_fraction(text: &[u8]) -> (&[u8], &[u8])
    ensures digits { result.0.now ≡ pointed_digits text.now }
    ensures rest { result.1.now ≡ after_point text.now }
{
    match text {
        [b'.', rest @ ..] => split_digits(rest),
        _ => text.split_at(0),
    }
}

// Whether an exponent moves the point to the left, and by how many digits; 0 where the text is empty.
fn moved_by(text: &[u8]) -> (bool, u64)
    requires { AllDigits 10 (exponent_digits text.now) }
    ensures left { result.0 ≡ has_minus_exponent text.now }
    ensures count { result.1 ≡ min (digits_value 10 (exponent_digits text.now)) (2 ^ 64 - 1) }
{
    let [_, exponent @ ..] = text else {
        return (false, 0);
    };
    let (is_left, digits) = split_sign(exponent);
    (is_left, digits_capped(digits))
}

// Whether a decimal is negative, and its magnitude; one that is too big is at least the first that is.
fn sign_and_magnitude(text: &[u8]) -> (bool, u64)
    requires short { length text.now < 2 ^ 63 }
    requires decimal { IsDecimalText text.now }
    ensures negative { (d : Decimal) → IsDecimal d → text.now ≡ decimal_text d → result.0 ≡ is_minus d.sign }
    ensures magnitude { (d : Decimal) → IsDecimal d → text.now ≡ decimal_text d → min result.1 (10 ^ 12) ≡ min (magnitude d) (10 ^ 12) }
{
    let (is_negative, rest) = split_sign(text);
    let (whole, rest) = split_digits(rest);
    let (fraction, rest) = split_fraction(rest);
    let (is_left, moved) = moved_by(rest);
    (is_negative, magnitude_of(whole, fraction, is_left, moved))
}

/// The decimal in thousandths, rounded, a half away from zero. Whatever its exponent, no power is made,
/// and the cost is that of reading its bytes. Takes no memory.
pub fn read_decimal(text: &[u8]) -> Result<Thousandths, NumFault>
    ensures number { IfOk result (λ number. IsTextOf number.0 text.now) }
    ensures within { IfOk result (λ number. IsWithin number_limit number.0) }
    ensures not_number { (at : ℕ) → IsErrOf result (NumFault.NotNumber at) ↔ (¬ (IsDecimalText text.now) × IsFirstFault IsDecimalText text.now at) }
    ensures too_big { IsErrOf result NumFault.TooBig ↔ IsTooBig text.now }
    ensures read_back { (number : ℤ) → IsWithin number_limit number → text.now ≡ thousandths_text number → result ≡ Ok (record { 0 = number }) }
{
    if let Some(at) = first_fault(text) {
        return Err(NumFault::NotNumber { at });
    }
    let (is_negative, magnitude) = sign_and_magnitude(text);
    if magnitude > NUMBER_LIMIT as u64 {
        Err(NumFault::TooBig)
    } else if is_negative {
        Ok(Thousandths(-(magnitude as i64)))
    } else {
        Ok(Thousandths(magnitude as i64))
    }
}
