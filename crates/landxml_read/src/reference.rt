//! References in the values of attributes.

ghost use Rattle.std.specs.Prelude.{◌≡◌, ◌≤◌, min, nat_lt, if◌then◌else◌, Some, None, encode_utf8};
ghost use Rattle.std.specs.Option.{option_map};
ghost use Rattle.std.specs.List.{list_all};
ghost use Rattle.std.specs.Char.{digit_value};
ghost use Rattle.std.specs.Str.Parse.{digits_value};
ghost use Rattle.landxml_read.specs.Values.{is_numeral, is_character, numbered, named, names, reference};

// The first number that is no character.
const TOO_GREAT: u32 = 0x110000;

// The value of a digit or letter, 36 for any other byte.
fn value_of(b: u8) -> u32
    ensures value { result ≡ digit_value b }
    ensures small { result ≤ 36 }
{
    match b {
        b'0'..=b'9' => u32::from(b - 48),
        b'A'..=b'Z' => u32::from(b - 55),
        b'a'..=b'z' => u32::from(b - 87),
        _ => 36,
    }
}

// Whether each byte is a digit of the base.
fn are_digits(base: u32, digits: &[u8]) -> bool
    ensures { result ≡ list_all (λ b. nat_lt (digit_value b) base) digits.now }
{
    digits.iter().all(|b| value_of(*b) < base)
}

// Whether the bytes are a digit of the base or more.
fn is_numeral_of(base: u32, digits: &[u8]) -> bool
    ensures { result ≡ is_numeral base digits.now }
{
    !digits.is_empty() && are_digits(base, digits)
}

// The number that digits of the base spell, or 0x110000 where it is greater.
fn capped(base: u32, digits: &[u8]) -> u32
    requires some { 1 ≤ base }
    requires small { base ≤ 16 }
    ensures { result ≡ min (digits_value base digits.now) 0x110000 }
{
    let mut number: u32 = 0;
    for digit in digits {
        number = (number * base + value_of(*digit)).min(TOO_GREAT);
    }
    number
}

// The character of the number, where a document may name it.
fn character(number: u32) -> Option<char>
    ensures { result ≡ (if is_character number then Some number else None) }
{
    if number < 32 && number != 9 && number != 10 && number != 13 {
        return None;
    }
    char::from_u32(number)
}

// The character that the digits number.
fn numbered_char(base: u32, digits: &[u8]) -> Option<char>
    requires some { 1 ≤ base }
    requires small { base ≤ 16 }
    ensures { option_map encode_utf8 result ≡ numbered base digits.now }
{
    if is_numeral_of(base, digits) {
        character(capped(base, digits))
    } else {
        None
    }
}

// The character of one of the five names.
fn named_char(name: &[u8]) -> Option<char>
    ensures { option_map encode_utf8 result ≡ named names name.now }
{
    if name == b"amp".as_slice() {
        Some('&')
    } else if name == b"lt".as_slice() {
        Some('<')
    } else if name == b"gt".as_slice() {
        Some('>')
    } else if name == b"quot".as_slice() {
        Some('"')
    } else if name == b"apos".as_slice() {
        Some('\'')
    } else {
        None
    }
}

/// The character that stands for what is between `&` and `;`. None where it isn't listed.
pub(crate) fn referenced(name: &[u8]) -> Option<char>
    ensures { option_map encode_utf8 result ≡ reference name.now }
{
    match name {
        [b'#', b'x', digits @ ..] => numbered_char(16, digits),
        [b'#', digits @ ..] => numbered_char(10, digits),
        _ => named_char(name),
    }
}
