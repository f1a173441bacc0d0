//! How far a text is a decimal.

ghost use Rattle.std.specs.Prelude.{◌≡◌, IsTrue, ◌↔◌, IfSome, is_none};
ghost use Rattle.ground_num.specs.FirstFault.{IsFirstFault};
ghost use Rattle.ground_num.specs.Spelling.{IsDecimalText};
ghost use Rattle.ground_num.specs.Reading.{is_digit, is_final, next, next_by, Digit};

/// What part of a decimal was read last.
#[derive(Clone, Copy, Debug, PartialEq, Eq)]
pub(crate) enum Reading {
    /// Nothing.
    Start,
    /// A sign.
    Signed,
    /// A digit before the point.
    Whole,
    /// A point with no digit before it.
    Point,
    /// A digit after the point, or a point after digits.
    Fraction,
    /// The letter of an exponent.
    Mark,
    /// The sign of an exponent.
    MarkSigned,
    /// A digit of an exponent.
    Exponent,
}

/// Whether the byte is one of 0 to 9.
pub(crate) fn is_digit_byte(b: u8) -> bool
    ensures { result ≡ is_digit b }
{
    b > 47 && b < 58
}

impl Reading {
    // What was read last after a digit, which may stand everywhere.
    fn after_digit(self) -> Reading
        ensures { next_by self Digit ≡ Some result }
    {
        match self {
            Reading::Start | Reading::Signed | Reading::Whole => Reading::Whole,
            Reading::Point | Reading::Fraction => Reading::Fraction,
            Reading::Mark | Reading::MarkSigned | Reading::Exponent => Reading::Exponent,
        }
    }

    // What was read last after the byte. None where no decimal goes on with it.
    fn after(self, b: u8) -> Option<Reading>
        ensures { result ≡ next self b }
    {
        if is_digit_byte(b) {
            Some(self.after_digit())
        } else if b == b'+' || b == b'-' {
            match self {
                Reading::Start => Some(Reading::Signed),
                Reading::Mark => Some(Reading::MarkSigned),
                _ => None,
            }
        } else if b == b'.' {
            match self {
                Reading::Start | Reading::Signed => Some(Reading::Point),
                Reading::Whole => Some(Reading::Fraction),
                _ => None,
            }
        } else if b == b'E' || b == b'e' {
            match self {
                Reading::Whole | Reading::Fraction => Some(Reading::Mark),
                _ => None,
            }
        } else {
            None
        }
    }

    // Whether a decimal may end here.
    fn is_end(self) -> bool
        ensures { result ≡ is_final self }
    {
        matches!(self, Reading::Whole | Reading::Fraction | Reading::Exponent)
    }
}

/// The offset of the first byte that no decimal allows, or the length. None where the text is a decimal.
pub(crate) fn first_fault(text: &[u8]) -> Option<usize>
    ensures decimal { IsTrue (is_none result) ↔ IsDecimalText text.now }
    ensures fault { IfSome result (λ offset. IsFirstFault IsDecimalText text.now offset) }
{
    let mut state = Reading::Start;
    for (k, b) in text.iter().enumerate() {
        match state.after(*b) {
            Some(next) => state = next,
            None => return Some(k),
        }
    }
    if state.is_end() {
        None
    } else {
        Some(text.len())
    }
}
