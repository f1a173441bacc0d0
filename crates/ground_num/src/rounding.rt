//! Digits with a point among them, rounded to whole numbers. No power is ever made: what is past the
//! limit is kept at the first number that is too big.

ghost use Rattle.std.specs.Prelude.{◌≡◌, ℕ, ◌+◌, ◌-◌, ◌*◌, ◌^◌, ◌<◌, ◌≤◌, ◌++◌, min, length, take, slice_index, true, false};
ghost use Rattle.std.specs.Char.{digit_value};
ghost use Rattle.std.specs.Str.Parse.{digits_value, AllDigits};
ghost use Rattle.ground_num.specs.Spelling.{rounded};
ghost use Rattle.ground_num.specs.Pointed.{pointed};

// The first magnitude that is too big, in thousandths.
const TOO_BIG: u64 = 1_000_000_000_000;

// The number of a digit.
fn value_of(digit: u8) -> u8
    requires { digit_value digit < 10 }
    ensures digit { result < 10 }
    ensures value { result ≡ digit_value digit }
{
    digit - b'0'
}

/// The number that digits spell, kept within 64 bits.
pub(crate) fn digits_capped(digits: &[u8]) -> u64
    requires { AllDigits 10 digits.now }
    ensures { result ≡ min (digits_value 10 digits.now) (2 ^ 64 - 1) }
{
    let mut number: u64 = 0;
    for digit in digits {
        number = number
            .saturating_mul(10)
            .saturating_add(u64::from(value_of(*digit)));
    }
    number
}

// The digit at this offset of the two parts together.
fn digit_at(whole: &[u8], fraction: &[u8], offset: usize) -> u8
    requires digits { AllDigits 10 (whole.now ++ fraction.now) }
    requires within { offset < length whole.now + length fraction.now }
    ensures digit { result < 10 }
    ensures value { result ≡ digit_value (slice_index (whole.now ++ fraction.now) offset) }
{
    if offset < whole.len() {
        value_of(whole[offset])
    } else {
        value_of(fraction[offset - whole.len()])
    }
}

// The number that the first `count` digits spell.
fn leading(whole: &[u8], fraction: &[u8], count: usize) -> u64
    requires digits { AllDigits 10 (whole.now ++ fraction.now) }
    requires within { count ≤ length whole.now + length fraction.now }
    ensures { result ≡ min (digits_value 10 (take count (whole.now ++ fraction.now))) (10 ^ 12) }
{
    let mut number: u64 = 0;
    for at in 0..count {
        number = (number * 10 + u64::from(digit_at(whole, fraction, at))).min(TOO_BIG);
    }
    number
}

// The number with so many zeros after it.
fn with_zeros(number: u64, zeros: u64) -> u64
    requires { number ≤ 10 ^ 12 }
    ensures { result ≡ min (number * 10 ^ zeros) (10 ^ 12) }
{
    if number == 0 {
        return 0;
    }
    let mut raised = number;
    for i in 0..zeros.min(12) {
        raised = (raised * 10).min(TOO_BIG);
    }
    raised
}

// The number with the point after so many of its digits, a half rounded up.
fn at_point(whole: &[u8], fraction: &[u8], places: u64) -> u64
    requires { AllDigits 10 (whole.now ++ fraction.now) }
    ensures { min result (10 ^ 12) ≡ min (pointed (whole.now ++ fraction.now) places) (10 ^ 12) }
{
    let digits = whole.len() + fraction.len();
    if places < digits as u64 {
        let half = digit_at(whole, fraction, places as usize) > 4;
        leading(whole, fraction, places as usize) + u64::from(half)
    } else {
        with_zeros(leading(whole, fraction, digits), places - digits as u64)
    }
}

/// The thousandths of digits whose point an exponent moves.
pub(crate) fn magnitude_of(whole: &[u8], fraction: &[u8], is_left: bool, moved: u64) -> u64
    requires digits { AllDigits 10 (whole.now ++ fraction.now) }
    requires short { length whole.now + length fraction.now < 2 ^ 63 }
    ensures right { (right : ℕ) → is_left ≡ false → moved ≡ min right (2 ^ 64 - 1) → min result (10 ^ 12) ≡ min (rounded (digits_value 10 (whole.now ++ fraction.now)) (right + 3) (length fraction.now)) (10 ^ 12) }
    ensures left { (left : ℕ) → is_left ≡ true → moved ≡ min left (2 ^ 64 - 1) → min result (10 ^ 12) ≡ min (rounded (digits_value 10 (whole.now ++ fraction.now)) 3 (left + length fraction.now)) (10 ^ 12) }
{
    let before = whole.len() as u64 + 3;
    if !is_left {
        at_point(whole, fraction, before.saturating_add(moved))
    } else if moved > before {
        0
    } else {
        at_point(whole, fraction, before - moved)
    }
}
