//! A counter of bytes.

ghost use Rattle.std.specs.Prelude.{◌≡◌, ◌+◌, ◌≤◌, ◌<◌, ◌^◌, length};
ghost use Rattle.std.specs.Fmt.{decimal};
ghost use Rattle.ground_num.specs.Decimal.{thousandths_text};

use crate::output::Output;

/// How many bytes were taken, as long as that is a number of 64 bits.
#[derive(Drop)]
pub(crate) struct Counter {
    count: u64,
}

// How many digits the number has.
fn digits(number: u64) -> u64
    ensures count { result ≡ length (decimal number) }
    ensures fits { result ≤ 20 }
{
    let mut rest = number;
    let mut count = 1;
    while rest >= 10 {
        rest /= 10;
        count += 1;
    }
    count
}

// How many bytes the text of so many thousandths has: a minus, the whole part, a point and three digits.
fn thousandths_len(value: i64) -> u64
    ensures count { result ≡ length (thousandths_text value) }
    ensures fits { result ≤ 25 }
{
    let sign = if value < 0 { 1 } else { 0 };
    sign + digits(value.unsigned_abs() / 1000) + 4
}

impl Counter {
    /// Nothing counted.
    pub(crate) fn new() -> Self
        ensures { result.count ≡ 0 }
    {
        Counter { count: 0 }
    }

    /// The count.
    pub(crate) fn get(&self) -> u64
        ensures { result ≡ self.now.count }
    {
        self.count
    }
}

impl Output for Counter {
    ghost use Rattle.landxml_write.specs.Counting.{Counts, counts_none, counts_both};

    ghost Takes = { λ x y text. Counts x.count y.count text };

    fn put(&mut self, piece: &[u8]) {
        self.count = self.count.saturating_add(piece.len() as u64);
    }

    fn put_number(&mut self, number: u32) {
        self.count = self.count.saturating_add(digits(u64::from(number)));
    }

    fn put_thousandths(&mut self, value: i64) {
        self.count = self.count.saturating_add(thousandths_len(value));
    }

    ghost takes_none = { λ x. counts_none x.count };

    ghost takes_both = { λ x y z t u. counts_both x.count y.count z.count t u };
}
