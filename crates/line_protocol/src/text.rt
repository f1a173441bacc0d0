//! A short text that is put together without memory.

ghost use Rattle.std.specs.Prelude.{◌≡◌, ◌+◌, ◌≤◌, ◌++◌, ◌∷◌, [], length, unsigned_abs, ◌^◌, ◌+ℤ◌};
ghost use Rattle.std.specs.Fmt.{decimal, signed_decimal};
ghost use Rattle.ground_num.specs.Decimal.{thousandths_text, volume_text};

use ground_num::{Thousandths, put_decimal, put_volume};
use itoa::Buffer;
use std::marker::Model;

/// The most bytes that a text has: more than the longest reply of one line.
const ROOM: usize = 512;

/// A text of at most 512 bytes, seen as its bytes.
#[derive(Drop)]
pub struct Text {
    bytes: [u8; ROOM],
    used: usize,
}

impl Model for Text {
    ghost use Rattle.std.specs.Prelude.{ℕ, List, take, ◌≤◌};

    ghost Value = { List ℕ };

    ghost view = { λ t. take t.used t.bytes };

    ghost invariant = { λ t. t.used ≤ 512 };
}

impl Text {
    /// The text of no byte.
    pub fn new() -> Text
        ensures { result ≡ [] }
    {
        Text {
            bytes: [0; ROOM],
            used: 0,
        }
    }

    /// How many bytes it has.
    pub(crate) fn len(&self) -> usize
        ensures value { result ≡ length self.now }
        ensures fits { result ≤ 512 }
    {
        self.used
    }

    /// Takes all its bytes away.
    pub(crate) fn clear(&mut self)
        ensures { self.new ≡ [] }
    {
        self.used = 0;
    }

    /// Adds the piece at the end.
    pub fn add(&mut self, piece: &[u8])
        requires { length self.old + length piece.now ≤ 512 }
        ensures { self.new ≡ self.old ++ piece.now }
    {
        let end = self.used + piece.len();
        self.bytes[self.used..end].copy_from_slice(piece);
        self.used = end;
    }

    /// Adds a space and the number.
    pub fn add_number(&mut self, number: u64)
        requires { length self.old + 21 ≤ 512 }
        ensures text { self.new ≡ self.old ++ 32 ∷ decimal number }
        ensures fits { length self.new ≤ length self.old + 21 }
    {
        let mut buffer = Buffer::new();
        self.add(b" ");
        self.add(buffer.format(number).as_bytes());
    }

    /// Adds a space and the signed number.
    pub(crate) fn add_whole(&mut self, number: i128)
        requires { length self.old + 41 ≤ 512 }
        ensures text { self.new ≡ self.old ++ 32 ∷ signed_decimal number }
        ensures fits { length self.new ≤ length self.old + 41 }
    {
        let mut buffer = Buffer::new();
        self.add(b" ");
        self.add(buffer.format(number).as_bytes());
    }

    /// Adds the number of thousandths.
    pub fn add_thousandths(&mut self, value: i64)
        requires { length self.old + 24 ≤ 512 }
        ensures text { self.new ≡ self.old ++ thousandths_text value }
        ensures fits { length self.new ≤ length self.old + 24 }
    {
        let mut decimal = [0u8; 24];
        let len = put_decimal(Thousandths(value), &mut decimal);
        self.add(&decimal[..len]);
    }

    /// Adds a space and the volume, in cubic units.
    pub(crate) fn add_volume(&mut self, sixths: i128)
        requires size { unsigned_abs sixths ≤ 2 ^ 120 }
        requires room { length self.old + 49 ≤ 512 }
        ensures text { self.new ≡ self.old ++ 32 ∷ volume_text sixths }
        ensures fits { length self.new ≤ length self.old + 49 }
    {
        let mut volume = [0u8; 48];
        let len = put_volume(sixths, &mut volume);
        self.add(b" ");
        self.add(&volume[..len]);
    }

    /// Its bytes.
    pub fn as_bytes(&self) -> &[u8]
        ensures { result.now ≡ self.now }
    {
        &self.bytes[..self.used]
    }
}
