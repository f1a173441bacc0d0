//! Bytes that wait to be written together.

ghost use Rattle.std.specs.Prelude.{◌≡◌, ◌+◌, ◌≤◌, ◌++◌, [], length};

use std::marker::Model;

/// How many bytes a write takes at the most, but for a longer piece.
pub(crate) const ROOM: usize = 8192;

/// At most `ROOM` bytes, seen as a list.
#[derive(Drop)]
pub(crate) struct Bytes {
    bytes: [u8; ROOM],
    used: usize,
}

impl Model for Bytes {
    ghost use Rattle.std.specs.Prelude.{ℕ, List, take, ◌≤◌};

    ghost Value = { List ℕ };

    ghost view = { λ b. take b.used b.bytes };

    ghost invariant = { λ b. b.used ≤ 8192 };
}

impl Bytes {
    /// No byte.
    pub(crate) fn new() -> Self
        ensures { result ≡ [] }
    {
        Bytes {
            bytes: [0; ROOM],
            used: 0,
        }
    }

    /// How many more bytes it can hold.
    pub(crate) fn room(&self) -> usize
        ensures { length self.now + result ≡ 8192 }
    {
        ROOM - self.used
    }

    /// Adds the piece at the end.
    pub(crate) fn add(&mut self, piece: &[u8])
        requires { length self.old + length piece.now ≤ 8192 }
        ensures { self.new ≡ self.old ++ piece.now }
    {
        let end = self.used + piece.len();
        self.bytes[self.used..end].copy_from_slice(piece);
        self.used = end;
    }

    /// Takes all its bytes away.
    pub(crate) fn clear(&mut self)
        ensures { self.new ≡ [] }
    {
        self.used = 0;
    }

    /// Its bytes.
    pub(crate) fn as_bytes(&self) -> &[u8]
        ensures { result.now ≡ self.now }
    {
        &self.bytes[..self.used]
    }
}
