//! The bytes of a line that has not ended yet.

ghost use Rattle.std.specs.Prelude.{◌≡◌, ◌<◌, ◌++◌, ◌∷◌, [], length, IfOk};
ghost use Rattle.session.specs.Lines.{text_of};

use std::alloc::{AllocError, Global};
use std::marker::Model;

/// A line and its end have at most this many bytes.
pub(crate) const LINE_LIMIT: usize = 131_072;

/// The line so far, seen as its bytes. Its memory is taken when it is made.
#[derive(Drop)]
pub(crate) struct LineBuffer {
    bytes: Vec<u8>,
}

impl Model for LineBuffer {
    ghost use Rattle.std.specs.Prelude.{ℕ, List, ◌≤◌, vec_capacity, vec_len};

    ghost Value = { List ℕ };

    ghost view = { λ l. l.bytes.items };

    ghost invariant = { λ l. (vec_len l.bytes ≤ 131072) × (131072 ≤ vec_capacity l.bytes) };
}

impl LineBuffer {
    /// An empty line.
    pub(crate) fn new(alloc: Global) -> Result<LineBuffer, AllocError>
        ensures { IfOk result (λ line. line ≡ []) }
    {
        Ok(LineBuffer {
            bytes: Vec::with_capacity(alloc, LINE_LIMIT)?,
        })
    }

    /// How many bytes came since the last line end.
    pub(crate) fn len(&self) -> usize
        ensures value { result ≡ length self.now }
        ensures fits { result < 131073 }
    {
        self.bytes.len()
    }

    /// Adds a byte that ends no line.
    pub(crate) fn push(&mut self, byte: u8)
        requires { length self.old < 131072 }
        ensures { self.new ≡ self.old ++ byte ∷ [] }
    {
        self.bytes.push_reserved(byte);
    }

    /// Begins the next line.
    pub(crate) fn clear(&mut self)
        ensures { self.new ≡ [] }
    {
        self.bytes.clear();
    }

    /// The line's text: a CR right before its end belongs to the end.
    pub(crate) fn text(&self) -> &[u8]
        ensures { result.now ≡ text_of self.now }
    {
        match self.bytes.as_slice() {
            [front @ .., b'\r'] => front,
            bytes => bytes,
        }
    }
}
