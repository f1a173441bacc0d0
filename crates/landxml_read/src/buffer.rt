//! Bytes that come one by one.

ghost use Rattle.std.specs.Prelude.{◌≡◌, ◌==◌, [], ◌∷◌, ◌++◌, length, IfOk, OnOk, OnErr};

use std::alloc::{AllocError, Global};
use std::marker::Model;

/// The bytes of what is open. Its memory grows by doubling, and is kept when it is emptied.
#[derive(Drop)]
pub(crate) struct Buffer {
    items: Vec<u8>,
}

impl Model for Buffer {
    ghost use Rattle.std.specs.Prelude.{ℕ, List};

    ghost Value = { List ℕ };

    ghost view = { λ a. a.items.items };
}

impl Buffer {
    /// No bytes, without memory.
    pub(crate) fn new(alloc: Global) -> Buffer
        ensures { result ≡ [] }
    {
        Buffer {
            items: Vec::new(alloc),
        }
    }

    /// One more byte. After an error the bytes are as before.
    pub(crate) fn push(&mut self, b: u8) -> Result<(), AllocError>
        ensures pushed { OnOk result (self.new ≡ self.old ++ b ∷ []) }
        ensures left { OnErr result (self.new ≡ self.old) }
    {
        self.items.push(b)?;
        Ok(())
    }

    /// What its memory comes from.
    pub(crate) fn allocator(&self) -> Global {
        *self.items.allocator()
    }

    /// Further bytes. After an error nothing is said of the bytes.
    pub(crate) fn extend(&mut self, bytes: &[u8]) -> Result<(), AllocError>
        ensures { OnOk result (self.new ≡ self.old ++ bytes.now) }
    {
        self.items.extend_from_slice(bytes)?;
        Ok(())
    }

    /// How many bytes there are.
    pub(crate) fn len(&self) -> usize
        ensures { result ≡ length self.now }
    {
        self.items.len()
    }

    /// Whether there is no byte.
    pub(crate) fn is_empty(&self) -> bool
        ensures { result ≡ (length self.now == 0) }
    {
        self.items.is_empty()
    }

    /// The bytes once more, in memory of their own.
    pub(crate) fn copy(&self) -> Result<Buffer, AllocError>
        ensures { IfOk result (λ b. b ≡ self.now) }
    {
        let alloc = *self.items.allocator();
        let items = Vec::from_slice(alloc, self.items.as_slice())?;
        Ok(Buffer { items })
    }

    /// Takes all bytes away.
    pub(crate) fn clear(&mut self)
        ensures { self.new ≡ [] }
    {
        self.items.clear();
    }

    /// The bytes.
    pub(crate) fn as_slice(&self) -> &[u8]
        ensures { result.now ≡ self.now }
    {
        self.items.as_slice()
    }
}
