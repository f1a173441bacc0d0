//! What may hold a session back before a reply.

/// What is told before each reply. A test's gate may wait, with a stated limit of tries.
pub trait Gate {
    /// Called right before the reply of this number, counted from 1, of a session of this author is
    /// written, outside every turn.
    fn before_reply(&self, author: u16, number: u64);
}

/// A gate that holds nobody back.
#[derive(Clone, Copy, Debug)]
pub struct OpenGate;

impl Gate for OpenGate {
    fn before_reply(&self, _author: u16, _number: u64) {}
}
