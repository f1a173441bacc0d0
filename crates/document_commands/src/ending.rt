//! How a command on a document ends.

/// How a command on a document ends.
#[derive(Clone, Copy, Debug, PartialEq, Eq)]
pub enum Ending {
    /// The document was read to its end, and all output was written.
    Done,
    /// The document has a fault, or the surface asked for isn't there. The fault line was written, or a
    /// beginning of it.
    BadDocument,
    /// A read failed. Nothing was written.
    ReadFault,
    /// A write failed. What was written is a beginning of the text.
    WriteFault,
    /// Out of memory. What was written is a beginning of the text.
    Memory,
    /// The document has more than 2^28 bytes. The fault line was written, or a beginning of it.
    TooLarge,
    /// A surface can't be loaded. The fault line was written, or a beginning of it.
    BadSurface,
}
