//! Why a source gives no drafts.

ghost use Rattle.std.specs.Prelude.{◌≡◌};
ghost use Rattle.document_source.specs.Reading.{fault_of};

use landxml_read::{DocFault, ReadFault};

/// Why a source gives no drafts.
#[derive(Clone, Copy, Debug, PartialEq, Eq)]
pub enum SourceFault {
    /// The document has this fault.
    Document(DocFault),
    /// The document has more than 2^28 bytes, and the first of these show no fault.
    TooLarge,
    /// A read failed. The bytes before it show no fault.
    Failed,
    /// Out of memory.
    Memory,
}

impl SourceFault {
    /// What a reader's fault is for its source.
    pub(crate) fn of(fault: ReadFault) -> SourceFault
        ensures { result ≡ fault_of fault }
    {
        match fault {
            ReadFault::Doc(fault) => SourceFault::Document(fault),
            ReadFault::Memory => SourceFault::Memory,
        }
    }
}
