//! How the program ends.

ghost use Rattle.std.specs.Prelude.{◌≡◌};
ghost use Rattle.terrain_main.specs.Commands.{code_of, status_of};
ghost use Rattle.terrain_main.specs.Documents.{status_by};

use document_commands::Ending;
use session::Ended;

/// A name for each exit status.
#[derive(Clone, Copy, Debug, PartialEq, Eq)]
pub enum Status {
    /// All output was written. A session ended by `quit` or by the end of its input, and a document was
    /// read to its end.
    Ok,
    /// The words are no command. The fault line was written, or a beginning of it.
    Usage,
    /// The document has a fault, or the surface asked for isn't there. The fault line was written, or a
    /// beginning of it.
    BadDocument,
    ReadFault,
    WriteFault,
    Memory,
    /// The document has more bytes than it may have. The fault line was written, or a beginning of it.
    TooLarge,
    /// A surface of the document can't be loaded. The fault line was written, or a beginning of it.
    BadSurface,
    /// The server's last line was written, and a port couldn't be opened, or a connection couldn't be
    /// accepted.
    DoorFault,
    /// The session read all the bytes that one session may read.
    Spent,
    LongLine,
    Cut,
}

impl Status {
    /// The exit status.
    pub fn code(self) -> u8
        ensures { result ≡ code_of self }
    {
        match self {
            Status::Ok => 0,
            Status::Usage => 2,
            Status::BadDocument => 3,
            Status::ReadFault => 4,
            Status::WriteFault => 5,
            Status::Memory => 6,
            Status::TooLarge => 7,
            Status::BadSurface => 8,
            Status::DoorFault => 9,
            Status::Spent => 10,
            Status::LongLine => 11,
            Status::Cut => 12,
        }
    }

    pub(crate) fn of_session(ended: Ended) -> Status
        ensures { result ≡ status_of ended }
    {
        match ended {
            Ended::Quit | Ended::End => Status::Ok,
            Ended::Cut => Status::Cut,
            Ended::LongLine => Status::LongLine,
            Ended::Spent => Status::Spent,
            Ended::ReadFault => Status::ReadFault,
            Ended::WriteFault => Status::WriteFault,
            Ended::Memory => Status::Memory,
        }
    }

    pub(crate) fn of_document(end: Ending) -> Status
        ensures { result ≡ status_by end }
    {
        match end {
            Ending::Done => Status::Ok,
            Ending::BadDocument => Status::BadDocument,
            Ending::ReadFault => Status::ReadFault,
            Ending::WriteFault => Status::WriteFault,
            Ending::Memory => Status::Memory,
            Ending::TooLarge => Status::TooLarge,
            Ending::BadSurface => Status::BadSurface,
        }
    }
}
