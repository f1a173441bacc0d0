//! What is written where a source gives no drafts, or a line of a fault.

ghost use Rattle.std.specs.Prelude.{◌≡◌, []};
ghost use Rattle.document_commands.specs.Streams.{stream, Refuses, WritesLine};

use crate::ending::Ending;
use crate::fault_line::{fault_line, large_line};
use document_source::SourceFault;
use ground_io::{Sink, write_all};

/// Writes a fault line, if the sink takes it.
pub(crate) fn put_line<O: Sink>(output: &mut O, line: &[u8])
    ensures { WritesLine (stream (O.written output.old) (O.write_faults output.old)) (stream (O.written output.new) (O.write_faults output.new)) [] line.now }
{
    let _ = write_all(output, line);
}

/// Ends a command whose source gave no drafts.
pub(crate) fn refuse<O: Sink>(fault: SourceFault, output: &mut O) -> Ending
    ensures { Refuses (stream (O.written output.old) (O.write_faults output.old)) (stream (O.written output.new) (O.write_faults output.new)) result fault }
{
    match fault {
        SourceFault::Document(fault) => {
            put_line(output, fault_line(fault).as_bytes());
            Ending::BadDocument
        }
        SourceFault::TooLarge => {
            put_line(output, large_line().as_bytes());
            Ending::TooLarge
        }
        SourceFault::Failed => Ending::ReadFault,
        SourceFault::Memory => Ending::Memory,
    }
}
