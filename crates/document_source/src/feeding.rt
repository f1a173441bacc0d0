//! The bytes of a source, fed to a reader.

ghost use Rattle.std.specs.Prelude.{◌≡◌, ◌≢◌, ◌≤◌, [], Err};
ghost use Rattle.ground_io.specs.Causes.{Rose};
ghost use Rattle.document_source.specs.declared.fault.SourceFault.TheVariants.{Failed as ReadFailed};
ghost use Rattle.landxml_read.specs.Reader.{fed};
ghost use Rattle.document_source.specs.Feeding.{IsGoing, FeedsPiece, FeedsAll};

use crate::fault::SourceFault;
use ground_io::{Failed, Source};
use landxml_read::Reader;

/// The most bytes of a document.
const LONGEST: u32 = 1 << 28;

/// How many bytes one read takes at the most.
const PIECE_SIZE: usize = 4096;

// Feeds the next piece to a reader that was fed so many bytes, but nothing beyond the most that a
// document has.
fn feed_piece(reader: &mut Reader, count: u32, piece: &[u8]) -> Result<u32, SourceFault>
    requires within { count ≤ LONGEST }
    requires fed { fed reader.old ≡ count }
    ensures feeds { FeedsPiece reader.old reader.new count piece.now result }
    ensures reads_none { result ≢ Err ReadFailed }
{
    let room = (LONGEST - count) as usize;
    let front = piece.len().min(room);
    if let Err(fault) = reader.feed(&piece[..front]) {
        return Err(SourceFault::of(fault));
    }
    if front < piece.len() {
        return Err(SourceFault::TooLarge);
    }
    Ok(count + front as u32)
}

/// Feeds all bytes of the source to a new reader, up to the end, a fault or the most that a document
/// has, and gives their number.
pub(crate) fn feed_all<S: Source>(source: &mut S, reader: &mut Reader) -> Result<u32, SourceFault>
    requires { IsGoing [] reader.old 0 }
    ensures feeds { FeedsAll (S.left source.old) (S.left source.new) reader.new result }
    ensures failed { result ≡ Err ReadFailed → Rose (S.read_faults source.old) (S.read_faults source.new) }
    ensures passed { result ≢ Err ReadFailed → S.read_faults source.new ≡ S.read_faults source.old }
    ensures rest { S.beside_reads source.new ≡ S.beside_reads source.old }
{
    let mut piece = [0u8; PIECE_SIZE];
    let mut count = 0;
    'reading: loop {
        match source.read(&mut piece) {
            Err(Failed) => return Err(SourceFault::Failed),
            Ok(0) => return Ok(count),
            Ok(some) => match feed_piece(reader, count, &piece[..some]) {
                Ok(all) => count = all,
                Err(fault) => return Err(fault),
            },
        }
    }
}
