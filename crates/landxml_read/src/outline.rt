//! The encoding and the markup of a document, whatever its elements mean.

ghost use Rattle.std.specs.Prelude.{◌≡◌, ◌+◌, ◌<◌, ◌^◌, ◌≤◌, ◌++◌, ◌∷◌, [], ℕ, List, length, MatchResult, IfErr, IfOk, OnOk, IsUtf8, Some, if◌then◌else◌};
ghost use Rattle.landxml_read.specs.Markup.{IsDocumentText};
ghost use Rattle.landxml_read.specs.Utf8.{is_ready, utf8_next};
ghost use Rattle.landxml_read.specs.Scan.{next};
ghost use Rattle.landxml_read.specs.Outline.{StandsAt, IsShownAt, IsStrayFault};

use crate::fault::{DocCause, DocFault};
use crate::level::Level;
use crate::scan::{Part, Scan};
use crate::standing::Standing;
use crate::utf8::Utf8;

impl Standing {
    /// Before the first byte.
    pub(crate) fn new() -> Standing
        ensures { StandsAt [] result }
    {
        Standing {
            utf8: Utf8::Ready,
            scan: Scan {
                part: Part::Start,
                level: Level::Before,
            },
            offset: 0,
            sequence: 0,
        }
    }

    // The fault of a byte that the scan doesn't take.
    fn stray(&self, b: u8) -> DocFault
        ensures at { IsStrayFault self.now b result }
    {
        if b == b'D' && matches!(self.scan.part, Part::Bang) {
            DocFault {
                at: u64::from(self.offset.saturating_sub(2)),
                cause: DocCause::Doctype,
            }
        } else {
            DocFault {
                at: u64::from(self.offset),
                cause: DocCause::Syntax,
            }
        }
    }

    // Where the sequence begins that is open after one more byte.
    fn sequence_after(&self, utf8: Utf8) -> u32
        requires { self.now.offset + 1 < 2 ^ 32 }
        ensures { result ≡ (if is_ready utf8 then self.now.offset + 1 else self.now.sequence) }
    {
        if utf8.is_ready() {
            self.offset + 1
        } else {
            self.sequence
        }
    }

    /// Where they stand after the byte, or the fault that it shows.
    pub(crate) fn after(self, b: u8) -> Result<Standing, DocFault>
        requires { self.offset + 1 < 2 ^ 32 }
        ensures stands { (seen : List ℕ) → StandsAt seen self → MatchResult result
            (λ now. StandsAt (seen ++ b ∷ []) now)
            (λ f. (more : List ℕ) → IsShownAt (length seen) (seen ++ b ∷ more) f) }
        ensures offset { IfOk result (λ now. now.offset ≡ self.offset + 1) }
        ensures utf8 { IfOk result (λ now. utf8_next self.utf8 b ≡ Some now.utf8) }
        ensures scan { IfOk result (λ now. next self.scan b ≡ Some now.scan) }
    {
        let Some(utf8) = self.utf8.after(b) else {
            return Err(DocFault {
                at: u64::from(self.sequence),
                cause: DocCause::Utf8,
            });
        };
        let Some(scan) = self.scan.after(b) else {
            return Err(self.stray(b));
        };
        let sequence = self.sequence_after(utf8);
        Ok(Standing {
            utf8,
            scan,
            offset: self.offset + 1,
            sequence,
        })
    }

    /// Where they stand after the piece, or the first fault that a byte of it shows.
    pub(crate) fn feed(self, piece: &[u8]) -> Result<Standing, DocFault>
        requires { self.offset + length piece.now < 2 ^ 32 }
        ensures stands { (seen : List ℕ) → StandsAt seen self → MatchResult result
            (λ now. StandsAt (seen ++ piece.now) now)
            (λ f. (more : List ℕ) → (show : ℕ) × IsShownAt show ((seen ++ piece.now) ++ more) f) }
        ensures offset { IfOk result (λ now. now.offset ≡ self.offset + length piece.now) }
    {
        let mut standing = self;
        for b in piece {
            match standing.after(*b) {
                Ok(next) => standing = next,
                Err(fault) => return Err(fault),
            }
        }
        Ok(standing)
    }

    /// The fault at the end of the bytes.
    pub(crate) fn finish(self) -> Result<(), DocFault>
        ensures whole { (seen : List ℕ) → StandsAt seen self → OnOk result (IsUtf8 seen × IsDocumentText seen) }
        ensures fault { (seen : List ℕ) → StandsAt seen self → IfErr result (λ f. IsShownAt (length seen) seen f) }
    {
        if !self.utf8.is_ready() {
            return Err(DocFault {
                at: u64::from(self.sequence),
                cause: DocCause::Utf8,
            });
        }
        if !self.scan.is_end() {
            return Err(DocFault {
                at: u64::from(self.offset),
                cause: DocCause::Cut,
            });
        }
        Ok(())
    }
}
