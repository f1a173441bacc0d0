//! The bytes of words, most of a document, in the shortest way.

ghost use Rattle.std.specs.Prelude.{◌≡◌, ◌+◌, ◌<◌, ◌^◌, ◌++◌, ◌∷◌, [], ℕ, List, MatchResult, OnOk, true};
ghost use Rattle.landxml_read.specs.Known.{IsKnown};
ghost use Rattle.landxml_read.specs.Course.{HasTaken, IsEnd, is_plain_byte, IsLetter, with_longer};

use crate::byte::{is_free_byte, is_white_byte};
use crate::course::Course;
use crate::fault::ReadFault;
use crate::level::Level;
use crate::scan::Part;
use crate::utf8::Utf8;
use std::alloc::AllocError;

// Whether a word can go on with the byte, and shows nothing.
fn is_plain(b: u8) -> bool
    ensures { result ≡ is_plain_byte b }
{
    b < 128 && is_free_byte(b) && !is_white_byte(b) && b != b'<' && b != b'&'
}

impl Course {
    /// Whether the byte is one of a word, in UTF-8 by itself.
    pub(crate) fn is_letter(&self, b: u8) -> bool
        ensures { result ≡ true → IsLetter self.now b }
    {
        is_plain(b)
            && matches!(self.standing.scan.part, Part::Text)
            && matches!(self.standing.scan.level, Level::Inside(_))
            && matches!(self.standing.utf8, Utf8::Ready)
            && self.tokens.stack.kind().has_text()
    }

    // One byte more of the word.
    fn lengthen(&mut self, b: u8) -> Result<(), AllocError>
        requires short { self.old.standing.offset + 1 < 2 ^ 32 }
        ensures utf8 { self.new.standing.utf8 ≡ self.old.standing.utf8 }
        ensures scan { self.new.standing.scan ≡ self.old.standing.scan }
        ensures offset { OnOk result (self.new.standing.offset ≡ self.old.standing.offset + 1) }
        ensures sequence { OnOk result (self.new.standing.sequence ≡ self.old.standing.offset + 1) }
        ensures tokens { OnOk result (self.new.tokens ≡ with_longer self.old.standing.offset b self.old.tokens) }
        ensures gathered { self.new.gathered ≡ self.old.gathered }
    {
        let offset = self.standing.offset;
        self.tokens.lengthen(offset, b)?;
        self.standing.offset = offset + 1;
        self.standing.sequence = offset + 1;
        Ok(())
    }

    /// The next byte, where it is such a one. After an error nothing is said of what is left.
    pub(crate) fn letter(&mut self, b: u8) -> Result<(), ReadFault>
        requires short { self.old.standing.offset + 1 < 2 ^ 32 }
        requires letter { IsLetter self.old b }
        requires known { IsKnown self.old.standing self.old.tokens self.old.gathered }
        ensures taken { (seen : List ℕ) → HasTaken seen self.old → MatchResult result
            (λ _. HasTaken (seen ++ b ∷ []) self.new)
            (λ e. IsEnd (seen ++ b ∷ []) e) }
        ensures known { OnOk result (IsKnown self.new.standing self.new.tokens self.new.gathered) }
        ensures offset { OnOk result (self.new.standing.offset ≡ self.old.standing.offset + 1) }
    {
        match self.lengthen(b) {
            Ok(()) => Ok(()),
            Err(_) => Err(ReadFault::Memory),
        }
    }
}
