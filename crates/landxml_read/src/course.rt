//! A document that is read, as long as no byte of it shows a fault.

ghost use Rattle.std.specs.Prelude.{◌≡◌, ◌+◌, ◌<◌, ◌^◌, ◌++◌, ◌∷◌, [], ℕ, List, length, MatchResult, OnOk};
ghost use Rattle.landxml_read.specs.Tokens.{after, shown, words_in};
ghost use Rattle.landxml_read.specs.Gather.{unit_or_meter, gather, HasRoom, CanGather};
ghost use Rattle.landxml_read.specs.Known.{IsKnown};
ghost use Rattle.landxml_read.specs.Course.{HasTaken, IsEnd};

use crate::act::Act;
use crate::fault::ReadFault;
use crate::gather::Gathered;
use crate::raw::RawDoc;
use crate::standing::Standing;
use crate::tokens::Tokens;
use std::alloc::{AllocError, Global};

/// Encoding and markup, what is open, and what was gathered.
#[derive(Drop)]
pub(crate) struct Course {
    pub(crate) standing: Standing,
    pub(crate) tokens: Tokens,
    pub(crate) gathered: Gathered,
}

impl Course {
    /// Before the first byte. Takes no memory.
    pub(crate) fn new(alloc: Global) -> Course
        ensures taken { HasTaken [] result }
        ensures known { IsKnown result.standing result.tokens result.gathered }
        ensures nothing { result.standing.offset ≡ 0 }
    {
        Course {
            standing: Standing::new(),
            tokens: Tokens::new(alloc),
            gathered: Gathered::new(alloc),
        }
    }

    // What a byte shows is gathered, and the tokens go on.
    fn take(&mut self, act: Act, b: u8) -> Result<(), AllocError>
        requires can { CanGather act b self.old.tokens }
        ensures standing { self.new.standing ≡ self.old.standing }
        ensures gathered { HasRoom self.old.gathered → OnOk result (self.new.gathered ≡ gather self.old.gathered (shown act self.old.standing.offset b self.old.tokens)) }
        ensures tokens { words_in self.old.tokens.stack + 1 < 2 ^ 32 → OnOk result (self.new.tokens ≡ after act self.old.standing.offset b self.old.tokens) }
    {
        let offset = self.standing.offset;
        self.tokens.gather(act, offset, b, &mut self.gathered)?;
        self.tokens.after(act, offset, b)?;
        Ok(())
    }

    // The next byte, whatever it is. After an error nothing is said of what is left.
    fn step(&mut self, b: u8) -> Result<(), ReadFault>
        requires short { self.old.standing.offset + 1 < 2 ^ 32 }
        requires known { IsKnown self.old.standing self.old.tokens self.old.gathered }
        ensures taken { (seen : List ℕ) → HasTaken seen self.old → MatchResult result
            (λ _. HasTaken (seen ++ b ∷ []) self.new)
            (λ e. IsEnd (seen ++ b ∷ []) e) }
        ensures known { OnOk result (IsKnown self.new.standing self.new.tokens self.new.gathered) }
        ensures offset { OnOk result (self.new.standing.offset ≡ self.old.standing.offset + 1) }
    {
        let next = match self.standing.after(b) {
            Ok(next) => next,
            Err(fault) => return Err(ReadFault::Doc(fault)),
        };
        let act = Act::between(self.standing.scan.part, next.scan.part);
        if let Some(fault) = self.tokens.verdict(act, self.standing.offset, b) {
            return Err(ReadFault::Doc(fault));
        }
        match self.take(act, b) {
            Ok(()) => {
                self.standing = next;
                Ok(())
            }
            Err(_) => Err(ReadFault::Memory),
        }
    }
    /// The next byte. After an error nothing is said of what is left.
    pub(crate) fn after(&mut self, b: u8) -> Result<(), ReadFault>
        requires short { self.old.standing.offset + 1 < 2 ^ 32 }
        requires known { IsKnown self.old.standing self.old.tokens self.old.gathered }
        ensures taken { (seen : List ℕ) → HasTaken seen self.old → MatchResult result
            (λ _. HasTaken (seen ++ b ∷ []) self.new)
            (λ e. IsEnd (seen ++ b ∷ []) e) }
        ensures known { OnOk result (IsKnown self.new.standing self.new.tokens self.new.gathered) }
        ensures offset { OnOk result (self.new.standing.offset ≡ self.old.standing.offset + 1) }
    {
        if self.is_letter(b) {
            self.letter(b)
        } else {
            self.step(b)
        }
    }

    /// The bytes of a piece. After an error nothing is said of what is left.
    pub(crate) fn read(&mut self, piece: &[u8]) -> Result<(), ReadFault>
        requires short { self.old.standing.offset + length piece.now < 2 ^ 32 }
        requires known { IsKnown self.old.standing self.old.tokens self.old.gathered }
        ensures taken { (seen : List ℕ) → HasTaken seen self.old → MatchResult result
            (λ _. HasTaken (seen ++ piece.now) self.new)
            (λ e. IsEnd (seen ++ piece.now) e) }
        ensures known { OnOk result (IsKnown self.new.standing self.new.tokens self.new.gathered) }
        ensures offset { OnOk result (self.new.standing.offset ≡ self.old.standing.offset + length piece.now) }
    {
        for b in piece {
            match self.after(*b) {
                Ok(()) => {}
                Err(fault) => return Err(fault),
            }
        }
        Ok(())
    }
    /// What was gathered of a document, at its end. Takes no memory.
    pub(crate) fn into_doc(self) -> RawDoc
        ensures unit { result.unit ≡ unit_or_meter self.gathered.unit }
        ensures surfaces { result.surfaces ≡ self.gathered.surfaces }
    {
        self.gathered.into_doc()
    }
}
