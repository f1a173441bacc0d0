//! What a byte shows, gathered.

ghost use Rattle.std.specs.Prelude.{◌≡◌, OnOk};
ghost use Rattle.ground_num.specs.Names.{IsName};
ghost use Rattle.landxml_read.specs.declared.act.Act.TheVariants.{Letter, Less};
ghost use Rattle.landxml_read.specs.Events.{finished, read};
ghost use Rattle.landxml_read.specs.Tokens.{kind_in, kind_of, word_of, shown};
ghost use Rattle.landxml_read.specs.Gather.{gather, opened, first_value, HoldsWord, HasRoom, CanGather};

use crate::act::Act;
use crate::byte::is_white_byte;
use crate::gather::Gathered;
use crate::tokens::Tokens;
use std::alloc::AllocError;

impl Tokens {
    // The first value of the read attribute, or none.
    fn first_value(&self) -> &[u8]
        ensures { result.now ≡ first_value self.now }
    {
        match &self.values.first {
            Some(value) => value.as_slice(),
            None => b"".as_slice(),
        }
    }

    // The tag that ends.
    fn gather_tag(&self, into: &mut Gathered) -> Result<(), AllocError>
        requires name { IsName (first_value self.now) }
        ensures { HasRoom into.old → OnOk result (into.new ≡ opened (kind_of self.now) self.now.at (first_value self.now) into.old) }
    {
        into.open(
            self.word.allocator(),
            self.kind(),
            u64::from(self.at),
            self.first_value(),
        )
    }

    // The word that ends, where one is open.
    fn gather_word(&self, offset: u32, into: &mut Gathered) -> Result<(), AllocError>
        requires word { HoldsWord self.now }
        ensures { HasRoom into.old → OnOk result (into.new ≡ gather into.old (read (kind_in self.now.stack) offset (finished (word_of self.now)))) }
    {
        if self.word.is_empty() {
            Ok(())
        } else {
            into.read(
                self.word.allocator(),
                self.stack.kind(),
                u64::from(self.word_at),
                self.word.as_slice(),
            )
        }
    }

    // A byte of text.
    #[tactic(auto, using(crate::proofs::Gathering::letter_pass))]
    fn gather_letter(&self, offset: u32, b: u8, into: &mut Gathered) -> Result<(), AllocError>
        requires word { CanGather Letter b self.now }
        ensures { HasRoom into.old → OnOk result (into.new ≡ gather into.old (shown Letter offset b self.now)) }
    {
        if self.stack.kind().has_text() && is_white_byte(b) {
            self.gather_word(offset, into)
        } else {
            Ok(())
        }
    }

    /// What the byte at an offset shows, which is an act to the tokens.
    pub(crate) fn gather(
        &self,
        act: Act,
        offset: u32,
        b: u8,
        into: &mut Gathered,
    ) -> Result<(), AllocError>
        requires can { CanGather act b self.now }
        ensures { HasRoom into.old → OnOk result (into.new ≡ gather into.old (shown act offset b self.now)) }
    {
        match act {
            Act::Letter => self.gather_letter(offset, b, into),
            Act::Less => self.gather_word(offset, into),
            Act::Opens => self.gather_tag(into),
            Act::Passes => {
                self.gather_tag(into)?;
                into.close(self.kind())
            }
            Act::Closes => into.close(self.stack.kind()),
            Act::Quotes
            | Act::Pass
            | Act::BeginName
            | Act::Name
            | Act::BeginAttribute
            | Act::Attribute
            | Act::BeginValue
            | Act::Value
            | Act::EndValue => Ok(()),
        }
    }
}
