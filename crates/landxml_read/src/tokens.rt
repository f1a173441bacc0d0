//! The tag and the word that are open, and the elements round them.

ghost use Rattle.std.specs.Prelude.{◌≡◌, ◌+◌, ◌<◌, ◌^◌, OnOk};
ghost use Rattle.landxml_read.specs.declared.act.Act.TheVariants.{Letter, EndValue, Opens};
ghost use Rattle.landxml_read.specs.Events.{finished, no_word, longer};
ghost use Rattle.landxml_read.specs.Tokens.{after, kind_of, word_of, words_in, with_word, no_tokens, IsOfTag};

use crate::act::Act;
use crate::buffer::Buffer;
use crate::byte::is_white_byte;
use crate::decode::decode;
use crate::element::{Element, Stack};
use crate::kind::Kind;
use crate::values::Values;
use std::alloc::{AllocError, Global};

/// What is open. Beside the elements it holds one name of a tag, one of an attribute, one value and one word.
#[derive(Drop)]
pub(crate) struct Tokens {
    /// The offset of the last `<`.
    pub(crate) at: u32,
    /// The name in the tag that is open.
    pub(crate) name: Buffer,
    /// The name of the attribute that is open.
    pub(crate) attribute: Buffer,
    /// Whether its value is read.
    pub(crate) is_read: bool,
    pub(crate) value: Buffer,
    pub(crate) values: Values,
    /// The offset of the open word's first byte.
    pub(crate) word_at: u32,
    /// The bytes of the open word, none where none is open.
    pub(crate) word: Buffer,
    pub(crate) stack: Stack,
}

impl Tokens {
    /// At the beginning of a document, without memory.
    pub(crate) fn new(alloc: Global) -> Tokens
        ensures { result ≡ no_tokens }
    {
        Tokens {
            at: 0,
            name: Buffer::new(alloc),
            attribute: Buffer::new(alloc),
            is_read: false,
            value: Buffer::new(alloc),
            values: Values::none(),
            word_at: 0,
            word: Buffer::new(alloc),
            stack: Stack::new(alloc),
        }
    }

    /// The kind of the element whose tag is open.
    pub(crate) fn kind(&self) -> Kind
        ensures { result ≡ kind_of self.now }
    {
        self.stack.kind().below(self.name.as_slice())
    }

    // The open word is complete, where one is open.
    fn end_word(&mut self)
        ensures { words_in self.old.stack + 1 < 2 ^ 32 → self.new ≡ with_word self.old no_word (finished (word_of self.old)) }
    {
        if !self.word.is_empty() {
            self.stack.count_word();
            self.word.clear();
        }
        self.word_at = 0;
    }

    /// A byte of a word.
    pub(crate) fn lengthen(&mut self, offset: u32, b: u8) -> Result<(), AllocError>
        ensures { OnOk result (self.new ≡ record self.old { word_at = (longer offset b (word_of self.old)).at; word = (longer offset b (word_of self.old)).text }) }
    {
        if self.word.is_empty() {
            self.word_at = offset;
        }
        self.word.push(b)?;
        Ok(())
    }

    // A byte of the text of an element.
    fn letter(&mut self, offset: u32, b: u8) -> Result<(), AllocError>
        ensures { words_in self.old.stack + 1 < 2 ^ 32 → OnOk result (self.new ≡ after Letter offset b self.old) }
    {
        if self.stack.kind().has_text() {
            if is_white_byte(b) {
                self.end_word();
                Ok(())
            } else {
                self.lengthen(offset, b)
            }
        } else {
            self.word.clear();
            self.word_at = 0;
            Ok(())
        }
    }

    // The quote after a value.
    fn end_value(&mut self) -> Result<(), AllocError>
        ensures { OnOk result (self.new ≡ after EndValue 0 0 self.old) }
    {
        if self.is_read {
            let text = decode(self.value.as_slice(), self.value.allocator())?;
            self.values.add(text);
        }
        Ok(())
    }

    // The `>` of a start tag.
    fn open(&mut self) -> Result<(), AllocError>
        ensures { OnOk result (self.new ≡ after Opens 0 0 self.old) }
    {
        let kind = self.kind();
        let name = self.name.copy()?;
        self.stack.push(Element {
            kind,
            name,
            words: 0,
        })?;
        Ok(())
    }

    // A byte of a tag or of the `<` before it.
    fn in_tag(&mut self, act: Act, b: u8) -> Result<(), AllocError>
        requires { IsOfTag act }
        ensures { OnOk result (self.new ≡ after act 0 b self.old) }
    {
        match act {
            Act::BeginName => {
                self.name.clear();
                self.name.push(b)?;
                self.values = Values::none();
                Ok(())
            }
            Act::Name => self.name.push(b),
            Act::BeginAttribute => {
                self.attribute.clear();
                self.attribute.push(b)?;
                Ok(())
            }
            Act::Attribute => self.attribute.push(b),
            Act::BeginValue => {
                self.is_read = self.kind().reads(self.attribute.as_slice());
                self.value.clear();
                Ok(())
            }
            Act::Value => {
                if self.is_read {
                    self.value.push(b)?;
                }
                Ok(())
            }
            _ => unreachable!(),
        }
    }

    /// The tokens after a byte at an offset, which is an act to them.
    pub(crate) fn after(&mut self, act: Act, offset: u32, b: u8) -> Result<(), AllocError>
        ensures { words_in self.old.stack + 1 < 2 ^ 32 → OnOk result (self.new ≡ after act offset b self.old) }
    {
        match act {
            Act::Pass | Act::Passes | Act::Quotes => Ok(()),
            Act::Letter => self.letter(offset, b),
            Act::Less => {
                self.end_word();
                self.at = offset;
                Ok(())
            }
            Act::EndValue => self.end_value(),
            Act::Opens => self.open(),
            Act::Closes => {
                self.stack.pop();
                Ok(())
            }
            Act::BeginName
            | Act::Name
            | Act::BeginAttribute
            | Act::Attribute
            | Act::BeginValue
            | Act::Value => self.in_tag(act, b),
        }
    }
}
