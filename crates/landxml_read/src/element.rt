//! The elements that are open.

ghost use Rattle.std.specs.Prelude.{◌≡◌, ◌∷◌, ◌+◌, ◌<◌, ◌^◌, [], length, bytes_eq, OnOk};
ghost use Rattle.landxml_read.specs.Tokens.{kind_in, name_in, words_in, outer, counted};

use crate::buffer::Buffer;
use crate::kind::Kind;
use std::alloc::{AllocError, Global};
use std::marker::Model;

/// An element that is open.
#[derive(Drop)]
pub(crate) struct Element {
    pub(crate) kind: Kind,
    pub(crate) name: Buffer,
    /// How many words of its text are complete.
    pub(crate) words: u32,
}

/// The elements that are open: contracts see the innermost first.
#[derive(Drop)]
pub(crate) struct Stack {
    items: Vec<Element>,
}

impl Model for Stack {
    ghost use Rattle.std.specs.Prelude.{List, reverse};
    ghost use Rattle.landxml_read.specs.declared.element.Element.{Element};

    ghost Value = { List Element };

    ghost view = { λ s. reverse s.items.items };
}

impl Stack {
    /// No element, without memory.
    pub(crate) fn new(alloc: Global) -> Stack
        ensures { result ≡ [] }
    {
        Stack {
            items: Vec::new(alloc),
        }
    }

    /// One more element, the innermost.
    pub(crate) fn push(&mut self, element: Element) -> Result<(), AllocError>
        ensures { OnOk result (self.new ≡ element ∷ self.old) }
    {
        self.items.push(element)?;
        Ok(())
    }

    /// Closes the innermost element, where one is open.
    pub(crate) fn pop(&mut self)
        ensures { self.new ≡ outer self.old }
    {
        self.items.pop();
    }

    /// How many elements are open.
    pub(crate) fn len(&self) -> usize
        ensures count { result ≡ length self.now }
        ensures small { result < 2 ^ 63 }
    {
        self.items.len()
    }

    /// The kind of the innermost.
    pub(crate) fn kind(&self) -> Kind
        ensures { result ≡ kind_in self.now }
    {
        match self.items.last() {
            Some(element) => element.kind,
            None => Kind::Outside,
        }
    }

    /// Whether the innermost has this name.
    pub(crate) fn is_named(&self, name: &[u8]) -> bool
        ensures { result ≡ bytes_eq name.now (name_in self.now) }
    {
        match self.items.last() {
            Some(element) => name == element.name.as_slice(),
            None => name.is_empty(),
        }
    }

    /// How many words of the innermost are complete.
    pub(crate) fn words(&self) -> u32
        ensures { result ≡ words_in self.now }
    {
        match self.items.last() {
            Some(element) => element.words,
            None => 0,
        }
    }

    /// One more word of the innermost is complete.
    pub(crate) fn count_word(&mut self)
        ensures { words_in self.old + 1 < 2 ^ 32 → self.new ≡ counted 1 self.old }
    {
        if let Some(element) = self.items.pop() {
            let Element { kind, name, words } = element;
            self.items.push_reserved(Element {
                kind,
                name,
                words: words.saturating_add(1),
            });
        }
    }
}
