//! The first fault that a byte shows of the tokens.

ghost use Rattle.std.specs.Prelude.{◌≡◌, [], ◌∷◌};
ghost use Rattle.landxml_read.specs.declared.act.Act.TheVariants.{Quotes};
ghost use Rattle.landxml_read.specs.Faults.{must_have, has_numbers, is_one_of, is_bad_unit, is_bad_surface, is_bad_break, is_bad_boundary, is_miscounted};
ghost use Rattle.landxml_read.specs.Events.{opening_rows, closing_rows, value_rows, word_rows};
ghost use Rattle.landxml_read.specs.Tokens.{opening_at, kind_in, kind_of, word_of};
ghost use Rattle.landxml_read.specs.Verdict.{first_cause, caused, closing_at, word_verdict, letter_verdict, empty_cause, verdict_of};

use crate::act::Act;
use crate::buffer::Buffer;
use crate::byte::is_white_byte;
use crate::fault::{DocCause, DocFault};
use crate::kind::Kind;
use crate::number::cause_of_number;
use crate::tokens::Tokens;
use crate::values::LONGEST;

// The most elements that are open at once.
const DEEPEST: usize = 64;

// Whether the value is this text.
fn is_text(value: &Option<Buffer>, text: &[u8]) -> bool
    ensures { result ≡ is_one_of (text.now ∷ []) value.now }
{
    match value {
        Some(value) => value.as_slice() == text,
        None => false,
    }
}

// Whether the value is one of three texts.
fn is_one_of_three(value: &Option<Buffer>, first: &[u8], second: &[u8], third: &[u8]) -> bool
    ensures { result ≡ is_one_of (first.now ∷ second.now ∷ third.now ∷ []) value.now }
{
    match value {
        Some(value) => value.as_slice() == first
            || value.as_slice() == second
            || value.as_slice() == third,
        None => false,
    }
}

impl Kind {
    // Whether the element must have its attribute.
    fn must_have(self) -> bool
        ensures { result ≡ must_have self }
    {
        matches!(self, Kind::Surface | Kind::Point)
    }

    // Whether the words are numbers.
    fn has_numbers(self) -> bool
        ensures { result ≡ has_numbers self }
    {
        matches!(self, Kind::Triples | Kind::Pairs | Kind::Point)
    }

    // Whether it is a unit that isn't one of the three.
    fn is_bad_unit(self, value: &Option<Buffer>) -> bool
        ensures { result ≡ is_bad_unit self value.now }
    {
        match self {
            Kind::UnitOf => !is_one_of_three(
                value,
                b"meter".as_slice(),
                b"foot".as_slice(),
                b"USSurveyFoot".as_slice(),
            ),
            _ => false,
        }
    }

    // Whether it is a surface that is no TIN.
    fn is_bad_surface(self, is_there: bool, value: &Option<Buffer>) -> bool
        ensures { result ≡ is_bad_surface self is_there value.now }
    {
        match self {
            Kind::Definition => is_there && !is_text(value, b"TIN".as_slice()),
            _ => false,
        }
    }

    // Whether it is a breakline that isn't standard.
    fn is_bad_break(self, is_there: bool, value: &Option<Buffer>) -> bool
        ensures { result ≡ is_bad_break self is_there value.now }
    {
        match self {
            Kind::Breakline => is_there && !is_text(value, b"standard".as_slice()),
            _ => false,
        }
    }

    // Whether it is a boundary that is none of the three.
    fn is_bad_boundary(self, value: &Option<Buffer>) -> bool
        ensures { result ≡ is_bad_boundary self value.now }
    {
        match self {
            Kind::Boundary => !is_one_of_three(
                value,
                b"outer".as_slice(),
                b"void".as_slice(),
                b"island".as_slice(),
            ),
            _ => false,
        }
    }

    // Whether it doesn't have as many words as it must.
    fn is_miscounted(self, words: u32) -> bool
        ensures { result ≡ is_miscounted self words }
    {
        match self {
            Kind::Triples => words % 3 != 0,
            Kind::Pairs => words % 2 != 0,
            Kind::Point | Kind::Face => words != 3,
            _ => false,
        }
    }
}

// A fault of the cause at an offset.
fn at(offset: u32, cause: Option<DocCause>) -> Option<DocFault>
    ensures { result ≡ caused offset cause }
{
    match cause {
        Some(cause) => Some(DocFault {
            at: u64::from(offset),
            cause,
        }),
        None => None,
    }
}

impl Tokens {
    // Why the value of the read attribute is refused.
    fn value_cause(&self, kind: Kind) -> Option<DocCause>
        ensures { result ≡ first_cause (value_rows kind self.now.values) }
    {
        let values = &self.values;
        if values.is_unlisted {
            Some(DocCause::Entity)
        } else if (kind.must_have() && !values.is_there) || values.is_twice {
            Some(DocCause::Attr)
        } else if kind.is_bad_unit(&values.first) {
            Some(DocCause::Unit)
        } else if kind.is_bad_surface(values.is_there, &values.first) {
            Some(DocCause::SurfType)
        } else if kind.is_bad_break(values.is_there, &values.first) {
            Some(DocCause::BrkType)
        } else if kind.is_bad_boundary(&values.first) {
            Some(DocCause::BndType)
        } else {
            None
        }
    }

    // Why the tag that ends is refused.
    fn tag_cause(&self) -> Option<DocCause>
        ensures { result ≡ first_cause (opening_rows (opening_at 0 self.now)) }
    {
        let depth = self.stack.len() + 1;
        if depth == 1 && self.name.as_slice() != b"LandXML".as_slice() {
            Some(DocCause::Root)
        } else if depth > DEEPEST {
            Some(DocCause::Depth)
        } else if self.name.len() > LONGEST || self.values.is_long {
            Some(DocCause::Long)
        } else {
            self.value_cause(self.kind())
        }
    }

    // Why the word that ends is refused.
    fn word_cause(&self) -> Option<DocCause>
        ensures { result ≡ first_cause (word_rows (kind_in self.now.stack) (word_of self.now)) }
    {
        if self.word.len() > LONGEST {
            Some(DocCause::Long)
        } else if self.stack.kind().has_numbers() {
            cause_of_number(self.word.as_slice())
        } else {
            None
        }
    }

    // The fault of the word that ends, where one is open.
    fn word_fault(&self) -> Option<DocFault>
        ensures { result ≡ word_verdict self.now }
    {
        if self.word.is_empty() {
            None
        } else {
            at(self.word_at, self.word_cause())
        }
    }

    // Why the end tag that ends is refused.
    fn end_cause(&self) -> Option<DocCause>
        ensures { result ≡ first_cause (closing_rows (closing_at 0 self.now)) }
    {
        if !self.stack.is_named(self.name.as_slice()) {
            Some(DocCause::Tag)
        } else if self.stack.kind().is_miscounted(self.stack.words()) {
            Some(DocCause::Count)
        } else {
            None
        }
    }

    // The fault that a byte of text shows.
    fn letter_fault(&self, offset: u32, b: u8) -> Option<DocFault>
        ensures { result ≡ letter_verdict offset b self.now }
    {
        if !self.stack.kind().has_text() {
            None
        } else if is_white_byte(b) {
            self.word_fault()
        } else if b == b'&' {
            at(offset, Some(DocCause::Entity))
        } else {
            None
        }
    }

    // Why an empty element is refused.
    fn empty_cause(&self) -> Option<DocCause>
        ensures { result ≡ empty_cause (kind_of self.now) (first_cause (opening_rows (opening_at 0 self.now))) }
    {
        match self.tag_cause() {
            Some(cause) => Some(cause),
            None => {
                if self.kind().is_miscounted(0) {
                    Some(DocCause::Count)
                } else {
                    None
                }
            }
        }
    }

    // The fault of CDATA.
    fn quoted_fault(&self) -> Option<DocFault>
        ensures { result ≡ verdict_of Quotes 0 0 self.now }
    {
        if self.stack.kind().has_text() {
            at(self.at, Some(DocCause::Entity))
        } else {
            None
        }
    }

    /// The first fault that the byte at an offset shows, which is an act to the tokens.
    pub(crate) fn verdict(&self, act: Act, offset: u32, b: u8) -> Option<DocFault>
        ensures { result ≡ verdict_of act offset b self.now }
    {
        match act {
            Act::Letter => self.letter_fault(offset, b),
            Act::Less => self.word_fault(),
            Act::Opens => at(self.at, self.tag_cause()),
            Act::Passes => at(self.at, self.empty_cause()),
            Act::Closes => at(self.at, self.end_cause()),
            Act::Quotes => self.quoted_fault(),
            Act::Pass
            | Act::BeginName
            | Act::Name
            | Act::BeginAttribute
            | Act::Attribute
            | Act::BeginValue
            | Act::Value
            | Act::EndValue => None,
        }
    }
}
