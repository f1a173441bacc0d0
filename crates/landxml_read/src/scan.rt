//! The scan of a document's markup.

ghost use Rattle.std.specs.Prelude.{◌≡◌, ◌<◌, ◌^◌, ◌+◌, IsTrue, Some};
ghost use Rattle.landxml_read.specs.Scan.{IsShallow, opened, passed, closed, is_inside, is_unclosed, at, only, text_next, open_next, bang_next, skipping, skipped_next, tag_end, white_or_end, before_quote, value_next, tag_next, end_next, part_next, next, is_final};

use crate::byte::{is_free_byte, is_white_byte, may_be_in_name, may_be_in_value, may_begin_name};
use crate::level::Level;
use crate::skipped::Skipped;
use crate::tag::TagPart;

/// The part of a document in which the scan stands.
#[derive(Clone, Copy, Debug, PartialEq, Eq)]
pub(crate) enum Part {
    /// At the beginning, where a byte order mark may stand.
    Start,
    /// After the first byte of a byte order mark.
    MarkFirst,
    /// After its second byte.
    MarkSecond,
    /// Between markup.
    Text,
    /// After `<`.
    Open,
    /// After `<!`.
    Bang,
    /// After `<!-`.
    BangDash,
    /// After `<![`, and then the letters of CDATA one by one.
    Bracket,
    BracketC,
    BracketCd,
    BracketCda,
    BracketCdat,
    BracketCdata,
    /// In a comment, a processing instruction or CDATA.
    In(Skipped),
    /// In a start tag.
    Tag(TagPart),
    /// After `</`.
    EndOpen,
    /// In the name of an end tag.
    EndName,
    /// After white that follows the name of an end tag.
    EndWhite,
}

/// Where the scan stands.
#[derive(Clone, Copy, Debug, PartialEq, Eq)]
pub(crate) struct Scan {
    pub(crate) part: Part,
    pub(crate) level: Level,
}

impl Level {
    // The scan in a part at this level.
    fn at(self, part: Part) -> Option<Scan>
        ensures { result ≡ at self part }
    {
        Some(Scan { part, level: self })
    }

    // On in a part where the byte is the expected one.
    fn only(self, expected: u8, b: u8, part: Part) -> Option<Scan>
        ensures { result ≡ only expected b self part }
    {
        if b == expected { self.at(part) } else { None }
    }

    // Between markup.
    fn after_text(self, b: u8) -> Option<Scan>
        ensures { result ≡ text_next self b }
    {
        if b == b'<' {
            self.at(Part::Open)
        } else if is_white_byte(b) || (self.is_inside() && is_free_byte(b)) {
            self.at(Part::Text)
        } else {
            None
        }
    }

    // After `<`.
    fn after_open(self, b: u8) -> Option<Scan>
        ensures { result ≡ open_next self b }
    {
        if b == b'!' {
            self.at(Part::Bang)
        } else if b == b'?' {
            self.at(Part::In(Skipped::Instruction))
        } else if b == b'/' && self.is_inside() {
            self.at(Part::EndOpen)
        } else if may_begin_name(b) && self.is_unclosed() {
            self.at(Part::Tag(TagPart::Name))
        } else {
            None
        }
    }

    // After `<!`.
    fn after_bang(self, b: u8) -> Option<Scan>
        ensures { result ≡ bang_next self b }
    {
        if b == b'-' {
            self.at(Part::BangDash)
        } else if b == b'[' && self.is_inside() {
            self.at(Part::Bracket)
        } else {
            None
        }
    }

    // At a byte that is no part of an end.
    fn skipping(self, part: Skipped, b: u8) -> Option<Scan>
        ensures { result ≡ skipping self part b }
    {
        if is_free_byte(b) {
            self.at(Part::In(part))
        } else {
            None
        }
    }

    // In a comment, a processing instruction or CDATA.
    fn after_skipped(self, part: Skipped, b: u8) -> Option<Scan>
        ensures { result ≡ skipped_next self part b }
    {
        match part {
            Skipped::Comment if b == b'-' => self.at(Part::In(Skipped::CommentDash)),
            Skipped::CommentDash if b == b'-' => self.at(Part::In(Skipped::CommentDashes)),
            Skipped::CommentDashes if b == b'>' => self.at(Part::Text),
            Skipped::CommentDashes if b == b'-' => self.at(Part::In(Skipped::CommentDashes)),
            Skipped::Instruction if b == b'?' => self.at(Part::In(Skipped::InstructionMark)),
            Skipped::InstructionMark if b == b'>' => self.at(Part::Text),
            Skipped::InstructionMark if b == b'?' => self.at(Part::In(Skipped::InstructionMark)),
            Skipped::CData if b == b']' => self.at(Part::In(Skipped::CDataBracket)),
            Skipped::CDataBracket if b == b']' => self.at(Part::In(Skipped::CDataBrackets)),
            Skipped::CDataBrackets if b == b'>' => self.at(Part::Text),
            Skipped::CDataBrackets if b == b']' => self.at(Part::In(Skipped::CDataBrackets)),
            Skipped::Comment | Skipped::CommentDash | Skipped::CommentDashes => self.skipping(
                Skipped::Comment,
                b,
            ),
            Skipped::Instruction | Skipped::InstructionMark => self.skipping(
                Skipped::Instruction,
                b,
            ),
            Skipped::CData | Skipped::CDataBracket | Skipped::CDataBrackets => self.skipping(
                Skipped::CData,
                b,
            ),
        }
    }

    // Where a tag may end.
    fn after_tag(self, b: u8) -> Option<Scan>
        requires { IsShallow self }
        ensures { result ≡ tag_end self b }
    {
        if b == b'>' {
            self.opened().at(Part::Text)
        } else {
            self.only(b'/', b, Part::Tag(TagPart::Slash))
        }
    }

    // Where white may stand, or the tag end.
    fn after_white(self, b: u8) -> Option<Scan>
        requires { IsShallow self }
        ensures { result ≡ white_or_end self b }
    {
        if is_white_byte(b) {
            self.at(Part::Tag(TagPart::White))
        } else {
            self.after_tag(b)
        }
    }

    // After the equals sign.
    fn after_equals(self, b: u8) -> Option<Scan>
        ensures { result ≡ before_quote self b }
    {
        if is_white_byte(b) {
            self.at(Part::Tag(TagPart::AfterEquals))
        } else if b == b'"' {
            self.at(Part::Tag(TagPart::DoubleQuoted))
        } else {
            self.only(b'\'', b, Part::Tag(TagPart::SingleQuoted))
        }
    }

    // In a value.
    fn after_value(self, part: TagPart, quote: u8, b: u8) -> Option<Scan>
        ensures { result ≡ value_next self part quote b }
    {
        if b == quote {
            self.at(Part::Tag(TagPart::AfterValue))
        } else if may_be_in_value(quote, b) {
            self.at(Part::Tag(part))
        } else {
            None
        }
    }

    // In a start tag.
    fn after_tag_part(self, part: TagPart, b: u8) -> Option<Scan>
        requires { IsShallow self }
        ensures { result ≡ tag_next self part b }
    {
        match part {
            TagPart::Name if may_be_in_name(b) => self.at(Part::Tag(TagPart::Name)),
            TagPart::White if may_begin_name(b) => self.at(Part::Tag(TagPart::Attribute)),
            TagPart::Name | TagPart::White | TagPart::AfterValue => self.after_white(b),
            TagPart::Attribute if may_be_in_name(b) => self.at(Part::Tag(TagPart::Attribute)),
            TagPart::Attribute | TagPart::BeforeEquals if is_white_byte(b) => self.at(Part::Tag(
                TagPart::BeforeEquals,
            )),
            TagPart::Attribute | TagPart::BeforeEquals => self.only(
                b'=',
                b,
                Part::Tag(TagPart::AfterEquals),
            ),
            TagPart::AfterEquals => self.after_equals(b),
            TagPart::DoubleQuoted => self.after_value(part, b'"', b),
            TagPart::SingleQuoted => self.after_value(part, b'\'', b),
            TagPart::Slash => self.passed().only(b'>', b, Part::Text),
        }
    }

    // After the name of an end tag.
    fn after_end(self, b: u8) -> Option<Scan>
        ensures { result ≡ end_next self b }
    {
        if is_white_byte(b) {
            self.at(Part::EndWhite)
        } else {
            self.closed().only(b'>', b, Part::Text)
        }
    }
}

impl Scan {
    /// Where the scan stands after the byte. None where no document goes on with it.
    pub(crate) fn after(self, b: u8) -> Option<Scan>
        requires { IsShallow self.level }
        ensures { result ≡ next self b }
    {
        let level = self.level;
        match self.part {
            Part::Start if b == 0xEF => level.at(Part::MarkFirst),
            Part::Start | Part::Text => level.after_text(b),
            Part::MarkFirst => level.only(0xBB, b, Part::MarkSecond),
            Part::MarkSecond => level.only(0xBF, b, Part::Text),
            Part::Open => level.after_open(b),
            Part::Bang => level.after_bang(b),
            Part::BangDash => level.only(b'-', b, Part::In(Skipped::Comment)),
            Part::Bracket => level.only(b'C', b, Part::BracketC),
            Part::BracketC => level.only(b'D', b, Part::BracketCd),
            Part::BracketCd => level.only(b'A', b, Part::BracketCda),
            Part::BracketCda => level.only(b'T', b, Part::BracketCdat),
            Part::BracketCdat => level.only(b'A', b, Part::BracketCdata),
            Part::BracketCdata => level.only(b'[', b, Part::In(Skipped::CData)),
            Part::In(part) => level.after_skipped(part, b),
            Part::Tag(part) => level.after_tag_part(part, b),
            Part::EndOpen if may_begin_name(b) => level.at(Part::EndName),
            Part::EndOpen => None,
            Part::EndName if may_be_in_name(b) => level.at(Part::EndName),
            Part::EndName | Part::EndWhite => level.after_end(b),
        }
    }

    /// Whether a document may end here.
    pub(crate) fn is_end(self) -> bool
        ensures { result ≡ is_final self }
    {
        matches!(self.part, Part::Text) && matches!(self.level, Level::After)
    }
}
