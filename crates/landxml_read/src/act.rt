//! What a byte is to the tag or the word that is open.

ghost use Rattle.std.specs.Prelude.{◌≡◌};
ghost use Rattle.landxml_read.specs.Tokens.{act, tag_act, end_act};

use crate::scan::Part;
use crate::tag::TagPart;

/// What a byte is, by the parts of the markup before and after it.
#[derive(Clone, Copy, Debug, PartialEq, Eq)]
pub(crate) enum Act {
    /// Nothing.
    Pass,
    /// A byte of text.
    Letter,
    /// The `<` of markup.
    Less,
    /// The first byte of a tag's name.
    BeginName,
    Name,
    /// The first byte of an attribute's name.
    BeginAttribute,
    Attribute,
    /// The quote before a value.
    BeginValue,
    Value,
    /// The quote after a value.
    EndValue,
    /// The `>` of a start tag.
    Opens,
    /// The `>` of an empty element's tag.
    Passes,
    /// The `>` of an end tag.
    Closes,
    /// The last byte of what opens CDATA.
    Quotes,
}

// In a start tag.
fn in_tag(from: TagPart, to: TagPart) -> Act
    ensures { result ≡ tag_act from to }
{
    match from {
        TagPart::Name => match to {
            TagPart::Name => Act::Name,
            _ => Act::Pass,
        },
        TagPart::White => match to {
            TagPart::Attribute => Act::BeginAttribute,
            _ => Act::Pass,
        },
        TagPart::Attribute => match to {
            TagPart::Attribute => Act::Attribute,
            _ => Act::Pass,
        },
        TagPart::AfterEquals => match to {
            TagPart::DoubleQuoted | TagPart::SingleQuoted => Act::BeginValue,
            _ => Act::Pass,
        },
        TagPart::DoubleQuoted => match to {
            TagPart::DoubleQuoted => Act::Value,
            TagPart::AfterValue => Act::EndValue,
            _ => Act::Pass,
        },
        TagPart::SingleQuoted => match to {
            TagPart::SingleQuoted => Act::Value,
            TagPart::AfterValue => Act::EndValue,
            _ => Act::Pass,
        },
        _ => Act::Pass,
    }
}

// At the `>` of a start tag.
fn at_tag_end(from: TagPart) -> Act
    ensures { result ≡ end_act from }
{
    match from {
        TagPart::Slash => Act::Passes,
        _ => Act::Opens,
    }
}

impl Act {
    /// What a byte is that leads from a part to a part.
    pub(crate) fn between(from: Part, to: Part) -> Act
        ensures { result ≡ act from to }
    {
        match from {
            Part::Text => match to {
                Part::Text => Act::Letter,
                Part::Open => Act::Less,
                _ => Act::Pass,
            },
            Part::Start => match to {
                Part::Open => Act::Less,
                _ => Act::Pass,
            },
            Part::Open => match to {
                Part::Tag(_) => Act::BeginName,
                _ => Act::Pass,
            },
            Part::Tag(from) => match to {
                Part::Tag(to) => in_tag(from, to),
                Part::Text => at_tag_end(from),
                _ => Act::Pass,
            },
            Part::EndOpen => match to {
                Part::EndName => Act::BeginName,
                _ => Act::Pass,
            },
            Part::EndName => match to {
                Part::EndName => Act::Name,
                Part::Text => Act::Closes,
                _ => Act::Pass,
            },
            Part::EndWhite => match to {
                Part::Text => Act::Closes,
                _ => Act::Pass,
            },
            Part::BracketCdata => match to {
                Part::In(_) => Act::Quotes,
                _ => Act::Pass,
            },
            _ => Act::Pass,
        }
    }
}
