//! The start tag of an element, or the tag of an empty one.

/// Where the scan stands in a tag.
#[derive(Clone, Copy, Debug, PartialEq, Eq)]
pub(crate) enum TagPart {
    /// In the element's name.
    Name,
    /// After white, where an attribute may begin or the tag end.
    White,
    /// In the name of an attribute.
    Attribute,
    /// After white that follows an attribute's name.
    BeforeEquals,
    /// After the equals sign.
    AfterEquals,
    DoubleQuoted,
    SingleQuoted,
    /// After the closing quote.
    AfterValue,
    /// After the slash of an empty element.
    Slash,
}
