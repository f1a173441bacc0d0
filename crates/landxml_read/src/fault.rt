//! Why a document is refused.

/// The causes, in the order in which those that one byte shows are reported.
#[derive(Clone, Copy, Debug, PartialEq, Eq)]
pub enum DocCause {
    /// The bytes aren't UTF-8, or end inside a sequence.
    Utf8,
    /// A document type declaration.
    Doctype,
    /// A byte that the markup doesn't allow there.
    Syntax,
    /// The document ends too early.
    Cut,
    /// The outermost element isn't `LandXML`.
    Root,
    /// More than 64 elements would be open.
    Depth,
    /// The name of an end tag isn't the open element's.
    Tag,
    /// An element's name, a read attribute's value or a word over 255 bytes.
    Long,
    /// A reference that isn't listed, or one or CDATA in the text of `P`, `F` or a list.
    Entity,
    /// A `Surface` without `name`, a `P` without `id`, or a read attribute twice.
    Attr,
    /// A unit that isn't one of the three.
    Unit,
    /// A surface that is no TIN.
    SurfType,
    /// A breakline that isn't standard.
    BrkType,
    /// A boundary that is none of the three.
    BndType,
    /// A word that is no decimal.
    Number,
    /// A number over the limit.
    Big,
    /// Too many or too few words.
    Count,
    /// A coordinate or level outside its limit.
    Range,
    /// A pair that is the place of no triple.
    NoHeight,
    /// An id that an earlier `P` has.
    Id,
    /// A face that names an id which no `P` has.
    Face,
}

/// What is wrong with a document, and the byte where.
#[derive(Clone, Copy, Debug, PartialEq, Eq)]
pub struct DocFault {
    /// The offset in the document, counted from 0.
    pub at: u64,
    pub cause: DocCause,
}

/// Why a reader gives up.
#[derive(Clone, Copy, Debug, PartialEq, Eq)]
pub enum ReadFault {
    Doc(DocFault),
    /// Out of memory.
    Memory,
}
