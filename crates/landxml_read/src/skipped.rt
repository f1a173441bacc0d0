//! Comments, processing instructions and CDATA, whose content isn't looked at.

/// Where the scan stands in one of them.
#[derive(Clone, Copy, Debug, PartialEq, Eq)]
pub(crate) enum Skipped {
    Comment,
    /// After one dash in a comment.
    CommentDash,
    /// After two dashes or more.
    CommentDashes,
    Instruction,
    /// After a question mark in a processing instruction.
    InstructionMark,
    CData,
    /// After one closing bracket in CDATA.
    CDataBracket,
    /// After two brackets or more.
    CDataBrackets,
}
