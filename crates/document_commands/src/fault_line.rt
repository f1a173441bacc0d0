//! The lines of faults.

ghost use Rattle.std.specs.Prelude.{◌≡◌, ◌+◌, ◌≤◌, ◌++◌, ◌∷◌, [], codes, length};
ghost use Rattle.ground_num.specs.Head.{IsOrigin};
ghost use Rattle.line_protocol.specs.Replies.{spaced};
ghost use Rattle.document_commands.specs.Faults.{cause_word, document_line, missing_line as missing_text, too_large_line, refused_line};

use ground_model::Refusal;
use ground_num::Origin;
use landxml_read::{DocCause, DocFault};
use line_protocol::{Text, add_reason};

// Adds the word of a cause.
fn add_cause(text: &mut Text, cause: DocCause)
    requires { length text.old + 8 ≤ 512 }
    ensures text { text.new ≡ text.old ++ cause_word cause }
    ensures fits { length text.new ≤ length text.old + 8 }
{
    match cause {
        DocCause::Utf8 => text.add(b"utf8"),
        DocCause::Doctype => text.add(b"doctype"),
        DocCause::Syntax => text.add(b"syntax"),
        DocCause::Cut => text.add(b"cut"),
        DocCause::Root => text.add(b"root"),
        DocCause::Depth => text.add(b"depth"),
        DocCause::Tag => text.add(b"tag"),
        DocCause::Long => text.add(b"long"),
        DocCause::Entity => text.add(b"entity"),
        DocCause::Attr => text.add(b"attr"),
        DocCause::Unit => text.add(b"unit"),
        DocCause::SurfType => text.add(b"surftype"),
        DocCause::BrkType => text.add(b"brktype"),
        DocCause::BndType => text.add(b"bndtype"),
        DocCause::Number => text.add(b"number"),
        DocCause::Big => text.add(b"big"),
        DocCause::Count => text.add(b"count"),
        DocCause::Range => text.add(b"range"),
        DocCause::NoHeight => text.add(b"noheight"),
        DocCause::Id => text.add(b"id"),
        DocCause::Face => text.add(b"face"),
    }
}

// What stands before the cause of a document's fault at an offset.
fn fault_at(at: u64) -> Text
    ensures text { result ≡ codes "fault document" ++ spaced at ++ 32 ∷ [] }
    ensures fits { length result ≤ 40 }
{
    let mut text = Text::new();
    text.add(b"fault document");
    text.add_number(at);
    text.add(b" ");
    text
}

/// The line of a document's fault.
pub(crate) fn fault_line(fault: DocFault) -> Text
    ensures { result ≡ document_line fault.at (cause_word fault.cause) }
{
    let mut text = fault_at(fault.at);
    add_cause(&mut text, fault.cause);
    text.add(b"\n");
    text
}

/// The line where the surface that is asked for isn't in a document of this length.
pub(crate) fn missing_line(length: u32) -> Text
    ensures { result ≡ missing_text length }
{
    let mut text = fault_at(u64::from(length));
    text.add(b"no-surface\n");
    text
}

/// The line of a document with too many bytes.
pub(crate) fn large_line() -> Text
    ensures { result ≡ too_large_line }
{
    let mut text = Text::new();
    text.add(b"fault too-large\n");
    text
}

/// The line of a surface, counted from 1, that can't be loaded.
pub(crate) fn refusal_line(number: u64, line: u32, origin: &Origin, refusal: &Refusal) -> Text
    requires { IsOrigin origin.now }
    ensures { result ≡ refused_line number line origin.now refusal.now }
{
    let mut text = Text::new();
    text.add(b"fault surface");
    text.add_number(number);
    text.add_number(u64::from(line));
    text.add(b" ");
    add_reason(&mut text, origin, refusal);
    text.add(b"\n");
    text
}
