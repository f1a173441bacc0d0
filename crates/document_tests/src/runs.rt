//! What runs the commands on documents.

ghost use Rattle.landxml_surface.specs.Drafts.{IsRule};

use document_commands::{Ending, check, rewrite};
use ground_io::{MemSink, MemSource};
use ground_model::Limits;
use ground_num::{Origin, Thousandths};
use landxml_surface::OriginRule;
use std::alloc::Global;
use std::test::Fail;

/// Room for what is written.
const ROOM: usize = 8192;

/// The origin 0 0.
pub(crate) const ZERO: OriginRule = OriginRule::Given(Origin {
    n: Thousandths(0),
    e: Thousandths(0),
});

/// An origin of twelve digits.
pub(crate) const AWAY: OriginRule = OriginRule::Given(Origin {
    n: Thousandths(999_999_990_125),
    e: Thousandths(-999_999_980_250),
});

// The commands without their clauses, which only make the proofs of their callers slow.
fn check_of(alloc: Global, source: &mut MemSource, sink: &mut MemSink) -> Ending {
    check(alloc, OriginRule::Nearest, Limits::FULL, source, sink)
}

fn rewrite_of(
    alloc: Global,
    name: Option<&[u8]>,
    rule: OriginRule,
    source: &mut MemSource,
    sink: &mut MemSink,
) -> Ending
    requires { IsRule rule }
{
    rewrite(alloc, name, rule, Limits::FULL, source, sink)
}

// How a command ended, and what was written.
fn outcome(alloc: Global, end: Ending, sink: &MemSink) -> Result<String, Fail> {
    Ok(format!(in alloc; "{end:?}\n{}", str::from_utf8(sink.written())?)?)
}

/// How the report on a document ends, in a line, and then what is written. The calls of reads and
/// writes with these numbers fail.
pub(crate) fn checked(
    alloc: Global,
    document: &[u8],
    read: u64,
    write: u64,
) -> Result<String, Fail> {
    let mut source = MemSource::new(alloc, document, &[read])?;
    let mut sink = MemSink::new(alloc, ROOM, &[write])?;
    let end = check_of(alloc, &mut source, &mut sink);
    outcome(alloc, end, &sink)
}

/// How the writing of a surface ends, in a line, and then what is written.
pub(crate) fn rewritten(
    alloc: Global,
    document: &[u8],
    name: Option<&[u8]>,
    rule: OriginRule,
) -> Result<String, Fail>
    requires { IsRule rule }
{
    let mut source = MemSource::new(alloc, document, &[])?;
    let mut sink = MemSink::new(alloc, ROOM, &[])?;
    let end = rewrite_of(alloc, name, rule, &mut source, &mut sink);
    outcome(alloc, end, &sink)
}
