//! The report on a document.

ghost use Rattle.std.specs.Prelude.{◌≡◌};
ghost use Rattle.landxml_surface.specs.Drafts.{IsRule};
ghost use Rattle.document_commands.specs.Streams.{sides};
ghost use Rattle.document_commands.specs.Report.{Checks};

use crate::ending::Ending;
use crate::refusal::refuse;
use crate::report::report;
use document_source::read_drafts;
use ground_io::{Sink, Source};
use ground_model::Limits;
use landxml_surface::OriginRule;
use std::alloc::Global;

/// Reads the document of the source, loads each of its surfaces by itself within these limits, and
/// reports them: a line as soon as its surface is loaded, and at the end how many there are. The first
/// surface that can't be loaded ends the report with its fault line. Nothing is written before the
/// document was read to its end. A given origin is within 2^50 thousandths. Its cost is that of
/// loading, and of one surface at a time.
pub fn check<S: Source, O: Sink>(
    alloc: Global,
    rule: OriginRule,
    limits: Limits,
    source: &mut S,
    output: &mut O,
) -> Ending
    requires { IsRule rule }
    ensures checks { Checks rule limits (sides (S.left source.old) (S.read_faults source.old) (O.written output.old) (O.write_faults output.old)) (sides (S.left source.new) (S.read_faults source.new) (O.written output.new) (O.write_faults output.new)) result }
{
    match read_drafts(alloc, source, rule) {
        Ok(drafted) => report(alloc, limits, drafted.drafts.as_slice(), output),
        Err(fault) => refuse(fault, output),
    }
}
