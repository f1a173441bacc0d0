//! The lines of a report.

ghost use Rattle.std.specs.Prelude.{◌≡◌, ◌++◌, ◌∷◌, [], codes, All, IfOk};
ghost use Rattle.ground_num.specs.Head.{IsOrigin};
ghost use Rattle.ground_model.specs.History.{content_of};
ghost use Rattle.ground_model.specs.Tri.{tri};
ghost use Rattle.line_protocol.specs.Replies.{spaced};
ghost use Rattle.document_commands.specs.Lines.{line_text};
ghost use Rattle.document_commands.specs.Loaded.{facets_of};
ghost use Rattle.document_commands.specs.Reaching.{Puts, Writes};
ghost use Rattle.document_commands.specs.Report.{Reports};
ghost use Rattle.document_commands.specs.Streams.{stream};

use crate::ending::Ending;
use crate::reaching::reach;
use crate::surface_line::surface_line;
use ground_io::{Sink, write_all};
use ground_model::Limits;
use landxml_surface::Draft;
use line_protocol::Text;
use std::alloc::{AllocError, Global};
use store::Store;

// The line of the surface with this number, of which this is the store.
fn line_of(alloc: Global, number: u64, draft: &Draft, store: &Store) -> Result<Vec<u8>, AllocError>
    ensures { IfOk result (λ line. line.items ≡ line_text number draft.now (tri (content_of store.now.journal.entries))) }
{
    surface_line(alloc, number, draft, &store.newest()?)
}

// Writes the line of the surface with this number.
fn put_surface<O: Sink>(
    alloc: Global,
    number: u64,
    draft: &Draft,
    store: &Store,
    output: &mut O,
) -> Ending
    ensures { Puts (stream (O.written output.old) (O.write_faults output.old)) (stream (O.written output.new) (O.write_faults output.new)) (line_text number draft.now (tri (content_of store.now.journal.entries))) result }
{
    match line_of(alloc, number, draft, store) {
        Ok(line) => match write_all(output, line.as_slice()) {
            Ok(()) => Ending::Done,
            Err(_) => Ending::WriteFault,
        },
        Err(AllocError) => Ending::Memory,
    }
}

// Loads the surface with this number and writes its line, or its fault line where it can't be loaded.
fn report_one<O: Sink>(
    alloc: Global,
    limits: Limits,
    number: u64,
    draft: &Draft,
    output: &mut O,
) -> Ending
    requires { IsOrigin draft.now.head.origin }
    ensures { Writes limits number draft.now (line_text number draft.now (facets_of limits draft.now)) (stream (O.written output.old) (O.write_faults output.old)) (stream (O.written output.new) (O.write_faults output.new)) result }
{
    match reach(alloc, limits, number, draft, output) {
        Ok(store) => put_surface(alloc, number, draft, &store, output),
        Err(end) => end,
    }
}

// How many surfaces there are.
fn count_line(count: u64) -> Text
    ensures { result ≡ codes "surfaces" ++ spaced count ++ 10 ∷ [] }
{
    let mut text = Text::new();
    text.add(b"surfaces");
    text.add_number(count);
    text.add(b"\n");
    text
}

/// Loads the drafts one after another and reports them.
pub(crate) fn report<O: Sink>(
    alloc: Global,
    limits: Limits,
    drafts: &[Draft],
    output: &mut O,
) -> Ending
    requires { All (λ draft. IsOrigin draft.head.origin) drafts.now }
    ensures { Reports limits drafts.now (stream (O.written output.old) (O.write_faults output.old)) (stream (O.written output.new) (O.write_faults output.new)) result }
{
    let mut count: u64 = 0;
    for draft in drafts {
        count += 1;
        match report_one(alloc, limits, count, draft, output) {
            Ending::Done => {}
            end => return end,
        }
    }
    match write_all(output, count_line(count).as_bytes()) {
        Ok(()) => Ending::Done,
        Err(_) => Ending::WriteFault,
    }
}
