//! A surface of a document, written anew.

ghost use Rattle.std.specs.Prelude.{option_map};
ghost use Rattle.landxml_surface.specs.Drafts.{IsRule};
ghost use Rattle.landxml_write.specs.Text.{document};
ghost use Rattle.store.specs.Shown.{shown_by};
ghost use Rattle.document_commands.specs.Reaching.{Puts};
ghost use Rattle.document_commands.specs.Rewriting.{Rewrites};
ghost use Rattle.document_commands.specs.Streams.{stream, sides};

use crate::ending::Ending;
use crate::opening::open_surface;
use ground_io::{Sink, Source};
use ground_model::Limits;
use landxml_surface::OriginRule;
use landxml_write::write_surface;
use std::alloc::{AllocError, Global};
use store::Store;

// Writes the surface of a store.
fn put_store<O: Sink>(store: &Store, output: &mut O) -> Ending
    ensures { Puts (stream (O.written output.old) (O.write_faults output.old)) (stream (O.written output.new) (O.write_faults output.new)) (document (shown_by store.now.journal)) result }
{
    match store.newest() {
        Ok(version) => match write_surface(&version, output) {
            Ok(()) => Ending::Done,
            Err(_) => Ending::WriteFault,
        },
        Err(AllocError) => Ending::Memory,
    }
}

/// Reads the document of the source, loads the first of its surfaces within these limits, or the
/// first that has these bytes as its name, and writes it as a document of its own. Nothing is written
/// of it before it is loaded. A given origin is within 2^50 thousandths.
pub fn rewrite<S: Source, O: Sink>(
    alloc: Global,
    name: Option<&[u8]>,
    rule: OriginRule,
    limits: Limits,
    source: &mut S,
    output: &mut O,
) -> Ending
    requires { IsRule rule }
    ensures rewrites { Rewrites (option_map (λ n. n.now) name.entry) rule limits (sides (S.left source.old) (S.read_faults source.old) (O.written output.old) (O.write_faults output.old)) (sides (S.left source.new) (S.read_faults source.new) (O.written output.new) (O.write_faults output.new)) result }
{
    match open_surface(alloc, name, rule, limits, source, output) {
        Ok(store) => put_store(&store, output),
        Err(end) => end,
    }
}
