//! The whole document.

ghost use Rattle.std.specs.Prelude.{◌≡◌, ◌+◌, ◌*◌, ◌≤◌, ◌<◌, ◌^◌, ◌++◌, [], false, codes, length};
ghost use Rattle.ground_io.specs.Causes.{HasCause};
ghost use Rattle.ground_io.specs.Order.{SendsText};
ghost use Rattle.ground_io.specs.Streams.{WritesText};
ghost use Rattle.landxml_write.specs.Sizes.{AreShort, places_in};
ghost use Rattle.landxml_write.specs.Text.{document};

use crate::counter::Counter;
use crate::definition::put_definition;
use crate::export::Export;
use crate::head::put_head;
use crate::output::Output;
use crate::source::put_source;
use crate::writer::Writer;
use ground_io::{Failed, Sink};

// The document's text.
fn put_document<E: Export, O: Output>(out: &mut O, export: &E)
    ensures takes { O.Takes out.old out.new (document (E.shown export.now)) }
    ensures short { AreShort (E.shown export.now) }
{
    put_head(out, export.head());
    put_source(out, export);
    put_definition(out, export);
    out.put(b"</Surface>\n</Surfaces>\n</LandXML>\n");
}

// Writes the document and all that the writer holds.
fn write_document<E: Export, S: Sink>(export: &E, writer: &mut Writer<S>) -> Result<(), Failed>
    requires held { writer.old.held ≡ [] }
    requires failed { writer.old.failed ≡ false }
    ensures same_reference { writer.new.sink.ghost_name ≡ writer.old.sink.ghost_name }
    ensures text { WritesText (S.written writer.old.sink.now) (S.written writer.new.sink.now) result (document (E.shown export.now)) }
    ensures order { SendsText (S.write_order writer.old.sink.now) (S.write_order writer.new.sink.now) result (document (E.shown export.now)) }
    ensures cause { HasCause (S.write_faults writer.old.sink.now) (S.write_faults writer.new.sink.now) result }
    ensures rest { S.beside_writes writer.new.sink.now ≡ S.beside_writes writer.old.sink.now }
{
    put_document(writer, export);
    writer.finish()
}

/// Writes the surface as a LandXML document, by writes of nearly 8 KiB. After `Failed` a beginning of
/// it was written. Takes no memory.
pub fn write_surface<E: Export, S: Sink>(export: &E, sink: &mut S) -> Result<(), Failed>
    ensures text { WritesText (S.written sink.old) (S.written sink.new) result (document (E.shown export.now)) }
    ensures order { SendsText (S.write_order sink.old) (S.write_order sink.new) result (document (E.shown export.now)) }
    ensures cause { HasCause (S.write_faults sink.old) (S.write_faults sink.new) result }
    ensures rest { S.beside_writes sink.new ≡ S.beside_writes sink.old }
{
    let mut writer = Writer::new(sink);
    write_document(export, &mut writer)
}

/// How many bytes the document has, as long as that is a number of 64 bits, counted without its text
/// being made. It always is one where the lines together have fewer than 2^48 places. Takes no memory.
pub fn surface_len<E: Export>(export: &E) -> u64
    ensures bound { length (document (E.shown export.now)) ≤ 2 ^ 50 + 256 * places_in (E.shown export.now).lines }
    ensures value { length (document (E.shown export.now)) < 2 ^ 64 → result ≡ length (document (E.shown export.now)) }
{
    // Only the proof reads these: they bound the text.
    let _name = export.head().name.len();
    let _points = export.points();
    let _lines = export.lines();
    let _faces = export.faces();
    let mut counter = Counter::new();
    put_document(&mut counter, export);
    counter.get()
}
