//! Rings, breaklines and points, as they were surveyed.

ghost use Rattle.std.specs.Prelude.{◌≡◌, ◌≤◌, ◌++◌, codes, length};
ghost use Rattle.std.specs.List.{flat_map};
ghost use Rattle.landxml_write.specs.Sizes.{AreShort};
ghost use Rattle.landxml_write.specs.Text.{boundary_text, breakline_text, data_text, source_text, vertex_text};

use crate::export::Export;
use crate::line::{put_boundary, put_breakline};
use crate::output::Output;
use crate::vertex::{origin_of, put_vertex};
use ground_model::{Level, Place};

// The rings.
fn put_boundaries<E: Export, O: Output>(out: &mut O, export: &E)
    ensures { O.Takes out.old out.new (flat_map (boundary_text (E.shown export.now)) (E.shown export.now).lines) }
{
    for k in 0..export.lines() {
        let Some((kind, places)) = export.line(k) else {
            unreachable!()
        };
        put_boundary(out, export, kind, places.as_slice());
    }
}

// The breaklines.
fn put_breaklines<E: Export, O: Output>(out: &mut O, export: &E)
    ensures { O.Takes out.old out.new (flat_map (breakline_text (E.shown export.now)) (E.shown export.now).lines) }
{
    for k in 0..export.lines() {
        let Some((kind, places)) = export.line(k) else {
            unreachable!()
        };
        put_breakline(out, export, kind, places.as_slice());
    }
}

// A point of the list of data points.
#[tactic(auto, unfolding(crate::specs::Text::data_text))]
fn put_data_point<E: Export, O: Output>(out: &mut O, export: &E, vertex: &(Place, Level))
    ensures takes { O.Takes out.old out.new (data_text (E.shown export.now) vertex.now) }
    ensures short { length (vertex_text (E.shown export.now).head.origin vertex.now) ≤ 80 }
{
    put_vertex(out, origin_of(export), vertex.0, vertex.1);
    out.put(b"\n");
}

// The list of data points, which shows that the text of each is short.
fn put_data_points<E: Export, O: Output>(out: &mut O, export: &E)
    ensures takes { O.Takes out.old out.new (flat_map (data_text (E.shown export.now)) (E.shown export.now).points) }
    ensures short { AreShort (E.shown export.now) }
{
    for k in 0..export.points() {
        let Some(vertex) = export.point(k) else {
            unreachable!()
        };
        put_data_point(out, export, &vertex);
    }
}

/// The surveyed data: rings, breaklines and points.
pub(crate) fn put_source<E: Export, O: Output>(out: &mut O, export: &E)
    ensures takes { O.Takes out.old out.new (source_text (E.shown export.now)) }
    ensures short { AreShort (E.shown export.now) }
{
    out.put(b"<SourceData>\n<Boundaries>\n");
    put_boundaries(out, export);
    out.put(b"</Boundaries>\n<Breaklines>\n");
    put_breaklines(out, export);
    out.put(b"</Breaklines>\n<DataPoints><PntList3D>\n");
    put_data_points(out, export);
    out.put(b"</PntList3D></DataPoints>\n</SourceData>\n");
}
