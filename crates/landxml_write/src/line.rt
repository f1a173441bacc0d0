//! Rings and breaklines, as a document has them.

ghost use Rattle.std.specs.Prelude.{◌≡◌, ◌∷◌, ◌++◌, [], true, codes};
ghost use Rattle.std.specs.List.{flat_map, list_all};
ghost use Rattle.landxml_write.specs.Exports.{is_vertex};
ghost use Rattle.landxml_write.specs.Text.{place_text, next_text, list_text, closed, ring_text, open_text, boundary_of, breakline_of};

use crate::export::Export;
use crate::find::level_of;
use crate::output::Output;
use crate::vertex::{origin_of, put_vertex};
use ground_model::{LineKind, Place};

// A point's place with its level.
fn put_place<E: Export, O: Output>(out: &mut O, export: &E, place: Place)
    requires { is_vertex (E.shown export.now).points place ≡ true }
    ensures { O.Takes out.old out.new (place_text (E.shown export.now) place) }
{
    put_vertex(out, origin_of(export), place, level_of(export, place));
}

// A point's place after others.
fn put_next<E: Export, O: Output>(out: &mut O, export: &E, place: Place)
    requires { is_vertex (E.shown export.now).points place ≡ true }
    ensures { O.Takes out.old out.new (next_text (E.shown export.now) place) }
{
    out.put(b" ");
    put_place(out, export, place);
}

// The places after the first.
fn put_rest<E: Export, O: Output>(out: &mut O, export: &E, places: &[Place])
    requires { list_all (is_vertex (E.shown export.now).points) places.now ≡ true }
    ensures { O.Takes out.old out.new (flat_map (next_text (E.shown export.now)) places.now) }
{
    for place in places {
        put_next(out, export, *place);
    }
}

// The places of a line, parted by one space.
fn put_list<E: Export, O: Output>(out: &mut O, export: &E, places: &[Place])
    requires { list_all (is_vertex (E.shown export.now).points) places.now ≡ true }
    ensures { O.Takes out.old out.new (list_text (E.shown export.now) places.now) }
{
    if let Some((first, rest)) = places.split_first() {
        put_place(out, export, *first);
        put_rest(out, export, rest);
    }
}

// The places of a ring, its first once more at the end.
fn put_closed<E: Export, O: Output>(out: &mut O, export: &E, places: &[Place])
    requires { list_all (is_vertex (E.shown export.now).points) places.now ≡ true }
    ensures { O.Takes out.old out.new (list_text (E.shown export.now) (closed places.now)) }
{
    if let Some((first, rest)) = places.split_first() {
        put_place(out, export, *first);
        put_rest(out, export, rest);
        put_next(out, export, *first);
    }
}

// A ring's line.
fn put_ring<E: Export, O: Output>(out: &mut O, export: &E, kind: &[u8], places: &[Place])
    requires { list_all (is_vertex (E.shown export.now).points) places.now ≡ true }
    ensures { O.Takes out.old out.new (ring_text (E.shown export.now) kind.now places.now) }
{
    out.put(b"<Boundary bndType=\"");
    out.put(kind);
    out.put(b"\" edgeTrim=\"false\"><PntList3D>");
    put_closed(out, export, places);
    out.put(b"</PntList3D></Boundary>\n");
}

/// The line of a ring; of a breakline nothing.
pub(crate) fn put_boundary<E: Export, O: Output>(
    out: &mut O,
    export: &E,
    kind: LineKind,
    places: &[Place],
)
    requires { list_all (is_vertex (E.shown export.now).points) places.now ≡ true }
    ensures { O.Takes out.old out.new (boundary_of (E.shown export.now) kind places.now) }
{
    match kind {
        LineKind::Breakline => {}
        LineKind::Outer => put_ring(out, export, b"outer", places),
        LineKind::Void => put_ring(out, export, b"void", places),
        LineKind::Island => put_ring(out, export, b"island", places),
    }
}

// A breakline's line.
fn put_open_line<E: Export, O: Output>(out: &mut O, export: &E, places: &[Place])
    requires { list_all (is_vertex (E.shown export.now).points) places.now ≡ true }
    ensures { O.Takes out.old out.new (open_text (E.shown export.now) places.now) }
{
    out.put(b"<Breakline brkType=\"standard\"><PntList3D>");
    put_list(out, export, places);
    out.put(b"</PntList3D></Breakline>\n");
}

/// The line of a breakline; of a ring nothing.
pub(crate) fn put_breakline<E: Export, O: Output>(
    out: &mut O,
    export: &E,
    kind: LineKind,
    places: &[Place],
)
    requires { list_all (is_vertex (E.shown export.now).points) places.now ≡ true }
    ensures { O.Takes out.old out.new (breakline_of (E.shown export.now) kind places.now) }
{
    match kind {
        LineKind::Breakline => put_open_line(out, export, places),
        LineKind::Outer | LineKind::Void | LineKind::Island => {}
    }
}
