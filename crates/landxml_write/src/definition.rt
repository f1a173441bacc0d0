//! The triangulation: points with their ids, and facets.

ghost use Rattle.std.specs.Prelude.{◌≡◌, ◌+◌, ◌<◌, ◌^◌, ◌++◌, codes, true};
ghost use Rattle.std.specs.Fmt.{decimal};
ghost use Rattle.std.specs.List.{flat_map};
ghost use Rattle.landxml_write.specs.Exports.{is_vertex};
ghost use Rattle.landxml_write.specs.Text.{point_text, points_text, id_of, face_tag, face_text, definition_text};

use crate::export::Export;
use crate::find::id_at;
use crate::output::Output;
use crate::vertex::{origin_of, put_vertex};
use ground_model::{Facet, Level, Place};

// A point's line with its id.
#[tactic(auto, unfolding(crate::specs::Text::point_text))]
fn put_point<E: Export, O: Output>(out: &mut O, export: &E, id: u32, vertex: &(Place, Level))
    ensures { O.Takes out.old out.new (point_text (E.shown export.now) id vertex.now) }
{
    out.put(b"<P id=\"");
    out.put_number(id);
    out.put(b"\">");
    put_vertex(out, origin_of(export), vertex.0, vertex.1);
    out.put(b"</P>\n");
}

// The points' lines.
fn put_points<E: Export, O: Output>(out: &mut O, export: &E)
    ensures { O.Takes out.old out.new (points_text (E.shown export.now) 1 (E.shown export.now).points) }
{
    for k in 0..export.points() {
        let Some(vertex) = export.point(k) else {
            unreachable!()
        };
        put_point(out, export, k + 1, &vertex);
    }
}

// The beginning of a facet's line.
fn put_tag<O: Output>(out: &mut O, is_kept: bool)
    ensures { O.Takes out.old out.new (face_tag is_kept) }
{
    if is_kept {
        out.put(b"<F>");
    } else {
        out.put(b"<F i=\"1\">");
    }
}

// The id of a corner.
fn put_id<E: Export, O: Output>(out: &mut O, export: &E, corner: Place)
    requires { is_vertex (E.shown export.now).points corner ≡ true }
    ensures { O.Takes out.old out.new (decimal (id_of (E.shown export.now).points corner)) }
{
    out.put_number(id_at(export, corner));
}

// A facet's line.
#[tactic(auto, unfolding(crate::specs::Text::face_text))]
fn put_face<E: Export, O: Output>(out: &mut O, export: &E, facet: &Facet, is_kept: bool)
    requires a { is_vertex (E.shown export.now).points facet.now.a ≡ true }
    requires b { is_vertex (E.shown export.now).points facet.now.b ≡ true }
    requires c { is_vertex (E.shown export.now).points facet.now.c ≡ true }
    ensures { O.Takes out.old out.new (face_text (E.shown export.now) (facet.now, is_kept)) }
{
    put_tag(out, is_kept);
    put_id(out, export, facet.a);
    out.put(b" ");
    put_id(out, export, facet.b);
    out.put(b" ");
    put_id(out, export, facet.c);
    out.put(b"</F>\n");
}

// The facets' lines.
fn put_faces<E: Export, O: Output>(out: &mut O, export: &E)
    ensures { O.Takes out.old out.new (flat_map (face_text (E.shown export.now)) (E.shown export.now).faces) }
{
    let mut last = None;
    for _index in 0..export.faces() {
        let Some((facet, is_kept)) = export.face_after(last) else {
            unreachable!()
        };
        put_face(out, export, &facet, is_kept);
        last = Some(facet);
    }
}

/// The triangulation: points with their ids, and facets.
pub(crate) fn put_definition<E: Export, O: Output>(out: &mut O, export: &E)
    ensures { O.Takes out.old out.new (definition_text (E.shown export.now)) }
{
    out.put(b"<Definition surfType=\"TIN\">\n<Pnts>\n");
    put_points(out, export);
    out.put(b"</Pnts>\n<Faces>\n");
    put_faces(out, export);
    out.put(b"</Faces>\n</Definition>\n");
}
