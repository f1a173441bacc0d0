//! What the surfaces of a document come to, as text.

ghost use Rattle.std.specs.Prelude.{◌≤◌, length, IfOk};
ghost use Rattle.landxml_read.specs.Lawful.{IsLawful};
ghost use Rattle.landxml_surface.specs.Drafts.{IsRule};

use ground_model::Place;
use landxml_read::{RawDoc, ReadFault, Reader};
use landxml_surface::{Draft, Drafts, OriginRule, surfaces};
use std::alloc::Global;
use std::fmt::Write;

// A northing and an easting, in thousandths from the origin.
fn put_place(text: &mut String, place: &Place) -> Option<()> {
    write!(text, " {} {}", place.n(), place.e()).ok()
}

fn put_points(text: &mut String, draft: &Draft) -> Option<()> {
    for (place, level) in draft.points.as_slice() {
        write!(text, "\npoint").ok()?;
        put_place(text, place)?;
        write!(text, " {}", level.get()).ok()?;
    }
    Some(())
}

fn put_places(text: &mut String, places: &[Place]) -> Option<()> {
    for place in places {
        put_place(text, place)?;
    }
    Some(())
}

fn put_lines(text: &mut String, draft: &Draft) -> Option<()> {
    for (kind, places) in draft.lines.as_slice() {
        write!(text, "\n{kind:?}").ok()?;
        put_places(text, places.as_slice())?;
    }
    Some(())
}

fn put_faces(text: &mut String, draft: &Draft) -> Option<()> {
    for (a, b, c) in draft.faces.as_slice() {
        write!(text, "\nface").ok()?;
        put_places(text, &[*a, *b, *c])?;
    }
    Some(())
}

fn put_draft(text: &mut String, draft: &Draft) -> Option<()> {
    let origin = draft.head.origin;
    write!(
        text,
        "{:?} from {} {}: doubles {} clashes {} short {}",
        draft.head.unit, origin.n.0, origin.e.0, draft.doubles, draft.clashes, draft.short
    )
    .ok()?;
    put_points(text, draft)?;
    put_lines(text, draft)?;
    put_faces(text, draft)?;
    write!(text, "\n").ok()
}

fn drafts_text(alloc: Global, drafts: &Drafts) -> Option<String> {
    let mut text = String::new(alloc);
    for draft in drafts.as_slice() {
        put_draft(&mut text, draft)?;
    }
    Some(text)
}

// The document of these bytes.
fn read(alloc: Global, bytes: &[u8]) -> Result<RawDoc, ReadFault>
    requires { length bytes.now ≤ 4000 }
    ensures { IfOk result IsLawful }
{
    let mut reader = Reader::new(alloc);
    reader.feed(bytes)?;
    reader.finish()
}

/// The drafts of a document, or the cause and the place of its fault. None where memory ends.
pub(crate) fn drafted(alloc: Global, bytes: &[u8], rule: OriginRule) -> Option<String>
    requires rule { IsRule rule }
    requires bytes { length bytes.now ≤ 4000 }
{
    let drafts = match read(alloc, bytes) {
        Ok(doc) => surfaces(alloc, doc, rule),
        Err(fault) => Err(fault),
    };
    match drafts {
        Ok(drafts) => drafts_text(alloc, &drafts),
        Err(ReadFault::Doc(fault)) => format!(in alloc; "{:?} at {}", fault.cause, fault.at).ok(),
        Err(ReadFault::Memory) => None,
    }
}
