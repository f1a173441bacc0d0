//! What a reading comes to, as text: a line for each thing that a document holds.

use ground_num::Name;
use landxml_read::{RawDoc, RawFace, RawId, RawLine, RawSurface, RawVertex, ReadFault};
use std::alloc::Global;
use std::fmt::Write;

// The bytes of a name, those that aren't ASCII in hexadecimal digits.
fn put_name(text: &mut String, name: &Name) -> Option<()> {
    for k in 0..name.len() {
        let b = *name.get(k)?;
        if b < 128 {
            write!(text, "{}", char::from(b)).ok()?;
        } else {
            write!(text, "<{b:x}>").ok()?;
        }
    }
    Some(())
}

fn put_places(text: &mut String, surface: &RawSurface) -> Option<()> {
    for k in 0..surface.triples.len() {
        let t = surface.triples.get(k)?;
        write!(
            text,
            "\ntriple {} {} {} at {} {} {}",
            t.n.0, t.e.0, t.z.0, t.n_at, t.e_at, t.z_at
        )
        .ok()?;
    }
    for k in 0..surface.pairs.len() {
        let p = surface.pairs.get(k)?;
        write!(text, "\npair {} {} at {}", p.n.0, p.e.0, p.at).ok()?;
    }
    Some(())
}

fn put_line(text: &mut String, line: &RawLine) -> Option<()> {
    write!(text, "\n{:?} at {}:", line.kind, line.at).ok()?;
    for k in 0..line.vertices.len() {
        match line.vertices.get(k)? {
            RawVertex::Triple(index) => write!(text, " t{index}").ok()?,
            RawVertex::Pair(index) => write!(text, " p{index}").ok()?,
        }
    }
    Some(())
}

fn put_id(text: &mut String, id: &RawId) -> Option<()> {
    write!(text, "\nid ").ok()?;
    put_name(text, &id.id)?;
    write!(text, " at {} of t{}", id.at, id.triple).ok()
}

fn put_face(text: &mut String, face: &RawFace) -> Option<()> {
    write!(text, "\nface at {}: ", face.at).ok()?;
    put_name(text, &face.a)?;
    write!(text, " ").ok()?;
    put_name(text, &face.b)?;
    write!(text, " ").ok()?;
    put_name(text, &face.c)
}

fn put_lines(text: &mut String, surface: &RawSurface) -> Option<()> {
    for k in 0..surface.lines.len() {
        put_line(text, surface.lines.get(k)?)?;
    }
    for k in 0..surface.ids.len() {
        put_id(text, surface.ids.get(k)?)?;
    }
    for k in 0..surface.faces.len() {
        put_face(text, surface.faces.get(k)?)?;
    }
    Some(())
}

fn put_surface(text: &mut String, surface: &RawSurface) -> Option<()> {
    write!(text, "\nsurface ").ok()?;
    put_name(text, &surface.name)?;
    write!(text, " at {}", surface.at).ok()?;
    put_places(text, surface)?;
    put_lines(text, surface)
}

fn doc_text(alloc: Global, doc: &RawDoc) -> Option<String> {
    let mut text = format!(in alloc; "{:?}", doc.unit).ok()?;
    for k in 0..doc.surfaces.len() {
        put_surface(&mut text, doc.surfaces.get(k)?)?;
    }
    Some(text)
}

/// What a document holds, or the cause and the place of its fault. None where memory ends.
pub(crate) fn text_of(alloc: Global, read: &Result<RawDoc, ReadFault>) -> Option<String> {
    match read {
        Ok(doc) => doc_text(alloc, doc),
        Err(ReadFault::Doc(fault)) => format!(in alloc; "{:?} at {}", fault.cause, fault.at).ok(),
        Err(ReadFault::Memory) => None,
    }
}
