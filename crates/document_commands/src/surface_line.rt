//! The line of a surface in a report.

ghost use Rattle.std.specs.Prelude.{◌≡◌, ◌+◌, ◌≤◌, ◌<◌, ◌++◌, length, slice_index, OnOk, IfOk};
ghost use Rattle.std.specs.List.{flat_map};
ghost use Rattle.ground_num.specs.Names.{escape};
ghost use Rattle.ground_model.specs.History.{content_of};
ghost use Rattle.ground_model.specs.Tri.{tri};
ghost use Rattle.document_commands.specs.Lines.{sizes_text, faces_text, losses_text, unit_word, unit_text, origin_text, counts_text, line_text};

use crate::agreeing::count_agreeing;
use ground_num::{LinearUnit, Name, Origin};
use landxml_surface::Draft;
use line_protocol::Text;
use std::alloc::{AllocError, Global};
use store::Version;

// The surface's number, its points, lines and facets.
#[tactic(auto, unfolding(crate::specs::Lines::sizes_text))]
fn sizes(number: u64, draft: &Draft, facets: u32) -> Text
    ensures text { result ≡ sizes_text number (length draft.now.points) (length draft.now.lines) facets }
    ensures fits { length result ≤ 120 }
{
    let mut text = Text::new();
    text.add(b"surface");
    text.add_number(number);
    text.add(b" points");
    text.add_number(draft.points.len() as u64);
    text.add(b" lines");
    text.add_number(draft.lines.len() as u64);
    text.add(b" facets");
    text.add_number(u64::from(facets));
    text
}

// Its faces, and how many of them agree.
#[tactic(auto, unfolding(crate::specs::Lines::faces_text))]
fn add_faces(text: &mut Text, faces: usize, agreeing: usize)
    requires { length text.old ≤ 120 }
    ensures text { text.new ≡ text.old ++ faces_text faces agreeing }
    ensures fits { length text.new ≤ 180 }
{
    text.add(b" faces");
    text.add_number(faces as u64);
    text.add(b" agree");
    text.add_number(agreeing as u64);
}

// What of the document isn't in the surface.
#[tactic(auto, unfolding(crate::specs::Lines::losses_text))]
fn add_losses(text: &mut Text, draft: &Draft)
    requires { length text.old ≤ 180 }
    ensures text { text.new ≡ text.old ++ losses_text draft.now.doubles draft.now.clashes draft.now.short }
    ensures fits { length text.new ≤ 280 }
{
    text.add(b" doubles");
    text.add_number(u64::from(draft.doubles));
    text.add(b" clashes");
    text.add_number(u64::from(draft.clashes));
    text.add(b" short");
    text.add_number(u64::from(draft.short));
}

// Adds the unit, as documents name it.
fn add_unit_word(text: &mut Text, unit: LinearUnit)
    requires { length text.old + 12 ≤ 512 }
    ensures text { text.new ≡ text.old ++ unit_word unit }
    ensures fits { length text.new ≤ length text.old + 12 }
{
    match unit {
        LinearUnit::Meter => text.add(b"meter"),
        LinearUnit::Foot => text.add(b"foot"),
        LinearUnit::USSurveyFoot => text.add(b"USSurveyFoot"),
    }
}

// The unit.
#[tactic(auto, unfolding(crate::specs::Lines::unit_text))]
fn add_unit(text: &mut Text, unit: LinearUnit)
    requires { length text.old ≤ 280 }
    ensures text { text.new ≡ text.old ++ unit_text unit }
    ensures fits { length text.new ≤ 300 }
{
    text.add(b" unit ");
    add_unit_word(text, unit);
}

// The origin.
#[tactic(auto, unfolding(crate::specs::Lines::origin_text))]
fn add_origin(text: &mut Text, origin: &Origin)
    requires { length text.old ≤ 300 }
    ensures text { text.new ≡ text.old ++ origin_text origin.now }
{
    text.add(b" origin ");
    text.add_thousandths(origin.n.0);
    text.add(b" ");
    text.add_thousandths(origin.e.0);
    text.add(b" name ");
}

// What stands before the name.
#[tactic(auto, unfolding(crate::specs::Lines::counts_text))]
fn counts(number: u64, draft: &Draft, version: &Version) -> Text
    ensures { result ≡ counts_text number draft.now (tri (content_of version.now.journal.entries)) }
{
    let agreeing = count_agreeing(version, draft.faces.as_slice());
    let mut text = sizes(number, draft, version.facets());
    add_faces(&mut text, draft.faces.len(), agreeing);
    add_losses(&mut text, draft);
    add_unit(&mut text, draft.head.unit);
    add_origin(&mut text, &draft.head.origin);
    text
}

// One byte of a name.
fn add_byte(line: &mut Vec<u8>, name: &Name, offset: usize) -> Result<(), AllocError>
    requires { offset < length name.now }
    ensures { OnOk result (line.new.items ≡ line.old.items ++ escape (slice_index name.now offset)) }
{
    let mut reference = [0; 6];
    match name.escaped(offset, &mut reference) {
        Some(len) => line.extend_from_slice(&reference[..len]),
        None => Ok(()),
    }
}

// A name, as documents write it.
fn add_name(line: &mut Vec<u8>, name: &Name) -> Result<(), AllocError>
    ensures { OnOk result (line.new.items ≡ line.old.items ++ flat_map escape name.now) }
{
    for offset in 0..name.len() {
        add_byte(line, name, offset)?;
    }
    Ok(())
}

/// The line of a loaded surface with this number.
#[tactic(auto, unfolding(crate::specs::Lines::line_text))]
pub(crate) fn surface_line(
    alloc: Global,
    number: u64,
    draft: &Draft,
    version: &Version,
) -> Result<Vec<u8>, AllocError>
    ensures { IfOk result (λ line. line.items ≡ line_text number draft.now (tri (content_of version.now.journal.entries))) }
{
    let text = counts(number, draft, version);
    let mut line = Vec::new(alloc);
    line.extend_from_slice(text.as_bytes())?;
    add_name(&mut line, &draft.head.name)?;
    line.push(b'\n')?;
    Ok(line)
}
