//! The lines up to a surface's name.

ghost use Rattle.std.specs.Prelude.{◌≡◌, ◌<◌, ◌++◌, codes, length, slice_index};
ghost use Rattle.std.specs.List.{flat_map};
ghost use Rattle.ground_num.specs.Names.{escape};
ghost use Rattle.landxml_write.specs.Text.{opening_text, unit_text, head_text};

use crate::output::Output;
use ground_num::{Head, LinearUnit, Name};

// The unit's line.
fn put_unit<O: Output>(out: &mut O, unit: LinearUnit)
    ensures { O.Takes out.old out.new (unit_text unit) }
{
    match unit {
        LinearUnit::Meter => out.put(b"<Units><Metric linearUnit=\"meter\"/></Units>\n"),
        LinearUnit::Foot => out.put(b"<Units><Imperial linearUnit=\"foot\"/></Units>\n"),
        LinearUnit::USSurveyFoot => {
            out.put(b"<Units><Imperial linearUnit=\"USSurveyFoot\"/></Units>\n")
        }
    }
}

// One byte of the name.
fn put_byte<O: Output>(out: &mut O, name: &Name, offset: usize)
    requires { offset < length name.now }
    ensures { O.Takes out.old out.new (escape (slice_index name.now offset)) }
{
    let mut reference = [0; 6];
    if let Some(len) = name.escaped(offset, &mut reference) {
        out.put(&reference[..len]);
    }
}

// The name between its quotes.
fn put_name<O: Output>(out: &mut O, name: &Name)
    ensures { O.Takes out.old out.new (flat_map escape name.now) }
{
    for offset in 0..name.len() {
        put_byte(out, name, offset);
    }
}

/// The lines up to the surface's name. The date and the time are constants.
#[tactic(auto, unfolding(crate::specs::Text::head_text))]
pub(crate) fn put_head<O: Output>(out: &mut O, head: &Head)
    ensures { O.Takes out.old out.new (head_text head.now) }
{
    out.put(
        b"<?xml version=\"1.0\" encoding=\"UTF-8\"?>\n<LandXML xmlns=\"http://www.landxml.org/schema/LandXML-1.2\" version=\"1.2\" date=\"2000-01-01\" time=\"00:00:00\">\n",
    );
    put_unit(out, head.unit);
    out.put(b"<Surfaces>\n<Surface name=\"");
    put_name(out, &head.name);
    out.put(b"\">\n");
}
