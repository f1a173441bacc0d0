//! Places with their levels, as a document has them.

ghost use Rattle.std.specs.Prelude.{◌≡◌, ◌≤◌, ◌^◌, ◌+ℤ◌, length};
ghost use Rattle.ground_num.specs.Head.{IsOrigin};
ghost use Rattle.ground_num.specs.Decimal.{IsWithin, thousandths_text};
ghost use Rattle.landxml_write.specs.Text.{vertex_text};

use crate::export::Export;
use crate::output::Output;
use ground_model::{Level, Place};
use ground_num::{Origin, Thousandths};

// A coordinate of the document's system.
fn with_origin(coordinate: i32, origin: Thousandths) -> i64
    requires { IsWithin (2 ^ 50) origin.0 }
    ensures { result ≡ coordinate +ℤ origin.0 }
{
    i64::from(coordinate) + origin.0
}

fn put_northing<O: Output>(out: &mut O, origin: &Origin, place: Place)
    requires { IsOrigin origin.now }
    ensures takes { O.Takes out.old out.new (thousandths_text (place.n +ℤ origin.now.n.0)) }
    ensures short { length (thousandths_text (place.n +ℤ origin.now.n.0)) ≤ 25 }
{
    out.put_thousandths(with_origin(place.n(), origin.n));
}

fn put_easting<O: Output>(out: &mut O, origin: &Origin, place: Place)
    requires { IsOrigin origin.now }
    ensures takes { O.Takes out.old out.new (thousandths_text (place.e +ℤ origin.now.e.0)) }
    ensures short { length (thousandths_text (place.e +ℤ origin.now.e.0)) ≤ 25 }
{
    out.put_thousandths(with_origin(place.e(), origin.e));
}

fn put_level<O: Output>(out: &mut O, level: Level)
    ensures takes { O.Takes out.old out.new (thousandths_text level) }
    ensures short { length (thousandths_text level) ≤ 25 }
{
    out.put_thousandths(i64::from(level.get()));
}

/// The origin.
pub(crate) fn origin_of<E: Export>(export: &E) -> &Origin
    ensures origin { result.now ≡ (E.shown export.now).head.origin }
    ensures within { IsOrigin result.now }
{
    &export.head().origin
}

/// The northing, the easting and the level.
pub(crate) fn put_vertex<O: Output>(out: &mut O, origin: &Origin, place: Place, level: Level)
    requires { IsOrigin origin.now }
    ensures takes { O.Takes out.old out.new (vertex_text origin.now (place, level)) }
    ensures short { length (vertex_text origin.now (place, level)) ≤ 80 }
{
    put_northing(out, origin, place);
    out.put(b" ");
    put_easting(out, origin, place);
    out.put(b" ");
    put_level(out, level);
}
