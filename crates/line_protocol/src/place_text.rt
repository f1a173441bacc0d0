//! Places, levels and what is made of places, as replies write them.

ghost use Rattle.std.specs.Prelude.{◌≡◌, ◌+◌, ◌≤◌, ◌++◌, ◌∷◌, [], ◌+ℤ◌, ◌^◌, length};
ghost use Rattle.ground_num.specs.Decimal.{IsWithin, thousandths_text};
ghost use Rattle.ground_num.specs.Head.{IsOrigin};
ghost use Rattle.line_protocol.specs.Replies.{spaced_place, spaced_level, place_text, mark_text, cut_text};

use crate::text::Text;
use ground_model::{Cut, Level, Mark, Place};
use ground_num::{Origin, Thousandths};

/// A space and the level.
pub(crate) fn add_level(text: &mut Text, level: Level)
    requires { length text.old + 25 ≤ 512 }
    ensures text { text.new ≡ text.old ++ spaced_level level }
    ensures fits { length text.new ≤ length text.old + 25 }
{
    text.add(b" ");
    text.add_thousandths(i64::from(level.get()));
}

// A coordinate in the document's system.
fn add_coordinate(text: &mut Text, coordinate: i32, origin: Thousandths)
    requires origin { IsWithin (2 ^ 50) origin.0 }
    requires room { length text.old + 24 ≤ 512 }
    ensures text { text.new ≡ text.old ++ thousandths_text (coordinate +ℤ origin.0) }
    ensures fits { length text.new ≤ length text.old + 24 }
{
    text.add_thousandths(i64::from(coordinate) + origin.0);
}

/// The northing and the easting, with the origin added.
pub(crate) fn add_place(text: &mut Text, origin: &Origin, place: Place)
    requires origin { IsOrigin origin.now }
    requires room { length text.old + 49 ≤ 512 }
    ensures text { text.new ≡ text.old ++ place_text origin.now place }
    ensures fits { length text.new ≤ length text.old + 49 }
{
    add_coordinate(text, place.n(), origin.n);
    text.add(b" ");
    add_coordinate(text, place.e(), origin.e);
}

/// A space, the northing and the easting, with the origin added.
pub(crate) fn add_spaced_place(text: &mut Text, origin: &Origin, place: Place)
    requires origin { IsOrigin origin.now }
    requires room { length text.old + 50 ≤ 512 }
    ensures text { text.new ≡ text.old ++ spaced_place origin.now place }
    ensures fits { length text.new ≤ length text.old + 50 }
{
    text.add(b" ");
    add_place(text, origin, place);
}

/// The mark of a conflict: a point, or the corners of a facet.
pub(crate) fn add_mark(text: &mut Text, origin: &Origin, mark: &Mark)
    requires origin { IsOrigin origin.now }
    requires room { length text.old + 150 ≤ 512 }
    ensures text { text.new ≡ text.old ++ mark_text origin.now mark.now }
    ensures fits { length text.new ≤ length text.old + 150 }
{
    match mark {
        Mark::Point(place) => {
            text.add(b" at");
            add_spaced_place(text, origin, *place);
        }
        Mark::Tri(facet) => {
            add_spaced_place(text, origin, facet.a);
            add_spaced_place(text, origin, facet.b);
            add_spaced_place(text, origin, facet.c);
        }
    }
}

/// A further line: the ends of a cut.
pub(crate) fn add_cut(text: &mut Text, origin: &Origin, cut: &Cut)
    requires origin { IsOrigin origin.now }
    requires room { length text.old + 100 ≤ 512 }
    ensures text { text.new ≡ text.old ++ 10 ∷ cut_text origin.now cut.now }
    ensures fits { length text.new ≤ length text.old + 100 }
{
    text.add(b"\n");
    add_place(text, origin, cut.from);
    add_spaced_place(text, origin, cut.to);
}
