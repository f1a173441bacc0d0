//! The causes of refusals, as replies write them.

ghost use Rattle.std.specs.Prelude.{◌≡◌, ◌+◌, ◌≤◌, ◌++◌, ◌∷◌, [], length};
ghost use Rattle.std.specs.Fmt.{decimal};
ghost use Rattle.ground_num.specs.Head.{IsOrigin};
ghost use Rattle.line_protocol.specs.Replies.{reason_text};

use crate::place_text::{add_level, add_spaced_place};
use crate::text::Text;
use ground_model::Refusal;
use ground_num::Origin;

/// A word and a number.
pub(crate) fn add_counted(text: &mut Text, word: &[u8], number: u32)
    requires { length text.old + length word.now + 21 ≤ 512 }
    ensures text { text.new ≡ text.old ++ (word.now ++ 32 ∷ decimal number) }
    ensures fits { length text.new ≤ length text.old + length word.now + 21 }
{
    text.add(word);
    text.add_number(u64::from(number));
}

/// A word and two numbers.
pub(crate) fn add_pair(text: &mut Text, word: &[u8], first: u32, second: u32)
    requires { length text.old + length word.now + 42 ≤ 512 }
    ensures text { text.new ≡ text.old ++ (word.now ++ 32 ∷ decimal first ++ 32 ∷ decimal second) }
    ensures fits { length text.new ≤ length text.old + length word.now + 42 }
{
    add_counted(text, word, first);
    text.add_number(u64::from(second));
}

/// Adds the cause of a refusal, as replies and fault lines write it: places with the origin added.
pub fn add_reason(text: &mut Text, origin: &Origin, reason: &Refusal)
    requires origin { IsOrigin origin.now }
    requires room { length text.old + 60 ≤ 512 }
    ensures text { text.new ≡ text.old ++ reason_text origin.now reason.now }
    ensures fits { length text.new ≤ length text.old + 60 }
{
    match reason {
        Refusal::Occupied(level) => {
            text.add(b"occupied");
            add_level(text, *level);
        }
        Refusal::Absent(place) => {
            text.add(b"absent");
            add_spaced_place(text, origin, *place);
        }
        Refusal::Held(id) => add_counted(text, b"held", id.0),
        Refusal::Joint(lesser, greater) => add_pair(text, b"joint", lesser.0, greater.0),
        Refusal::TooShort => text.add(b"short"),
        Refusal::Repeated(index) => add_counted(text, b"repeated", *index),
        Refusal::NotPoint(index) => add_counted(text, b"not-point", *index),
        Refusal::Crosses(id) => add_counted(text, b"crosses", id.0),
        Refusal::SelfCross(lesser, greater) => add_pair(text, b"self-cross", *lesser, *greater),
        Refusal::NoLine(id) => add_counted(text, b"no-line", id.0),
        Refusal::PointsFull => text.add(b"points-full"),
        Refusal::LinesFull => text.add(b"lines-full"),
        Refusal::VerticesFull => text.add(b"vertices-full"),
        Refusal::LogFull => text.add(b"log-full"),
    }
}
