//! Volumes, as replies write them.

ghost use Rattle.std.specs.Prelude.{◌≡◌, ◌+◌, ◌≤◌, ◌++◌, ◌∷◌, [], length};
ghost use Rattle.line_protocol.specs.Replies.{volume_texts, sixths_words, wholes, IsVolumeWithin};

use crate::text::Text;
use ground_model::Volume;

/// The three numbers of a volume, in cubic units.
pub(crate) fn add_volume_texts(text: &mut Text, volume: &Volume)
    requires size { IsVolumeWithin volume.now }
    requires room { length text.old + 147 ≤ 512 }
    ensures text { text.new ≡ text.old ++ volume_texts volume.now }
    ensures fits { length text.new ≤ length text.old + 147 }
{
    text.add_volume(volume.cut);
    text.add_volume(volume.fill);
    text.add_volume(volume.net);
}

/// The three numbers of a volume, in whole sixths of a cubic thousandth.
pub(crate) fn add_sixths(text: &mut Text, volume: &Volume)
    requires { length text.old + 130 ≤ 512 }
    ensures text { text.new ≡ text.old ++ sixths_words volume.now }
    ensures fits { length text.new ≤ length text.old + 130 }
{
    text.add(b" sixths");
    add_wholes(text, volume);
}

// A space and a signed number for each of the three.
fn add_wholes(text: &mut Text, volume: &Volume)
    requires { length text.old + 123 ≤ 512 }
    ensures text { text.new ≡ text.old ++ wholes volume.now }
    ensures fits { length text.new ≤ length text.old + 123 }
{
    text.add_whole(volume.cut);
    text.add_whole(volume.fill);
    text.add_whole(volume.net);
}
