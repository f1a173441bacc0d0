//! What a surface shows to be written.

use ground_model::{Facet, Level, LineKind, Place, Places};
use ground_num::Head;

/// A surface that can be written. Points are in place order, lines in the order of their numbers and
/// facets in the order of their corners, the first two counted from 0. Each call that is asked once
/// says that what is shown is lawful: the origin is within its limit, points and facets stand in their
/// orders, and what lines and facets name are points. No call takes memory.
pub trait Export {
    ghost use Rattle.std.specs.Prelude.{◌≡◌, length, slice_get, option_map};
    ghost use Rattle.landxml_write.specs.Exports.{Exported, IsExport, first_after};

    /// All that is written of it.
    ghost shown: { Self → Exported };

    /// What stays whatever is edited.
    fn head(&self) -> &Head
        ensures value { result.now ≡ (shown self.now).head }
        ensures lawful { IsExport (shown self.now) };

    /// How many points there are.
    fn points(&self) -> u32
        ensures value { result ≡ length (shown self.now).points }
        ensures lawful { IsExport (shown self.now) };

    /// The point at the index with its level. None from the count on.
    fn point(&self, k: u32) -> Option<(Place, Level)>
        ensures { result ≡ slice_get (shown self.now).points k };

    /// How many lines there are.
    fn lines(&self) -> u32
        ensures value { result ≡ length (shown self.now).lines }
        ensures lawful { IsExport (shown self.now) };

    /// The line at the index. None from the count on.
    fn line(&self, k: u32) -> Option<(LineKind, &Places)>
        ensures { option_map (λ line. record { kind = line.0; places = line.1.now }) result ≡ slice_get (shown self.now).lines k };

    /// How many facets there are.
    fn faces(&self) -> u32
        ensures value { result ≡ length (shown self.now).faces }
        ensures lawful { IsExport (shown self.now) };

    /// The first facet whose corners come after those of the given one, or the first of all where none
    /// is given, and whether it is kept. None where there is no such facet.
    fn face_after(&self, after: Option<Facet>) -> Option<(Facet, bool)>
        ensures { result ≡ first_after after (shown self.now).faces };
}
