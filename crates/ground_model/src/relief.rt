//! Reliefs.

ghost use Rattle.std.specs.Prelude.{◌≡◌, ◌<◌, ◌≤◌, ◌^◌, ℤ, List, Option, length, slice_get, unwrap_or, filter_map, All, IfSome, IsTrue};
ghost use Rattle.std.specs.List.Sorted.{IsPermutation, IsStrictlySortedBy};
ghost use Rattle.std.specs.Ordering.{on, then_cmp};
ghost use Rattle.ground_model.specs.Place.{Coords, place_cmp};
ghost use Rattle.ground_model.specs.Side.{is_left};
ghost use Rattle.ground_model.specs.Level.{holding as holding_of};
ghost use Rattle.ground_model.specs.declared.slope.Slope.{Slope};

use crate::place::Place;
use crate::slope::Slope;

/// The kept facets of a surface with their levels, each at one slot: what measures read. No call
/// takes memory.
pub trait Relief {
    /// The kept facets with their levels, in facet order.
    ghost slopes: { Self → List Slope };

    /// What lies at each slot: a kept facet, or none.
    ghost table: { Self → List (Option Slope) };

    /// The one level of each place that is a corner.
    ghost corner_level: { Self → Coords → ℤ };

    /// How many slots there are. From here on no slot has a kept facet. Twice the area of a facet
    /// is at most 2^61 and a height over a datum at most 2^27, so what lies above or below the
    /// datum in one facet is at most 3 * 2^88 sixths of a cubic thousandth, and in all of them
    /// less than 2^120.
    fn slots(&self) -> u32
        ensures slots { result ≡ length (table self.now) }
        ensures few_slots { length (table self.now) ≤ 2 ^ 30 }
        ensures few { length (slopes self.now) < 2 ^ 30 }
        ensures each_once { IsPermutation (filter_map (λ slope. slope) (table self.now)) (slopes self.now) }
        ensures in_order { IsStrictlySortedBy (then_cmp (on (λ s. s.facet.a) place_cmp) (then_cmp (on (λ s. s.facet.b) place_cmp) (on (λ s. s.facet.c) place_cmp))) (slopes self.now) }
        ensures turned { All (λ s. IsTrue (is_left s.facet.a s.facet.b s.facet.c)) (slopes self.now) }
        ensures one_level { All (λ s. (s.za ≡ corner_level self.now s.facet.a) × (s.zb ≡ corner_level self.now s.facet.b) × (s.zc ≡ corner_level self.now s.facet.c)) (slopes self.now) };

    /// The kept facet at the slot.
    fn slope(&self, slot: u32) -> Option<Slope>
        ensures { result ≡ unwrap_or (slice_get (table self.now) slot) None };

    /// The least kept facet whose closed triangle has the place.
    fn holding(&self, place: Place) -> Option<Slope>
        ensures least { result ≡ holding_of (slopes self.now) place }
        ensures turned { IfSome result (λ s. IsTrue (is_left s.facet.a s.facet.b s.facet.c)) };
}
