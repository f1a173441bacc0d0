//! Whether a triangle is a facet.

ghost use Rattle.std.specs.Prelude.{◌≡◌, ◌<◌, true, false};
ghost use Rattle.ground_model.specs.declared.corner.Corner.TheVariants.{At};
ghost use Rattle.mesh.specs.Net.{side};
ghost use Rattle.locate.specs.Facets.{IsFacet, IsFacetAt};

use ground_model::{Corner, Facet};
use mesh::{Seen, seen_from};
use tri_pages::TriSlot;

// Whether three corners are those of the facet.
fn has_corners(seen: &Seen, facet: &Facet) -> bool
    ensures yes { result ≡ true → (seen.now.a ≡ At facet.now.a) × (seen.now.b ≡ At facet.now.b) × (seen.now.c ≡ At facet.now.c) }
    ensures no { result ≡ false → seen.now.a ≡ At facet.now.a → seen.now.b ≡ At facet.now.b → seen.now.c ≡ At facet.now.c → ⊥ }
{
    seen.a == Corner::At(facet.a) && seen.b == Corner::At(facet.b) && seen.c == Corner::At(facet.c)
}

// Whether the counts of three edges are those of the facet.
fn has_counts(seen: &Seen, facet: &Facet) -> bool
    ensures yes { result ≡ true → (seen.now.ab ≡ facet.now.ab) × (seen.now.bc ≡ facet.now.bc) × (seen.now.ca ≡ facet.now.ca) }
    ensures no { result ≡ false → seen.now.ab ≡ facet.now.ab → seen.now.bc ≡ facet.now.bc → seen.now.ca ≡ facet.now.ca → ⊥ }
{
    seen.ab == facet.ab && seen.bc == facet.bc && seen.ca == facet.ca
}

/// Whether a triangle has the facet's corners and counts, from a corner on.
pub(crate) fn is_facet_at(t: &TriSlot, corner: u8, facet: &Facet) -> bool
    requires { corner < 3 }
    ensures yes { result ≡ true → IsFacetAt t.now (side corner) facet.now }
    ensures no { result ≡ false → IsFacetAt t.now (side corner) facet.now → ⊥ }
{
    let seen = seen_from(t, corner);
    has_corners(&seen, facet) && has_counts(&seen, facet)
}

/// Whether a triangle is the facet, from any corner on.
pub(crate) fn is_facet(t: &TriSlot, facet: &Facet) -> bool
    ensures yes { result ≡ true → IsFacet t.now facet.now }
    ensures no { result ≡ false → IsFacet t.now facet.now → ⊥ }
{
    is_facet_at(t, 0, facet) || is_facet_at(t, 1, facet) || is_facet_at(t, 2, facet)
}
