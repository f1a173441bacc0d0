//! Which faces of a document are facets of the loaded surface.

ghost use Rattle.std.specs.Prelude.{◌≡◌, ◌≤◌, true, length, count_by};
ghost use Rattle.std.specs.List.{list_any};
ghost use Rattle.ground_model.specs.History.{content_of};
ghost use Rattle.ground_model.specs.Place.{IsPlace, is_before};
ghost use Rattle.ground_model.specs.Tri.{tri};
ghost use Rattle.document_commands.specs.Agreeing.{IsRightBefore, has_corners, agrees};

use ground_model::{Facet, Place};
use landxml_write::Export;
use store::Version;

// The place right before this one in place order. None where this is the first of all places.
fn place_before(place: Place) -> Option<Place>
    ensures { IsRightBefore place result }
{
    match Place::new(place.e(), place.n() - 1) {
        Some(before) => Some(before),
        None => Place::new(place.e() - 1, Place::LIMIT),
    }
}

// Whether the facet has these corners, in this order.
fn is_at(facet: &Facet, a: Place, b: Place, c: Place) -> bool
    ensures value { result ≡ has_corners a b c facet.now }
    ensures place { IsPlace facet.now.c }
{
    // This read shows that the corner is a place.
    let _easting = facet.c.e();
    facet.a == a && facet.b == b && facet.c == c
}

// Whether the first facet after those that have their corners before these three has these three.
fn is_next(version: &Version, a: Place, b: Place, c: Place) -> bool
    requires second { is_before a b ≡ true }
    requires third { is_before a c ≡ true }
    ensures { result ≡ list_any (has_corners a b c) (tri (content_of version.now.journal.entries)) }
{
    // That `a` is a place shows that `c` isn't the first of all.
    let _easting = a.e();
    let Some(before) = place_before(c) else {
        return false;
    };
    let facet = Facet {
        a,
        b,
        c: before,
        ab: 0,
        bc: 0,
        ca: 0,
    };
    match version.face_after(Some(facet)) {
        Some((found, _)) => is_at(&found, a, b, c),
        None => false,
    }
}

// Whether a facet has these corners, in this order.
fn has_facet(version: &Version, a: Place, b: Place, c: Place) -> bool
    ensures { result ≡ list_any (has_corners a b c) (tri (content_of version.now.journal.entries)) }
{
    if a < b && a < c {
        is_next(version, a, b, c)
    } else {
        false
    }
}

// Whether the three places, in any order, are the corners of a facet.
#[tactic(auto, unfolding(crate::specs::Agreeing::agrees))]
fn is_agreeing(version: &Version, face: &(Place, Place, Place)) -> bool
    ensures { result ≡ agrees (tri (content_of version.now.journal.entries)) face.now }
{
    let (p, q, r) = *face;
    has_facet(version, p, q, r)
        || has_facet(version, q, r, p)
        || has_facet(version, r, p, q)
        || has_facet(version, p, r, q)
        || has_facet(version, r, q, p)
        || has_facet(version, q, p, r)
}

/// How many of the faces agree. Each costs a search by halving or two.
pub(crate) fn count_agreeing(version: &Version, faces: &[(Place, Place, Place)]) -> usize
    ensures { result ≡ count_by (agrees (tri (content_of version.now.journal.entries))) faces.now }
{
    let mut count: usize = 0;
    for face in faces {
        if is_agreeing(version, face) {
            count += 1;
        }
    }
    count
}
