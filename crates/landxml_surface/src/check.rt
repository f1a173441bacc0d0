//! What is wrong with the triples, pairs and faces of a surface.

ghost use Rattle.std.specs.Prelude.{◌≡◌, ◌^◌, ◌-ℤ◌, List, unsigned_abs, nat_lt, bytes_eq, ◌&&◌, All};
ghost use Rattle.std.specs.List.{flat_map};
ghost use Rattle.ground_num.specs.Decimal.{IsWithin};
ghost use Rattle.ground_num.specs.Head.{IsOrigin};
ghost use Rattle.indexmap.specs.IndexMap.{get_by};
ghost use Rattle.landxml_read.specs.declared.raw.Triple.{Triple as ATriple};
ghost use Rattle.landxml_read.specs.declared.raw.RawId.{RawId as AnId};
ghost use Rattle.landxml_read.specs.Lawful.{IsLawfulTriple};
ghost use Rattle.landxml_surface.specs.Faults.{range_faults, pair_faults, face_faults, least_of};
ghost use Rattle.landxml_surface.specs.Ids.{AreIds};
ghost use Rattle.landxml_surface.specs.Notes.{AreHeights};

use crate::fault::{earlier, fault_if};
use crate::heights::Heights;
use crate::ids::Ids;
use crate::spot::pair_spot;
use ground_model::Level;
use ground_num::{Origin, PLACE_LIMIT, Thousandths};
use landxml_read::{DocCause, DocFault, Pair2, RawFace, Triple};

// Whether a coordinate is farther from the origin than the limit.
fn is_far(value: Thousandths, origin: Thousandths) -> bool
    requires value { IsWithin (2 ^ 50) value.0 }
    requires origin { IsWithin (2 ^ 50) origin.0 }
    ensures { result ≡ nat_lt (2 ^ 29) (unsigned_abs (value.0 -ℤ origin.0)) }
{
    PLACE_LIMIT < (value.0 - origin.0).abs()
}

// Whether a level is above the highest or below the lowest.
fn is_out(level: Thousandths) -> bool
    requires { IsWithin (2 ^ 50) level.0 }
    ensures { result ≡ nat_lt (2 ^ 26) (unsigned_abs level.0) }
{
    i64::from(Level::LIMIT) < level.0.abs()
}

// The fault of a triple's number that is outside its limit.
fn range_fault(origin: &Origin, triple: &Triple) -> Option<DocFault>
    requires origin { IsOrigin origin.now }
    requires triple { IsLawfulTriple triple.now }
    ensures { result ≡ least_of (range_faults origin.now triple.now) }
{
    let northing = fault_if(is_far(triple.n, origin.n), triple.n_at, DocCause::Range);
    let easting = fault_if(is_far(triple.e, origin.e), triple.e_at, DocCause::Range);
    let level = fault_if(is_out(triple.z), triple.z_at, DocCause::Range);
    earlier(northing, earlier(easting, level))
}

/// The least fault of the triples: a number outside its limit.
pub(crate) fn triples_fault(origin: &Origin, triples: &[Triple]) -> Option<DocFault>
    requires origin { IsOrigin origin.now }
    requires triples { All IsLawfulTriple triples.now }
    ensures { result ≡ least_of (flat_map (range_faults origin.now) triples.now) }
{
    let mut least = None;
    for triple in triples {
        least = earlier(least, range_fault(origin, triple));
    }
    least
}

// The fault of a pair that is the place of no triple.
fn pair_fault(heights: &Heights, pair: &Pair2) -> Option<DocFault>
    ensures { (ts : List ATriple) → AreHeights ts heights.now → result ≡ least_of (pair_faults ts pair.now) }
{
    let is_high = heights.level(&pair_spot(pair)).is_some();
    fault_if(!is_high, pair.at, DocCause::NoHeight)
}

/// The least fault of the pairs: one that is the place of no triple.
pub(crate) fn pairs_fault(heights: &Heights, pairs: &[Pair2]) -> Option<DocFault>
    ensures { (ts : List ATriple) → AreHeights ts heights.now → result ≡ least_of (flat_map (pair_faults ts) pairs.now) }
{
    let mut least = None;
    for pair in pairs {
        least = earlier(least, pair_fault(heights, pair));
    }
    least
}

fn all_three(a: bool, b: bool, c: bool) -> bool
    ensures { result ≡ (a && b && c) }
{
    a && b && c
}

// The fault of a face that names an id which no point has.
fn face_fault(ids: &Ids<'_>, face: &RawFace) -> Option<DocFault>
    ensures { (is : List AnId) → AreIds is (λ name. get_by (λ k. bytes_eq name k.now) ids.now.triples) → result ≡ least_of (face_faults is face.now) }
{
    let a = ids.triple(face.a.as_bytes()).is_some();
    let b = ids.triple(face.b.as_bytes()).is_some();
    let c = ids.triple(face.c.as_bytes()).is_some();
    fault_if(!all_three(a, b, c), face.at, DocCause::Face)
}

/// The least fault of the faces: one that names an id which no point has.
pub(crate) fn faces_fault(ids: &Ids<'_>, faces: &[RawFace]) -> Option<DocFault>
    ensures { (is : List AnId) → AreIds is (λ name. get_by (λ k. bytes_eq name k.now) ids.now.triples) → result ≡ least_of (flat_map (face_faults is) faces.now) }
{
    let mut least = None;
    for face in faces {
        least = earlier(least, face_fault(ids, face));
    }
    least
}
