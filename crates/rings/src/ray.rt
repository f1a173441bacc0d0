//! Rings by the ray to the east.

ghost use Rattle.std.specs.Prelude.{◌≡◌};
ghost use Rattle.ground_model.specs.Kept.{crosses_ray as crosses_ray_of, lies_in_ring, triple};

use crate::tripled::Tripled;
use ground_model::Place;
use line_table::Line;

/// Point in polygon, by the even-odd rule (Shimrat 1962): whether the ray from the place to the
/// east crosses an odd number of links. A place on a link lies in the ring where the places just
/// to its east do, on a level link where those just to its north do. The cost is one step a link.
pub fn lies_in(place: Tripled, ring: &Line) -> bool
    ensures { result ≡ lies_in_ring place ring.now }
{
    ring.links()
        .filter(|link| crosses_ray(place, link.0, link.1))
        .fold(false, |is_odd, _| !is_odd)
}

// Whether the ray to the east crosses the link: just one end lies north of the place, which lies
// left of the link, taken northwards.
fn crosses_ray(place: Tripled, from: Place, to: Place) -> bool
    ensures { result ≡ crosses_ray_of place (triple from, triple to) }
{
    let (from, to) = (Tripled::place(from), Tripled::place(to));
    if place.is_south_of(from) {
        !place.is_south_of(to) && place.is_left_of(to, from)
    } else {
        place.is_south_of(to) && place.is_left_of(from, to)
    }
}
