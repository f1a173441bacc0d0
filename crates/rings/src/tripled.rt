//! Places in coordinates times three.

ghost use Rattle.std.specs.Prelude.{◌≡◌, ◌≤◌, ◌*◌, ◌^◌, ◌+ℤ◌, ◌-ℤ◌, ◌*ℤ◌, int_lt, unsigned_abs};
ghost use Rattle.ground_model.specs.Side.{side as side_of, is_left};
ghost use Rattle.ground_model.specs.Kept.{centre as centre_of, triple};

use ground_model::{Facet, Place};
use std::marker::Model;

/// A place in thirds of a thousandth, in which the centroid of a facet is exact.
#[derive(Clone, Copy)]
pub struct Tripled {
    e: i64,
    n: i64,
}

impl Model for Tripled {
    ghost use Rattle.ground_model.specs.Place.{Coords, coded_coords};
    ghost use Rattle.rings.specs.Tripled.{IsTripled};

    ghost Value = { Coords };

    ghost coded = { coded_coords };

    ghost view = { λ p. record { e = p.e; n = p.n } };

    ghost invariant = { λ p. IsTripled (record { e = p.e; n = p.n }) };

    ghost inverse = { λ s. record { e = s.e; n = s.n } };
}

impl Tripled {
    /// The centroid of a facet.
    pub fn centre(facet: &Facet) -> Tripled
        ensures { result ≡ centre_of facet.now }
    {
        let (a, b, c) = (facet.a, facet.b, facet.c);
        Tripled {
            e: sum(a.e(), b.e(), c.e()),
            n: sum(a.n(), b.n(), c.n()),
        }
    }

    /// A place in these units.
    pub fn place(place: Place) -> Tripled
        ensures { result ≡ triple place }
    {
        Tripled {
            e: 3 * i64::from(place.e()),
            n: 3 * i64::from(place.n()),
        }
    }

    /// Whether its northing is less.
    pub fn is_south_of(self, other: Tripled) -> bool
        ensures { result ≡ int_lt self.n other.n }
    {
        self.n < other.n
    }

    /// Whether it lies left of the way from `from` to `to`.
    pub fn is_left_of(self, from: Tripled, to: Tripled) -> bool
        ensures { result ≡ is_left from to self }
    {
        side(from, to, self).cmp(&0).is_gt()
    }
}

fn sum(x: i32, y: i32, z: i32) -> i64
    requires x { unsigned_abs x ≤ 2 ^ 29 }
    requires y { unsigned_abs y ≤ 2 ^ 29 }
    requires z { unsigned_abs z ≤ 2 ^ 29 }
    ensures value { result ≡ x +ℤ y +ℤ z }
    ensures size { unsigned_abs result ≤ 3 * 2 ^ 29 }
{
    i64::from(x) + i64::from(y) + i64::from(z)
}

// Twice the signed area of the triangle, in ninths of a square thousandth. It can be 9 * 2^60,
// which is more than 64 bits hold.
fn side(a: Tripled, b: Tripled, c: Tripled) -> i128
    ensures value { result ≡ side_of a b c }
    ensures size { unsigned_abs result ≤ 2 ^ 65 }
{
    times(b.e - a.e, c.n - a.n) - times(b.n - a.n, c.e - a.e)
}

fn times(x: i64, y: i64) -> i128
    requires x { unsigned_abs x ≤ 2 ^ 32 }
    requires y { unsigned_abs y ≤ 2 ^ 32 }
    ensures value { result ≡ x *ℤ y }
    ensures size { unsigned_abs result ≤ 2 ^ 64 }
{
    i128::from(x) * i128::from(y)
}
