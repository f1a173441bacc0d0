//! Vectors between places.

ghost use Rattle.std.specs.Prelude.{◌≡◌, ◌+ℤ◌, ◌-ℤ◌, ◌*ℤ◌, ◌≤◌, ◌^◌, unsigned_abs};

use ground_model::Place;

/// How far east and how far north, in thousandths.
#[derive(Clone, Copy)]
pub struct Vector {
    pub e: i64,
    pub n: i64,
    ghost e_in: { unsigned_abs e ≤ 2 ^ 30 },
    ghost n_in: { unsigned_abs n ≤ 2 ^ 30 },
}

impl Vector {
    /// The way from one place to another.
    #[inline(always)]
    pub fn between(from: Place, to: Place) -> Vector
        ensures e { result.e ≡ to.e -ℤ from.e }
        ensures n { result.n ≡ to.n -ℤ from.n }
    {
        Vector {
            e: gap(from.e(), to.e()),
            n: gap(from.n(), to.n()),
        }
    }

    /// The cross product: positive where `other` lies to the left.
    #[inline(always)]
    pub fn cross(self, other: Vector) -> i64
        ensures value { result ≡ self.e *ℤ other.n -ℤ self.n *ℤ other.e }
        ensures size { unsigned_abs result ≤ 2 ^ 61 }
    {
        times(self.e, other.n) - times(self.n, other.e)
    }

    /// The square of the length.
    #[inline(always)]
    pub fn square(self) -> i64
        ensures value { result ≡ self.e *ℤ self.e +ℤ self.n *ℤ self.n }
        ensures size { unsigned_abs result ≤ 2 ^ 61 }
    {
        times(self.e, self.e) + times(self.n, self.n)
    }
}

// The difference of two coordinates.
#[inline(always)]
fn gap(from: i32, to: i32) -> i64
    requires from { unsigned_abs from ≤ 2 ^ 29 }
    requires to { unsigned_abs to ≤ 2 ^ 29 }
    ensures value { result ≡ to -ℤ from }
    ensures size { unsigned_abs result ≤ 2 ^ 30 }
{
    i64::from(to) - i64::from(from)
}

// A product, with its size.
#[inline(always)]
fn times(x: i64, y: i64) -> i64
    requires x { unsigned_abs x ≤ 2 ^ 30 }
    requires y { unsigned_abs y ≤ 2 ^ 30 }
    ensures value { result ≡ x *ℤ y }
    ensures size { unsigned_abs result ≤ 2 ^ 60 }
{
    x * y
}
