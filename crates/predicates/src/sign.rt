//! Signs.

ghost use Rattle.std.specs.Prelude.{◌≡◌};
ghost use Rattle.std.specs.Ordering.{is_lt, is_eq, is_gt};
ghost use Rattle.predicates.specs.Sign.{order, sign};

use std::cmp::Ordering;

/// Which way three places turn: clockwise, not at all, or counterclockwise.
#[derive(Clone, Copy, Debug, PartialEq, Eq)]
pub enum Sign {
    Negative,
    Zero,
    Positive,
}

impl Sign {
    /// By how a number compares with zero.
    #[inline]
    pub(crate) fn of(order: Ordering) -> Sign
        ensures { result ≡ sign order }
    {
        match order {
            Ordering::Less => Sign::Negative,
            Ordering::Equal => Sign::Zero,
            Ordering::Greater => Sign::Positive,
        }
    }

    /// Whether the three turn clockwise.
    #[inline]
    pub fn is_negative(self) -> bool
        ensures { result ≡ is_lt (order self) }
    {
        matches!(self, Sign::Negative)
    }

    /// Whether the three are collinear.
    #[inline]
    pub fn is_zero(self) -> bool
        ensures { result ≡ is_eq (order self) }
    {
        matches!(self, Sign::Zero)
    }

    /// Whether the three turn counterclockwise.
    #[inline]
    pub fn is_positive(self) -> bool
        ensures { result ≡ is_gt (order self) }
    {
        matches!(self, Sign::Positive)
    }
}
