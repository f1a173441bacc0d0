//! Volumes.

/// What lies above a datum, what is missing below it, and the difference of the two, in sixths of
/// a cubic thousandth.
#[derive(Clone, Copy, Debug, PartialEq, Eq)]
pub struct Volume {
    pub cut: i128,
    pub fill: i128,
    pub net: i128,
}
