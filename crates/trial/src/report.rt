//! Reports of trials.

/// What came of a trial. The volumes are those over a datum of 5.000, in sixths of a cubic
/// thousandth.
#[derive(Clone, Copy, Debug, PartialEq, Eq)]
pub struct Report {
    pub seed: u64,
    pub count: u32,
    pub front: u32,
    pub points: u32,
    pub lines: u32,
    pub refused: u32,
    pub conflicts: u32,
    pub facets: u32,
    pub cut: i128,
    pub fill: i128,
    pub net: i128,
}
