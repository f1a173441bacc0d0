//! How large a surface may grow.

ghost use Rattle.std.specs.Prelude.{◌≤◌, ◌^◌};

/// The most points, live lines, places of one line, places of all live lines together, and
/// entries of the journal. Tests use small ones.
#[derive(Clone, Copy, Debug, PartialEq, Eq)]
pub struct Limits {
    pub points: u32,
    pub lines: u32,
    pub places: u32,
    pub vertices: u32,
    pub log: u32,
    ghost points_in: { points ≤ 2 ^ 20 },
    ghost lines_in: { lines ≤ 65535 },
    ghost places_in: { places ≤ 65536 },
    ghost vertices_in: { vertices ≤ 2 ^ 20 },
    ghost log_in: { log ≤ 2 ^ 24 },
}

impl Limits {
    /// The limits of every program.
    pub const FULL: Limits = Limits {
        points: 1_048_576,
        lines: 65_535,
        places: 65_536,
        vertices: 1_048_576,
        log: 16_777_216,
    };
}
