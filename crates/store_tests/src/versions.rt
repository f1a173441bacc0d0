//! Scripts of versions that outlive edits, and of small limits.

use crate::conflicts::SQUARE;
use crate::script::{Exchange, Script};
use crate::site::Crew::{A, B, C};

/// What the scripts of versions show.
pub(crate) const VERSIONS: [Script; 1] = [(
    "versions kept while twenty edits follow",
    &SQUARE,
    &TWENTY_EDITS,
)];

// B holds the square, and C the surface after seven edits.
const TWENTY_EDITS: [Exchange; 29] = [
    (A, "do add 5 5 9", "done 5"),
    (A, "do set 5 5 8", "done 6"),
    (A, "do remove 5 5", "done 7"),
    (A, "do line break 0 10 10 0", "done 8 line 1"),
    (A, "do unline 1", "done 9"),
    (A, "do set 0 0 6", "done 10"),
    (A, "do set 10 10 8", "done 11"),
    (C, "sync", "front 11"),
    (A, "do set 0 0 2", "done 12"),
    (A, "do add 5 5 1", "done 13"),
    (A, "do set 5 5 2", "done 14"),
    (A, "do set 5 5 3", "done 15"),
    (A, "do set 5 5 4", "done 16"),
    (A, "do remove 5 5", "done 17"),
    (A, "do add 20 20 0", "done 18"),
    (A, "do remove 20 20", "done 19"),
    (A, "do line break 0 0 10 10", "done 20 line 2"),
    (A, "do unline 2", "done 21"),
    (A, "do set 0 0 3", "done 22"),
    (A, "do set 0 10 1", "done 23"),
    (A, "do set 10 0 1", "done 24"),
    (B, "level 5 5", "level 4 3.000"),
    (B, "level 0 0", "level 4 2.000"),
    (B, "stat", "stat 4 points 4 lines 0"),
    (C, "level 5 5", "level 11 7.000"),
    (C, "level 0 0", "level 11 6.000"),
    (A, "level 5 5", "level 24 5.500"),
    (B, "plan set 0 0 9", "planned 4 1"),
    (B, "commit", "conflict 24 at 0.000 0.000"),
];

/// A surface's limits: points, live lines, places of one line, and entries of the journal.
pub(crate) type Sizes = (u32, u32, u32, u32);

/// Small limits, and what is refused for them.
pub(crate) const FULL: [(Sizes, &[Exchange]); 4] = [
    ((9, 9, 9, 1), &LOG_FULL),
    ((1, 9, 9, 9), &POINTS_FULL),
    ((9, 9, 2, 9), &VERTICES_FULL),
    ((9, 0, 9, 9), &LINES_FULL),
];

// The journal was not full when A planned.
const LOG_FULL: [Exchange; 5] = [
    (A, "plan add 0 0 0", "planned 0 0"),
    (B, "do add 1 1 0", "done 1"),
    (A, "commit", "refused 1 log-full"),
    (A, "plan add 2 2 0", "refused 1 log-full"),
    (B, "do add 2 2 0", "refused 1 log-full"),
];

const POINTS_FULL: [Exchange; 5] = [
    (A, "plan add 0 0 0", "planned 0 0"),
    (B, "do add 1 1 0", "done 1"),
    (A, "commit", "refused 1 points-full"),
    (A, "plan add 2 2 0", "refused 1 points-full"),
    (B, "do add 2 2 0", "refused 1 points-full"),
];

const VERTICES_FULL: [Exchange; 5] = [
    (A, "do add 0 0 0", "done 1"),
    (A, "do add 0 10 0", "done 2"),
    (A, "do add 10 0 0", "done 3"),
    (A, "do line break 0 0 0 10 10 0", "refused 3 vertices-full"),
    (A, "do line break 0 0 0 10", "done 4 line 1"),
];

const LINES_FULL: [Exchange; 4] = [
    (A, "do add 0 0 0", "done 1"),
    (A, "do add 0 10 0", "done 2"),
    (A, "do line break 0 0 0 10", "refused 2 lines-full"),
    (A, "plan line break 0 0 0 10", "refused 2 lines-full"),
];
