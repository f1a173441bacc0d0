//! Scripts of plans whose marks another edit changed, or left.

use crate::script::{Exchange, Script};
use crate::site::Crew::{A, B, C};

/// What the scripts of conflicts show.
pub(crate) const CONFLICTS: [Script; 13] = [
    ("a planned facet that is gone", &SQUARE, &FACET_GONE),
    ("plans of facets apart", &GRID, &APART),
    ("one of two lines on an edge", &SQUARE, &LINES_ON_AN_EDGE),
    ("two levels for one point", &POINT, &TWO_LEVELS),
    ("a point that is gone", &POINT, &POINT_GONE),
    ("a level that was changed back", &POINT, &LEVEL_BACK),
    ("a point that was added again", &POINT, &POINT_BACK),
    ("a level that was set to what it was", &POINT, &SAME_LEVEL),
    (
        "levels born before and after the plan",
        &POINT,
        &LEVEL_BIRTHS,
    ),
    ("a facet that came back", &TRIANGLE, &FACET_BACK),
    ("a facet and its neighbour", &TRIANGLE, &REMOVAL),
    ("a point before facets", &TRIANGLE, &POINT_FIRST),
    ("an edge with another count", &SQUARE, &COUNTS),
];

/// One point, which A and B hold.
pub(crate) const POINT: [Exchange; 3] = [
    (A, "do add 0 0 0", "done 1"),
    (A, "sync", "front 1"),
    (B, "sync", "front 1"),
];

/// One facet, which A and B hold.
pub(crate) const TRIANGLE: [Exchange; 5] = [
    (A, "do add 0 0 0", "done 1"),
    (A, "do add 0 10 0", "done 2"),
    (A, "do add 10 0 0", "done 3"),
    (A, "sync", "front 3"),
    (B, "sync", "front 3"),
];

/// Two facets, which the diagonal of the least place parts.
pub(crate) const SQUARE: [Exchange; 6] = [
    (A, "do add 0 0 2", "done 1"),
    (A, "do add 0 10 0", "done 2"),
    (A, "do add 10 0 0", "done 3"),
    (A, "do add 10 10 4", "done 4"),
    (A, "sync", "front 4"),
    (B, "sync", "front 4"),
];

/// Three squares side by side.
pub(crate) const GRID: [Exchange; 10] = [
    (A, "do add 0 0 0", "done 1"),
    (A, "do add 0 10 0", "done 2"),
    (A, "do add 0 20 0", "done 3"),
    (A, "do add 0 30 0", "done 4"),
    (A, "do add 10 0 0", "done 5"),
    (A, "do add 10 10 0", "done 6"),
    (A, "do add 10 20 0", "done 7"),
    (A, "do add 10 30 0", "done 8"),
    (A, "sync", "front 8"),
    (B, "sync", "front 8"),
];

// Each point destroys both facets of the square. The loser holds the newest version, without a plan.
const FACET_GONE: [Exchange; 6] = [
    (A, "plan add 2 5 1", "planned 4 2"),
    (B, "plan add 5 2 1", "planned 4 2"),
    (A, "commit", "done 5"),
    (
        B,
        "commit",
        "conflict 5 0.000 0.000 0.000 10.000 10.000 10.000",
    ),
    (B, "stat", "stat 5 points 5 lines 0"),
    (B, "commit", "error no-plan"),
];

// Two facets of an outer square, and one of the middle square, which isn't the same for both.
const APART: [Exchange; 8] = [
    (A, "plan add 2 5 1", "planned 8 3"),
    (B, "plan add 2 25 1", "planned 8 3"),
    (A, "commit", "done 9"),
    (B, "stat", "stat 8 points 8 lines 0"),
    (B, "commit", "done 10"),
    (A, "plan set 0 0 5", "planned 9 1"),
    (B, "do line break 0 30 10 30", "done 11 line 1"),
    (A, "commit", "done 12"),
];

const LINES_ON_AN_EDGE: [Exchange; 8] = [
    (A, "do line break 0 0 0 10", "done 5 line 1"),
    (A, "do line break 0 0 0 10", "done 6 line 2"),
    (A, "sync", "front 6"),
    (B, "sync", "front 6"),
    (A, "plan unline 1", "planned 6 2"),
    (B, "plan unline 2", "planned 6 2"),
    (A, "commit", "done 7"),
    (
        B,
        "commit",
        "conflict 7 0.000 0.000 0.000 10.000 10.000 10.000",
    ),
];

const TWO_LEVELS: [Exchange; 5] = [
    (A, "plan set 0 0 5", "planned 1 1"),
    (B, "plan set 0 0 7", "planned 1 1"),
    (A, "commit", "done 2"),
    (B, "commit", "conflict 2 at 0.000 0.000"),
    (B, "do add 0 0 0", "refused 2 occupied 5.000"),
];

const POINT_GONE: [Exchange; 3] = [
    (B, "plan set 0 0 7", "planned 1 1"),
    (A, "do remove 0 0", "done 2"),
    (B, "commit", "conflict 2 at 0.000 0.000"),
];

const LEVEL_BACK: [Exchange; 4] = [
    (B, "plan remove 0 0", "planned 1 1"),
    (A, "do set 0 0 5", "done 2"),
    (A, "do set 0 0 0", "done 3"),
    (B, "commit", "conflict 3 at 0.000 0.000"),
];

const POINT_BACK: [Exchange; 4] = [
    (B, "plan set 0 0 7", "planned 1 1"),
    (A, "do remove 0 0", "done 2"),
    (A, "do add 0 0 0", "done 3"),
    (B, "commit", "conflict 3 at 0.000 0.000"),
];

// It makes an entry, and no birth.
const SAME_LEVEL: [Exchange; 8] = [
    (B, "plan set 0 0 7", "planned 1 1"),
    (A, "do set 0 0 0", "done 2"),
    (B, "commit", "done 3"),
    (C, "sync", "front 3"),
    (C, "plan remove 0 0", "planned 3 1"),
    (A, "do set 0 0 7", "done 4"),
    (C, "commit", "done 5"),
    (C, "stat", "stat 5 points 0 lines 0"),
];

// C plans before the level is born and B after, and the front rises once more.
const LEVEL_BIRTHS: [Exchange; 10] = [
    (C, "sync", "front 1"),
    (C, "plan set 0 0 8", "planned 1 1"),
    (A, "do set 0 0 5", "done 2"),
    (B, "sync", "front 2"),
    (B, "plan set 0 0 7", "planned 2 1"),
    (A, "do add 9 9 0", "done 3"),
    (B, "commit", "done 4"),
    (C, "commit", "conflict 4 at 0.000 0.000"),
    (C, "stat", "stat 4 points 2 lines 0"),
    (C, "do add 0 0 0", "refused 4 occupied 7.000"),
];

// The facet is born anew at 5. The facet that 20 20 adds is no mark of the plan.
const FACET_BACK: [Exchange; 7] = [
    (B, "plan add 2 2 1", "planned 3 1"),
    (A, "do add 3 3 0", "done 4"),
    (A, "do remove 3 3", "done 5"),
    (
        B,
        "commit",
        "conflict 5 0.000 0.000 0.000 10.000 10.000 0.000",
    ),
    (B, "plan add 2 2 1", "planned 5 1"),
    (A, "do add 20 20 0", "done 6"),
    (B, "commit", "done 7"),
];

// Without 0 0 two facets are gone, and the third, which stays, is their neighbour: the plan rests
// on all of them and on the point.
const REMOVAL: [Exchange; 7] = [
    (B, "plan remove 0 0", "planned 3 2"),
    (A, "do add 2 2 0", "done 4"),
    (
        B,
        "commit",
        "conflict 4 0.000 0.000 0.000 10.000 10.000 0.000",
    ),
    (B, "plan remove 0 0", "planned 4 4"),
    (A, "do line break 0 10 10 0", "done 5 line 1"),
    (
        B,
        "commit",
        "conflict 5 10.000 0.000 2.000 2.000 0.000 10.000",
    ),
    (B, "do remove 0 0", "done 6"),
];

const POINT_FIRST: [Exchange; 5] = [
    (B, "plan remove 0 0", "planned 3 2"),
    (A, "do add 2 2 0", "done 4"),
    (A, "do set 0 0 5", "done 5"),
    (B, "commit", "conflict 5 at 0.000 0.000"),
    (B, "stat", "stat 5 points 4 lines 0"),
];

// A facet with another count is another facet, also where the count comes back.
const COUNTS: [Exchange; 10] = [
    (B, "plan add 2 5 1", "planned 4 2"),
    (A, "do line break 10 0 10 10", "done 5 line 1"),
    (
        B,
        "commit",
        "conflict 5 0.000 0.000 10.000 10.000 10.000 0.000",
    ),
    (B, "plan add 2 5 1", "planned 5 2"),
    (A, "do unline 1", "done 6"),
    (
        B,
        "commit",
        "conflict 6 0.000 0.000 10.000 10.000 10.000 0.000",
    ),
    (B, "plan add 2 5 1", "planned 6 2"),
    (A, "do line break 0 0 0 10", "done 7 line 2"),
    (A, "do unline 2", "done 8"),
    (
        B,
        "commit",
        "conflict 8 0.000 0.000 0.000 10.000 10.000 10.000",
    ),
];
