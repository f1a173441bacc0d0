//! Scripts of two and three crews that plan and edit side by side.

use crate::conflicts::{GRID, POINT, SQUARE, TRIANGLE};
use crate::script::{Exchange, Script};
use crate::site::Crew::{A, B, C};

/// What the scripts of crews show.
pub(crate) const CREWS: [Script; 12] = [
    ("three plans on one point", &POINT, &ONE_POINT),
    ("three plans on one square", &SQUARE, &ONE_SQUARE),
    ("plans committed in another order", &SQUARE, &OTHER_ORDER),
    ("three plans on three squares", &GRID, &THREE_SQUARES),
    ("a crew that never syncs", &[], &NEVER_SYNCED),
    ("a plan made again after a conflict", &POINT, &PLANNED_AGAIN),
    ("a line and the removal of its point", &[], &LINE_AND_POINT),
    ("lines that cross", &SQUARE, &CROSSING_LINES),
    ("two points of one facet", &TRIANGLE, &TWO_REMOVALS),
    ("a level and a point beside it", &TRIANGLE, &LEVEL_BESIDE),
    ("a line's number after a conflict", &SQUARE, &LINE_NUMBER),
    ("a point that another crew added", &POINT, &POINT_TAKEN),
];

// A level that is set to what it was is no birth, so the removal is made. It is a change for A.
const ONE_POINT: [Exchange; 8] = [
    (C, "sync", "front 1"),
    (A, "plan set 0 0 5", "planned 1 1"),
    (B, "plan remove 0 0", "planned 1 1"),
    (C, "plan set 0 0 0", "planned 1 1"),
    (C, "commit", "done 2"),
    (B, "commit", "done 3"),
    (A, "commit", "conflict 3 at 0.000 0.000"),
    (A, "stat", "stat 3 points 0 lines 0"),
];

// A level that is set changes no facet. The line along the diagonal changes the counts of both.
const ONE_SQUARE: [Exchange; 9] = [
    (C, "sync", "front 4"),
    (A, "plan add 2 5 1", "planned 4 2"),
    (B, "plan set 0 0 7", "planned 4 1"),
    (C, "plan line break 0 0 10 10", "planned 4 2"),
    (B, "commit", "done 5"),
    (C, "commit", "done 6 line 1"),
    (
        A,
        "commit",
        "conflict 6 0.000 0.000 0.000 10.000 10.000 10.000",
    ),
    (A, "do add 2 5 1", "done 7"),
    (A, "stat", "stat 7 points 5 lines 1"),
];

// Each crew holds the version that its last answer carried.
const OTHER_ORDER: [Exchange; 10] = [
    (C, "sync", "front 4"),
    (A, "plan set 0 0 5", "planned 4 1"),
    (B, "plan set 10 10 5", "planned 4 1"),
    (C, "plan set 0 0 6", "planned 4 1"),
    (B, "commit", "done 5"),
    (C, "commit", "done 6"),
    (A, "commit", "conflict 6 at 0.000 0.000"),
    (B, "level 5 5", "level 5 3.500"),
    (C, "level 5 5", "level 6 5.500"),
    (A, "level 5 5", "level 6 5.500"),
];

// The middle plan rests on a facet of either outer square, and conflicts first with A's edit, then
// with C's.
const THREE_SQUARES: [Exchange; 13] = [
    (C, "sync", "front 8"),
    (A, "plan add 2 5 1", "planned 8 3"),
    (B, "plan add 2 15 1", "planned 8 4"),
    (C, "plan add 2 25 1", "planned 8 3"),
    (A, "commit", "done 9"),
    (
        B,
        "commit",
        "conflict 9 0.000 0.000 0.000 10.000 10.000 10.000",
    ),
    (B, "plan add 2 15 1", "planned 9 4"),
    (C, "commit", "done 10"),
    (
        B,
        "commit",
        "conflict 10 0.000 20.000 10.000 30.000 10.000 20.000",
    ),
    (B, "plan add 2 15 1", "planned 10 4"),
    (B, "commit", "done 11"),
    (A, "stat", "stat 9 points 9 lines 0"),
    (C, "stat", "stat 10 points 10 lines 0"),
];

// It holds the empty version until an answer carries another one.
const NEVER_SYNCED: [Exchange; 8] = [
    (A, "do add 0 0 1", "done 1"),
    (B, "stat", "stat 0 points 0 lines 0"),
    (B, "plan set 0 0 5", "refused 0 absent 0.000 0.000"),
    (B, "plan add 0 0 2", "planned 0 0"),
    (B, "commit", "refused 1 occupied 1.000"),
    (B, "plan set 0 0 5", "planned 1 1"),
    (C, "do set 0 0 1", "done 2"),
    (B, "commit", "done 3"),
];

const PLANNED_AGAIN: [Exchange; 9] = [
    (B, "plan set 0 0 7", "planned 1 1"),
    (A, "do set 0 0 5", "done 2"),
    (B, "commit", "conflict 2 at 0.000 0.000"),
    (B, "plan set 0 0 7", "planned 2 1"),
    (B, "commit", "done 3"),
    (A, "plan remove 0 0", "planned 2 1"),
    (A, "commit", "conflict 3 at 0.000 0.000"),
    (A, "plan remove 0 0", "planned 3 1"),
    (A, "commit", "done 4"),
];

// The line leaves the point as it is, and so is no conflict; but it holds the point.
const LINE_AND_POINT: [Exchange; 9] = [
    (A, "do add 0 0 0", "done 1"),
    (A, "do add 0 10 0", "done 2"),
    (B, "sync", "front 2"),
    (B, "plan remove 0 10", "planned 2 1"),
    (A, "do line break 0 0 0 10", "done 3 line 1"),
    (B, "commit", "refused 3 held 1"),
    (B, "commit", "error no-plan"),
    (A, "do unline 1", "done 4"),
    (B, "do remove 0 10", "done 5"),
];

// The conflict comes before the refusal that would follow.
const CROSSING_LINES: [Exchange; 6] = [
    (A, "plan line break 0 0 10 10", "planned 4 2"),
    (B, "plan line break 0 10 10 0", "planned 4 2"),
    (A, "commit", "done 5 line 1"),
    (
        B,
        "commit",
        "conflict 5 0.000 0.000 0.000 10.000 10.000 10.000",
    ),
    (B, "plan line break 0 10 10 0", "refused 5 crosses 1"),
    (B, "do line break 0 10 10 0", "refused 5 crosses 1"),
];

const TWO_REMOVALS: [Exchange; 4] = [
    (B, "plan remove 0 10", "planned 3 2"),
    (A, "do remove 10 0", "done 4"),
    (
        B,
        "commit",
        "conflict 4 0.000 0.000 0.000 10.000 10.000 0.000",
    ),
    (B, "stat", "stat 4 points 2 lines 0"),
];

// The plan of a level has no facet.
const LEVEL_BESIDE: [Exchange; 4] = [
    (B, "plan set 0 0 5", "planned 3 1"),
    (A, "do add 2 2 9", "done 4"),
    (B, "commit", "done 5"),
    (B, "level 0 0", "level 5 5.000"),
];

// A line along either edge changes one facet, and the other is its neighbour. A conflict gives no
// number.
const LINE_NUMBER: [Exchange; 5] = [
    (A, "plan line break 0 0 0 10", "planned 4 2"),
    (B, "do line break 10 0 10 10", "done 5 line 1"),
    (
        A,
        "commit",
        "conflict 5 0.000 0.000 10.000 10.000 10.000 0.000",
    ),
    (A, "commit", "error no-plan"),
    (A, "do line break 0 0 0 10", "done 6 line 2"),
];

const POINT_TAKEN: [Exchange; 4] = [
    (A, "plan add 9 9 1", "planned 1 0"),
    (B, "do add 9 9 2", "done 2"),
    (A, "commit", "refused 2 occupied 2.000"),
    (A, "commit", "error no-plan"),
];
