//! Scripts of pending plans: what they outlive, and what they come to.

use crate::conflicts::POINT;
use crate::script::{Exchange, Script};
use crate::site::Crew::{A, B, C};

/// What the scripts of plans show.
pub(crate) const PLANS: [Script; 7] = [
    (
        "a level that is set, and its point removed",
        &POINT,
        &ONE_AFTER_ANOTHER,
    ),
    ("plans past the edge of the surface", &POINT, &HULL),
    ("a plan and other edits of its crew", &POINT, &BESIDE_EDITS),
    ("a plan and lines that plan nothing", &POINT, &UNPLANNED),
    ("a plan and a newer version", &POINT, &NEWER_VERSION),
    ("plans on the empty surface", &[], &EMPTY_SURFACE),
    ("lines planned side by side", &[], &LINES),
];

const ONE_AFTER_ANOTHER: [Exchange; 4] = [
    (A, "plan set 0 0 9", "planned 1 1"),
    (A, "commit", "done 2"),
    (A, "plan remove 0 0", "planned 2 1"),
    (A, "commit", "done 3"),
];

// Neither plan has a facet, and both points together make one.
const HULL: [Exchange; 8] = [
    (A, "plan add 0 1 0", "planned 1 0"),
    (B, "plan add 1 0 0", "planned 1 0"),
    (A, "commit", "done 2"),
    (B, "commit", "done 3"),
    (A, "stat", "stat 2 points 2 lines 0"),
    (A, "level 0.25 0.25", "outside 2"),
    (B, "level 0.25 0.25", "level 3 0.000"),
    (B, "plan remove 0 0", "planned 3 2"),
];

// An edit or a refusal leaves the plan. An edit of its point is a conflict, whoever made it.
const BESIDE_EDITS: [Exchange; 9] = [
    (A, "plan set 0 0 5", "planned 1 1"),
    (A, "do add 9 9 0", "done 2"),
    (A, "do add 0 0 1", "refused 2 occupied 0.000"),
    (A, "commit", "done 3"),
    (A, "do add 0 0 1", "refused 3 occupied 5.000"),
    (A, "plan set 0 0 6", "planned 3 1"),
    (A, "do set 0 0 7", "done 4"),
    (A, "commit", "conflict 4 at 0.000 0.000"),
    (A, "commit", "error no-plan"),
];

// A line without an edit that can be planned leaves the plan, and a further plan takes its place.
const UNPLANNED: [Exchange; 11] = [
    (A, "commit", "error no-plan"),
    (A, "plan set 0 0 5", "planned 1 1"),
    (A, "plan add 0 0 3", "refused 1 occupied 0.000"),
    (A, "plan remove 1 1", "refused 1 absent 1.000 1.000"),
    (A, "plan set 0 0", "error syntax 12"),
    (A, "plan set 0 0 67108.865", "error range"),
    (A, "commit", "done 2"),
    (A, "plan set 0 0 6", "planned 2 1"),
    (A, "plan set 0 0 7", "planned 2 1"),
    (A, "commit", "done 3"),
    (A, "do add 0 0 0", "refused 3 occupied 7.000"),
];

// A newer version that the crew holds is not the one that the plan rests on.
const NEWER_VERSION: [Exchange; 5] = [
    (B, "plan set 0 0 7", "planned 1 1"),
    (A, "do set 0 0 5", "done 2"),
    (B, "sync", "front 2"),
    (B, "commit", "conflict 2 at 0.000 0.000"),
    (B, "commit", "error no-plan"),
];

// Plans without marks never conflict, and one that became unlawful is refused.
const EMPTY_SURFACE: [Exchange; 9] = [
    (A, "plan add 0 0 1", "planned 0 0"),
    (B, "plan add 0 0 2", "planned 0 0"),
    (C, "plan add 0 5 3", "planned 0 0"),
    (A, "commit", "done 1"),
    (B, "commit", "refused 1 occupied 1.000"),
    (B, "stat", "stat 1 points 1 lines 0"),
    (B, "commit", "error no-plan"),
    (C, "stat", "stat 0 points 0 lines 0"),
    (C, "commit", "done 2"),
];

// A line gets its number when it is committed, and no number twice.
const LINES: [Exchange; 12] = [
    (A, "do add 0 0 0", "done 1"),
    (A, "do add 0 10 0", "done 2"),
    (B, "sync", "front 2"),
    (A, "plan line break 0 0 0 10", "planned 2 0"),
    (B, "plan line break 0 0 0 10", "planned 2 0"),
    (B, "commit", "done 3 line 1"),
    (A, "commit", "done 4 line 2"),
    (A, "plan unline 1", "planned 4 0"),
    (B, "do unline 1", "done 5"),
    (A, "commit", "refused 5 no-line 1"),
    (A, "stat", "stat 5 points 2 lines 1"),
    (A, "do line break 0 0 0 10", "done 6 line 3"),
];
