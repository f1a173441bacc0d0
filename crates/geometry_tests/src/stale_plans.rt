//! Plans made at a base and looked at on a newer surface, by the slow triangulation. Where a plan is no hull plan and its
//! zone is unchanged, the facets after the edit are the newest ones without those that it destroys at the base and with
//! those that it makes there. Places are written easting first.

use crate::fixtures::At;
use crate::surfaces::{Change, facets_after};
use Change::{Add, Join, Part, Take};
use ground_model::{Facet, Place};
use slow_tri::FacetList;
use std::alloc::{AllocError, Global};
use std::process::Abort;
use std::test::Fail;

/// The facets before and after an edit.
#[derive(Drop)]
struct Step {
    before: FacetList,
    after: FacetList,
}

fn has_edge(f: &Facet, p: Place, q: Place) -> bool {
    f.a == p && f.b == q || f.b == p && f.c == q || f.c == p && f.a == q
}

fn is_edge_of(f: &Facet, p: Place, q: Place) -> bool {
    has_edge(f, p, q) || has_edge(f, q, p)
}

fn share_edge(f: &Facet, g: &Facet) -> bool {
    is_edge_of(f, g.a, g.b) || is_edge_of(f, g.b, g.c) || is_edge_of(f, g.c, g.a)
}

fn is_met(facets: &[Facet], p: Place, q: Place) -> bool {
    facets.iter().any(|g| has_edge(g, q, p))
}

fn is_on_hull(facets: &[Facet], f: &Facet) -> bool {
    !(is_met(facets, f.a, f.b) && is_met(facets, f.b, f.c) && is_met(facets, f.c, f.a))
}

impl Step {
    fn destroys(&self, f: &Facet) -> bool {
        self.before.as_slice().contains(f) && !self.after.as_slice().contains(f)
    }

    fn makes(&self, f: &Facet) -> bool {
        self.after.as_slice().contains(f) && !self.before.as_slice().contains(f)
    }

    // Whether the edit destroys no facet, or one that it destroys or makes has an edge on the hull.
    fn is_hull_plan(&self) -> bool {
        let (before, after) = (self.before.as_slice(), self.after.as_slice());
        !before.iter().any(|f| self.destroys(f))
            || before
                .iter()
                .any(|f| self.destroys(f) && is_on_hull(before, f))
            || after.iter().any(|f| self.makes(f) && is_on_hull(after, f))
    }

    // Whether the edit destroys the facet, or one that shares an edge with it.
    fn plans(&self, f: &Facet) -> bool {
        let before = self.before.as_slice();
        before
            .iter()
            .any(|g| self.destroys(g) && (f == g || share_edge(f, g)))
    }

    fn is_unchanged_in(&self, newest: &[Facet]) -> bool {
        let before = self.before.as_slice();
        before.iter().all(|f| !self.plans(f) || newest.contains(f))
    }
}

/// One edit, at the base and on the newest surface.
#[derive(Drop)]
struct Stale {
    base: Step,
    newest: Step,
}

impl Stale {
    fn is_carried(&self, f: &Facet) -> bool {
        self.newest.before.as_slice().contains(f) && !self.base.destroys(f) || self.base.makes(f)
    }

    fn is_right_over(&self, facets: &[Facet]) -> bool {
        let after = self.newest.after.as_slice();
        facets
            .iter()
            .all(|f| after.contains(f) == self.is_carried(f))
    }

    // Whether each facet of each list is one after the edit exactly where the plan says so.
    fn is_right(&self) -> bool {
        self.is_right_over(self.base.before.as_slice())
            && self.is_right_over(self.base.after.as_slice())
            && self.is_right_over(self.newest.before.as_slice())
            && self.is_right_over(self.newest.after.as_slice())
    }

    fn is_fresh(&self) -> bool {
        self.base.is_unchanged_in(self.newest.before.as_slice())
    }
}

fn step_of(
    rt: &impl Abort,
    alloc: Global,
    base: &[Change],
    later: &[Change],
    plan: &[Change],
) -> Result<Step, AllocError> {
    Ok(Step {
        before: facets_after(rt, alloc, base, later)?,
        after: facets_after(rt, alloc, base, plan)?,
    })
}

fn stale_of(
    rt: &impl Abort,
    alloc: Global,
    base: &[Change],
    plan: Change,
    later: Change,
) -> Result<Stale, AllocError> {
    Ok(Stale {
        base: step_of(rt, alloc, base, &[], &[plan])?,
        newest: step_of(rt, alloc, base, &[later], &[later, plan])?,
    })
}

// A point of a grid, moved by the seed: between 0 and 60 to the east and to the north.
fn moved(seed: u32, index: u32) -> At {
    let e = seed.wrapping_mul(17).wrapping_add(index.wrapping_mul(23)) % 61;
    let n = seed.wrapping_mul(29).wrapping_add(index.wrapping_mul(37)) % 59;
    let (column, row) = (index % 5, index / 5 % 5);
    ((100 * column + e) as i32, (100 * row + n) as i32)
}

// A grid of 24 points, moved, with two breaklines in its middle, one of them over a point.
fn grid(alloc: Global, seed: u32) -> Result<Vec<Change>, AllocError> {
    let mut changes = Vec::new(alloc);
    for index in 0..25 {
        if index != 12 {
            changes.push(Add(moved(seed, index)))?;
        }
    }
    for change in MIDDLE {
        changes.push(change)?;
    }
    Ok(changes)
}

const MIDDLE: [Change; 7] = [
    Add((220, 240)),
    Add((240, 260)),
    Join((220, 240), (240, 260)),
    Add((215, 200)),
    Add((225, 210)),
    Add((235, 220)),
    Join((215, 200), (235, 220)),
];

// What is planned in the middle, and what is done outside the grid.
const ROWS: [(Change, Change); 10] = [
    (Add((230, 250)), Add((-300, -280))),
    (Add((205, 225)), Add((-300, -280))),
    (Take((225, 210)), Add((-300, -280))),
    (Join((215, 200), (220, 240)), Add((-300, -280))),
    (Part((220, 240), (240, 260)), Add((-300, -280))),
    (Add((230, 250)), Add((800, 750))),
    (Add((205, 225)), Add((800, 750))),
    (Take((225, 210)), Add((800, 750))),
    (Join((215, 200), (220, 240)), Add((800, 750))),
    (Part((220, 240), (240, 260)), Add((800, 750))),
];

fn check_row(
    rt: &impl Abort,
    alloc: Global,
    base: &[Change],
    row: &(Change, Change),
) -> Result<(), AllocError> {
    let (plan, later) = *row;
    let stale = stale_of(rt, alloc, base, plan, later)?;
    assert!(rt; !stale.base.is_hull_plan(), "{plan:?} is no hull plan");
    assert!(rt; stale.is_fresh(), "{later:?} leaves the zone of {plan:?}");
    assert!(rt; stale.is_right(), "{plan:?} after {later:?}");
    Ok(())
}

fn check_seed(rt: &impl Abort, alloc: Global, seed: u32) -> Result<(), AllocError> {
    let base = grid(alloc, seed)?;
    for row in ROWS {
        check_row(rt, alloc, base.as_slice(), &row)?;
    }
    Ok(())
}

#[test]
fn two_hundred_stale_plans_are_right(rt: HostRuntime) -> Result<(), Fail> {
    for seed in 0..20 {
        check_seed(&rt, rt.alloc(), seed)?;
    }
    Ok(())
}

type Case = (&'static str, &'static [Change], Change, Change);

const HULL: [Case; 4] = [
    (
        "a facet is made where another is by now",
        &[Add((0, 0)), Add((0, 10))],
        Add((10, 0)),
        Add((10, 10)),
    ),
    (
        "the corner that is taken has new facets outside",
        &[Add((0, 0)), Add((0, 10)), Add((10, 0)), Add((10, 10))],
        Take((10, 10)),
        Add((20, 21)),
    ),
    (
        "the line that is added has a facet beside it",
        &[Add((0, 0)), Add((10, 0))],
        Join((0, 0), (10, 0)),
        Add((5, 5)),
    ),
    (
        "the line that is taken has a facet beside it",
        &[Add((0, 0)), Add((10, 0)), Join((0, 0), (10, 0))],
        Part((0, 0), (10, 0)),
        Add((5, 5)),
    ),
];

fn check_hull(rt: &impl Abort, alloc: Global, case: &Case) -> Result<(), AllocError> {
    let (told, base, plan, later) = *case;
    let stale = stale_of(rt, alloc, base, plan, later)?;
    assert!(rt; stale.base.is_hull_plan(), "{told}");
    assert!(rt; stale.is_fresh(), "{told}");
    assert!(rt; !stale.is_right(), "{told}");
    Ok(())
}

#[test]
fn hull_plans_may_be_wrong(rt: HostRuntime) -> Result<(), Fail> {
    for case in HULL {
        check_hull(&rt, rt.alloc(), &case)?;
    }
    Ok(())
}
