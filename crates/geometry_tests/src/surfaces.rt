//! Small surfaces that are made by lists of changes, and their facets by the slow triangulation. Places are written
//! easting first.

ghost use Rattle.std.specs.List.Sorted.{IsStrictlySortedBy};
ghost use Rattle.ground_model.specs.Place.{place_cmp};

use crate::fixtures::{At, places};
use crate::line_fixtures::{add, points};
use ground_model::{LineKind, Place, Places};
use line_table::Lines;
use slow_tri::{FacetList, facets};
use std::alloc::{AllocError, Global};
use std::process::Abort;

/// A point that is added or taken, or a breakline of two places.
#[derive(Clone, Copy, PartialEq, Eq, Debug)]
pub(crate) enum Change {
    Add(At),
    Take(At),
    Join(At, At),
    Part(At, At),
}

use Change::{Add, Join, Part, Take};

#[derive(Drop)]
struct Surface {
    points: Vec<At>,
    lines: Vec<[At; 2]>,
}

fn taken(alloc: Global, points: &[At], gone: At) -> Result<Vec<At>, AllocError> {
    let mut rest = Vec::new(alloc);
    for at in points {
        if *at != gone {
            rest.push(*at)?;
        }
    }
    Ok(rest)
}

fn parted(alloc: Global, lines: &[[At; 2]], gone: [At; 2]) -> Result<Vec<[At; 2]>, AllocError> {
    let mut rest = Vec::new(alloc);
    for line in lines {
        if *line != gone {
            rest.push(*line)?;
        }
    }
    Ok(rest)
}

impl Surface {
    fn make(&mut self, alloc: Global, change: Change) -> Result<(), AllocError> {
        match change {
            Add(at) => self.points.push(at)?,
            Take(at) => self.points = taken(alloc, self.points.as_slice(), at)?,
            Join(p, q) => self.lines.push([p, q])?,
            Part(p, q) => self.lines = parted(alloc, self.lines.as_slice(), [p, q])?,
        }
        Ok(())
    }

    fn make_all(&mut self, alloc: Global, changes: &[Change]) -> Result<(), AllocError> {
        for change in changes {
            self.make(alloc, *change)?;
        }
        Ok(())
    }
}

fn table(rt: &impl Abort, alloc: Global, rows: &[[At; 2]]) -> Result<Lines, AllocError> {
    let mut lines = Lines::empty(alloc);
    for row in rows {
        let places = Places::from_vec(places(rt, alloc, row)?);
        let _number = add(rt, &mut lines, LineKind::Breakline, places);
    }
    Ok(lines)
}

fn facets_over(alloc: Global, lines: &Lines, points: &[Place]) -> Result<FacetList, AllocError>
    requires { IsStrictlySortedBy place_cmp points.now }
{
    let pieces = lines.pieces(points)?;
    facets(alloc, points, pieces.as_slice())
}

fn facets_of(rt: &impl Abort, alloc: Global, surface: &Surface) -> Result<FacetList, AllocError> {
    let points = points(rt, alloc, surface.points.as_slice())?;
    let lines = table(rt, alloc, surface.lines.as_slice())?;
    facets_over(alloc, &lines, points.as_slice())
}

/// The facets after the changes, in their order, of the empty surface.
pub(crate) fn facets_after(
    rt: &impl Abort,
    alloc: Global,
    base: &[Change],
    later: &[Change],
) -> Result<FacetList, AllocError> {
    let mut surface = Surface {
        points: Vec::new(alloc),
        lines: Vec::new(alloc),
    };
    surface.make_all(alloc, base)?;
    surface.make_all(alloc, later)?;
    facets_of(rt, alloc, &surface)
}
