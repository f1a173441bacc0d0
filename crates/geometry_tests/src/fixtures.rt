//! Places, pieces and facets from plain numbers. Places are written easting first.

ghost use Rattle.std.specs.Prelude.{◌≡◌, IsTrue};
ghost use Rattle.ground_model.specs.Side.{is_left};
ghost use Rattle.ground_model.specs.Corner.{corner_at, is_corner};

use ground_model::{Corner, Facet, Piece, Place};
use predicates::side;
use std::alloc::{AllocError, Global};
use std::process::Abort;

pub(crate) type At = (i32, i32);

/// The ends of a piece and its count.
pub(crate) type Joined = (At, At, u16);

/// The corners of a facet and the counts of its edges.
pub(crate) type Corners = ([At; 3], [u16; 3]);

/// The farthest coordinate.
pub(crate) const L: i32 = 536_870_912;

/// The points of a grid of four squares.
pub(crate) const GRID: [At; 9] = [
    (0, 0),
    (0, 1),
    (0, 2),
    (1, 0),
    (1, 1),
    (1, 2),
    (2, 0),
    (2, 1),
    (2, 2),
];

pub(crate) fn place(rt: &impl Abort, at: At) -> Place {
    match Place::new(at.0, at.1) {
        Some(place) => place,
        None => panic!(rt; "a coordinate is outside its limit"),
    }
}

pub(crate) fn places(rt: &impl Abort, alloc: Global, ats: &[At]) -> Result<Vec<Place>, AllocError> {
    let mut all = Vec::new(alloc);
    for at in ats {
        all.push(place(rt, *at))?;
    }
    Ok(all)
}

fn piece(rt: &impl Abort, joined: &Joined) -> Piece {
    let (p, q, count) = *joined;
    Piece {
        p: place(rt, p),
        q: place(rt, q),
        count,
    }
}

pub(crate) fn pieces(
    rt: &impl Abort,
    alloc: Global,
    all_joined: &[Joined],
) -> Result<Vec<Piece>, AllocError> {
    let mut all = Vec::new(alloc);
    for joined in all_joined {
        all.push(piece(rt, joined))?;
    }
    Ok(all)
}

pub(crate) fn facet(rt: &impl Abort, corners: &Corners) -> Facet {
    let ([a, b, c], [ab, bc, ca]) = *corners;
    Facet {
        a: place(rt, a),
        b: place(rt, b),
        c: place(rt, c),
        ab,
        bc,
        ca,
    }
}

pub(crate) fn facets(
    rt: &impl Abort,
    alloc: Global,
    all_corners: &[Corners],
) -> Result<Vec<Facet>, AllocError> {
    let mut all = Vec::new(alloc);
    for corners in all_corners {
        all.push(facet(rt, corners))?;
    }
    Ok(all)
}

#[tactic(auto, using(predicates::proofs::Orders::order_sign))]
pub(crate) fn turns_left(a: &Corner, b: &Corner, c: &Corner) -> bool
    requires a { IsTrue (is_corner a.now) }
    requires b { IsTrue (is_corner b.now) }
    requires c { IsTrue (is_corner c.now) }
    ensures { result ≡ is_left (corner_at a.now) (corner_at b.now) (corner_at c.now) }
{
    side(*a, *b, *c).is_positive()
}
