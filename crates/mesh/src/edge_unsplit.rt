//! The four triangles round a corner give way to two.

ghost use Rattle.std.specs.Prelude.{◌≡◌, ◌<◌, ◌+◌, ◌≤◌, OnOk, IfOk, Some};
ghost use Rattle.tri_pages.specs.Slots.{triangle_at};
ghost use Rattle.mesh.specs.Acrosses.{IsAcross};
ghost use Rattle.mesh.specs.EdgeUnsplits.{AreFour, IsEdgeUnsplit, IsEdgeUnsplittable, upper};
ghost use Rattle.mesh.specs.Meshes.{IsMesh};
ghost use Rattle.mesh.specs.Net.{side, after};

use crate::across::{Across, read_across};
use crate::read::read_live;
use crate::redirect::redirect;
use crate::seen_edges::{edge_after, seen_from};
use crate::unsplit::give_two;
use crate::writes::write_two;
use page_vec::Steps;
use std::alloc::AllocError;
use std::sync::ledger::{Blank, Ledger};
use tri_pages::{TriPages, TriSlot};

// The triangle abc, of apc at its edge ap and pbc at pb, with this slot beyond ab.
fn united(t: &TriSlot, edge: u8, u: &TriSlot, ahead: u8, beyond: u32) -> TriSlot
    requires edge { edge < 3 }
    requires ahead { ahead < 3 }
    ensures { result ≡ upper t.now (side edge) u.now (side ahead) beyond }
{
    let t = seen_from(t, edge);
    let u = seen_from(u, ahead);
    TriSlot {
        corners: [t.a, u.b, t.c],
        counts: [t.ab, u.bc, t.ca],
        next: [beyond, u.beyond_bc, t.beyond_ca],
        stamp: 0,
    }
}

// The three triangles round the end p of an edge ap of apc, beside it: pbc, bpd and pad.
#[derive(Clone, Copy)]
struct Round {
    ahead: Across,
    below: Across,
    under: Across,
}

// Reads what stands round the end of an edge, at three page steps.
fn read_round<L: Ledger>(
    pages: &TriPages,
    slot: u32,
    here: &TriSlot,
    edge: u8,
    steps: &mut Steps<L>,
) -> Round
    requires edge { edge < 3 }
    requires mesh { IsMesh pages.now }
    requires unsplittable { IsEdgeUnsplittable pages.now slot (side edge) }
    requires here { triangle_at pages.now slot ≡ Some here.now }
    ensures ahead { result.ahead.edge < 3 }
    ensures below { result.below.edge < 3 }
    ensures under { result.under.edge < 3 }
    ensures four { AreFour pages.now here.now (side edge) result.ahead.slot result.ahead.tri (side result.ahead.edge) result.below.slot result.below.tri (side result.below.edge) result.under.slot result.under.tri (side result.under.edge) }
{
    let ahead = read_across(pages, here, edge_after(edge), steps);
    let line = edge_after(ahead.edge);
    let below = read_across(pages, &ahead.tri, line, steps);
    let under = read_across(pages, here, edge, steps);
    Round {
        ahead: Across {
            slot: ahead.slot,
            tri: ahead.tri,
            edge: line,
        },
        below,
        under,
    }
}

/// The slots at an edge that took the place of two: that of the triangle across it, and those that
/// were given back.
#[derive(Clone, Copy)]
pub(crate) struct EdgeFreed {
    pub(crate) ahead: u32,
    pub(crate) beyond: u32,
    pub(crate) under: u32,
}

/// Takes out the end p of an edge ap of a slot, round which four triangles stand, apc, pbc, bpd and
/// pad: the slot then has abc, that of bpd has bad, and the two others are given back.
pub(crate) fn unsplit_edge_slots<L: Ledger>(
    pages: &mut TriPages,
    slot: u32,
    edge: u8,
    blank: Blank,
) -> Result<EdgeFreed, AllocError>
    requires name { blank.name ≡ L.name }
    requires parts { blank.parts ≡ L.parts }
    requires writable { 0 < L.parts }
    requires edge { edge < 3 }
    requires mesh { IsMesh pages.old }
    requires unsplittable { IsEdgeUnsplittable pages.old slot (side edge) }
    ensures mesh { OnOk result (IsMesh pages.new) }
    ensures unsplit { IfOk result (λ r. IsEdgeUnsplit pages.old pages.new slot (side edge) r.ahead r.beyond r.under) }
{
    let mut steps = Steps::<L>::new(blank);
    let steps = &mut steps;
    let here = read_live(pages, slot, steps);
    let round = read_round(pages, slot, &here, edge, steps);
    let ahead = round.ahead;
    let below = round.below;
    let under = round.under;
    let one = united(&here, edge, &ahead.tri, ahead.edge, below.slot);
    let two = united(&below.tri, below.edge, &under.tri, under.edge, slot);
    write_two(pages, slot, one, below.slot, two, steps)?;
    give_two(pages, ahead.slot, under.slot, steps)?;
    let t = seen_from(&here, edge);
    let u = seen_from(&ahead.tri, ahead.edge);
    let w = seen_from(&below.tri, below.edge);
    let v = seen_from(&under.tri, under.edge);
    redirect(pages, u.beyond_bc, t.c, w.a, slot, steps)?;
    redirect(pages, v.beyond_bc, w.c, t.a, below.slot, steps)?;
    Ok(EdgeFreed {
        ahead: ahead.slot,
        beyond: below.slot,
        under: under.slot,
    })
}
