//! The three triangles round a corner give way to one.

ghost use Rattle.std.specs.Prelude.{◌≡◌, ◌<◌, ◌+◌, ◌≤◌, OnOk, IfOk, slice_set};
ghost use Rattle.tri_pages.specs.Slots.{IsTaken, free};
ghost use Rattle.mesh.specs.Meshes.{IsMesh};
ghost use Rattle.mesh.specs.Net.{side, after};
ghost use Rattle.mesh.specs.Unsplits.{IsUnsplit, IsUnsplittable, whole};

use crate::across::read_across;
use crate::read::read_live;
use crate::redirect::redirect;
use crate::seen_edges::{edge_after, seen_from};
use page_vec::Steps;
use std::alloc::AllocError;
use std::sync::ledger::{Blank, Ledger};
use tri_pages::{TriPages, TriSlot};

// The triangle abc, of abp at its edge ab, pbc at pb and apc at ap.
fn joined(t: &TriSlot, edge: u8, u: &TriSlot, ahead: u8, v: &TriSlot, before: u8) -> TriSlot
    requires edge { edge < 3 }
    requires ahead { ahead < 3 }
    requires before { before < 3 }
    ensures { result ≡ whole t.now (side edge) u.now (side ahead) v.now (side before) }
{
    let t = seen_from(t, edge);
    let u = seen_from(u, ahead);
    let v = seen_from(v, before);
    TriSlot {
        corners: [t.a, t.b, u.c],
        counts: [t.ab, u.bc, v.ca],
        next: [t.beyond_ab, u.beyond_bc, v.beyond_ca],
        stamp: 0,
    }
}

/// Gives two slots back.
pub(crate) fn give_two<L: Ledger>(
    pages: &mut TriPages,
    f: u32,
    g: u32,
    steps: &mut Steps<L>,
) -> Result<(), AllocError>
    requires f { IsTaken pages.old f }
    requires g { IsTaken pages.old g }
    requires apart { f ≡ g → ⊥ }
    ensures ok { OnOk result (pages.new ≡ slice_set (slice_set pages.old f free) g free) }
{
    pages.give_back(f, steps)?;
    pages.give_back(g, steps)?;
    Ok(())
}

/// The two slots that an unsplit gives back.
#[derive(Clone, Copy)]
pub(crate) struct Freed {
    pub(crate) ahead: u32,
    pub(crate) before: u32,
}

/// Takes out the apex p of an edge ab of a slot, round which three triangles stand: the slot then
/// has abc, and the two others are given back.
pub(crate) fn unsplit_slots<L: Ledger>(
    pages: &mut TriPages,
    slot: u32,
    edge: u8,
    blank: Blank,
) -> Result<Freed, AllocError>
    requires name { blank.name ≡ L.name }
    requires parts { blank.parts ≡ L.parts }
    requires writable { 0 < L.parts }
    requires edge { edge < 3 }
    requires mesh { IsMesh pages.old }
    requires unsplittable { IsUnsplittable pages.old slot (side edge) }
    ensures mesh { OnOk result (IsMesh pages.new) }
    ensures unsplit { IfOk result (λ r. IsUnsplit pages.old pages.new slot (side edge) r.ahead r.before) }
{
    let mut steps = Steps::<L>::new(blank);
    let steps = &mut steps;
    let here = read_live(pages, slot, steps);
    let next = edge_after(edge);
    let ahead = read_across(pages, &here, next, steps);
    let before = read_across(pages, &here, edge_after(next), steps);
    let value = joined(
        &here,
        edge,
        &ahead.tri,
        ahead.edge,
        &before.tri,
        before.edge,
    );
    pages.write(slot, value, steps)?;
    give_two(pages, ahead.slot, before.slot, steps)?;
    let t = seen_from(&here, edge);
    let u = seen_from(&ahead.tri, ahead.edge);
    let v = seen_from(&before.tri, before.edge);
    redirect(pages, u.beyond_bc, u.c, t.b, slot, steps)?;
    redirect(pages, v.beyond_ca, t.a, u.c, slot, steps)?;
    Ok(Freed {
        ahead: ahead.slot,
        before: before.slot,
    })
}
