//! The neighbours of new triangles are turned to them.

ghost use Rattle.std.specs.Prelude.{◌≡◌, ◌+◌, ◌*◌, ◌≤◌, ℕ, Some, OnOk, length, slice_get};
ghost use Rattle.ground_model.specs.declared.corner.Corner.{Corner};
ghost use Rattle.tri_pages.specs.declared.tri_slot.TriSlot.{TriSlot};
ghost use Rattle.mesh.specs.Faces.{KeepsFaces};
ghost use Rattle.mesh.specs.Laying.{layout};
ghost use Rattle.mesh.specs.Net.{edges_of, slots_of};
ghost use Rattle.mesh.specs.Turning.{AreLedOn, AreOnce, IsTurnedAt, IsTurnedRound};

use crate::edge_find::{find_edge, tri_at};
use crate::redirect::redirect;
use crate::seen_edges::seen_from;
use crate::slot_lists::slot_at;
use ground_model::Corner;
use page_vec::Steps;
use std::alloc::AllocError;
use std::sync::ledger::Ledger;
use tri_pages::{TriPages, TriSlot};

// Where a new and an old triangle have the edge from tail to head, turns what stood beyond the old
// one to the new one. At most two page steps.
fn turn_edge<L: Ledger>(
    pages: &mut TriPages,
    news: &[TriSlot],
    slots: &[u32],
    was: &[TriSlot],
    tail: &Corner,
    head: &Corner,
    steps: &mut Steps<L>,
) -> Result<(), AllocError>
    requires as_many { length slots.now ≡ length news.now }
    requires once { AreOnce was.now }
    ensures led { OnOk result (AreLedOn (layout news.now slots.now was.now) (edges_of (slots_of pages.old)) (edges_of (slots_of pages.new))) }
    ensures turned { OnOk result (IsTurnedAt (layout news.now slots.now was.now) (edges_of (slots_of pages.new)) tail.now head.now) }
    ensures kept { OnOk result (KeepsFaces pages.old pages.new) }
    ensures cost { steps.new ≤ steps.old + 2 }
{
    let Some(x) = find_edge(news, tail, head) else {
        return Ok(());
    };
    let Some(y) = find_edge(was, tail, head) else {
        return Ok(());
    };
    let t = tri_at(was, y.index);
    let seen = seen_from(&t, y.edge);
    let slot = slot_at(slots, x.index);
    redirect(pages, seen.beyond_ab, *head, *tail, slot, steps)?;
    Ok(())
}

// Turns what stood beyond the edges of a triangle. At most six page steps.
fn turn_round<L: Ledger>(
    pages: &mut TriPages,
    news: &[TriSlot],
    slots: &[u32],
    was: &[TriSlot],
    t: &TriSlot,
    steps: &mut Steps<L>,
) -> Result<(), AllocError>
    requires as_many { length slots.now ≡ length news.now }
    requires once { AreOnce was.now }
    ensures led { OnOk result (AreLedOn (layout news.now slots.now was.now) (edges_of (slots_of pages.old)) (edges_of (slots_of pages.new))) }
    ensures turned { OnOk result (IsTurnedRound (layout news.now slots.now was.now) (edges_of (slots_of pages.new)) t.now) }
    ensures kept { OnOk result (KeepsFaces pages.old pages.new) }
    ensures cost { steps.new ≤ steps.old + 6 }
{
    let seen = seen_from(t, 0);
    turn_edge(pages, news, slots, was, &seen.a, &seen.b, steps)?;
    turn_edge(pages, news, slots, was, &seen.b, &seen.c, steps)?;
    turn_edge(pages, news, slots, was, &seen.c, &seen.a, steps)?;
    Ok(())
}

// Turns what stood beyond the edges of these triangles, at six page steps each.
fn turn_all<L: Ledger>(
    pages: &mut TriPages,
    news: &[TriSlot],
    slots: &[u32],
    was: &[TriSlot],
    over: &[TriSlot],
    steps: &mut Steps<L>,
) -> Result<(), AllocError>
    requires as_many { length slots.now ≡ length news.now }
    requires once { AreOnce was.now }
    ensures led { OnOk result (AreLedOn (layout news.now slots.now was.now) (edges_of (slots_of pages.old)) (edges_of (slots_of pages.new))) }
    ensures turned { OnOk result ((i : ℕ) (t : TriSlot) → slice_get over.now i ≡ Some t → IsTurnedRound (layout news.now slots.now was.now) (edges_of (slots_of pages.new)) t) }
    ensures kept { OnOk result (KeepsFaces pages.old pages.new) }
    ensures cost { steps.new ≤ steps.old + 6 * length over.now }
{
    for index in 0..over.len() {
        let t = tri_at(over, index);
        turn_round(pages, news, slots, was, &t, steps)?;
    }
    Ok(())
}

/// Turns the neighbours of the old triangles to the new ones that have their edges. An edge of the
/// border is one of an old and one of a new triangle, so the fewer of them are gone over.
pub(crate) fn turn_neighbours<L: Ledger>(
    pages: &mut TriPages,
    news: &[TriSlot],
    slots: &[u32],
    was: &[TriSlot],
    steps: &mut Steps<L>,
) -> Result<(), AllocError>
    requires as_many { length slots.now ≡ length news.now }
    requires once { AreOnce was.now }
    ensures led { OnOk result (AreLedOn (layout news.now slots.now was.now) (edges_of (slots_of pages.old)) (edges_of (slots_of pages.new))) }
    ensures turned { OnOk result ((a b : Corner) → IsTurnedAt (layout news.now slots.now was.now) (edges_of (slots_of pages.new)) a b) }
    ensures kept { OnOk result (KeepsFaces pages.old pages.new) }
    ensures cost { steps.new ≤ steps.old + 3 * (length news.now + length was.now) }
{
    if was.len() < news.len() {
        turn_all(pages, news, slots, was, was, steps)?;
        return Ok(());
    }
    turn_all(pages, news, slots, was, news, steps)?;
    Ok(())
}
