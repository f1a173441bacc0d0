//! New triangles are laid into slots that were taken for them.

ghost use Rattle.std.specs.Prelude.{◌≡◌, ◌⊎◌, ◌+◌, ◌≤◌, ℕ, Some, OnOk, length, slice_get};
ghost use Rattle.tri_pages.specs.Slots.{IsTaken};
ghost use Rattle.mesh.specs.EdgeSearch.{HasNone};
ghost use Rattle.mesh.specs.Laying.{layout, IsLead, IsLed, IsLaying, LeadsOutside};
ghost use Rattle.mesh.specs.SlotLists.{AreApart};

use crate::edge_find::{find_edge, tri_at};
use crate::redirect::OUTSIDE;
use crate::seen_edges::seen_from;
use crate::slot_lists::slot_at;
use ground_model::Corner;
use page_vec::Steps;
use std::alloc::AllocError;
use std::sync::ledger::Ledger;
use tri_pages::{TriPages, TriSlot};

// What was beyond the edge from tail to head, as an edge of an old triangle.
fn lead_outside(was: &[TriSlot], tail: &Corner, head: &Corner) -> u32
    ensures { LeadsOutside was.now tail.now head.now result ⊎ HasNone was.now tail.now head.now }
{
    match find_edge(was, tail, head) {
        Some(x) => {
            let t = tri_at(was, x.index);
            let seen = seen_from(&t, x.edge);
            seen.beyond_ab
        }
        None => OUTSIDE,
    }
}

// What is beyond the edge from tail to head of a new triangle.
fn lead(news: &[TriSlot], slots: &[u32], was: &[TriSlot], tail: &Corner, head: &Corner) -> u32
    requires as_many { length slots.now ≡ length news.now }
    ensures { IsLead (layout news.now slots.now was.now) tail.now head.now result }
{
    match find_edge(news, head, tail) {
        Some(x) => slot_at(slots, x.index),
        None => lead_outside(was, tail, head),
    }
}

// The triangle with this stamp, and with its leads.
fn with_leads(t: TriSlot, news: &[TriSlot], slots: &[u32], was: &[TriSlot], front: u32) -> TriSlot
    requires as_many { length slots.now ≡ length news.now }
    ensures { IsLed (layout news.now slots.now was.now) front t result }
{
    let seen = seen_from(&t, 0);
    let ab = lead(news, slots, was, &seen.a, &seen.b);
    let bc = lead(news, slots, was, &seen.b, &seen.c);
    let ca = lead(news, slots, was, &seen.c, &seen.a);
    let mut value = t;
    value.next = [ab, bc, ca];
    value.stamp = front;
    value
}

/// Lays the new triangles into their slots, at one page step each.
pub(crate) fn lay<L: Ledger>(
    pages: &mut TriPages,
    news: &[TriSlot],
    slots: &[u32],
    was: &[TriSlot],
    front: u32,
    steps: &mut Steps<L>,
) -> Result<(), AllocError>
    requires as_many { length slots.now ≡ length news.now }
    requires apart { AreApart slots.now }
    requires taken { (i s : ℕ) → slice_get slots.now i ≡ Some s → IsTaken pages.old s }
    ensures laying { OnOk result (IsLaying pages.old pages.new (layout news.now slots.now was.now) front (length news.now)) }
    ensures cost { steps.new ≤ steps.old + length news.now }
{
    for index in 0..news.len() {
        let value = with_leads(tri_at(news, index), news, slots, was, front);
        pages.write(slot_at(slots, index), value, steps)?;
    }
    Ok(())
}
