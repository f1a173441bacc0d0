//! The slot beyond one directed edge is set.

ghost use Rattle.std.specs.Prelude.{◌≡◌, ◌+◌, ◌≤◌, OnOk};
ghost use Rattle.mesh.specs.Net.{edges_of, slots_of};
ghost use Rattle.mesh.specs.Redirects.{Chosen, IsTurnedTri, IsRedirected};
ghost use Rattle.mesh.specs.Faces.{KeepsFaces};

use crate::seen_edges::seen_from;
use ground_model::Corner;
use page_vec::Steps;
use std::alloc::AllocError;
use std::sync::ledger::Ledger;
use tri_pages::{TriPages, TriSlot};

/// No slot: beyond the edges of the far triangle.
pub(crate) const OUTSIDE: u32 = 4_294_967_295;

// The slot beyond the edge ab: `next` where it is the edge from..to, else the old one.
fn chosen(a: &Corner, b: &Corner, from: &Corner, to: &Corner, old: u32, next: u32) -> u32
    ensures { Chosen a.now b.now from.now to.now next old result }
{
    if *a == *from && *b == *to { next } else { old }
}

// The triangle with `next` beyond its edge from..to, if it has that edge.
fn turned(t: TriSlot, from: Corner, to: Corner, next: u32) -> TriSlot
    ensures { IsTurnedTri from to next t result }
{
    let seen = seen_from(&t, 0);
    let a = seen.a;
    let b = seen.b;
    let c = seen.c;
    let ab = chosen(&a, &b, &from, &to, seen.beyond_ab, next);
    let bc = chosen(&b, &c, &from, &to, seen.beyond_bc, next);
    let ca = chosen(&c, &a, &from, &to, seen.beyond_ca, next);
    let mut value = t;
    value.next = [ab, bc, ca];
    value
}

/// Puts `next` beyond the edge from..to of a slot, if the slot has it. At most two page steps.
pub(crate) fn redirect<L: Ledger>(
    pages: &mut TriPages,
    slot: u32,
    from: Corner,
    to: Corner,
    next: u32,
    steps: &mut Steps<L>,
) -> Result<(), AllocError>
    ensures turned { OnOk result (IsRedirected slot next from to (edges_of (slots_of pages.old)) (edges_of (slots_of pages.new))) }
    ensures kept { OnOk result (KeepsFaces pages.old pages.new) }
    ensures cost { steps.new ≤ steps.old + 2 }
{
    if slot == OUTSIDE {
        return Ok(());
    }
    match pages.read(slot, steps).copied() {
        Some(t) => {
            let value = turned(t, from, to, next);
            pages.write(slot, value, steps)?;
            Ok(())
        }
        None => Ok(()),
    }
}
