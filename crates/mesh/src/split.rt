//! A triangle is split at a corner within it.

ghost use Rattle.std.specs.Prelude.{◌≡◌, ◌+◌, ◌≤◌, ◌<◌, IfOk, OnOk};
ghost use Rattle.mesh.specs.Meshes.{IsMesh, IsLive, HasNoCorner};
ghost use Rattle.mesh.specs.Net.{side};
ghost use Rattle.mesh.specs.Splits.{IsSplit, split_part};

use crate::read::read_live;
use crate::redirect::redirect;
use crate::seen_edges::seen_from;
use crate::take::take_two;
use crate::writes::write_three;
use ground_model::Corner;
use page_vec::Steps;
use std::alloc::AllocError;
use std::sync::ledger::{Blank, Ledger};
use tri_pages::{TriPages, TriSlot};

// The triangle of an edge and the corner, with these slots beyond its other edges.
fn part(t: &TriSlot, edge: u8, place: &Corner, y: u32, z: u32) -> TriSlot
    requires { edge < 3 }
    ensures { result ≡ split_part t.now (side edge) place.now y z }
{
    let seen = seen_from(t, edge);
    TriSlot {
        corners: [seen.a, seen.b, *place],
        counts: [seen.ab, 0, 0],
        next: [seen.beyond_ab, y, z],
        stamp: 0,
    }
}

/// Splits the triangle of a slot at a corner within it: that of its first edge stays in the slot,
/// those of the second and the third go to two free slots, which are answered.
pub(crate) fn split_slots<L: Ledger>(
    pages: &mut TriPages,
    slot: u32,
    place: Corner,
    blank: Blank,
) -> Result<(u32, u32), AllocError>
    requires name { blank.name ≡ L.name }
    requires parts { blank.parts ≡ L.parts }
    requires writable { 0 < L.parts }
    requires mesh { IsMesh pages.old }
    requires live { IsLive pages.old slot }
    requires no_corner { HasNoCorner pages.old place }
    ensures mesh { OnOk result (IsMesh pages.new) }
    ensures split { IfOk result (λ r. IsSplit pages.old pages.new slot r.0 r.1 place) }
{
    let mut steps = Steps::<L>::new(blank);
    let steps = &mut steps;
    let (second, third) = take_two(pages, steps)?;
    let t = read_live(pages, slot, steps);
    let one = part(&t, 0, &place, second, third);
    let two = part(&t, 1, &place, third, slot);
    let three = part(&t, 2, &place, slot, second);
    write_three(pages, slot, one, second, two, third, three, steps)?;
    let seen = seen_from(&t, 0);
    redirect(pages, seen.beyond_bc, seen.c, seen.b, second, steps)?;
    redirect(pages, seen.beyond_ca, seen.a, seen.c, third, steps)?;
    Ok((second, third))
}
