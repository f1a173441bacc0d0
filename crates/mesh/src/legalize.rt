//! Lawson's flips.

ghost use Rattle.std.specs.Prelude.{◌≡◌, ◌≤◌, ◌<◌, ◌+◌, ℕ, true, false, Some, IfSome, IfNone, length, OnOk, slice_get};
ghost use Rattle.predicates.specs.Sheet.{IsLocallyDelaunay};
ghost use Rattle.tri_pages.specs.Slots.{triangle_at};
ghost use Rattle.mesh.specs.FlipRuns.{FlipOrNone, FlipRun};
ghost use Rattle.mesh.specs.Net.{side as side_of};
ghost use Rattle.mesh.specs.Sheets.{IsSheetMesh, net_in};
ghost use Rattle.mesh.specs.Suspects.{AreSuspects, AreSuspectsFrom, IsDoneAt, IsDoneSlot, IsIllegalAt, IsLegalAt, IsNamedFrom};

use crate::across::read_across;
use crate::mesh::Mesh;
use crate::redirect::OUTSIDE;
use crate::script::Script;
use crate::seen_edges::seen_from;
use page_vec::Steps;
use predicates::in_circle;
use std::alloc::AllocError;
use std::marker::Brand;
use std::sync::ledger::{Blank, Ledger};
use tri_pages::{TriPages, TriSlot};

// Whether an edge is no piece and not locally Delaunay.
fn is_illegal<L: Ledger>(
    pages: &TriPages,
    slot: u32,
    here: &TriSlot,
    edge: u8,
    steps: &mut Steps<L>,
) -> bool
    requires edge { edge < 3 }
    requires sheet { IsSheetMesh pages.now }
    requires here { triangle_at pages.now slot ≡ Some here.now }
    ensures yes { result ≡ true → IsIllegalAt pages.now slot (side_of edge) }
    ensures no { result ≡ false → IsLegalAt pages.now slot (side_of edge) }
{
    let t = seen_from(here, edge);
    if t.ab != 0 {
        return false;
    }
    if t.beyond_ab == OUTSIDE {
        return false;
    }
    let across = read_across(pages, here, edge, steps);
    let u = seen_from(&across.tri, across.edge);
    in_circle(t.a, t.b, t.c, u.c)
}

// Whether the script has the slot so many indices on.
fn stands_at(script: &Script, start: usize, gap: usize, slot: u32) -> bool
    ensures { result ≡ true → IsNamedFrom script.now start slot }
{
    let k = start.saturating_add(gap);
    match script.get(k) {
        Some(other) => *other == slot,
        None => false,
    }
}

// Whether the slot is one of three in a row of the script.
fn stands_soon(script: &Script, start: usize, slot: u32) -> bool
    ensures { result ≡ true → IsNamedFrom script.now start slot }
{
    stands_at(script, start, 0, slot)
        || stands_at(script, start, 1, slot)
        || stands_at(script, start, 2, slot)
}

// Whether an edge of the slot at an index of the script is to be flipped now: it is illegal, and the
// slot beyond isn't looked at soon. Most edges of a script are those of two of its slots, and are so
// tested once.
fn is_due<L: Ledger>(
    pages: &TriPages,
    script: &Script,
    index: usize,
    here: &TriSlot,
    edge: u8,
    steps: &mut Steps<L>,
) -> bool
    requires within { index < length script.now }
    requires edge { edge < 3 }
    requires sheet { IsSheetMesh pages.now }
    requires here { (s : ℕ) → slice_get script.now index ≡ Some s → triangle_at pages.now s ≡ Some here.now }
    ensures yes { result ≡ true → (s : ℕ) → slice_get script.now index ≡ Some s → IsIllegalAt pages.now s (side_of edge) }
    ensures no { result ≡ false → (s : ℕ) → slice_get script.now index ≡ Some s → IsDoneAt pages.now script.now (index + 1) s (side_of edge) }
{
    let slot = script.slot_at(index);
    let seen = seen_from(here, edge);
    // For the proof: the length fits, and so does the next index.
    let _length = script.len();
    if stands_soon(script, index + 1, seen.beyond_ab) {
        return false;
    }
    is_illegal(pages, slot, here, edge, steps)
}

// The first edge of that slot that is to be flipped now.
fn due_edge<L: Ledger>(pages: &TriPages, script: &Script, index: usize, blank: Blank) -> Option<u8>
    requires name { blank.name ≡ L.name }
    requires parts { blank.parts ≡ L.parts }
    requires writable { 0 < L.parts }
    requires within { index < length script.now }
    requires sheet { IsSheetMesh pages.now }
    ensures edge { IfSome result (λ edge. edge < 3) }
    ensures illegal { IfSome result (λ edge. (s : ℕ) → slice_get script.now index ≡ Some s → IsIllegalAt pages.now s (side_of edge)) }
    ensures done { IfNone result ((s : ℕ) → slice_get script.now index ≡ Some s → IsDoneSlot pages.now script.now (index + 1) s) }
{
    let mut steps = Steps::<L>::new(blank);
    let steps = &mut steps;
    let here = pages.read(script.slot_at(index), steps).copied()?;
    if is_due(pages, script, index, &here, 0, steps) {
        return Some(0);
    }
    if is_due(pages, script, index, &here, 1, steps) {
        return Some(1);
    }
    if is_due(pages, script, index, &here, 2, steps) {
        return Some(2);
    }
    None
}

impl Mesh {
    // Flips an illegal edge of the slot at an index of the script, if one is due. What is suspect then
    // stands at later indices.
    fn legalize_at(&mut self, script: &mut Script, index: usize) -> Result<(), AllocError>
        requires within { index < length script.old }
        requires sheet { IsSheetMesh self.old.slots }
        requires suspects { AreSuspectsFrom self.old.slots script.old index }
        ensures sheet { OnOk result (IsSheetMesh self.new.slots) }
        ensures suspects { OnOk result (AreSuspectsFrom self.new.slots script.new (index + 1)) }
        ensures flip { OnOk result (FlipOrNone self.old self.new script.old script.new) }
    {
        let slot = script.slot_at(index);
        let Some(edge) = due_edge::<Brand>(&self.pages, script, index, Blank::new(1)) else {
            return Ok(());
        };
        self.flip(slot, edge, script)?;
        Ok(())
    }

    /// Flips until every edge that is no piece is locally Delaunay (Lawson 1977). Each such edge that isn't
    /// yet has to be one of a slot of the script, to which the slots of the flips are added. Each flip
    /// lowers the volume below the lifted triangles, a natural number, so the flips come to an end.
    pub fn legalize(&mut self, script: &mut Script) -> Result<(), AllocError>
        requires sheet { IsSheetMesh self.old.slots }
        requires suspects { AreSuspects self.old.slots script.old }
        ensures sheet { OnOk result (IsSheetMesh self.new.slots) }
        ensures delaunay { OnOk result (IsLocallyDelaunay (net_in self.new.slots)) }
        ensures flips { OnOk result (FlipRun self.old self.new script.old script.new) }
    {
        // For the proof: the count of turns fits.
        let _turns = self.turns;
        let mut index = 0;
        while index < script.len() {
            self.legalize_at(script, index)?;
            index += 1;
        }
        Ok(())
    }
}
