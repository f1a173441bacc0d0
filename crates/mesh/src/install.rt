//! Triangles of a mesh give way to others.

ghost use Rattle.std.specs.Prelude.{◌≡◌, ◌+◌, ◌*◌, ◌≤◌, length, map, IfOk, OnOk};
ghost use Rattle.std.specs.List.{All};
ghost use Rattle.mesh.specs.Installs.{bare, Fits, IsInstalled, IsTurnedPatch};
ghost use Rattle.mesh.specs.Meshes.{IsMesh};
ghost use Rattle.mesh.specs.Sheets.{IsSheetMesh};

use crate::lay::lay;
use crate::mesh::Mesh;
use crate::patch::Patch;
use crate::redirect::OUTSIDE;
use crate::slot_lists::{give_many, take_many};
use crate::turn::turn_neighbours;
use page_vec::Steps;
use std::alloc::{AllocError, Global};
use std::sync::ledger::Ledger;
use tri_pages::{TriPages, TriSlot};

// A triangle of the patch that leads nowhere yet.
fn bare_tri(patch: Patch) -> TriSlot
    ensures { result ≡ bare patch }
{
    let Patch { corners, counts } = patch;
    let [a, b, c] = corners;
    let [ab, bc, ca] = counts;
    TriSlot {
        corners: [a, b, c],
        counts: [ab, bc, ca],
        next: [OUTSIDE, OUTSIDE, OUTSIDE],
        stamp: 0,
    }
}

// The triangles of the patch, which lead nowhere yet.
fn bare_tris(alloc: Global, patch: &[Patch]) -> Result<Vec<TriSlot>, AllocError>
    ensures { IfOk result (λ news. news.items ≡ map bare patch.now) }
{
    let mut news = Vec::new(alloc);
    for tri in patch {
        news.push(bare_tri(*tri))?;
    }
    Ok(news)
}

// Puts the patch in place of the triangles of the old slots.
fn install_slots<L: Ledger>(
    alloc: Global,
    pages: &mut TriPages,
    old: &[u32],
    patch: &[Patch],
    front: u32,
    steps: &mut Steps<L>,
) -> Result<(), AllocError>
    requires mesh { IsMesh pages.old }
    requires fits { Fits pages.old old.now patch.now }
    ensures mesh { OnOk result (IsMesh pages.new) }
    ensures installed { OnOk result (IsInstalled pages.old pages.new old.now patch.now front) }
    ensures cost { steps.new ≤ steps.old + 6 * (length old.now + length patch.now) }
{
    let news = bare_tris(alloc, patch)?;
    let gone = give_many(alloc, pages, old, steps)?;
    let slots = take_many(alloc, pages, patch.len(), steps)?;
    lay(pages, &news, &slots, &gone, front, steps)?;
    turn_neighbours(pages, &news, &slots, &gone, steps)?;
    Ok(())
}

impl Mesh {
    /// Puts a patch in place of the triangles of the old slots, each triangle with this stamp. It is
    /// no mesh step, and takes at most six page steps for each old slot and each triangle of the
    /// patch. The edges of the patch are looked for one by one, in the square of its size.
    pub fn install<L: Ledger>(
        &mut self,
        alloc: Global,
        old: &[u32],
        patch: &[Patch],
        front: u32,
        steps: &mut Steps<L>,
    ) -> Result<(), AllocError>
        requires sheet { IsSheetMesh self.old.slots }
        requires fits { Fits self.old.slots old.now patch.now }
        requires turned { All IsTurnedPatch patch.now }
        ensures sheet { OnOk result (IsSheetMesh self.new.slots) }
        ensures installed { OnOk result (IsInstalled self.old.slots self.new.slots old.now patch.now front) }
        ensures turns { self.new.turns ≡ self.old.turns }
        ensures cost { steps.new ≤ steps.old + 6 * (length old.now + length patch.now) }
    {
        install_slots(alloc, &mut self.pages, old, patch, front, steps)?;
        Ok(())
    }
}
