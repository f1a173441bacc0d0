//! The front of a triangle's birth.

ghost use Rattle.std.specs.Prelude.{◌≡◌, ◌+◌, ◌≤◌, OnOk};
ghost use Rattle.mesh.specs.Meshes.{IsMesh, IsLive};
ghost use Rattle.mesh.specs.Sheets.{IsSheetMesh};
ghost use Rattle.mesh.specs.Stamps.{IsStamped, stamped};

use crate::mesh::Mesh;
use crate::read::read_live;
use page_vec::Steps;
use std::alloc::AllocError;
use std::sync::ledger::Ledger;
use tri_pages::{TriPages, TriSlot};

// The triangle with another stamp.
fn with_stamp(t: TriSlot, front: u32) -> TriSlot
    ensures { result ≡ stamped t front }
{
    let mut value = t;
    value.stamp = front;
    value
}

// Sets the stamp of a slot of the pages.
fn stamp_slot<L: Ledger>(
    pages: &mut TriPages,
    slot: u32,
    front: u32,
    steps: &mut Steps<L>,
) -> Result<(), AllocError>
    requires mesh { IsMesh pages.old }
    requires live { IsLive pages.old slot }
    ensures mesh { OnOk result (IsMesh pages.new) }
    ensures stamped { OnOk result (IsStamped pages.old pages.new slot front) }
    ensures cost { steps.new ≤ steps.old + 2 }
{
    let t = read_live(pages, slot, steps);
    let value = with_stamp(t, front);
    pages.write(slot, value, steps)?;
    Ok(())
}

impl Mesh {
    /// Sets the stamp of a live slot, at two page steps. It is no mesh step.
    pub fn stamp<L: Ledger>(
        &mut self,
        slot: u32,
        front: u32,
        steps: &mut Steps<L>,
    ) -> Result<(), AllocError>
        requires sheet { IsSheetMesh self.old.slots }
        requires live { IsLive self.old.slots slot }
        ensures sheet { OnOk result (IsSheetMesh self.new.slots) }
        ensures stamped { OnOk result (IsStamped self.old.slots self.new.slots slot front) }
        ensures turns { self.new.turns ≡ self.old.turns }
        ensures cost { steps.new ≤ steps.old + 2 }
    {
        stamp_slot(&mut self.pages, slot, front, steps)?;
        Ok(())
    }
}
