//! The mesh steps that change the count of an edge.

ghost use Rattle.std.specs.Prelude.{◌≡◌, ◌<◌, ◌+◌, ◌++◌, [], ◌∷◌, Some, OnOk};
ghost use Rattle.tri_pages.specs.Slots.{triangle_at};
ghost use Rattle.tri_pages.specs.declared.tri_slot.TriSlot.{TriSlot};
ghost use Rattle.mesh.specs.Insides.{JoinsPlaces};
ghost use Rattle.mesh.specs.Meshes.{IsLive, raised};
ghost use Rattle.mesh.specs.Net.{side, count_at};
ghost use Rattle.mesh.specs.Sheets.{IsSheetMesh};
ghost use Rattle.mesh.specs.Steps.{CountStep, AddStep, TakeStep};
ghost use Rattle.mesh.specs.Suspects.{KeepsSuspects};

use crate::count::{count_of, set_count};
use crate::mesh::Mesh;
use crate::script::Script;
use crate::steps::note_two;
use std::alloc::AllocError;
use std::marker::Brand;
use std::sync::ledger::Blank;

impl Mesh {
    // The count of an edge.
    fn count_at(&self, slot: u32, edge: u8) -> u16
        requires edge { edge < 3 }
        requires live { IsLive self.now.slots slot }
        ensures { (t : TriSlot) → triangle_at self.now.slots slot ≡ Some t → result ≡ count_at t (side edge) }
    {
        count_of::<Brand>(&self.pages, slot, edge, Blank::new(1))
    }

    // Sets the count of an edge, on both of its sides.
    fn recount(
        &mut self,
        slot: u32,
        edge: u8,
        count: u16,
        script: &mut Script,
    ) -> Result<(), AllocError>
        requires edge { edge < 3 }
        requires sheet { IsSheetMesh self.old.slots }
        requires live { IsLive self.old.slots slot }
        requires places { JoinsPlaces self.old.slots slot (side edge) }
        ensures sheet { OnOk result (IsSheetMesh self.new.slots) }
        ensures count { OnOk result (CountStep self.old.slots self.new.slots slot (side edge) count script.old script.new) }
        ensures suspects { OnOk result (KeepsSuspects self.old.slots self.new.slots script.old script.new) }
        ensures turns { OnOk result (self.new.turns ≡ raised self.old.turns) }
    {
        let beyond = set_count::<Brand>(&mut self.pages, slot, edge, count, Blank::new(1))?;
        note_two(script, slot, beyond)?;
        self.turns = self.turns.saturating_add(1);
        Ok(())
    }

    /// Counts one more line over an edge, which joins two places.
    pub fn add_count(&mut self, slot: u32, edge: u8, script: &mut Script) -> Result<(), AllocError>
        requires edge { edge < 3 }
        requires sheet { IsSheetMesh self.old.slots }
        requires live { IsLive self.old.slots slot }
        requires places { JoinsPlaces self.old.slots slot (side edge) }
        requires room { (t : TriSlot) → triangle_at self.old.slots slot ≡ Some t → count_at t (side edge) < 65535 }
        ensures sheet { OnOk result (IsSheetMesh self.new.slots) }
        ensures count { OnOk result (AddStep self.old.slots self.new.slots slot (side edge) script.old script.new) }
        ensures suspects { OnOk result (KeepsSuspects self.old.slots self.new.slots script.old script.new) }
        ensures turns { OnOk result (self.new.turns ≡ raised self.old.turns) }
    {
        let count = self.count_at(slot, edge);
        self.recount(slot, edge, count + 1, script)?;
        Ok(())
    }

    /// Counts one line less over an edge.
    pub fn take_count(&mut self, slot: u32, edge: u8, script: &mut Script) -> Result<(), AllocError>
        requires edge { edge < 3 }
        requires sheet { IsSheetMesh self.old.slots }
        requires live { IsLive self.old.slots slot }
        requires counted { (t : TriSlot) → triangle_at self.old.slots slot ≡ Some t → 0 < count_at t (side edge) }
        ensures sheet { OnOk result (IsSheetMesh self.new.slots) }
        ensures count { OnOk result (TakeStep self.old.slots self.new.slots slot (side edge) script.old script.new) }
        ensures suspects { OnOk result (KeepsSuspects self.old.slots self.new.slots script.old script.new) }
        ensures turns { OnOk result (self.new.turns ≡ raised self.old.turns) }
    {
        let count = self.count_at(slot, edge);
        self.recount(slot, edge, count - 1, script)?;
        Ok(())
    }
}
