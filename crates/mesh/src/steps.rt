//! The mesh steps: each keeps a mesh.

ghost use Rattle.std.specs.Prelude.{ℕ, ◌≡◌, ◌<◌, ◌+◌, ◌*◌, ◌^◌, ◌++◌, [], ◌∷◌, IfOk, OnOk};
ghost use Rattle.ground_model.specs.declared.corner.Corner.TheVariants.{At};
ghost use Rattle.mesh.specs.Acrosses.{IsInner};
ghost use Rattle.mesh.specs.Insides.{IsInSlot, IsOnSlot, IsConvexAt, IsPlaceAt, IsUncounted};
ghost use Rattle.mesh.specs.Meshes.{IsLive, raised};
ghost use Rattle.mesh.specs.Net.{Side, side, after};
ghost use Rattle.mesh.specs.Sheets.{IsSheetMesh};
ghost use Rattle.mesh.specs.Steps.{SplitStep, EdgeSplitStep, FlipStep, UnsplitStep};
ghost use Rattle.mesh.specs.Straights.{EdgeUnsplitStep, IsLineSide, IsStraightAt};
ghost use Rattle.mesh.specs.Suspects.{KeepsSuspects};
ghost use Rattle.mesh.specs.Unsplits.{IsUnsplittable};

use crate::edge_line::line_edge;
use crate::edge_split::split_edge_slots;
use crate::edge_unsplit::unsplit_edge_slots;
use crate::flip::flip_slots;
use crate::mesh::Mesh;
use crate::point_id::PointId;
use crate::script::Script;
use crate::seen_edges::edge_after;
use crate::split::split_slots;
use crate::unsplit::unsplit_slots;
use ground_model::{Corner, Place};
use std::alloc::AllocError;
use std::marker::Brand;
use std::sync::ledger::Blank;

// The number of a corner of a slot.
fn point_id(slot: u32, corner: u32) -> PointId
    requires slot { slot < 2 ^ 30 }
    requires corner { corner < 3 }
    ensures { result.0 ≡ 4 * slot + corner }
{
    PointId(4 * slot + corner)
}

/// Names two slots.
pub(crate) fn note_two(script: &mut Script, first: u32, second: u32) -> Result<(), AllocError>
    ensures { OnOk result (script.new ≡ script.old ++ first ∷ second ∷ []) }
{
    script.note(first)?;
    script.note(second)?;
    Ok(())
}

// Names three slots.
fn note_three(script: &mut Script, first: u32, second: u32, third: u32) -> Result<(), AllocError>
    ensures { OnOk result (script.new ≡ script.old ++ first ∷ second ∷ third ∷ []) }
{
    note_two(script, first, second)?;
    script.note(third)?;
    Ok(())
}

// Names four slots.
fn note_four(
    script: &mut Script,
    first: u32,
    second: u32,
    third: u32,
    fourth: u32,
) -> Result<(), AllocError>
    ensures { OnOk result (script.new ≡ script.old ++ first ∷ second ∷ third ∷ fourth ∷ []) }
{
    note_three(script, first, second, third)?;
    script.note(fourth)?;
    Ok(())
}

impl Mesh {
    /// Splits the triangle of a slot at a place strictly within it. The three parts stand in the slot and in
    /// two that were free. The answer is the number of the new point.
    pub fn split(
        &mut self,
        slot: u32,
        place: Place,
        script: &mut Script,
    ) -> Result<PointId, AllocError>
        requires sheet { IsSheetMesh self.old.slots }
        requires live { IsLive self.old.slots slot }
        requires inside { IsInSlot self.old.slots slot place }
        ensures sheet { OnOk result (IsSheetMesh self.new.slots) }
        ensures split { OnOk result (SplitStep self.old.slots self.new.slots slot (At place) script.old script.new) }
        ensures suspects { OnOk result (KeepsSuspects self.old.slots self.new.slots script.old script.new) }
        ensures turns { OnOk result (self.new.turns ≡ raised self.old.turns) }
        ensures point { IfOk result (λ point. point.0 ≡ 4 * slot + 2) }
    {
        // For the proof: a place is within the limit.
        let _easting = place.e();
        let (second, third) = split_slots::<Brand>(
            &mut self.pages,
            slot,
            Corner::At(place),
            Blank::new(1),
        )?;
        note_three(script, slot, second, third)?;
        self.turns = self.turns.saturating_add(1);
        Ok(point_id(slot, 2))
    }

    /// Splits an edge at a place strictly within it, with both triangles at it. Both parts keep its
    /// count. The answer is the number of the new point.
    pub fn split_edge(
        &mut self,
        slot: u32,
        edge: u8,
        place: Place,
        script: &mut Script,
    ) -> Result<PointId, AllocError>
        requires edge { edge < 3 }
        requires sheet { IsSheetMesh self.old.slots }
        requires live { IsLive self.old.slots slot }
        requires on { IsOnSlot self.old.slots slot (side edge) place }
        ensures sheet { OnOk result (IsSheetMesh self.new.slots) }
        ensures split { OnOk result (EdgeSplitStep self.old.slots self.new.slots slot (side edge) (At place) script.old script.new) }
        ensures suspects { OnOk result (KeepsSuspects self.old.slots self.new.slots script.old script.new) }
        ensures turns { OnOk result (self.new.turns ≡ raised self.old.turns) }
        ensures point { IfOk result (λ point. point.0 ≡ 4 * slot + 1) }
    {
        // For the proof: a place is within the limit.
        let _easting = place.e();
        let parts = split_edge_slots::<Brand>(
            &mut self.pages,
            slot,
            edge,
            Corner::At(place),
            Blank::new(1),
        )?;
        note_four(script, slot, parts.beyond, parts.end, parts.back)?;
        self.turns = self.turns.saturating_add(1);
        Ok(point_id(slot, 1))
    }

    /// Turns the common edge of two triangles to the other diagonal of their quadrilateral, which is
    /// strictly convex. The edge has no count.
    pub fn flip(&mut self, slot: u32, edge: u8, script: &mut Script) -> Result<(), AllocError>
        requires edge { edge < 3 }
        requires sheet { IsSheetMesh self.old.slots }
        requires live { IsLive self.old.slots slot }
        requires inner { IsInner self.old.slots slot (side edge) }
        requires uncounted { IsUncounted self.old.slots slot (side edge) }
        requires convex { IsConvexAt self.old.slots slot (side edge) }
        ensures sheet { OnOk result (IsSheetMesh self.new.slots) }
        ensures flip { OnOk result (FlipStep self.old.slots self.new.slots slot (side edge) script.old script.new) }
        ensures suspects { OnOk result (KeepsSuspects self.old.slots self.new.slots script.old script.new) }
        ensures turns { OnOk result (self.new.turns ≡ raised self.old.turns) }
    {
        let beyond = flip_slots::<Brand>(&mut self.pages, slot, edge, Blank::new(1))?;
        note_two(script, slot, beyond)?;
        self.turns = self.turns.saturating_add(1);
        Ok(())
    }

    /// Takes out a corner round which three triangles stand. One triangle takes their place, in the
    /// slot; the two other slots are free.
    pub fn unsplit(&mut self, slot: u32, corner: u8, script: &mut Script) -> Result<(), AllocError>
        requires corner { corner < 3 }
        requires sheet { IsSheetMesh self.old.slots }
        requires unsplittable { IsUnsplittable self.old.slots slot (after (side corner)) }
        ensures sheet { OnOk result (IsSheetMesh self.new.slots) }
        ensures unsplit { OnOk result (UnsplitStep self.old.slots self.new.slots slot (after (side corner)) script.old script.new) }
        ensures suspects { OnOk result (KeepsSuspects self.old.slots self.new.slots script.old script.new) }
        ensures turns { OnOk result (self.new.turns ≡ raised self.old.turns) }
    {
        let _freed = unsplit_slots::<Brand>(
            &mut self.pages,
            slot,
            edge_after(corner),
            Blank::new(1),
        )?;
        script.note(slot)?;
        self.turns = self.turns.saturating_add(1);
        Ok(())
    }

    /// Takes out a corner that has four neighbours and lies straight between two opposite ones. The
    /// edges to these have one count, which the joined edge keeps; the two others have none. Two
    /// triangles take the place of the four. Which two neighbours these are is found by a side and a
    /// count.
    pub fn unsplit_edge(
        &mut self,
        slot: u32,
        corner: u8,
        script: &mut Script,
    ) -> Result<(), AllocError>
        requires corner { corner < 3 }
        requires sheet { IsSheetMesh self.old.slots }
        requires live { IsLive self.old.slots slot }
        requires place { IsPlaceAt self.old.slots slot (side corner) }
        requires straight { (n : ℕ) (j : Side) → IsLineSide self.old.slots slot (side corner) n j → IsStraightAt self.old.slots n j }
        ensures sheet { OnOk result (IsSheetMesh self.new.slots) }
        ensures unsplit { OnOk result (EdgeUnsplitStep self.old.slots self.new.slots slot (side corner) script.old script.new) }
        ensures suspects { OnOk result (KeepsSuspects self.old.slots self.new.slots script.old script.new) }
        ensures turns { OnOk result (self.new.turns ≡ raised self.old.turns) }
    {
        let line = line_edge::<Brand>(&self.pages, slot, corner, Blank::new(1));
        let freed = unsplit_edge_slots::<Brand>(
            &mut self.pages,
            line.slot,
            line.edge,
            Blank::new(1),
        )?;
        note_two(script, line.slot, freed.beyond)?;
        self.turns = self.turns.saturating_add(1);
        Ok(())
    }
}
