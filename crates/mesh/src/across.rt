//! The triangle across an edge.

ghost use Rattle.std.specs.Prelude.{◌≡◌, ◌+◌, ◌<◌, ℕ, Some};
ghost use Rattle.tri_pages.specs.Slots.{triangle_at};
ghost use Rattle.mesh.specs.Acrosses.{IsAcross};
ghost use Rattle.mesh.specs.Meshes.{IsMesh};
ghost use Rattle.mesh.specs.Net.{side, next_at, outside};

use crate::read::read_live;
use crate::seen_edges::{edge_from, seen_from};
use page_vec::Steps;
use std::sync::ledger::Ledger;
use tri_pages::{TriPages, TriSlot};

/// The triangle across an edge: its slot, and its edge that is this one the other way.
#[derive(Clone, Copy)]
pub struct Across {
    pub slot: u32,
    pub tri: TriSlot,
    pub edge: u8,
}

/// Reads what stands across an edge of a triangle of the mesh, at one page step.
pub(crate) fn read_across<L: Ledger>(
    pages: &TriPages,
    t: &TriSlot,
    edge: u8,
    steps: &mut Steps<L>,
) -> Across
    requires edge { edge < 3 }
    requires mesh { IsMesh pages.now }
    requires here { (s : ℕ) × (triangle_at pages.now s ≡ Some t.now) }
    requires inner { next_at t.now (side edge) ≡ outside → ⊥ }
    ensures edge { result.edge < 3 }
    ensures across { IsAcross pages.now t.now (side edge) result.slot result.tri (side result.edge) }
{
    let seen = seen_from(t, edge);
    let tri = read_live(pages, seen.beyond_ab, steps);
    let back = edge_from(&tri, &seen.b);
    Across {
        slot: seen.beyond_ab,
        tri,
        edge: back,
    }
}
