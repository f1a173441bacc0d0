//! A mesh of triangles.

ghost use Rattle.std.specs.Prelude.{◌≡◌, ◌<◌, IfOk};
ghost use Rattle.mesh.specs.FarTriangle.{far_alone};
ghost use Rattle.mesh.specs.Sheets.{IsSheetMesh, net_in};
ghost use Rattle.predicates.specs.Sheet.{IsLocallyDelaunay};

use crate::redirect::OUTSIDE;
use ground_model::Corner;
use page_vec::Steps;
use std::alloc::{AllocError, Global};
use std::marker::{Brand, Model};
use std::sync::ledger::{Blank, Ledger};
use tri_pages::{TriPages, TriSlot};

/// A mesh: triangles of places and far corners, each in a slot with its neighbours.
///
/// It is a net (CGAL's triangulation data structure): each directed edge occurs once, and beyond it
/// stands the slot that has its reverse. After an error a mesh is half written and is only to be
/// dropped, so `IsSheetMesh` is a condition of each call and not an invariant of the type.
#[derive(Drop)]
pub struct Mesh {
    pub(crate) pages: TriPages,
    pub(crate) turns: u64,
}

impl Model for Mesh {
    ghost use Rattle.mesh.specs.Meshes.{MeshView};

    ghost Value = { MeshView };

    ghost view = { λ m. record { slots = m.pages; turns = m.turns } };
}

const FAR: TriSlot = TriSlot {
    corners: [Corner::Far(0), Corner::Far(1), Corner::Far(2)],
    counts: [0, 0, 0],
    next: [OUTSIDE, OUTSIDE, OUTSIDE],
    stamp: 0,
};

// The pages with the far triangle in slot 0.
fn far_pages<L: Ledger>(alloc: Global, blank: Blank) -> Result<TriPages, AllocError>
    requires name { blank.name ≡ L.name }
    requires parts { blank.parts ≡ L.parts }
    requires writable { 0 < L.parts }
    ensures { IfOk result (λ pages. pages ≡ far_alone) }
{
    let mut steps = Steps::<L>::new(blank);
    let mut pages = TriPages::empty(alloc);
    let slot = pages.take_free(&mut steps)?;
    pages.write(slot, FAR, &mut steps)?;
    Ok(pages)
}

impl Mesh {
    /// The triangle of the far corners alone, in slot 0.
    pub fn empty(alloc: Global) -> Result<Mesh, AllocError>
        ensures sheet { IfOk result (λ m. IsSheetMesh m.slots) }
        ensures delaunay { IfOk result (λ m. IsLocallyDelaunay (net_in m.slots)) }
        ensures far { IfOk result (λ m. m.slots ≡ far_alone) }
        ensures turns { IfOk result (λ m. m.turns ≡ 0) }
    {
        let pages = far_pages::<Brand>(alloc, Blank::new(1))?;
        Ok(Mesh { pages, turns: 0 })
    }

    /// Another version of the mesh, on its pages: what is done to the one isn't seen in the other.
    pub fn share(&self) -> Result<Mesh, AllocError>
        ensures slots { IfOk result (λ m. m.slots ≡ self.now.slots) }
        ensures turns { IfOk result (λ m. m.turns ≡ self.now.turns) }
    {
        Ok(Mesh {
            pages: self.pages.share()?,
            turns: self.turns,
        })
    }

    /// The slots, for reading. It takes no memory.
    pub fn pages(&self) -> &TriPages
        ensures { result.now ≡ self.now.slots }
    {
        &self.pages
    }

    /// How many mesh steps were made so far, on this mesh and, up to the share, on those that it was
    /// shared from. It takes no memory.
    pub fn turns(&self) -> u64
        ensures { result ≡ self.now.turns }
    {
        self.turns
    }
}
