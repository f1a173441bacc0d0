//! Free slots are taken for new triangles.

ghost use Rattle.std.specs.Prelude.{◌≡◌, ◌+◌, ◌≤◌, IfOk};
ghost use Rattle.mesh.specs.Takes.{IsTaking, IsTakingTwo};

use page_vec::Steps;
use std::alloc::AllocError;
use std::sync::ledger::Ledger;
use tri_pages::TriPages;

/// No mesh has more slots.
const LIMIT: u32 = 1_073_741_824;

/// Takes a free slot. Where the pages have as many slots as a mesh can, it is out of memory.
#[tactic(auto, using(tri_pages::proofs::Taken::length_taken))]
pub(crate) fn take_blank<L: Ledger>(
    pages: &mut TriPages,
    steps: &mut Steps<L>,
) -> Result<u32, AllocError>
    ensures taking { IfOk result (λ slot. IsTaking pages.old pages.new slot) }
    ensures cost { steps.new ≤ steps.old + 1 }
{
    if pages.len() >= LIMIT {
        return Err(AllocError);
    }
    let slot = pages.take_free(steps)?;
    let _count = pages.len();
    Ok(slot)
}

/// Takes two free slots, at two page steps. It is out of memory also where the pages have as many
/// slots as a mesh can.
pub(crate) fn take_two<L: Ledger>(
    pages: &mut TriPages,
    steps: &mut Steps<L>,
) -> Result<(u32, u32), AllocError>
    ensures taking { IfOk result (λ r. IsTakingTwo pages.old pages.new r.0 r.1) }
{
    let first = take_blank(pages, steps)?;
    let second = take_blank(pages, steps)?;
    Ok((first, second))
}
