//! Several slots are written.

ghost use Rattle.std.specs.Prelude.{◌≡◌, ◌+◌, ◌≤◌, slice_set, OnOk};
ghost use Rattle.tri_pages.specs.Slots.{IsTaken, holding};

use page_vec::Steps;
use std::alloc::AllocError;
use std::sync::ledger::Ledger;
use tri_pages::{TriPages, TriSlot};

/// Writes two triangles into taken slots.
pub(crate) fn write_two<L: Ledger>(
    pages: &mut TriPages,
    s: u32,
    one: TriSlot,
    n: u32,
    two: TriSlot,
    steps: &mut Steps<L>,
) -> Result<(), AllocError>
    requires s { IsTaken pages.old s }
    requires n { IsTaken pages.old n }
    ensures ok { OnOk result (pages.new ≡ slice_set (slice_set pages.old s (holding one)) n (holding two)) }
{
    pages.write(s, one, steps)?;
    pages.write(n, two, steps)?;
    Ok(())
}

/// Writes three triangles into taken slots.
pub(crate) fn write_three<L: Ledger>(
    pages: &mut TriPages,
    s: u32,
    one: TriSlot,
    f: u32,
    two: TriSlot,
    g: u32,
    three: TriSlot,
    steps: &mut Steps<L>,
) -> Result<(), AllocError>
    requires s { IsTaken pages.old s }
    requires f { IsTaken pages.old f }
    requires g { IsTaken pages.old g }
    ensures ok { OnOk result (pages.new ≡ slice_set (slice_set (slice_set pages.old s (holding one)) f (holding two)) g (holding three)) }
{
    write_two(pages, s, one, f, two, steps)?;
    pages.write(g, three, steps)?;
    Ok(())
}

/// Writes four triangles into taken slots.
pub(crate) fn write_four<L: Ledger>(
    pages: &mut TriPages,
    s: u32,
    one: TriSlot,
    n: u32,
    two: TriSlot,
    f: u32,
    three: TriSlot,
    g: u32,
    four: TriSlot,
    steps: &mut Steps<L>,
) -> Result<(), AllocError>
    requires s { IsTaken pages.old s }
    requires n { IsTaken pages.old n }
    requires f { IsTaken pages.old f }
    requires g { IsTaken pages.old g }
    ensures ok { OnOk result (pages.new ≡ slice_set (slice_set (slice_set (slice_set pages.old s (holding one)) n (holding two)) f (holding three)) g (holding four)) }
{
    write_three(pages, s, one, n, two, f, three, steps)?;
    pages.write(g, four, steps)?;
    Ok(())
}
