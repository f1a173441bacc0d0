//! A draft that is loaded, and what is written of it.

ghost use Rattle.std.specs.Prelude.{[]};
ghost use Rattle.ground_num.specs.Head.{IsOrigin};
ghost use Rattle.document_commands.specs.Faults.{refused_line};
ghost use Rattle.document_commands.specs.Reaching.{Reaches};
ghost use Rattle.document_commands.specs.Streams.{stream, WritesLine};

use crate::ending::Ending;
use crate::fault_line::refusal_line;
use crate::refusal::put_line;
use draft_load::{LoadFault, load};
use ground_io::Sink;
use ground_model::{Limits, Refusal};
use landxml_surface::Draft;
use std::alloc::Global;
use store::Store;

// Writes the fault line of a draft that can't be loaded.
fn refuse_draft<O: Sink>(number: u64, line: u32, draft: &Draft, refusal: Refusal, output: &mut O)
    requires { IsOrigin draft.now.head.origin }
    ensures { WritesLine (stream (O.written output.old) (O.write_faults output.old)) (stream (O.written output.new) (O.write_faults output.new)) [] (refused_line number line draft.now.head.origin refusal) }
{
    let text = refusal_line(number, line, &draft.head.origin, &refusal);
    put_line(output, text.as_bytes());
}

/// Loads a draft as the surface with this number, and gives its store. Where it can't be loaded its
/// fault line is written.
pub(crate) fn reach<O: Sink>(
    alloc: Global,
    limits: Limits,
    number: u64,
    draft: &Draft,
    output: &mut O,
) -> Result<Store, Ending>
    requires { IsOrigin draft.now.head.origin }
    ensures { Reaches limits number draft.now (stream (O.written output.old) (O.write_faults output.old)) (stream (O.written output.new) (O.write_faults output.new)) result }
{
    match load(alloc, draft, limits) {
        Ok(store) => Ok(store),
        Err(LoadFault::Refused { line, refusal }) => {
            refuse_draft(number, line, draft, refusal, output);
            Err(Ending::BadSurface)
        }
        Err(LoadFault::Memory) => Err(Ending::Memory),
    }
}
