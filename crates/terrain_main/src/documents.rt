//! The commands on documents, and the list of all commands.

ghost use Rattle.std.specs.Prelude.{◌≡◌, option_map};
ghost use Rattle.landxml_surface.specs.Drafts.{IsRule};
ghost use Rattle.document_commands.specs.Streams.{sides, stream};
ghost use Rattle.terrain_main.specs.Documents.{RunsCheck, RunsRewrite, RunsHelp};

use crate::status::Status;
use document_commands::{check, rewrite};
use ground_io::{Sink, Source, write_all};
use ground_model::Limits;
use landxml_surface::OriginRule;
use std::alloc::Global;

/// The words of each command, a line each.
const HELP: &[u8] = b"check [--origin N E]\nrewrite [--surface NAME] [--origin N E]\ntalk\n\
    trial SEED COUNT\nhelp\nserve PORT WORKERS SESSIONS [--surface NAME] [--origin N E]\n";

/// Reports on a document.
pub(crate) fn run_check<I: Source, O: Sink>(
    alloc: Global,
    rule: OriginRule,
    input: &mut I,
    output: &mut O,
) -> Status
    requires { IsRule rule }
    ensures { RunsCheck rule (sides (I.left input.old) (I.read_faults input.old) (O.written output.old) (O.write_faults output.old)) (sides (I.left input.new) (I.read_faults input.new) (O.written output.new) (O.write_faults output.new)) result }
{
    Status::of_document(check(alloc, rule, Limits::FULL, input, output))
}

/// Writes a surface of a document anew.
pub(crate) fn run_rewrite<I: Source, O: Sink>(
    alloc: Global,
    name: Option<&[u8]>,
    rule: OriginRule,
    input: &mut I,
    output: &mut O,
) -> Status
    requires { IsRule rule }
    ensures { RunsRewrite (option_map (λ n. n.now) name.entry) rule (sides (I.left input.old) (I.read_faults input.old) (O.written output.old) (O.write_faults output.old)) (sides (I.left input.new) (I.read_faults input.new) (O.written output.new) (O.write_faults output.new)) result }
{
    Status::of_document(rewrite(alloc, name, rule, Limits::FULL, input, output))
}

/// Writes the words of each command.
#[tactic(auto, unfolding(crate::specs::Documents::help_text))]
pub(crate) fn run_help<O: Sink>(output: &mut O) -> Status
    ensures { RunsHelp (stream (O.written output.old) (O.write_faults output.old)) (stream (O.written output.new) (O.write_faults output.new)) result }
{
    match write_all(output, HELP) {
        Ok(()) => Status::Ok,
        Err(_) => Status::WriteFault,
    }
}
