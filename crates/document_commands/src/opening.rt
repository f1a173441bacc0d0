//! The surface of a document that is asked for, loaded.

ghost use Rattle.std.specs.Prelude.{◌≡◌, ◌∷◌, All, option_map};
ghost use Rattle.std.specs.List.{position};
ghost use Rattle.ground_num.specs.Head.{IsOrigin};
ghost use Rattle.landxml_surface.specs.Drafts.{IsRule};
ghost use Rattle.document_commands.specs.Rewriting.{is_asked as is_asked_for, OpensAt, Opens};
ghost use Rattle.document_commands.specs.Streams.{stream, sides};

use crate::ending::Ending;
use crate::fault_line::missing_line;
use crate::reaching::reach;
use crate::refusal::{put_line, refuse};
use document_source::{Drafted, read_drafts};
use ground_io::{Sink, Source};
use ground_model::Limits;
use landxml_surface::{Draft, OriginRule};
use std::alloc::Global;
use store::Store;

// Whether the draft is asked for: by its name, or by none.
fn is_asked(name: Option<&[u8]>, draft: &Draft) -> bool
    ensures { result ≡ is_asked_for (option_map (λ n. n.now) name.entry) draft.now }
{
    match name {
        Some(name) => draft.head.name.as_bytes() == name,
        None => true,
    }
}

// The index of the first draft that is asked for.
fn first_asked(name: Option<&[u8]>, drafts: &[Draft]) -> Option<usize>
    ensures { result ≡ position (is_asked_for (option_map (λ n. n.now) name.entry)) drafts.now }
{
    drafts.iter().position(|draft| is_asked(name, draft))
}

// Loads the first draft that is asked for.
fn open_asked<O: Sink>(
    alloc: Global,
    name: Option<&[u8]>,
    limits: Limits,
    drafted: &Drafted,
    output: &mut O,
) -> Result<Store, Ending>
    requires { All (λ draft. IsOrigin draft.head.origin) drafted.now.drafts }
    ensures { OpensAt limits drafted.now (stream (O.written output.old) (O.write_faults output.old)) (stream (O.written output.new) (O.write_faults output.new)) result (position (is_asked_for (option_map (λ n. n.now) name.entry)) drafted.now.drafts) }
{
    let drafts = drafted.drafts.as_slice();
    match first_asked(name, drafts) {
        Some(index) => reach(alloc, limits, index as u64 + 1, &drafts[index], output),
        None => {
            put_line(output, missing_line(drafted.length).as_bytes());
            Err(Ending::BadDocument)
        }
    }
}

/// Reads the document of the source, and loads the first of its surfaces within these limits, or the
/// first that has these bytes as its name. Only that surface is loaded, but a fault of any surface
/// counts. Where there is no such surface, or it can't be loaded, the command ends so, and its fault
/// line was written. A given origin is within 2^50 thousandths.
pub fn open_surface<S: Source, O: Sink>(
    alloc: Global,
    name: Option<&[u8]>,
    rule: OriginRule,
    limits: Limits,
    source: &mut S,
    output: &mut O,
) -> Result<Store, Ending>
    requires { IsRule rule }
    ensures opens { Opens (option_map (λ n. n.now) name.entry) rule limits (sides (S.left source.old) (S.read_faults source.old) (O.written output.old) (O.write_faults output.old)) (sides (S.left source.new) (S.read_faults source.new) (O.written output.new) (O.write_faults output.new)) result }
{
    match read_drafts(alloc, source, rule) {
        Ok(drafted) => open_asked(alloc, name, limits, &drafted, output),
        Err(fault) => Err(refuse(fault, output)),
    }
}
