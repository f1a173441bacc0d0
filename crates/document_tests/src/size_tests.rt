//! The largest documents.

use document_commands::{Ending, check};
use ground_io::{Failed, MemSink, Source};
use ground_model::Limits;
use landxml_surface::OriginRule;
use std::alloc::Global;
use std::process::Abort;
use std::test::Fail;

// The most bytes of a document.
const LONGEST: usize = 1 << 28;

// A source of so many spaces.
#[derive(Drop)]
struct Spaces {
    left: usize,
}

impl Source for Spaces {
    ghost use Rattle.std.specs.Prelude.{None};
    ghost use Rattle.ground_io.specs.Streams.{alone};

    ghost left = { λ s. None };

    ghost read_faults = { λ s. 0 };

    ghost read_order = { λ s. None };

    ghost beside_reads = { λ s. alone };

    fn read(&mut self, into: &mut [u8]) -> Result<usize, Failed> {
        let count = into.len().min(self.left);
        into.fill(b' ');
        self.left -= count;
        Ok(count)
    }
}

fn check_of(alloc: Global, source: &mut Spaces, sink: &mut MemSink) -> Ending {
    check(alloc, OriginRule::Nearest, Limits::FULL, source, sink)
}

fn ends(
    rt: &impl Abort,
    alloc: Global,
    spaces: usize,
    wanted: Ending,
    line: &str,
) -> Result<(), Fail> {
    let mut sink = MemSink::new(alloc, 64, &[])?;
    let end = check_of(alloc, &mut Spaces { left: spaces }, &mut sink);
    assert_eq!(rt; (end, str::from_utf8(sink.written())?), (wanted, line));
    Ok(())
}

#[test]
fn a_document_of_the_most_bytes_is_read_whole(rt: HostRuntime) -> Result<(), Fail> {
    let line = "fault document 268435456 cut\n";
    ends(&rt, rt.alloc(), LONGEST, Ending::BadDocument, line)
}

#[test]
fn one_byte_more_is_too_large(rt: HostRuntime) -> Result<(), Fail> {
    let line = "fault too-large\n";
    ends(&rt, rt.alloc(), LONGEST + 1, Ending::TooLarge, line)
}
