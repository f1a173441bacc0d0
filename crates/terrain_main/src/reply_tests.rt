//! The texts of the replies that no session gives yet, and of places over an origin, by hand.

ghost use Rattle.line_protocol.specs.Replies.{HasVolumeWithin};

use ground_io::MemSink;
use ground_model::{Cut, Cuts, Facet, Mark, Place, Refusal, Volume};
use ground_num::{Origin, Thousandths};
use line_protocol::{Reply, put_reply};
use std::alloc::Global;
use std::test::Fail;

const TEXTS: &str = "\
front 8
planned 4 2
export 3 636
volume 3 0.000 0.002 -0.001 sixths 0 9000000 -9000000
error syntax 131071
error no-plan
error memory
refused 1 absent 100.001 2000.002
conflict 2 at 100.001 2000.002
conflict 5 100.001 2000.002 100.000 2010.000 110.000 2000.500
contour 5 1
100.001 2000.002 100.000 2010.000
";

// A place from its northing and easting, in thousandths.
fn place(n: i32, e: i32) -> Result<Place, Fail> {
    Ok(Place::new(e, n).ok_or("a place outside the limit")?)
}

// Writes the reply over the origin N 100, E 2000. Where a write fails the text is short.
fn put(sink: &mut MemSink, reply: Reply)
    requires { HasVolumeWithin reply }
{
    let origin = Origin {
        n: Thousandths(100_000),
        e: Thousandths(2_000_000),
    };
    let _ = put_reply(&reply, &origin, sink);
}

fn put_answers(sink: &mut MemSink) {
    put(sink, Reply::Held(8));
    put(sink, Reply::Planned(4, 2));
    put(sink, Reply::Export(3, 636));
    let volume = Volume {
        cut: 0,
        fill: 9_000_000,
        net: -9_000_000,
    };
    put(sink, Reply::Volume(3, volume));
}

fn put_errors(sink: &mut MemSink) {
    put(sink, Reply::Syntax(131_071));
    put(sink, Reply::NoPlan);
    put(sink, Reply::Memory);
}

// Two answers with a place, one with a facet, and a contour that is one cut along its first edge.
fn put_places(alloc: Global, sink: &mut MemSink, [a, b, c]: [Place; 3]) -> Result<(), Fail> {
    put(sink, Reply::Refused(1, Refusal::Absent(a)));
    put(sink, Reply::Conflict(2, Mark::Point(a)));
    let facet = Facet {
        a,
        b,
        c,
        ab: 0,
        bc: 1,
        ca: 2,
    };
    put(sink, Reply::Conflict(5, Mark::Tri(facet)));
    let mut cuts = Vec::new(alloc);
    cuts.push(Cut { from: a, to: b })?;
    put(sink, Reply::Contour(5, Cuts::from_vec(cuts)));
    Ok(())
}

#[test]
fn replies_have_their_texts(rt: HostRuntime) -> Result<(), Fail> {
    let corners = [place(1, 2)?, place(0, 10_000)?, place(10_000, 500)?];
    let mut sink = MemSink::new(rt.alloc(), 512, &[])?;
    put_answers(&mut sink);
    put_errors(&mut sink);
    put_places(rt.alloc(), &mut sink, corners)?;
    assert_eq!(rt; str::from_utf8(sink.written())?, TEXTS);
    Ok(())
}
