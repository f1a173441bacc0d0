//! What the surfaces of documents are drafted as, and their faults.

use crate::drafting::drafted;
use ground_num::{Origin, Thousandths};
use landxml_surface::OriginRule;
use std::alloc::Global;

const NO_ORIGIN: OriginRule = OriginRule::Given(Origin {
    n: Thousandths(0),
    e: Thousandths(0),
});

// Whether the draft of the bytes is this text.
fn is_drafted(alloc: Global, bytes: &[u8], given: bool, wanted: &str) -> bool {
    if bytes.len() > 4_000 {
        return false;
    }
    let rule = if given {
        NO_ORIGIN
    } else {
        OriginRule::Nearest
    };
    match drafted(alloc, bytes, rule) {
        Some(text) => text.as_str() == wanted,
        None => false,
    }
}

#[test]
fn surfaces_are_drafted_from_their_origins(rt: HostRuntime) {
    let cases = [
        (
            "the nearest origin, a half going up, of positive and of negative coordinates",
            b"<LandXML><Surfaces><Surface name=\"a\"><SourceData><DataPoints><PntList3D>50000 -50000 1 50000 -49999 2</PntList3D></DataPoints></SourceData></Surface></Surfaces></LandXML>".as_slice(),
            false,
            "Meter from 100000000 0: doubles 0 clashes 0 short 0\npoint -50000000 -50000000 1000\npoint -50000000 -49999000 2000\n",
        ),
        (
            "no triple",
            b"<LandXML><Surfaces><Surface name=\"a\"/></Surfaces></LandXML>".as_slice(),
            false,
            "Meter from 0 0: doubles 0 clashes 0 short 0\n",
        ),
        (
            "a double and a clash, of which the first level stays",
            b"<LandXML><Surfaces><Surface name=\"a\"><SourceData><DataPoints><PntList3D>1 2 3 1 2 3 1 2 4</PntList3D></DataPoints></SourceData></Surface></Surfaces></LandXML>".as_slice(),
            true,
            "Meter from 0 0: doubles 1 clashes 1 short 0\npoint 1000 2000 3000\n",
        ),
    ];
    for (what, bytes, given, wanted) in cases {
        assert!(rt; is_drafted(rt.alloc(), bytes, given, wanted), "{what}");
    }
}

#[test]
fn lines_are_cleaned_and_faces_named(rt: HostRuntime) {
    let cases = [
        (
            "a ring that repeats places and its first at the end, over pairs, and a short breakline",
            b"<LandXML><Surfaces><Surface name=\"a\"><SourceData><DataPoints><PntList3D>0 0 1 10 0 2 0 10 3</PntList3D></DataPoints><Boundaries><Boundary bndType=\"void\"><PntList2D>0 0 0 0 10 0 0 10 0 0</PntList2D></Boundary></Boundaries><Breaklines><Breakline><PntList3D>0 0 1 0 0 1</PntList3D></Breakline></Breaklines></SourceData></Surface></Surfaces></LandXML>".as_slice(),
            "Meter from 0 0: doubles 2 clashes 0 short 1\npoint 0 0 1000\npoint 10000 0 2000\npoint 0 10000 3000\nVoid 0 0 10000 0 0 10000\n",
        ),
        (
            "faces by ids that come later",
            b"<LandXML><Surfaces><Surface name=\"a\"><Definition surfType=\"TIN\"><Faces><F>x y z</F></Faces><Pnts><P id=\"x\">0 0 1</P><P id=\"y\">0 10 1</P><P id=\"z\">10 0 1</P></Pnts></Definition></Surface></Surfaces></LandXML>".as_slice(),
            "Meter from 0 0: doubles 0 clashes 0 short 0\npoint 0 0 1000\npoint 0 10000 1000\npoint 10000 0 1000\nface 0 0 0 10000 10000 0\n",
        ),
    ];
    for (what, bytes, wanted) in cases {
        assert!(rt; is_drafted(rt.alloc(), bytes, true, wanted), "{what}");
    }
}

#[test]
fn the_fault_with_the_least_offset_is_told(rt: HostRuntime) {
    let cases = [
        (
            "a pair that is the place of no triple",
            b"<LandXML><Surfaces><Surface name=\"a\"><SourceData><Boundaries><Boundary bndType=\"outer\"><PntList2D>0 0 0 1 1 0</PntList2D></Boundary></Boundaries></SourceData></Surface></Surfaces></LandXML>".as_slice(),
            "NoHeight at 98",
        ),
        (
            "an easting beyond the limit",
            b"<LandXML><Surfaces><Surface name=\"a\"><SourceData><DataPoints><PntList3D>536870.912 -536870.913 0</PntList3D></DataPoints></SourceData></Surface></Surfaces></LandXML>".as_slice(),
            "Range at 83",
        ),
        (
            "a level beyond the limit",
            b"<LandXML><Surfaces><Surface name=\"a\"><SourceData><DataPoints><PntList3D>0 0 67108.865</PntList3D></DataPoints></SourceData></Surface></Surfaces></LandXML>".as_slice(),
            "Range at 76",
        ),
        (
            "an id twice, after a face of no id",
            b"<LandXML><Surfaces><Surface name=\"a\"><Definition><Faces><F>1 1 2</F></Faces><Pnts><P id=\"1\">0 0 0</P><P id=\"1\">0 1 0</P></Pnts></Definition></Surface></Surfaces></LandXML>".as_slice(),
            "Face at 56",
        ),
        (
            "an id twice in the first surface, a level in the second",
            b"<LandXML><Surfaces><Surface name=\"a\"><Definition><Pnts><P id=\"1\">0 0 0</P><P id=\"1\">0 1 0</P></Pnts></Definition></Surface><Surface name=\"b\"><Definition><Pnts><P id=\"1\">0 0 99999</P></Pnts></Definition></Surface></Surfaces></LandXML>".as_slice(),
            "Id at 74",
        ),
    ];
    for (what, bytes, wanted) in cases {
        assert!(rt; is_drafted(rt.alloc(), bytes, true, wanted), "{what}");
    }
}
