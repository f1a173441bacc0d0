//! Each cause at its place, whole, byte by byte and in all cuttings in two.

use crate::reading::wrong_cut;
use std::alloc::Global;

// The first of the documents that does not come to its fault in every cutting.
fn wrong_one(alloc: Global, cases: &[(&[u8], &str)]) -> Option<usize> {
    cases
        .iter()
        .position(|case| wrong_cut(alloc, case.0, case.1).is_some())
}

#[test]
fn each_cutting_shows_encoding_and_markup_at_their_places(rt: HostRuntime) {
    let cases = [
        (b"\xFF\xFE<\x00".as_slice(), "Utf8 at 0"),
        (
            b"<LandXML><Surfaces><Surface name=\"a\">\xE2\x82</x>".as_slice(),
            "Utf8 at 37",
        ),
        (
            b"<LandXML><Surfaces><Surface name=\"a\"><Definition surfType=\"TIN\"><Pnts><P id=\"\xC3(\">1 2 3</P></Pnts></Definition></Surface></Surfaces></LandXML>".as_slice(),
            "Utf8 at 77",
        ),
        (
            b"<LandXML><x>\xED\xA0\x80</x></LandXML>".as_slice(),
            "Utf8 at 12",
        ),
        (b"<LandXML>\xF0\x9F".as_slice(), "Utf8 at 9"),
        (b"<!DOCTYPE x><LandXML/>".as_slice(), "Doctype at 0"),
        (b"<LandXML><!D".as_slice(), "Doctype at 9"),
        (b"<LandXML/><!DOCTYPE".as_slice(), "Doctype at 10"),
        (
            b"<LandXML><Surfaces><Surface name=\"a\"><SourceData><DataPoints><PntList3D>1 2 3 <!D</DataPoints></SourceData></Surface></Surfaces></LandXML>".as_slice(),
            "Doctype at 78",
        ),
        (b"PK\x03\x04".as_slice(), "Syntax at 0"),
        (b"<LandXML a='<'/>".as_slice(), "Syntax at 12"),
        (b"<LandXML><x>\x01</x></LandXML>".as_slice(), "Syntax at 12"),
        (b"<LandXML/><LandXML/>".as_slice(), "Syntax at 11"),
        (b"<LandXML a=\"1\"b=\"2\"/>".as_slice(), "Syntax at 14"),
        (b"<LandXML/>\xC3".as_slice(), "Syntax at 10"),
        (b"".as_slice(), "Cut at 0"),
        (b"<LandXML><Surf".as_slice(), "Cut at 14"),
        (b"<LandXML/><!-- x --".as_slice(), "Cut at 19"),
        (b"<LandXML/><!-".as_slice(), "Cut at 13"),
        (
            b"<LandXML><Surfaces><Surface name=\"a\"><Definition><Pnts><P id=\"1\">111111111111111111111111111111111111111111111111111111111111111111111111111111111111111111111111111111111111111111111111111111111111111111111111111111111111111111111111111111111111111111111111111111111111111111111111111111111111111111111111111111111111111111111111111111111111111111111111111111111111".as_slice(),
            "Cut at 365",
        ),
        (
            b"<LandXML><a><a><a><a><a><a><a><a><a><a><a><a><a><a><a><a><a><a><a><a><a><a><a><a><a><a><a><a><a><a><a><a><a><a><a><a><a><a><a><a><a><a><a><a><a><a><a><a><a><a><a><a><a><a><a><a><a><a><a><a><a><a><a><a>".as_slice(),
            "Depth at 198",
        ),
        (
            b"<LandXML><a><a><a><a><a><a><a><a><a><a><a><a><a><a><a><a><a><a><a><a><a><a><a><a><a><a><a><a><a><a><a><a><a><a><a><a><a><a><a><a><a><a><a><a><a><a><a><a><a><a><a><a><a><a><a><a><a><a><a><a><a><a><a><a/>".as_slice(),
            "Depth at 198",
        ),
        (
            b"<LandXML><a b=\"&x;\"><a b=\"&x;\"><a b=\"&x;\"><a b=\"&x;\"><a b=\"&x;\"><a b=\"&x;\"><a b=\"&x;\"><a b=\"&x;\"><a b=\"&x;\"><a b=\"&x;\"><a b=\"&x;\"><a b=\"&x;\"><a b=\"&x;\"><a b=\"&x;\"><a b=\"&x;\"><a b=\"&x;\"><a b=\"&x;\"><a b=\"&x;\"><a b=\"&x;\"><a b=\"&x;\"><a b=\"&x;\"><a b=\"&x;\"><a b=\"&x;\"><a b=\"&x;\"><a b=\"&x;\"><a b=\"&x;\"><a b=\"&x;\"><a b=\"&x;\"><a b=\"&x;\"><a b=\"&x;\"><a b=\"&x;\"><a b=\"&x;\"><a b=\"&x;\"><a b=\"&x;\"><a b=\"&x;\"><a b=\"&x;\"><a b=\"&x;\"><a b=\"&x;\"><a b=\"&x;\"><a b=\"&x;\"><a b=\"&x;\"><a b=\"&x;\"><a b=\"&x;\"><a b=\"&x;\"><a b=\"&x;\"><a b=\"&x;\"><a b=\"&x;\"><a b=\"&x;\"><a b=\"&x;\"><a b=\"&x;\"><a b=\"&x;\"><a b=\"&x;\"><a b=\"&x;\"><a b=\"&x;\"><a b=\"&x;\"><a b=\"&x;\"><a b=\"&x;\"><a b=\"&x;\"><a b=\"&x;\"><a b=\"&x;\"><a b=\"&x;\"><a b=\"&x;\"><a b=\"&x;\"><a b=\"&x;\">".as_slice(),
            "Depth at 702",
        ),
    ];
    assert_eq!(rt; wrong_one(rt.alloc(), cases.as_slice()), None);
}

#[test]
fn each_cutting_shows_the_causes_of_tags_at_their_places(rt: HostRuntime) {
    let cases = [
        (b"<a/>".as_slice(), "Root at 0"),
        (b"<!-- x --><landxml>".as_slice(), "Root at 10"),
        (
            b"\xEF\xBB\xBF<x:LandXML></x:LandXML>".as_slice(),
            "Root at 3",
        ),
        (b"<LandXML></Landxml>".as_slice(), "Tag at 9"),
        (b"<LandXML><x><y></x></y></LandXML>".as_slice(), "Tag at 15"),
        (
            b"<LandXML><Surfaces><Surface name=\"a\"><Definition surfType=\"TIN\"><Pnts><P id=\"1\">1 2</Q></Pnts></Definition></Surface></Surfaces></LandXML>".as_slice(),
            "Tag at 83",
        ),
        (
            b"<LandXML><nnnnnnnnnnnnnnnnnnnnnnnnnnnnnnnnnnnnnnnnnnnnnnnnnnnnnnnnnnnnnnnnnnnnnnnnnnnnnnnnnnnnnnnnnnnnnnnnnnnnnnnnnnnnnnnnnnnnnnnnnnnnnnnnnnnnnnnnnnnnnnnnnnnnnnnnnnnnnnnnnnnnnnnnnnnnnnnnnnnnnnnnnnnnnnnnnnnnnnnnnnnnnnnnnnnnnnnnnnnnnnnnnnnnnnnnnnnnnnnnnnnnnnnnnnnnnnnn/></LandXML>".as_slice(),
            "Long at 9",
        ),
        (
            b"<LandXML><Surfaces><Surface name=\"nnnnnnnnnnnnnnnnnnnnnnnnnnnnnnnnnnnnnnnnnnnnnnnnnnnnnnnnnnnnnnnnnnnnnnnnnnnnnnnnnnnnnnnnnnnnnnnnnnnnnnnnnnnnnnnnnnnnnnnnnnnnnnnnnnnnnnnnnnnnnnnnnnnnnnnnnnnnnnnnnnnnnnnnnnnnnnnnnnnnnnnnnnnnnnnnnnnnnnnnnnnnnnnnnnnnnnnnnnnnnnnnnnnnnnnnnnnnnnnnnnnnnnnnnnnnnnnn\"></Surface></Surfaces></LandXML>".as_slice(),
            "Long at 19",
        ),
        (
            b"<LandXML><Surfaces><Surface name=\"a\"><Definition><Faces><F>1 2 nnnnnnnnnnnnnnnnnnnnnnnnnnnnnnnnnnnnnnnnnnnnnnnnnnnnnnnnnnnnnnnnnnnnnnnnnnnnnnnnnnnnnnnnnnnnnnnnnnnnnnnnnnnnnnnnnnnnnnnnnnnnnnnnnnnnnnnnnnnnnnnnnnnnnnnnnnnnnnnnnnnnnnnnnnnnnnnnnnnnnnnnnnnnnnnnnnnnnnnnnnnnnnnnnnnnnnnnnnnnnnnnnnnnnnnnnnnnnnnnnnnnnnnnnnnnnnnn</F></Faces></Definition></Surface></Surfaces></LandXML>".as_slice(),
            "Long at 63",
        ),
        (
            b"<LandXML><Surfaces><Surface name=\"&#233;&#233;&#233;&#233;&#233;&#233;&#233;&#233;&#233;&#233;&#233;&#233;&#233;&#233;&#233;&#233;&#233;&#233;&#233;&#233;&#233;&#233;&#233;&#233;&#233;&#233;&#233;&#233;&#233;&#233;&#233;&#233;&#233;&#233;&#233;&#233;&#233;&#233;&#233;&#233;&#233;&#233;&#233;&#233;&#233;&#233;&#233;&#233;&#233;&#233;&#233;&#233;&#233;&#233;&#233;&#233;&#233;&#233;&#233;&#233;&#233;&#233;&#233;&#233;&#233;&#233;&#233;&#233;&#233;&#233;&#233;&#233;&#233;&#233;&#233;&#233;&#233;&#233;&#233;&#233;&#233;&#233;&#233;&#233;&#233;&#233;&#233;&#233;&#233;&#233;&#233;&#233;&#233;&#233;&#233;&#233;&#233;&#233;&#233;&#233;&#233;&#233;&#233;&#233;&#233;&#233;&#233;&#233;&#233;&#233;&#233;&#233;&#233;&#233;&#233;&#233;&#233;&#233;&#233;&#233;&#233;&#233;&#233;&#233;&#233;&#233;&#233;&#233;\"></Surface></Surfaces></LandXML>".as_slice(),
            "Long at 19",
        ),
        (
            b"<LandXML><Surfaces><Surface name=\"a\"><Definition surfType=\"TIN\"><Pnts><P id=\"1\">1 2 3333333333333333333333333333333333333333333333333333333333333333333333333333333333333333333333333333333333333333333333333333333333333333333333333333333333333333333333333333333333333333333333333333333333333333333333333333333333333333333333333333333333333333</P></Pnts></Definition></Surface></Surfaces></LandXML>".as_slice(),
            "Long at 84",
        ),
        (
            b"<LandXML><Surfaces><Surface name='&nbsp;'/></Surfaces></LandXML>".as_slice(),
            "Entity at 19",
        ),
        (
            b"<LandXML><Surfaces><Surface name=\"&#0;\"></Surface></Surfaces></LandXML>".as_slice(),
            "Entity at 19",
        ),
        (
            b"<LandXML><Surfaces><Surface name=\"a\"><Definition surfType=\"TIN\"><Pnts><P id=\"1\">1 2 &#51;</P></Pnts></Definition></Surface></Surfaces></LandXML>".as_slice(),
            "Entity at 84",
        ),
        (
            b"<LandXML><Surfaces><Surface name=\"a\"><SourceData><DataPoints><PntList3D>1 2 3<![CDATA[4]]></PntList3D></DataPoints></SourceData></Surface></Surfaces></LandXML>".as_slice(),
            "Entity at 77",
        ),
        (
            b"<LandXML><Surfaces><Surface name=\"a\"><Definition surfType=\"TIN\"><Pnts><P id=\"&#xD800;\">1 2 3</P></Pnts></Definition></Surface></Surfaces></LandXML>".as_slice(),
            "Entity at 70",
        ),
        (
            b"<LandXML><Surfaces><Surface/></Surfaces></LandXML>".as_slice(),
            "Attr at 19",
        ),
        (
            b"<LandXML><Surfaces><Surface name=\"a\"><Definition surfType=\"TIN\"><Pnts><P>1 2 3</P></Pnts></Definition></Surface></Surfaces></LandXML>".as_slice(),
            "Attr at 70",
        ),
        (
            b"<LandXML><Units><Metric linearUnit='foot' linearUnit='foot'/></Units></LandXML>".as_slice(),
            "Attr at 16",
        ),
        (
            b"<LandXML><Surfaces><Surface Name=\"a\"></Surface></Surfaces></LandXML>".as_slice(),
            "Attr at 19",
        ),
        (
            b"<LandXML><Units><Metric linearUnit='metre'/></Units></LandXML>".as_slice(),
            "Unit at 16",
        ),
        (
            b"<LandXML><Units><Imperial/></Units></LandXML>".as_slice(),
            "Unit at 16",
        ),
        (
            b"<LandXML><Units><Metric linearUnit='meter'/><Imperial linearUnit='inch'/></Units></LandXML>".as_slice(),
            "Unit at 44",
        ),
        (
            b"<LandXML><Surfaces><Surface name=\"a\"><Definition surfType=\"grid\"/></Surface></Surfaces></LandXML>".as_slice(),
            "SurfType at 37",
        ),
        (
            b"<LandXML><Surfaces><Surface name=\"a\"><Definition surfType=\"tin\"></Definition></Surface></Surfaces></LandXML>".as_slice(),
            "SurfType at 37",
        ),
        (
            b"<LandXML><Surfaces><Surface name=\"a\"><x/><Definition surfType=\"\"/></Surface></Surfaces></LandXML>".as_slice(),
            "SurfType at 41",
        ),
        (
            b"<LandXML><Surfaces><Surface name=\"a\"><SourceData><Breaklines><Breakline brkType=\"wall\"/></Breaklines></SourceData></Surface></Surfaces></LandXML>".as_slice(),
            "BrkType at 61",
        ),
        (
            b"<LandXML><Surfaces><Surface name=\"a\"><SourceData><Breaklines><Breakline brkType=\"Standard\"/></Breaklines></SourceData></Surface></Surfaces></LandXML>".as_slice(),
            "BrkType at 61",
        ),
        (
            b"<LandXML><Surfaces><Surface name=\"a\"><SourceData><Breaklines><Breakline brkType=\" standard\"></Breakline></Breaklines></SourceData></Surface></Surfaces></LandXML>".as_slice(),
            "BrkType at 61",
        ),
        (
            b"<LandXML><Surfaces><Surface name=\"a\"><SourceData><Boundaries><Boundary/></Boundaries></SourceData></Surface></Surfaces></LandXML>".as_slice(),
            "BndType at 61",
        ),
        (
            b"<LandXML><Surfaces><Surface name=\"a\"><SourceData><Boundaries><Boundary bndType=\"hole\"/></Boundaries></SourceData></Surface></Surfaces></LandXML>".as_slice(),
            "BndType at 61",
        ),
        (
            b"<LandXML><Surfaces><Surface name=\"a\"><SourceData><Boundaries><Boundary bndType=\"outer \"></Boundary></Boundaries></SourceData></Surface></Surfaces></LandXML>".as_slice(),
            "BndType at 61",
        ),
    ];
    assert_eq!(rt; wrong_one(rt.alloc(), cases.as_slice()), None);
}

#[test]
fn each_cutting_shows_the_causes_of_words_at_their_places(rt: HostRuntime) {
    let cases = [
        (
            b"<LandXML><Surfaces><Surface name=\"a\"><Definition surfType=\"TIN\"><Pnts><P id=\"1\">0 x 0</P></Pnts></Definition></Surface></Surfaces></LandXML>".as_slice(),
            "Number at 82",
        ),
        (
            b"<LandXML><Surfaces><Surface name=\"a\"><SourceData><DataPoints><PntList2D>1 2. 3e</PntList2D></DataPoints></SourceData></Surface></Surfaces></LandXML>".as_slice(),
            "Number at 77",
        ),
        (
            b"<LandXML><Surfaces><Surface name=\"a\"><SourceData><DataPoints><PntList3D>1 2 +-3<!-- x --></PntList3D></DataPoints></SourceData></Surface></Surfaces></LandXML>".as_slice(),
            "Number at 76",
        ),
        (
            b"<LandXML><Surfaces><Surface name=\"a\"><Definition surfType=\"TIN\"><Pnts><P id=\"1\">1,5 2 3</P></Pnts></Definition></Surface></Surfaces></LandXML>".as_slice(),
            "Number at 80",
        ),
        (
            b"<LandXML><Surfaces><Surface name=\"a\"><SourceData><DataPoints><PntList3D>1 2 1000000000</PntList3D></DataPoints></SourceData></Surface></Surfaces></LandXML>".as_slice(),
            "Big at 76",
        ),
        (
            b"<LandXML><Surfaces><Surface name=\"a\"><Definition surfType=\"TIN\"><Pnts><P id=\"1\">-1e9 2 3</P></Pnts></Definition></Surface></Surfaces></LandXML>".as_slice(),
            "Big at 80",
        ),
        (
            b"<LandXML><Surfaces><Surface name=\"a\"><SourceData><DataPoints><PntList2D>999999999.9995 1</PntList2D></DataPoints></SourceData></Surface></Surfaces></LandXML>".as_slice(),
            "Big at 72",
        ),
        (
            b"<LandXML><Surfaces><Surface name=\"a\"><Definition surfType=\"TIN\"><Pnts><P id=\"1\">1 2</P></Pnts></Definition></Surface></Surfaces></LandXML>".as_slice(),
            "Count at 83",
        ),
        (
            b"<LandXML><Surfaces><Surface name=\"a\"><SourceData><DataPoints><PntList3D>1 2 3 4</PntList3D></DataPoints></SourceData></Surface></Surfaces></LandXML>".as_slice(),
            "Count at 79",
        ),
        (
            b"<LandXML><Surfaces><Surface name=\"a\"><SourceData><DataPoints><PntList2D>1 2 3</PntList2D></DataPoints></SourceData></Surface></Surfaces></LandXML>".as_slice(),
            "Count at 77",
        ),
        (
            b"<LandXML><Surfaces><Surface name=\"a\"><Definition><Faces><F>1 2 3 4</F></Faces></Definition></Surface></Surfaces></LandXML>".as_slice(),
            "Count at 66",
        ),
        (
            b"<LandXML><Surfaces><Surface name=\"a\"><Definition surfType=\"TIN\"><Pnts><P id=\"1\"/></Pnts></Definition></Surface></Surfaces></LandXML>".as_slice(),
            "Count at 70",
        ),
        (
            b"<LandXML><Surfaces><Surface name=\"a\"><Definition><Faces><F/></Faces></Definition></Surface></Surfaces></LandXML>".as_slice(),
            "Count at 56",
        ),
        (
            b"<LandXML><Surfaces><Surface name=\"a\"><Definition surfType=\"TIN\"><Pnts><P id=\"1\">1 2 3 4x</P></Pnts></Definition></Surface></Surfaces></LandXML>".as_slice(),
            "Number at 86",
        ),
        (
            b"<LandXML><Project name=\"&x;\"><P>a &y; <![CDATA[b]]></P><P name=\"1\" name=\"2\"/></Project></Landxml>".as_slice(),
            "Tag at 87",
        ),
        (
            b"<LandXML><Surfaces><Surface name=\"a\" name=\"&x;\"/></Surfaces></LandXML>".as_slice(),
            "Entity at 19",
        ),
        (
            b"<LandXML><Units><Metric linearUnit=\"mmmmmmmmmmmmmmmmmmmmmmmmmmmmmmmmmmmmmmmmmmmmmmmmmmmmmmmmmmmmmmmmmmmmmmmmmmmmmmmmmmmmmmmmmmmmmmmmmmmmmmmmmmmmmmmmmmmmmmmmmmmmmmmmmmmmmmmmmmmmmmmmmmmmmmmmmmmmmmmmmmmmmmmmmmmmmmmmmmmmmmmmmmmmmmmmmmmmmmmmmmmmmmmmmmmmmmmmmmmmmmmmmmmmmmmmmmmmmmmmmmmmmmmmmmmmmmmm\"/></Units></LandXML>".as_slice(),
            "Long at 16",
        ),
    ];
    assert_eq!(rt; wrong_one(rt.alloc(), cases.as_slice()), None);
}
