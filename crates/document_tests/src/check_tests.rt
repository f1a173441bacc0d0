//! Reports on documents.

use crate::documents::{CROSSED, FACES, FULL, LINES, NOTCHED, TWO};
use crate::runs::checked;
use std::alloc::Global;
use std::process::Abort;
use std::test::Fail;

// Each row: a document, and how its report ends with what is written.
const REPORTS: [(&str, &str); 7] = [
    (
        FULL,
        "Done\nsurface 1 points 4 lines 1 facets 2 faces 2 agree 2 doubles 2 clashes 0 short 0 unit meter origin 4500000.000 500000.000 name EG\nsurfaces 1\n",
    ),
    (
        LINES,
        "Done\nsurface 1 points 12 lines 4 facets 18 faces 0 agree 0 doubles 7 clashes 2 short 1 unit foot origin 0.000 0.000 name a&amp;b\nsurfaces 1\n",
    ),
    (
        FACES,
        "Done\nsurface 1 points 4 lines 0 facets 2 faces 2 agree 1 doubles 0 clashes 0 short 0 unit meter origin 0.000 0.000 name t\nsurfaces 1\n",
    ),
    (
        NOTCHED,
        "Done\nsurface 1 points 4 lines 0 facets 3 faces 2 agree 2 doubles 0 clashes 0 short 0 unit meter origin 0.000 0.000 name h\nsurfaces 1\n",
    ),
    ("<LandXML/>", "Done\nsurfaces 0\n"),
    (CROSSED, "BadSurface\nfault surface 1 2 crosses 1\n"),
    (
        TWO,
        "BadSurface\nsurface 1 points 3 lines 0 facets 1 faces 0 agree 0 doubles 0 clashes 0 short 0 unit meter origin 0.000 0.000 name x\nfault surface 2 2 crosses 1\n",
    ),
];

// Each row: a document with a fault, and its line.
const FAULTS: [(&str, &str); 8] = [
    ("", "0 cut"),
    ("<LandXML><Surf", "14 cut"),
    ("<!DOCTYPE x><LandXML/>", "0 doctype"),
    ("<LandXML></Landxml>", "9 tag"),
    (
        "<LandXML><Surfaces><Surface name=\"a\"><Definition surfType=\"grid\"/></Surface></Surfaces></LandXML>",
        "37 surftype",
    ),
    (
        "<LandXML><Surfaces><Surface name=\"a\"><SourceData><Breaklines><Breakline brkType=\"wall\"/></Breaklines></SourceData></Surface></Surfaces></LandXML>",
        "61 brktype",
    ),
    (
        "<LandXML><Surfaces><Surface name=\"a\"><SourceData><Boundaries><Boundary bndType=\"outer\"><PntList2D>0 0 0 1 1 0</PntList2D></Boundary></Boundaries></SourceData></Surface></Surfaces></LandXML>",
        "98 noheight",
    ),
    (
        "<LandXML><Surfaces><Surface name=\"a\"><Definition surfType=\"TIN\"><Pnts><P id=\"1\">0 x 0</P></Pnts></Definition></Surface></Surfaces></LandXML>",
        "82 number",
    ),
];

// Each row: which read and which write fails, and how the report on two surfaces ends.
const FAILED: [(u64, u64, &str); 4] = [
    (1, 0, "ReadFault\n"),
    (2, 0, "ReadFault\n"),
    (0, 1, "WriteFault\n"),
    (
        0,
        2,
        "BadSurface\nsurface 1 points 3 lines 0 facets 1 faces 0 agree 0 doubles 0 clashes 0 short 0 unit meter origin 0.000 0.000 name x\n",
    ),
];

fn report_is(rt: &impl Abort, alloc: Global, document: &str, wanted: &str) -> Result<(), Fail> {
    assert_eq!(rt; checked(alloc, document.as_bytes(), 0, 0)?.as_str(), wanted);
    Ok(())
}

#[test]
fn each_surface_has_its_line(rt: HostRuntime) -> Result<(), Fail> {
    for (document, wanted) in REPORTS {
        report_is(&rt, rt.alloc(), document, wanted)?;
    }
    Ok(())
}

fn fault_is(rt: &impl Abort, alloc: Global, document: &[u8], fault: &str) -> Result<(), Fail> {
    let wanted = format!(in alloc; "BadDocument\nfault document {fault}\n")?;
    assert_eq!(rt; checked(alloc, document, 0, 0)?.as_str(), wanted.as_str());
    Ok(())
}

#[test]
fn a_fault_is_the_one_line(rt: HostRuntime) -> Result<(), Fail> {
    for (document, fault) in FAULTS {
        fault_is(&rt, rt.alloc(), document.as_bytes(), fault)?;
    }
    Ok(())
}

fn front_is_cut(rt: &impl Abort, alloc: Global, size: usize) -> Result<(), Fail> {
    let front = FULL.as_bytes().get(..size).ok_or("no such front")?;
    let fault = format!(in alloc; "{size} cut")?;
    fault_is(rt, alloc, front, fault.as_str())
}

// All fronts but those that end in the root's end tag.
#[test]
fn each_front_of_a_document_is_cut(rt: HostRuntime) -> Result<(), Fail> {
    for size in 0..FULL.len().saturating_sub(1) {
        front_is_cut(&rt, rt.alloc(), size)?;
    }
    Ok(())
}

fn failure_is(
    rt: &impl Abort,
    alloc: Global,
    read: u64,
    write: u64,
    wanted: &str,
) -> Result<(), Fail> {
    let found = checked(alloc, TWO.as_bytes(), read, write)?;
    assert_eq!(rt; found.as_str(), wanted, "read {read}, write {write}");
    Ok(())
}

#[test]
fn a_failed_read_or_write_ends_the_report(rt: HostRuntime) -> Result<(), Fail> {
    for (read, write, wanted) in FAILED {
        failure_is(&rt, rt.alloc(), read, write, wanted)?;
    }
    Ok(())
}
