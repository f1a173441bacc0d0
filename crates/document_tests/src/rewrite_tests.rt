//! Surfaces of documents, written anew.

ghost use Rattle.landxml_surface.specs.Drafts.{IsRule};

use crate::documents::{
    BARE, BELOW, COLLINEAR, CROSSED, FACES, FAR, FULL, LINES, NAMES, NOTCHED, TRIANGLE,
};
use crate::runs::{AWAY, ZERO, rewritten};
use landxml_surface::OriginRule;
use std::alloc::Global;
use std::process::Abort;
use std::test::Fail;

// Documents whose surfaces have coordinates near 0 0.
const DOCUMENTS: [&str; 8] = [
    TRIANGLE, LINES, FACES, NAMES, NOTCHED, BARE, COLLINEAR, BELOW,
];

// Each row: the name that is asked for, and the level of the one point of the surface that is found.
const FOUND: [(&str, &str); 3] = [("a b", "1"), ("a", "2"), ("Gelände", "4")];

// Names that no surface has.
const MISSING: [&str; 4] = ["", "b", "a ", "Gel"];

fn written(alloc: Global, document: &str, rule: OriginRule) -> Result<String, Fail>
    requires { IsRule rule }
{
    let found = rewritten(alloc, document.as_bytes(), None, rule)?;
    let text = found.as_str().strip_prefix("Done\n").ok_or("no document")?;
    Ok(String::from_str(alloc, text)?)
}

fn stays(rt: &impl Abort, alloc: Global, document: &str, rule: OriginRule) -> Result<(), Fail>
    requires { IsRule rule }
{
    let once = written(alloc, document, rule)?;
    let again = written(alloc, once.as_str(), rule)?;
    assert_eq!(rt; again.as_str(), once.as_str());
    Ok(())
}

#[test]
fn what_is_written_is_written_so_again(rt: HostRuntime) -> Result<(), Fail> {
    for document in DOCUMENTS {
        stays(&rt, rt.alloc(), document, ZERO)?;
    }
    stays(&rt, rt.alloc(), FAR, AWAY)?;
    assert_eq!(&rt; written(rt.alloc(), TRIANGLE, ZERO)?.as_str(), TRIANGLE);
    Ok(())
}

fn is_found(rt: &impl Abort, alloc: Global, name: &str, level: &str) -> Result<(), Fail> {
    let found = rewritten(alloc, NAMES.as_bytes(), Some(name.as_bytes()), ZERO)?;
    let point = format!(in alloc; "<P id=\"1\">0.000 0.000 {level}.000</P>")?;
    assert!(rt; found.as_str().contains(point.as_str()), "{name}");
    Ok(())
}

fn is_missing(rt: &impl Abort, alloc: Global, name: &str) -> Result<(), Fail> {
    let found = rewritten(alloc, NAMES.as_bytes(), Some(name.as_bytes()), ZERO)?;
    let size = NAMES.len();
    let wanted = format!(in alloc; "BadDocument\nfault document {size} no-surface\n")?;
    assert_eq!(rt; found.as_str(), wanted.as_str(), "{name}");
    Ok(())
}

#[test]
fn the_first_surface_of_the_name_is_written(rt: HostRuntime) -> Result<(), Fail> {
    for (name, level) in FOUND {
        is_found(&rt, rt.alloc(), name, level)?;
    }
    for name in MISSING {
        is_missing(&rt, rt.alloc(), name)?;
    }
    Ok(())
}

#[test]
fn a_surface_that_is_not_lawful_is_not_written(rt: HostRuntime) -> Result<(), Fail> {
    let found = rewritten(rt.alloc(), CROSSED.as_bytes(), None, ZERO)?;
    assert_eq!(&rt; found.as_str(), "BadSurface\nfault surface 1 2 crosses 1\n");
    let far = rewritten(rt.alloc(), FULL.as_bytes(), None, ZERO)?;
    assert!(&rt; far.as_str().starts_with("BadDocument\nfault document "));
    Ok(())
}
