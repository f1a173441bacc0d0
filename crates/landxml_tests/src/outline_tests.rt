//! The faults of encoding and markup by themselves, whole and in all cuttings in two.

use landxml_read::{DocCause, DocFault, Outline};

// What is wrong with the bytes, read in two pieces.
fn fault_in(first: &[u8], second: &[u8]) -> Option<DocFault> {
    if first.len() > 1000 || second.len() > 1000 {
        return None;
    }
    let mut outline = Outline::new();
    if let Err(fault) = outline.feed(first) {
        return Some(fault);
    }
    if let Err(fault) = outline.feed(second) {
        return Some(fault);
    }
    outline.finish().err()
}

// The first cutting in two that has another fault.
fn wrong_cut(bytes: &[u8], fault: Option<DocFault>) -> Option<usize> {
    (0..=bytes.len()).find(|cut| fault_in(&bytes[..*cut], &bytes[*cut..]) != fault)
}

fn at(at: u64, cause: DocCause) -> Option<DocFault> {
    Some(DocFault { at, cause })
}

#[test]
fn each_cutting_of_markup_alone_shows_the_same_fault(rt: HostRuntime) {
    for (bytes, fault) in [
        (b"".as_slice(), at(0, DocCause::Cut)),
        (b"<LandXML><Surf".as_slice(), at(14, DocCause::Cut)),
        (
            b"<!DOCTYPE x><LandXML/>".as_slice(),
            at(0, DocCause::Doctype),
        ),
        (b"<a><!D".as_slice(), at(3, DocCause::Doctype)),
        (b"<a b='<'/>".as_slice(), at(6, DocCause::Syntax)),
        (b"PK\x03\x04".as_slice(), at(0, DocCause::Syntax)),
        (b"\xFF\xFE<\x00".as_slice(), at(0, DocCause::Utf8)),
        (b"<a>\xE2\x82</a>".as_slice(), at(3, DocCause::Utf8)),
        (b"<a>\xED\xA0\x80</a>".as_slice(), at(3, DocCause::Utf8)),
        (b"<a/>\xC3".as_slice(), at(4, DocCause::Syntax)),
        (b"<a>\xC3".as_slice(), at(3, DocCause::Utf8)),
        (b"<a></a><![CDATA[x]]>".as_slice(), at(9, DocCause::Syntax)),
        (b"<a/><!--".as_slice(), at(8, DocCause::Cut)),
        (
            b"\xEF\xBB\xBF<?xml?>\r\n<a b = \"c>\" ><!-- - -- --><![CDATA[<]]]]></a >\n".as_slice(),
            None,
        ),
    ] {
        assert!(rt; wrong_cut(bytes, fault).is_none(), "of {bytes:?}");
    }
}
