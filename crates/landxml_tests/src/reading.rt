//! Documents, read in every cutting.

ghost use Rattle.std.specs.Prelude.{◌≤◌, length};

use crate::shown::text_of;
use landxml_read::{RawDoc, ReadFault, Reader};
use std::alloc::Global;

// The longest document of a test.
const LONGEST: usize = 4_000;

// The bytes, read in two pieces.
fn read_in_two(alloc: Global, first: &[u8], second: &[u8]) -> Result<RawDoc, ReadFault>
    requires first { length first.now ≤ 4000 }
    requires second { length second.now ≤ 4000 }
{
    let mut reader = Reader::new(alloc);
    if let Err(fault) = reader.feed(first) {
        // (after a fault every later call answers the same)
        return match reader.feed(b"") {
            Err(again) if again == fault => Err(fault),
            _ => Err(ReadFault::Memory),
        };
    }
    let _ = reader.feed(second);
    reader.finish()
}

// The bytes, read one by one.
fn read_byte_by_byte(alloc: Global, bytes: &[u8]) -> Result<RawDoc, ReadFault>
    requires { length bytes.now ≤ 4000 }
{
    let mut reader = Reader::new(alloc);
    for b in bytes {
        if let Err(fault) = reader.feed(&[*b]) {
            return Err(fault);
        }
    }
    reader.finish()
}

// Whether this is what the reading comes to.
fn comes_to(alloc: Global, read: Result<RawDoc, ReadFault>, wanted: &str) -> bool {
    match text_of(alloc, &read) {
        Some(text) => text.as_str() == wanted,
        None => false,
    }
}

/// The first cutting in two that does not come to this, or the length and one where the single bytes do not.
pub(crate) fn wrong_cut(alloc: Global, bytes: &[u8], wanted: &str) -> Option<usize> {
    if bytes.len() > LONGEST {
        return Some(0);
    }
    if !comes_to(alloc, read_byte_by_byte(alloc, bytes), wanted) {
        return Some(bytes.len() + 1);
    }
    (0..=bytes.len()).find(|cut| !comes_to(
        alloc,
        read_in_two(alloc, &bytes[..*cut], &bytes[*cut..]),
        wanted,
    ))
}
