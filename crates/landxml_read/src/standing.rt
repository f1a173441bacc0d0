//! What is known of a document after some of its bytes.

ghost use Rattle.std.specs.Prelude.{◌≤◌};
ghost use Rattle.landxml_read.specs.Scan.{inner_depth};

use crate::scan::Scan;
use crate::utf8::Utf8;

/// Where encoding and markup stand after the bytes so far.
#[derive(Clone, Copy, Debug)]
pub(crate) struct Standing {
    pub(crate) utf8: Utf8,
    pub(crate) scan: Scan,
    /// How many bytes there were.
    pub(crate) offset: u32,
    /// Where the open sequence begins, or the same where none is open.
    pub(crate) sequence: u32,
    ghost shallow: { inner_depth scan.level ≤ offset },
}
