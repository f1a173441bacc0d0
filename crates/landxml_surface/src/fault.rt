//! The fault with the least offset.

ghost use Rattle.std.specs.Prelude.{◌≡◌};
ghost use Rattle.landxml_surface.specs.Faults.{when, earlier_fault, least_of};

use landxml_read::{DocCause, DocFault};

/// The one with the lesser offset, the first where they are equal.
pub(crate) fn earlier(first: Option<DocFault>, second: Option<DocFault>) -> Option<DocFault>
    ensures { result ≡ earlier_fault first second }
{
    match (first, second) {
        (None, other) => other,
        (Some(fault), None) => Some(fault),
        (Some(fault), Some(other)) => Some(if other.at < fault.at { other } else { fault }),
    }
}

/// The fault, where the test holds.
pub(crate) fn fault_if(test: bool, at: u64, cause: DocCause) -> Option<DocFault>
    ensures { result ≡ least_of (when test at cause) }
{
    if test {
        Some(DocFault { at, cause })
    } else {
        None
    }
}
