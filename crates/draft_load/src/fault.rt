//! Why a draft is not loaded.

use ground_model::Refusal;

/// Why a draft is not loaded.
#[derive(Clone, Copy, Debug, PartialEq, Eq)]
pub enum LoadFault {
    /// The first edit that is unlawful adds the line with this number, counted from 1, or a point where
    /// it is 0.
    Refused { line: u32, refusal: Refusal },
    /// Out of memory.
    Memory,
}
