//! Entries of the journal.

use crate::edit::Edit;

/// An edit that was made, with its author and the author's own number for it, counted from 1.
#[derive(Drop)]
pub struct Entry {
    pub author: u16,
    pub number: u32,
    pub edit: Edit,
}
