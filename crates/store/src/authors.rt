//! How many entries each author has.

ghost use Rattle.std.specs.Prelude.{◌≡◌, ◌+◌, ◌++◌, ◌∷◌, [], List, IfOk};
ghost use Rattle.ground_model.specs.declared.entry.Entry.{Entry};
ghost use Rattle.ground_model.specs.History.{entries_of};
ghost use Rattle.store.specs.Births.{AreCounts};

use std::alloc::{AllocError, Global};
use std::collections::BTreeMap;

/// The number of entries of each author who has one.
#[derive(Drop)]
pub(crate) struct Authors {
    counts: BTreeMap<u16, u32>,
}

impl Authors {
    /// Those of an empty journal. It takes no memory.
    pub(crate) fn empty(alloc: Global) -> Authors
        ensures { AreCounts [] result.counts.entries }
    {
        Authors {
            counts: BTreeMap::new(alloc),
        }
    }

    /// How many entries the author has.
    pub(crate) fn entries(&self, author: u16) -> u32
        ensures { (h : List Entry) → AreCounts h self.now.counts.entries → result ≡ entries_of author h }
    {
        match self.counts.get(&author) {
            Some(count) => *count,
            None => 0,
        }
    }

    /// The counts once this author has an entry more.
    pub(crate) fn with_entry(&self, author: u16, number: u32) -> Result<Authors, AllocError>
        ensures { IfOk result (λ authors. (h : List Entry) (x : Entry) → AreCounts h self.now.counts.entries → x.author ≡ author → x.number ≡ number → number ≡ entries_of author h + 1 → AreCounts (h ++ x ∷ []) authors.counts.entries) }
    {
        let mut counts = self.counts.clone()?;
        counts.insert(author, number)?;
        Ok(Authors { counts })
    }
}
