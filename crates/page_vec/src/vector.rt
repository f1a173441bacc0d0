//! The persistent vector.

ghost use Rattle.std.specs.Prelude.{◌≡◌, ◌+◌, ◌<◌, ◌≤◌, ◌^◌, [], ◌∷◌, ◌++◌, length, slice_get, slice_set, IfOk, OnOk, OnErr};
ghost use Rattle.std.specs.Option.{option_copied};

use crate::steps::Steps;
use crate::tree::Tree;
use std::alloc::{AllocError, Global};
use std::marker::Model;
use std::sync::ledger::Ledger;

/// A persistent vector of at most 2^30 entries: a list on pages of 64 behind `Arc`, which versions
/// of it share. A version costs one short vector, and a change of it copies only the pages on the
/// way to the entry that somebody else still holds; no change is seen in another version.
#[derive(Drop)]
pub struct PageVec<T: Clone> {
    alloc: Global,
    tree: Tree<T>,
}

impl<T: Clone> Model for PageVec<T> {
    ghost use Rattle.std.specs.Prelude.{List};
    ghost use Rattle.page_vec.specs.Levels.{items_of};

    ghost Value = { List T };

    ghost view = { λ v. items_of v.tree };
}

impl<T: Clone> PageVec<T> {
    /// The vector of no entry. It takes no memory.
    pub fn empty(alloc: Global) -> PageVec<T>
        ensures empty { result ≡ [] }
    {
        PageVec {
            alloc,
            tree: Tree::empty(alloc),
        }
    }

    /// How many entries it has.
    pub fn len(&self) -> u32
        ensures len { result ≡ length self.now }
        ensures bound { result ≤ 2 ^ 30 }
    {
        self.tree.len()
    }

    /// The entry at `k`. It takes no memory.
    #[inline(always)]
    pub fn get<L: Ledger>(&self, k: u32, steps: &mut Steps<L>) -> Option<&T>
        ensures entry { option_copied result ≡ slice_get self.now k }
        ensures cost { steps.new ≡ steps.old + 1 }
    {
        steps.tick();
        if k < self.tree.len() {
            Some(self.tree.get(k))
        } else {
            None
        }
    }

    /// Writes the entry at `k`, in place on pages that nobody shares, and on copies of the others.
    #[inline(always)]
    pub fn set<L: Ledger>(
        &mut self,
        k: u32,
        value: T,
        steps: &mut Steps<L>,
    ) -> Result<(), AllocError>
        requires there { k < length self.old }
        requires clones { (x y : T) → T.is_clone x y → y ≡ x }
        ensures ok { OnOk result (self.new ≡ slice_set self.old k value) }
        ensures err { OnErr result (self.new ≡ self.old) }
        ensures cost { steps.new ≡ steps.old + 1 }
    {
        steps.tick();
        self.tree.set(k, value)
    }

    /// Adds an entry at the end, in place on pages that nobody shares, and on copies of the others.
    pub fn push<L: Ledger>(&mut self, value: T, steps: &mut Steps<L>) -> Result<(), AllocError>
        requires fits { length self.old < 2 ^ 30 }
        requires clones { (x y : T) → T.is_clone x y → y ≡ x }
        ensures ok { OnOk result (self.new ≡ self.old ++ value ∷ []) }
        ensures err { OnErr result (self.new ≡ self.old) }
        ensures cost { steps.new ≡ steps.old + 1 }
    {
        steps.tick();
        self.tree.push(self.alloc, value)
    }

    /// Another version of the list, on its pages.
    pub fn share(&self) -> Result<PageVec<T>, AllocError>
        ensures same { IfOk result (λ v. v ≡ self.now) }
    {
        Ok(PageVec {
            alloc: self.alloc,
            tree: self.tree.shared()?,
        })
    }
}
