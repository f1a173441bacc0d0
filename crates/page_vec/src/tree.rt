//! The pages of a list, with as many levels as its length needs.

ghost use Rattle.std.specs.Prelude.{◌≡◌, ℕ, ◌<◌, ◌≤◌, ◌^◌, ◌↔◌, [], ◌∷◌, ◌++◌, length, slice_index_or, slice_set, IsTrue, IfOk, OnOk, OnErr};
ghost use Rattle.page_vec.specs.Levels.{items_of, room_of, IsRaised};

use crate::levels::{Fifth, Fourth, Second, Third};
use crate::node::Node;
use crate::page::Page;
use std::alloc::{AllocError, Global};

/// The page at the top, of one of the four levels above the leaves. A list of up to 64^2 entries
/// has two levels, of up to 64^3 three, and so on to 2^30; it never loses a level.
#[derive(Drop)]
pub(crate) enum Tree<T: Clone> {
    Second(Second<T>),
    Third(Third<T>),
    Fourth(Fourth<T>),
    Fifth(Fifth<T>),
}

impl<T: Clone> Tree<T> {
    /// The tree of no entry, which takes no memory.
    pub(crate) fn empty(alloc: Global) -> Tree<T>
        ensures { items_of result ≡ [] }
    {
        Tree::Second(Node::empty(alloc))
    }

    /// How many entries it has.
    #[inline(always)]
    pub(crate) fn len(&self) -> u32
        ensures len { result ≡ length (items_of self.now) }
        ensures bound { result ≤ 2 ^ 30 }
    {
        match self {
            Tree::Second(page) => page.len(),
            Tree::Third(page) => page.len(),
            Tree::Fourth(page) => page.len(),
            Tree::Fifth(page) => page.len(),
        }
    }

    /// The entry at `k`.
    #[inline(always)]
    pub(crate) fn get(&self, k: u32) -> &T
        requires { k < length (items_of self.now) }
        ensures { result.now ≡ slice_index_or (items_of self.now) k result.now }
    {
        match self {
            Tree::Second(page) => page.get(k),
            Tree::Third(page) => page.get(k),
            Tree::Fourth(page) => page.get(k),
            Tree::Fifth(page) => page.get(k),
        }
    }

    /// Writes the entry at `k`.
    #[inline(always)]
    pub(crate) fn set(&mut self, k: u32, value: T) -> Result<(), AllocError>
        requires there { k < length (items_of self.old) }
        requires clones { (x y : T) → T.is_clone x y → y ≡ x }
        ensures ok { OnOk result (items_of self.new ≡ slice_set (items_of self.old) k value) }
        ensures err { OnErr result (items_of self.new ≡ items_of self.old) }
    {
        match self {
            Tree::Second(page) => page.set(k, value),
            Tree::Third(page) => page.set(k, value),
            Tree::Fourth(page) => page.set(k, value),
            Tree::Fifth(page) => page.set(k, value),
        }
    }

    // Whether the levels that it has take one entry more.
    fn has_room(&self) -> bool
        ensures { IsTrue result ↔ (length (items_of self.now) < room_of self.now) }
    {
        match self {
            Tree::Second(page) => page.len() < (1 << 12),
            Tree::Third(page) => page.len() < (1 << 18),
            Tree::Fourth(page) => page.len() < (1 << 24),
            Tree::Fifth(page) => page.len() < (1 << 30),
        }
    }

    // Adds an entry to pages that have room for it.
    fn add(&mut self, value: T) -> Result<(), AllocError>
        requires fits { length (items_of self.old) < room_of self.old }
        requires clones { (x y : T) → T.is_clone x y → y ≡ x }
        ensures ok { OnOk result (items_of self.new ≡ items_of self.old ++ value ∷ []) }
        ensures err { OnErr result (items_of self.new ≡ items_of self.old) }
    {
        match self {
            Tree::Second(page) => page.push(value),
            Tree::Third(page) => page.push(value),
            Tree::Fourth(page) => page.push(value),
            Tree::Fifth(page) => page.push(value),
        }
    }

    // This list, with a level more.
    fn raised(&self, alloc: Global) -> Result<Tree<T>, AllocError>
        requires full { room_of self.now ≤ length (items_of self.now) }
        requires fits { length (items_of self.now) < 2 ^ 30 }
        ensures { IfOk result (IsRaised self.now) }
    {
        match self {
            Tree::Second(page) => Ok(Tree::Third(Node::over(alloc, page.shared()?)?)),
            Tree::Third(page) => Ok(Tree::Fourth(Node::over(alloc, page.shared()?)?)),
            Tree::Fourth(page) => Ok(Tree::Fifth(Node::over(alloc, page.shared()?)?)),
            Tree::Fifth(_) => unreachable!(),
        }
    }

    /// Adds an entry at the end, with a level more where the pages are full.
    pub(crate) fn push(&mut self, alloc: Global, value: T) -> Result<(), AllocError>
        requires fits { length (items_of self.old) < 2 ^ 30 }
        requires clones { (x y : T) → T.is_clone x y → y ≡ x }
        ensures ok { OnOk result (items_of self.new ≡ items_of self.old ++ value ∷ []) }
        ensures err { OnErr result (items_of self.new ≡ items_of self.old) }
    {
        if self.has_room() {
            self.add(value)?;
            return Ok(());
        }
        let mut taller = self.raised(alloc)?;
        taller.add(value)?;
        *self = taller;
        Ok(())
    }

    /// Another version of the list, on its pages.
    pub(crate) fn shared(&self) -> Result<Tree<T>, AllocError>
        ensures { IfOk result (λ t. items_of t ≡ items_of self.now) }
    {
        match self {
            Tree::Second(page) => Ok(Tree::Second(page.shared()?)),
            Tree::Third(page) => Ok(Tree::Third(page.shared()?)),
            Tree::Fourth(page) => Ok(Tree::Fourth(page.shared()?)),
            Tree::Fifth(page) => Ok(Tree::Fifth(page.shared()?)),
        }
    }
}
