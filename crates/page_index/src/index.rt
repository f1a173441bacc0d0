//! The persistent ordered index.

ghost use Rattle.std.specs.Prelude.{◌≡◌, ◌<◌, ◌≤◌, ◌^◌, ◌⊎◌, [], length, slice_get, option_copied, IsSome, None, IsOk, IfOk, OnOk, OnErr};
ghost use Rattle.page_index.specs.Pairs.{from_on, put, value_of, without, IsInOrder};
ghost use Rattle.page_index.specs.Parts.{IsFront};

use crate::kid::Kid;
use crate::leaf::Leaf;
use crate::level::Level;
use crate::node::Node;
use std::alloc::{AllocError, Global};
use std::marker::Model;

type Second<V> = Node<V, Leaf<V>>;

type Third<V> = Node<V, Second<V>>;

type Fourth<V> = Node<V, Third<V>>;

type Fifth<V> = Node<V, Fourth<V>>;

type Sixth<V> = Node<V, Fifth<V>>;

/// A persistent ordered map of at most 2^24 keys: pairs on pages behind `Arc`, which versions of it
/// share. A version costs one reference, and a change of it copies only the pages on the way to the
/// key that somebody else still holds; no change is seen in another version.
#[derive(Drop)]
pub struct PageIndex<V: Clone> {
    alloc: Global,
    top: Option<Kid<V, Sixth<V>>>,
}

impl<V: Clone> Model for PageIndex<V> {
    ghost use Rattle.std.specs.Prelude.{◌≤◌, ◌^◌, length};
    ghost use Rattle.page_index.specs.Pairs.{Pairs, IsInOrder};
    ghost use Rattle.page_index.specs.Parts.{held};

    ghost Value = { Pairs V };

    ghost view = { λ x. held x.top };

    ghost invariant = { λ x. IsInOrder (held x.top) × (length (held x.top) ≤ 2 ^ 24) };
}

impl<V: Clone> PageIndex<V> {
    /// The map of no key. It takes no memory.
    pub fn empty(alloc: Global) -> PageIndex<V>
        ensures empty { result ≡ [] }
    {
        PageIndex { alloc, top: None }
    }

    /// How many keys it has.
    pub fn len(&self) -> u32
        ensures len { result ≡ length self.now }
        ensures bound { result ≤ 2 ^ 24 }
        ensures order { IsInOrder self.now }
    {
        match &self.top {
            Some(kid) => kid.count(),
            None => 0,
        }
    }

    /// The value of a key. It takes no memory.
    pub fn get(&self, key: u64) -> Option<&V>
        ensures value { option_copied result ≡ value_of key self.now }
    {
        match &self.top {
            Some(kid) => kid.page().get(key),
            None => None,
        }
    }

    /// The pairs of one leaf, from the least key not below `from` on: none where there is no such
    /// key. A walk goes on behind the last of them. It takes no memory.
    pub fn run(&self, from: u64) -> &[(u64, V)]
        ensures front { IsFront result.now (from_on from self.now) }
    {
        match &self.top {
            Some(kid) => kid.page().run(from),
            None => &[],
        }
    }

    /// The pair of the least key not below `from`. It takes no memory.
    pub fn next(&self, from: u64) -> Option<&(u64, V)>
        ensures next { option_copied result ≡ slice_get (from_on from self.now) 0 }
    {
        self.run(from).first()
    }

    /// The pair that has `k` keys below it. It takes no memory.
    pub fn at(&self, k: u32) -> Option<&(u64, V)>
        ensures pair { option_copied result ≡ slice_get self.now k }
    {
        match &self.top {
            Some(kid) => kid.page().at(k),
            None => None,
        }
    }

    /// Gives the key that value, in place on pages that nobody shares, and on copies of the others.
    pub fn set(&mut self, key: u64, value: V) -> Result<(), AllocError>
        requires clones { (x y : V) → V.is_clone x y → y ≡ x }
        requires room { (length self.old < 2 ^ 24) ⊎ IsSome (value_of key self.old) }
        ensures ok { OnOk result (self.new ≡ put key value self.old) }
        ensures err { OnErr result (self.new ≡ self.old) }
    {
        match &mut self.top {
            Some(kid) => {
                kid.set(self.alloc, key, value)?;
                Ok(())
            }
            None => {
                self.top = Some(Kid::single(self.alloc, key, value)?);
                Ok(())
            }
        }
    }

    // Takes out a key that is there.
    fn take_out(&mut self, key: u64) -> Result<(), AllocError>
        requires clones { (x y : V) → V.is_clone x y → y ≡ x }
        requires there { IsSome (value_of key self.old) }
        ensures ok { OnOk result (self.new ≡ without key self.old) }
        ensures err { OnErr result (self.new ≡ self.old) }
    {
        let count = self.len();
        if count == 1 {
            self.top = None;
            return Ok(());
        }
        match &mut self.top {
            Some(kid) => {
                kid.remove(self.alloc, key)?;
                Ok(())
            }
            None => Ok(()),
        }
    }

    /// Takes out the key, and gives a clone of the value that it had. A key that isn't there takes no
    /// memory.
    pub fn remove(&mut self, key: u64) -> Result<Option<V>, AllocError>
        requires clones { (x y : V) → V.is_clone x y → y ≡ x }
        ensures value { IfOk result (λ value. value ≡ value_of key self.old) }
        ensures ok { OnOk result (self.new ≡ without key self.old) }
        ensures err { OnErr result (self.new ≡ self.old) }
        ensures absent { value_of key self.old ≡ None → IsOk result }
    {
        // Only the proof reads it: the keys are in order.
        let _count = self.len();
        match self.get(key) {
            Some(value) => {
                let value = value.clone()?;
                self.take_out(key)?;
                Ok(Some(value))
            }
            None => Ok(None),
        }
    }

    /// Another version of the map, on its pages.
    pub fn share(&self) -> Result<PageIndex<V>, AllocError>
        ensures same { IfOk result (λ x. x ≡ self.now) }
    {
        match &self.top {
            Some(kid) => Ok(PageIndex {
                alloc: self.alloc,
                top: Some(kid.clone()?),
            }),
            None => Ok(PageIndex::empty(self.alloc)),
        }
    }
}
