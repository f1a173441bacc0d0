//! The lowest level: the pairs themselves.

ghost use Rattle.std.specs.Prelude.{◌≡◌, ◌<◌, ◌≤◌, ◌^◌, length, IfOk};
ghost use Rattle.page_index.specs.Pairs.{IsInOrder};

use crate::level::Level;
use crate::search::{find, rank};
use std::alloc::{AllocError, Global};
use std::marker::Model;

// How many pairs a leaf has room for. A leaf that has as many is halved.
const ROOM: usize = 64;

/// The pairs of a part of the index, in order.
#[derive(Drop)]
pub(crate) struct Leaf<V> {
    items: Vec<(u64, V)>,
}

impl<V> Model for Leaf<V> {
    ghost use Rattle.std.specs.Prelude.{length, ◌≤◌, ◌^◌};
    ghost use Rattle.page_index.specs.Pairs.{Pairs, IsInOrder};

    ghost Value = { Pairs V };

    ghost view = { λ p. p.items.items };

    ghost invariant = { λ p. IsInOrder p.items.items × (length p.items.items ≤ 2 ^ 24) };
}

impl<V: Clone> Leaf<V> {
    // A leaf of some of the pairs.
    fn of(alloc: Global, pairs: &[(u64, V)]) -> Result<Leaf<V>, AllocError>
        requires clones { (x y : V) → V.is_clone x y → y ≡ x }
        requires order { IsInOrder pairs.now }
        requires bound { length pairs.now ≤ 2 ^ 24 }
        ensures { IfOk result (λ p. p ≡ pairs.now) }
    {
        let mut items = Vec::with_capacity(alloc, ROOM)?;
        items.extend_with_clones(pairs)?;
        Ok(Leaf { items })
    }
}

impl<V: Clone> Level<V> for Leaf<V> {
    ghost pairs = { λ p. p };

    fn single(alloc: Global, key: u64, value: V) -> Result<Leaf<V>, AllocError> {
        let mut items = Vec::with_capacity(alloc, ROOM)?;
        items.push((key, value))?;
        Ok(Leaf { items })
    }

    #[inline(always)]
    fn len(&self) -> u32 {
        self.items.len() as u32
    }

    #[inline(always)]
    fn first(&self) -> u64 {
        self.items[0].0
    }

    fn get(&self, key: u64) -> Option<&V> {
        match find(&self.items, key) {
            Ok(k) => Some(&self.items[k].1),
            Err(_) => None,
        }
    }

    fn run(&self, from: u64) -> &[(u64, V)] {
        let k = rank(&self.items, from);
        &self.items[k..]
    }

    #[inline(always)]
    fn at(&self, k: u32) -> Option<&(u64, V)> {
        self.items.get(k as usize)
    }

    fn set(&mut self, key: u64, value: V) -> Result<(), AllocError> {
        match find(&self.items, key) {
            Ok(k) => {
                self.items[k] = (key, value);
                Ok(())
            }
            Err(k) => Ok(self.items.insert(k, (key, value))?),
        }
    }

    fn remove(&mut self, key: u64) -> Result<(), AllocError> {
        match find(&self.items, key) {
            Ok(k) => {
                self.items.remove(k);
                Ok(())
            }
            Err(_) => Ok(()),
        }
    }

    fn halves(&self) -> Result<Option<(Leaf<V>, Leaf<V>)>, AllocError> {
        if self.items.len() < ROOM {
            return Ok(None);
        }
        let alloc = *self.items.allocator();
        let half = self.items.len() / 2;
        let lower = Leaf::of(alloc, &self.items[..half])?;
        let upper = Leaf::of(alloc, &self.items[half..])?;
        Ok(Some((lower, upper)))
    }

    fn copy(&self) -> Result<Leaf<V>, AllocError> {
        Leaf::of(*self.items.allocator(), &self.items)
    }
}
