//! The lowest level: the entries themselves.

ghost use Rattle.std.specs.Prelude.{◌<◌, ◌≤◌, ◌^◌};

use crate::page::Page;
use std::alloc::{AllocError, Global};
use std::marker::Model;

/// A page of at most 64 entries.
#[derive(Drop)]
pub(crate) struct Leaf<T> {
    items: Vec<T>,
}

impl<T> Model for Leaf<T> {
    ghost use Rattle.std.specs.Prelude.{List, length, ◌≤◌};

    ghost Value = { List T };

    ghost view = { λ p. p.items.items };

    ghost invariant = { λ p. length p.items.items ≤ 64 };
}

impl<T: Clone> Page<T> for Leaf<T> {
    ghost list = { λ p. p };

    ghost room = { 64 };

    #[inline(always)]
    fn room() -> u32 {
        64
    }

    fn single(alloc: Global, value: T) -> Result<Leaf<T>, AllocError> {
        let mut items = Vec::with_capacity(alloc, 64)?;
        items.push(value)?;
        Ok(Leaf { items })
    }

    #[inline(always)]
    fn len(&self) -> u32 {
        self.items.len() as u32
    }

    #[inline(always)]
    fn get(&self, k: u32) -> &T {
        &self.items[k as usize]
    }

    #[inline(always)]
    fn set(&mut self, k: u32, value: T) -> Result<(), AllocError> {
        self.items[k as usize] = value;
        Ok(())
    }

    #[inline(always)]
    fn push(&mut self, value: T) -> Result<(), AllocError> {
        self.items.push(value)?;
        Ok(())
    }

    fn copy(&self) -> Result<Leaf<T>, AllocError> {
        Ok(Leaf {
            items: self.items.clone()?,
        })
    }

    ghost use Rattle.std.proofs.Common.{arith};

    ghost some_room = { Prim.omega arith };

    ghost few = { Prim.omega arith };
}
