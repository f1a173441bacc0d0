//! A level over another.

ghost use Rattle.std.specs.Prelude.{◌≡◌, ℕ, ◌*◌, ◌<◌, ◌≤◌, ◌^◌, min, List, [], ◌∷◌, ◌++◌, length, slice_index_or, slice_set, IfOk, OnOk, OnErr};

use crate::kid::{has_open_end, push_kid, write_kid};
use crate::page::Page;
use std::alloc::{AllocError, Global};
use std::marker::{Model, PhantomData};
use std::sync::Arc;

/// A page of at most 64 pages of the level `P`, all full but the last.
#[derive(Drop)]
pub(crate) struct Node<T: Clone, P: Page<T>> {
    kids: Vec<Arc<P>>,
    len: u32,
    of: PhantomData<T>,
}

impl<T: Clone, P: Page<T>> Model for Node<T, P> {
    ghost use Rattle.std.specs.Prelude.{◌≡◌, ℕ, ◌*◌, ◌≤◌, ◌^◌, List, length, min};
    ghost use Rattle.std.specs.List.{flat_map};
    ghost use Rattle.std.specs.Arc.{arc_value};
    ghost use Rattle.page_vec.specs.Packed.{IsPacked};

    ghost Value = { List T };

    ghost view = { λ n. flat_map (λ c. P.list (arc_value c)) n.kids.items };

    ghost invariant = { λ n. IsPacked (λ c. P.list (arc_value c)) P.room n.kids.items × (n.len ≡ length (flat_map (λ c. P.list (arc_value c)) n.kids.items)) × (n.len ≤ min (64 * P.room) (2 ^ 30)) };
}

impl<T: Clone, P: Page<T>> Node<T, P> {
    /// A page with nothing below, which takes no memory.
    pub(crate) fn empty(alloc: Global) -> Node<T, P>
        ensures { result ≡ [] }
    {
        Node {
            kids: Vec::new(alloc),
            len: 0,
            of: PhantomData,
        }
    }

    /// The level over a page, with that page as the only one below.
    pub(crate) fn over(alloc: Global, page: P) -> Result<Node<T, P>, AllocError>
        requires { 0 < length (P.list page) }
        ensures same { IfOk result (λ n. n ≡ P.list page) }
        ensures bound { IfOk result (λ n. length n ≤ P.room) }
    {
        let len = page.len();
        let mut kids = Vec::with_capacity(alloc, 64)?;
        kids.push(Arc::new(alloc, page)?)?;
        Ok(Node {
            kids,
            len,
            of: PhantomData,
        })
    }

    /// Another version of the list, on its pages.
    pub(crate) fn shared(&self) -> Result<Node<T, P>, AllocError>
        ensures { IfOk result (λ n. n ≡ self.now) }
    {
        Ok(Node {
            kids: self.kids.clone()?,
            len: self.len,
            of: PhantomData,
        })
    }
}

impl<T: Clone, P: Page<T>> Page<T> for Node<T, P> {
    ghost list = { λ n. n };

    ghost room = { min (64 * P.room) (2 ^ 30) };

    // The levels in use have 64 times as many entries as those below. The bound keeps the product in its
    // type for a level of which nothing is known.
    #[inline(always)]
    fn room() -> u32 {
        64 * P::room().min(1 << 24)
    }

    fn single(alloc: Global, value: T) -> Result<Node<T, P>, AllocError> {
        Node::over(alloc, P::single(alloc, value)?)
    }

    #[inline(always)]
    fn len(&self) -> u32 {
        self.len
    }

    #[inline(always)]
    fn get(&self, k: u32) -> &T {
        let room = P::room();
        let kid = &self.kids[(k / room) as usize];
        kid.get(k % room)
    }

    #[inline(always)]
    fn set(&mut self, k: u32, value: T) -> Result<(), AllocError> {
        let alloc = *self.kids.allocator();
        let room = P::room();
        write_kid(alloc, &mut self.kids[(k / room) as usize], k % room, value)?;
        Ok(())
    }

    fn push(&mut self, value: T) -> Result<(), AllocError> {
        let alloc = *self.kids.allocator();
        let count = self.kids.len();
        if has_open_end(&self.kids) {
            push_kid(alloc, &mut self.kids[count - 1], value)?;
            self.len += 1;
            Ok(())
        } else {
            let kid = Arc::new(alloc, P::single(alloc, value)?)?;
            self.kids.push(kid)?;
            self.len += 1;
            Ok(())
        }
    }

    fn copy(&self) -> Result<Node<T, P>, AllocError> {
        self.shared()
    }

    ghost use Rattle.std.proofs.Common.{arith};

    ghost some_room = { Prim.omega arith };

    ghost few = { Prim.omega arith };
}
