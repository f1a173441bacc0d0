//! A page below a node, behind a reference of its own.

ghost use Rattle.std.specs.Prelude.{◌≡◌, ◌<◌, ◌≤◌, ◌^◌, [], ◌∷◌, length, IsSome, IfOk, OnOk, OnErr};
ghost use Rattle.std.specs.Arc.{arc_value};
ghost use Rattle.page_index.specs.Pairs.{first_key, put, value_of, without};

use crate::level::Level;
use std::alloc::{AllocError, Global};
use std::marker::{Model, PhantomData};
use std::sync::Arc;

// Makes a page its holder's alone, by a copy where others share it. Once that is done, no count can
// rise while the page is borrowed, so the changes below meet no `None`.
fn own_page<V: Clone, P: Level<V>>(alloc: Global, page: &mut Arc<P>) -> Result<(), AllocError>
    requires clones { (x y : V) → V.is_clone x y → y ≡ x }
    ensures { P.pairs (arc_value page.new) ≡ P.pairs (arc_value page.old) }
{
    if Arc::strong_count(page) > 1 {
        let copy = page.copy()?;
        *page = Arc::new(alloc, copy)?;
    }
    Ok(())
}

fn set_in<V: Clone, P: Level<V>>(
    alloc: Global,
    page: &mut Arc<P>,
    key: u64,
    value: V,
) -> Result<(), AllocError>
    requires clones { (x y : V) → V.is_clone x y → y ≡ x }
    requires fits { length (put key value (P.pairs (arc_value page.old))) ≤ 2 ^ 24 }
    ensures ok { OnOk result (P.pairs (arc_value page.new) ≡ put key value (P.pairs (arc_value page.old))) }
    ensures err { OnErr result (P.pairs (arc_value page.new) ≡ P.pairs (arc_value page.old)) }
{
    own_page(alloc, page)?;
    match Arc::get_mut(page) {
        Some(page) => page.set(key, value),
        None => Err(AllocError),
    }
}

fn remove_in<V: Clone, P: Level<V>>(
    alloc: Global,
    page: &mut Arc<P>,
    key: u64,
) -> Result<(), AllocError>
    requires clones { (x y : V) → V.is_clone x y → y ≡ x }
    requires there { IsSome (value_of key (P.pairs (arc_value page.old))) }
    ensures ok { OnOk result (P.pairs (arc_value page.new) ≡ without key (P.pairs (arc_value page.old))) }
    ensures err { OnErr result (P.pairs (arc_value page.new) ≡ P.pairs (arc_value page.old)) }
{
    own_page(alloc, page)?;
    match Arc::get_mut(page) {
        Some(page) => page.remove(key),
        None => Err(AllocError),
    }
}

/// A page that has a key at least, with its least key and the number of its keys beside the reference.
#[derive(Drop)]
pub(crate) struct Kid<V: Clone, P: Level<V>> {
    first: u64,
    count: u32,
    page: Arc<P>,
    of: PhantomData<V>,
}

impl<V: Clone, P: Level<V>> Model for Kid<V, P> {
    ghost use Rattle.std.specs.Prelude.{◌≡◌, ◌<◌, ◌≤◌, ◌^◌, length};
    ghost use Rattle.std.specs.Arc.{arc_value};
    ghost use Rattle.page_index.specs.Pairs.{Pairs, first_key};

    ghost Value = { Pairs V };

    ghost view = { λ k. P.pairs (arc_value k.page) };

    ghost invariant = { λ k. (0 < k.count) × (k.first ≡ first_key (P.pairs (arc_value k.page))) × (k.count ≡ length (P.pairs (arc_value k.page))) × (k.count ≤ 2 ^ 24) };
}

impl<V: Clone, P: Level<V>> Kid<V, P> {
    /// Puts a page behind a reference.
    pub(crate) fn over(alloc: Global, page: P) -> Result<Kid<V, P>, AllocError>
        requires { 0 < length (P.pairs page) }
        ensures { IfOk result (λ k. k ≡ P.pairs page) }
    {
        let first = page.first();
        let count = page.len();
        Ok(Kid {
            first,
            count,
            page: Arc::new(alloc, page)?,
            of: PhantomData,
        })
    }

    /// A page of one key.
    pub(crate) fn single(alloc: Global, key: u64, value: V) -> Result<Kid<V, P>, AllocError>
        ensures { IfOk result (λ k. k ≡ (key, value) ∷ []) }
    {
        Kid::over(alloc, P::single(alloc, key, value)?)
    }

    /// The least key of the page.
    #[inline(always)]
    pub(crate) fn first(&self) -> u64
        ensures first { result ≡ first_key self.now }
        ensures some { 0 < length self.now }
    {
        self.first
    }

    /// How many keys the page has.
    #[inline(always)]
    pub(crate) fn count(&self) -> u32
        ensures count { result ≡ length self.now }
        ensures some { 0 < result }
        ensures bound { result ≤ 2 ^ 24 }
    {
        self.count
    }

    /// The page.
    #[inline(always)]
    pub(crate) fn page(&self) -> &P
        ensures { P.pairs result.now ≡ self.now }
    {
        &self.page
    }

    /// Gives the key that value.
    pub(crate) fn set(&mut self, alloc: Global, key: u64, value: V) -> Result<(), AllocError>
        requires clones { (x y : V) → V.is_clone x y → y ≡ x }
        requires fits { length (put key value self.old) ≤ 2 ^ 24 }
        ensures ok { OnOk result (self.new ≡ put key value self.old) }
        ensures err { OnErr result (self.new ≡ self.old) }
    {
        set_in(alloc, &mut self.page, key, value)?;
        self.first = self.page.first();
        self.count = self.page.len();
        Ok(())
    }

    /// Takes out a key that isn't the only one.
    pub(crate) fn remove(&mut self, alloc: Global, key: u64) -> Result<(), AllocError>
        requires clones { (x y : V) → V.is_clone x y → y ≡ x }
        requires there { IsSome (value_of key self.old) }
        requires more { 0 < length (without key self.old) }
        ensures ok { OnOk result (self.new ≡ without key self.old) }
        ensures err { OnErr result (self.new ≡ self.old) }
    {
        remove_in(alloc, &mut self.page, key)?;
        self.first = self.page.first();
        self.count = self.page.len();
        Ok(())
    }
}

impl<V: Clone, P: Level<V>> Clone for Kid<V, P> {
    ghost is_clone = { λ x y. y ≡ x };

    fn clone(&self) -> Result<Kid<V, P>, AllocError> {
        Ok(Kid {
            first: self.first,
            count: self.count,
            page: Arc::try_clone(&self.page)?,
            of: PhantomData,
        })
    }
}
