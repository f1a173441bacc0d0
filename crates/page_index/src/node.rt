//! A level over another.

ghost use Rattle.std.specs.Prelude.{◌≡◌, ◌+◌, ◌<◌, ◌≤◌, ◌^◌, [], ◌∷◌, length, get_or, IsSome, IfOk, OnOk, OnErr};
ghost use Rattle.page_index.specs.Pairs.{IsInOrder, Pairs, put, value_of, without};
ghost use Rattle.page_index.specs.Parts.{AreHalves, IsPlaceOf, joined};

use crate::kid::Kid;
use crate::level::Level;
use std::alloc::{AllocError, Global};
use std::marker::{Model, PhantomData};

// How many pages a node may have below it before it is halved: few, since a change on a shared version
// copies a reference to each. The page at the top may have more.
const ROOM: usize = 16;

/// The pages of a part of the index, in order, none of them empty.
#[derive(Drop)]
pub(crate) struct Node<V: Clone, P: Level<V>> {
    kids: Vec<Kid<V, P>>,
    len: u32,
    of: PhantomData<V>,
}

impl<V: Clone, P: Level<V>> Model for Node<V, P> {
    ghost use Rattle.std.specs.Prelude.{◌≡◌, ◌≤◌, ◌^◌, length};
    ghost use Rattle.page_index.specs.Pairs.{Pairs, IsInOrder};
    ghost use Rattle.page_index.specs.Parts.{joined};

    ghost Value = { Pairs V };

    ghost view = { λ n. joined n.kids.items };

    ghost invariant = { λ n. IsInOrder (joined n.kids.items) × (n.len ≡ length (joined n.kids.items)) × (n.len ≤ 2 ^ 24) };
}

// The only page that the key can be on, by halving.
fn place_of<V: Clone, P: Level<V>>(kids: &Vec<Kid<V, P>>, key: u64) -> usize
    requires { 0 < length kids.now.items }
    ensures { IsPlaceOf key result kids.now.items }
{
    let mut low = 0;
    let mut high = kids.len();
    while high - low > 1 {
        let middle = low + (high - low) / 2;
        if kids[middle].first() <= key {
            low = middle;
        } else {
            high = middle;
        }
    }
    low
}

impl<V: Clone, P: Level<V>> Node<V, P> {
    // Gives a key that value, on a page that is there.
    fn write(&mut self, key: u64, value: V) -> Result<(), AllocError>
        requires clones { (x y : V) → V.is_clone x y → y ≡ x }
        requires some { 0 < length self.old }
        requires fits { length (put key value self.old) ≤ 2 ^ 24 }
        ensures ok { OnOk result (self.new ≡ put key value self.old) }
        ensures err { OnErr result (self.new ≡ self.old) }
    {
        let alloc = *self.kids.allocator();
        let k = place_of(&self.kids, key);
        let kid = &mut self.kids[k];
        let others = self.len - kid.count();
        kid.set(alloc, key, value)?;
        self.len = others + kid.count();
        Ok(())
    }
}

// How many keys the pages have.
fn count_of<V: Clone, P: Level<V>>(kids: &Vec<Kid<V, P>>) -> u32
    requires { length (joined kids.now.items) ≤ 2 ^ 24 }
    ensures count { result ≡ length (joined kids.now.items) }
    ensures some { length kids.now.items ≤ result }
{
    let mut total = 0;
    for kid in kids {
        total += kid.count();
    }
    total
}

// Puts two pages in the place of one.
fn replace<V: Clone, P: Level<V>>(
    kids: &mut Vec<Kid<V, P>>,
    k: usize,
    lower: Kid<V, P>,
    upper: Kid<V, P>,
) -> Result<(), AllocError>
    requires there { k < length kids.old.items }
    requires halves { (d : Pairs V) → AreHalves lower upper (get_or kids.old.items k d) }
    ensures { joined kids.new.items ≡ joined kids.old.items }
{
    kids.insert(k + 1, upper)?;
    kids[k] = lower;
    Ok(())
}

impl<V: Clone, P: Level<V>> Node<V, P> {
    // A node over some of the pages.
    fn over(alloc: Global, pages: &[Kid<V, P>]) -> Result<Node<V, P>, AllocError>
        requires order { IsInOrder (joined pages.now) }
        requires bound { length (joined pages.now) ≤ 2 ^ 24 }
        ensures same { IfOk result (λ n. n ≡ joined pages.now) }
        ensures some { IfOk result (λ n. length pages.now ≤ length n) }
    {
        let mut kids = Vec::with_capacity(alloc, ROOM)?;
        kids.extend_with_clones(pages)?;
        let len = count_of(&kids);
        Ok(Node {
            kids,
            len,
            of: PhantomData,
        })
    }

    // Halves the page that a key goes to, where it is full.
    fn make_room(&mut self, key: u64) -> Result<(), AllocError>
        requires clones { (x y : V) → V.is_clone x y → y ≡ x }
        requires some { 0 < length self.old }
        ensures { self.new ≡ self.old }
    {
        let alloc = *self.kids.allocator();
        let k = place_of(&self.kids, key);
        if let Some((lower, upper)) = self.kids[k].page().halves()? {
            let lower = Kid::over(alloc, lower)?;
            let upper = Kid::over(alloc, upper)?;
            replace(&mut self.kids, k, lower, upper)?;
        }
        Ok(())
    }

    // Takes out a key, on a page that is there.
    fn take_out(&mut self, key: u64) -> Result<(), AllocError>
        requires clones { (x y : V) → V.is_clone x y → y ≡ x }
        requires there { IsSome (value_of key self.old) }
        ensures ok { OnOk result (self.new ≡ without key self.old) }
        ensures err { OnErr result (self.new ≡ self.old) }
    {
        let alloc = *self.kids.allocator();
        let k = place_of(&self.kids, key);
        let count = self.kids[k].count();
        let others = self.len - count;
        if count == 1 {
            self.kids.remove(k);
            self.len = others;
            return Ok(());
        }
        let kid = &mut self.kids[k];
        kid.remove(alloc, key)?;
        self.len = others + kid.count();
        Ok(())
    }
}

impl<V: Clone, P: Level<V>> Level<V> for Node<V, P> {
    ghost pairs = { λ n. n };

    fn single(alloc: Global, key: u64, value: V) -> Result<Node<V, P>, AllocError> {
        let mut kids = Vec::with_capacity(alloc, ROOM)?;
        kids.push(Kid::single(alloc, key, value)?)?;
        Ok(Node {
            kids,
            len: 1,
            of: PhantomData,
        })
    }

    #[inline(always)]
    fn len(&self) -> u32 {
        self.len
    }

    #[inline(always)]
    fn first(&self) -> u64 {
        self.kids[0].first()
    }

    fn get(&self, key: u64) -> Option<&V> {
        if self.kids.is_empty() {
            return None;
        }
        let k = place_of(&self.kids, key);
        self.kids[k].page().get(key)
    }

    fn run(&self, from: u64) -> &[(u64, V)] {
        if self.kids.is_empty() {
            return &[];
        }
        let k = place_of(&self.kids, from);
        let found = self.kids[k].page().run(from);
        if !found.is_empty() {
            return found;
        }
        if k + 1 == self.kids.len() {
            return found;
        }
        self.kids[k + 1].page().run(from)
    }

    fn at(&self, k: u32) -> Option<&(u64, V)> {
        let mut rest = k;
        for kid in &self.kids {
            let count = kid.count();
            if rest < count {
                return kid.page().at(rest);
            }
            rest -= count;
        }
        None
    }

    fn set(&mut self, key: u64, value: V) -> Result<(), AllocError> {
        if self.len == 0 {
            let alloc = *self.kids.allocator();
            let kid = Kid::single(alloc, key, value)?;
            self.kids.push(kid)?;
            self.len = 1;
            return Ok(());
        }
        self.make_room(key)?;
        self.write(key, value)
    }

    fn remove(&mut self, key: u64) -> Result<(), AllocError> {
        self.take_out(key)
    }

    fn halves(&self) -> Result<Option<(Node<V, P>, Node<V, P>)>, AllocError> {
        if self.kids.len() < ROOM {
            return Ok(None);
        }
        let alloc = *self.kids.allocator();
        let half = self.kids.len() / 2;
        let lower = Node::over(alloc, &self.kids[..half])?;
        let upper = Node::over(alloc, &self.kids[half..])?;
        Ok(Some((lower, upper)))
    }

    fn copy(&self) -> Result<Node<V, P>, AllocError> {
        Node::over(*self.kids.allocator(), &self.kids)
    }
}
