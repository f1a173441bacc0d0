//! What a level of pages is.

ghost use Rattle.std.specs.Prelude.{◌≡◌, ℕ, ◌<◌, ◌≤◌, ◌^◌, List, [], ◌∷◌, length, slice_get, option_copied, IsSome, IfOk, IfSome, OnOk, OnErr};
ghost use Rattle.page_index.specs.Pairs.{Pairs, first_key, from_on, put, value_of, without};
ghost use Rattle.page_index.specs.Parts.{AreHalves, IsFront};

use std::alloc::{AllocError, Global};

/// One level of an index: a map, on pages below that others may share. A change is made in place
/// where nobody shares the page, and else on a copy.
pub(crate) trait Level<V: Clone>: Drop {
    ghost pairs: { Self → Pairs V };

    /// The map of one key.
    fn single(alloc: Global, key: u64, value: V) -> Result<Self, AllocError>
        ensures { IfOk result (λ p. pairs p ≡ (key, value) ∷ []) };

    /// How many keys it has.
    fn len(&self) -> u32
        ensures len { result ≡ length (pairs self.now) }
        ensures bound { result ≤ 2 ^ 24 };

    /// Its least key.
    fn first(&self) -> u64
        requires { 0 < length (pairs self.now) }
        ensures { result ≡ first_key (pairs self.now) };

    /// The value of a key.
    fn get(&self, key: u64) -> Option<&V>
        ensures { option_copied result ≡ value_of key (pairs self.now) };

    /// The pairs of one leaf, from the least key not below `from` on.
    fn run(&self, from: u64) -> &[(u64, V)]
        ensures { IsFront result.now (from_on from (pairs self.now)) };

    /// The pair that has `k` keys below it.
    fn at(&self, k: u32) -> Option<&(u64, V)>
        ensures { option_copied result ≡ slice_get (pairs self.now) k };

    /// Gives the key that value.
    fn set(&mut self, key: u64, value: V) -> Result<(), AllocError>
        requires clones { (x y : V) → V.is_clone x y → y ≡ x }
        requires fits { length (put key value (pairs self.old)) ≤ 2 ^ 24 }
        ensures ok { OnOk result (pairs self.new ≡ put key value (pairs self.old)) }
        ensures err { OnErr result (pairs self.new ≡ pairs self.old) };

    /// Takes the key out.
    fn remove(&mut self, key: u64) -> Result<(), AllocError>
        requires clones { (x y : V) → V.is_clone x y → y ≡ x }
        requires there { IsSome (value_of key (pairs self.old)) }
        ensures ok { OnOk result (pairs self.new ≡ without key (pairs self.old)) }
        ensures err { OnErr result (pairs self.new ≡ pairs self.old) };

    /// Two pages in its place, where it is full.
    fn halves(&self) -> Result<Option<(Self, Self)>, AllocError>
        requires clones { (x y : V) → V.is_clone x y → y ≡ x }
        ensures { IfOk result (λ r. IfSome r (λ h. AreHalves (pairs h.0) (pairs h.1) (pairs self.now))) };

    /// A page with this map. The pages below it are shared.
    fn copy(&self) -> Result<Self, AllocError>
        requires clones { (x y : V) → V.is_clone x y → y ≡ x }
        ensures { IfOk result (λ p. pairs p ≡ pairs self.now) };
}
