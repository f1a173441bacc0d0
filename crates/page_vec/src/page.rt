//! What a level of pages is.

ghost use Rattle.std.specs.Prelude.{◌≡◌, ℕ, ◌<◌, ◌≤◌, ◌^◌, List, [], ◌∷◌, ◌++◌, length, slice_index_or, slice_set, IfOk, OnOk, OnErr};

use std::alloc::{AllocError, Global};

/// One level of a persistent vector: a list of at most `room` entries, on pages below that others
/// may share. A change is made in place where nobody shares the page, and else on a copy.
pub(crate) trait Page<T: Clone>: Drop {
    ghost list: { Self → List T };

    ghost room: { ℕ };

    /// How many entries a full page of this level has.
    fn room() -> u32
        ensures { result ≡ room };

    /// A page of one entry.
    fn single(alloc: Global, value: T) -> Result<Self, AllocError>
        ensures { IfOk result (λ p. list p ≡ value ∷ []) };

    /// How many entries it has.
    fn len(&self) -> u32
        ensures len { result ≡ length (list self.now) }
        ensures bound { result ≤ room };

    /// The entry at `k`.
    fn get(&self, k: u32) -> &T
        requires { k < length (list self.now) }
        ensures { result.now ≡ slice_index_or (list self.now) k result.now };

    /// Writes the entry at `k`.
    fn set(&mut self, k: u32, value: T) -> Result<(), AllocError>
        requires there { k < length (list self.old) }
        requires clones { (x y : T) → T.is_clone x y → y ≡ x }
        ensures ok { OnOk result (list self.new ≡ slice_set (list self.old) k value) }
        ensures err { OnErr result (list self.new ≡ list self.old) };

    /// Adds an entry at the end.
    fn push(&mut self, value: T) -> Result<(), AllocError>
        requires fits { length (list self.old) < room }
        requires clones { (x y : T) → T.is_clone x y → y ≡ x }
        ensures ok { OnOk result (list self.new ≡ list self.old ++ value ∷ []) }
        ensures err { OnErr result (list self.new ≡ list self.old) };

    /// A page with this list. Of its entries a leaf alone is copied; the pages below it are shared.
    fn copy(&self) -> Result<Self, AllocError>
        requires clones { (x y : T) → T.is_clone x y → y ≡ x }
        ensures { IfOk result (λ p. list p ≡ list self.now) };

    ghost some_room: { 0 < room };

    ghost few: { room ≤ 2 ^ 30 };
}
