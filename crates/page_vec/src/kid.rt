//! Changes of one page below a node.

ghost use Rattle.std.specs.Prelude.{◌≡◌, ◌<◌, [], ◌∷◌, ◌++◌, length, slice_set, OnOk, OnErr};
ghost use Rattle.std.specs.Arc.{arc_value};
ghost use Rattle.std.specs.Bool.{MatchBool};
ghost use Rattle.page_vec.specs.Packed.{IsOpen, IsClosed};

use crate::page::Page;
use std::alloc::{AllocError, Global};
use std::sync::Arc;

// Puts a copy where a page was that others share. A function of its own that takes no entry, so that
// a write in place keeps none ready for it.
#[cold]
#[inline(never)]
fn copy_kid<T: Clone, P: Page<T>>(alloc: Global, kid: &mut Arc<P>) -> Result<(), AllocError>
    requires clones { (x y : T) → T.is_clone x y → y ≡ x }
    ensures { P.list (arc_value kid.new) ≡ P.list (arc_value kid.old) }
{
    let page = kid.copy()?;
    *kid = Arc::new(alloc, page)?;
    Ok(())
}

// Makes a page its holder's alone, by a copy where others share it. Once that is done, no count can
// rise while the page is borrowed, so the changes below meet no `None`.
#[inline(always)]
fn own_kid<T: Clone, P: Page<T>>(alloc: Global, kid: &mut Arc<P>) -> Result<(), AllocError>
    requires clones { (x y : T) → T.is_clone x y → y ≡ x }
    ensures { P.list (arc_value kid.new) ≡ P.list (arc_value kid.old) }
{
    if Arc::strong_count(kid) > 1 {
        return copy_kid(alloc, kid);
    }
    Ok(())
}

/// Writes one entry of a page, on a copy where others share the page.
#[inline(always)]
pub(crate) fn write_kid<T: Clone, P: Page<T>>(
    alloc: Global,
    kid: &mut Arc<P>,
    k: u32,
    value: T,
) -> Result<(), AllocError>
    requires there { k < length (P.list (arc_value kid.old)) }
    requires clones { (x y : T) → T.is_clone x y → y ≡ x }
    ensures ok { OnOk result (P.list (arc_value kid.new) ≡ slice_set (P.list (arc_value kid.old)) k value) }
    ensures err { OnErr result (P.list (arc_value kid.new) ≡ P.list (arc_value kid.old)) }
{
    own_kid(alloc, kid)?;
    match Arc::get_mut(kid) {
        Some(page) => page.set(k, value),
        None => Err(AllocError),
    }
}

/// Adds one entry to a page, on a copy where others share the page.
#[inline(always)]
pub(crate) fn push_kid<T: Clone, P: Page<T>>(
    alloc: Global,
    kid: &mut Arc<P>,
    value: T,
) -> Result<(), AllocError>
    requires fits { length (P.list (arc_value kid.old)) < P.room }
    requires clones { (x y : T) → T.is_clone x y → y ≡ x }
    ensures ok { OnOk result (P.list (arc_value kid.new) ≡ P.list (arc_value kid.old) ++ value ∷ []) }
    ensures err { OnErr result (P.list (arc_value kid.new) ≡ P.list (arc_value kid.old)) }
{
    own_kid(alloc, kid)?;
    match Arc::get_mut(kid) {
        Some(page) => page.push(value),
        None => Err(AllocError),
    }
}

/// Whether the last page has room.
#[inline]
pub(crate) fn has_open_end<T: Clone, P: Page<T>>(kids: &Vec<Arc<P>>) -> bool
    ensures { MatchBool result (IsOpen (λ c. P.list (arc_value c)) P.room kids.now.items) (IsClosed (λ c. P.list (arc_value c)) P.room kids.now.items) }
{
    let count = kids.len();
    if count == 0 {
        return false;
    }
    kids[count - 1].len() < P::room()
}
