//! An index of lines by their places.

ghost use Rattle.std.specs.Prelude.{◌≡◌, IfOk, OnOk};
ghost use Rattle.std.specs.List.{list_any};
ghost use Rattle.ground_model.specs.Place.{IsPlace, is_same};
ghost use Rattle.ground_model.specs.Height.{code};
ghost use Rattle.line_table.specs.ByPlace.{IsChangedAt, numbers_at, with_number, without_number};

use crate::numbers::{LinesAt, Numbers};
use ground_model::Place;
use page_index::PageIndex;
use std::alloc::{AllocError, Global};

// How many places an index has room for.
const ROOM: u32 = 16_777_216;

// How many northings an easting is worth in a key.
const GAP: i64 = 2_147_483_648;

// The key of a place: the lesser place has the lesser key.
fn key_of(place: Place) -> u64
    ensures key { result ≡ code place }
    ensures within { IsPlace place }
{
    let e = place.e() as i64 + Place::LIMIT as i64;
    let n = place.n() as i64 + Place::LIMIT as i64;
    (e * GAP + n + 1).unsigned_abs()
}

/// The numbers of the lines at the place, in order. It takes no memory.
pub(crate) fn lines_at(index: &PageIndex<Numbers>, place: Place) -> LinesAt<'_>
    ensures numbers { result ≡ numbers_at place index.now }
    ensures within { IsPlace place }
{
    match index.get(key_of(place)) {
        Some(numbers) => numbers.iter(),
        None => LinesAt::none(),
    }
}

// Puts a number at a place, once.
fn put_at(
    index: &mut PageIndex<Numbers>,
    alloc: Global,
    place: Place,
    number: u32,
) -> Result<(), AllocError>
    ensures { OnOk result (IsChangedAt (λ p. is_same p place) (with_number number) index.old index.new) }
{
    let key = key_of(place);
    match index.get(key) {
        Some(numbers) => {
            if numbers.has(number) {
                return Ok(());
            }
            let more = numbers.with_last(alloc, number)?;
            index.set(key, more)?;
            Ok(())
        }
        None => {
            if index.len() == ROOM {
                return Err(AllocError);
            }
            index.set(key, Numbers::one(number))?;
            Ok(())
        }
    }
}

// Takes a number away from a place.
fn take_at(
    index: &mut PageIndex<Numbers>,
    alloc: Global,
    place: Place,
    number: u32,
) -> Result<(), AllocError>
    ensures { OnOk result (IsChangedAt (λ p. is_same p place) (without_number number) index.old index.new) }
{
    let key = key_of(place);
    match index.get(key) {
        Some(numbers) => {
            let others = numbers.without(alloc, number)?;
            match others {
                Some(rest) => {
                    index.set(key, rest)?;
                    Ok(())
                }
                None => {
                    index.remove(key)?;
                    Ok(())
                }
            }
        }
        None => Ok(()),
    }
}

/// Another version of the index, with the number at these places.
pub(crate) fn with_line(
    index: &PageIndex<Numbers>,
    alloc: Global,
    places: &[Place],
    number: u32,
) -> Result<PageIndex<Numbers>, AllocError>
    ensures { IfOk result (λ more. IsChangedAt (λ p. list_any (is_same p) places.now) (with_number number) index.now more) }
{
    let mut more = index.share()?;
    for place in places {
        put_at(&mut more, alloc, *place, number)?;
    }
    Ok(more)
}

/// Another version of the index, without the number at these places.
pub(crate) fn without_line(
    index: &PageIndex<Numbers>,
    alloc: Global,
    places: &[Place],
    number: u32,
) -> Result<PageIndex<Numbers>, AllocError>
    ensures { IfOk result (λ rest. IsChangedAt (λ p. list_any (is_same p) places.now) (without_number number) index.now rest) }
{
    let mut rest = index.share()?;
    for place in places {
        take_at(&mut rest, alloc, *place, number)?;
    }
    Ok(rest)
}
