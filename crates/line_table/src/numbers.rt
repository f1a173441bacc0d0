//! The numbers of the lines at one place.

ghost use Rattle.std.specs.Prelude.{◌≡◌, ◌∷◌, ◌++◌, [], IfOk, not, nat_eq, option_to_list, unwrap_or};
ghost use Rattle.std.specs.List.{filter, list_any};
ghost use Rattle.std.specs.Iterator.{YieldsFirstBy, item_count};
ghost use Rattle.line_table.specs.ByPlace.{without_number};

use ground_model::{LineId, Listed};
use page_vec::Shared;
use std::alloc::{AllocError, Global};
use std::marker::Model;

/// Numbers of lines, one at least, in order. Only those after the first take memory of their own.
#[derive(Drop)]
pub(crate) struct Numbers {
    least: u32,
    others: Option<Shared<Listed<u32>>>,
}

impl Model for Numbers {
    ghost use Rattle.std.specs.Prelude.{ℕ, List, [], ◌∷◌, unwrap_or};
    ghost use Rattle.std.specs.Coded.{coded_list, coded_ℕ};

    ghost Value = { List ℕ };

    ghost coded = { coded_list coded_ℕ };

    ghost view = { λ s. s.least ∷ unwrap_or s.others [] };
}

impl Numbers {
    /// One number. It takes no memory.
    pub(crate) fn one(number: u32) -> Numbers
        ensures { result ≡ number ∷ [] }
    {
        Numbers {
            least: number,
            others: None,
        }
    }

    /// Whether the number is among them.
    pub(crate) fn has(&self, number: u32) -> bool
        ensures { result ≡ list_any (nat_eq number) self.now }
    {
        number == self.least || is_among(number, others_of(&self.others))
    }

    /// The numbers with one more at the end, on a copy.
    pub(crate) fn with_last(&self, alloc: Global, number: u32) -> Result<Numbers, AllocError>
        ensures { IfOk result (λ more. more ≡ self.now ++ number ∷ []) }
    {
        let mut others = others_of(&self.others).to_vec(alloc)?;
        others.push(number)?;
        let others = packed(alloc, others)?;
        Ok(Numbers {
            least: self.least,
            others,
        })
    }

    /// The numbers but this one, on a copy. None where there is no other.
    pub(crate) fn without(&self, alloc: Global, number: u32) -> Result<Option<Numbers>, AllocError>
        ensures { IfOk result (λ rest. unwrap_or rest [] ≡ without_number number self.now) }
    {
        let others = kept(alloc, others_of(&self.others), number)?;
        if self.least == number {
            return numbers_of(alloc, others.as_slice());
        }
        let others = packed(alloc, others)?;
        Ok(Some(Numbers {
            least: self.least,
            others,
        }))
    }

    /// The numbers, one after the other. It takes no memory.
    pub(crate) fn iter(&self) -> LinesAt<'_>
        ensures { result ≡ self.now }
    {
        LinesAt {
            least: Some(self.least),
            others: others_of(&self.others),
        }
    }
}

impl Clone for Numbers {
    ghost is_clone = { λ x y. y ≡ x };

    fn clone(&self) -> Result<Numbers, AllocError> {
        let others = match &self.others {
            Some(list) => Some(list.clone()?),
            None => None,
        };
        Ok(Numbers {
            least: self.least,
            others,
        })
    }
}

fn others_of(others: &Option<Shared<Listed<u32>>>) -> &[u32]
    ensures { result.now ≡ unwrap_or others.now [] }
{
    match others {
        Some(list) => list.get().as_slice(),
        None => &[],
    }
}

fn is_among(number: u32, numbers: &[u32]) -> bool
    ensures { result ≡ list_any (nat_eq number) numbers.now }
{
    numbers.iter().any(|other| number == *other)
}

// The list behind a reference, unless it has no number.
fn packed(alloc: Global, numbers: Vec<u32>) -> Result<Option<Shared<Listed<u32>>>, AllocError>
    ensures { IfOk result (λ list. unwrap_or list [] ≡ numbers.items) }
{
    if numbers.is_empty() {
        return Ok(None);
    }
    Ok(Some(Shared::new(alloc, Listed::from_vec(numbers))?))
}

// The numbers of a list, if it has one.
fn numbers_of(alloc: Global, numbers: &[u32]) -> Result<Option<Numbers>, AllocError>
    ensures { IfOk result (λ list. unwrap_or list [] ≡ numbers.now) }
{
    let Some((least, others)) = numbers.split_first() else {
        return Ok(None);
    };
    let others = packed(alloc, others.to_vec(alloc)?)?;
    Ok(Some(Numbers {
        least: *least,
        others,
    }))
}

fn kept(alloc: Global, numbers: &[u32], number: u32) -> Result<Vec<u32>, AllocError>
    ensures { IfOk result (λ rest. rest.items ≡ without_number number numbers.now) }
{
    numbers
        .iter()
        .filter(|other| **other != number)
        .copied()
        .collect(alloc)
}

/// The numbers of the lines at a place that are left, in order.
#[derive(Drop)]
pub struct LinesAt<'a> {
    least: Option<u32>,
    others: &'a [u32],
}

impl<'a> Model for LinesAt<'a> {
    ghost use Rattle.std.specs.Prelude.{ℕ, List, ◌++◌, option_to_list};
    ghost use Rattle.std.specs.Coded.{coded_list, coded_ℕ};

    ghost Value = { List ℕ };

    ghost coded = { coded_list coded_ℕ };

    ghost view = { λ s. option_to_list s.least ++ s.others.now };
}

impl<'a> LinesAt<'a> {
    /// No line.
    pub(crate) fn none() -> LinesAt<'a>
        ensures { result ≡ [] }
    {
        LinesAt {
            least: None,
            others: &[],
        }
    }
}

impl<'a> Iterator for LinesAt<'a> {
    type Item = LineId;

    ghost next_gives = { YieldsFirstBy (λ id. id.0) (λ numbers. numbers) };

    ghost remaining = { item_count (λ numbers. numbers) };

    fn next(&mut self) -> Option<LineId> {
        if let Some(number) = self.least {
            self.least = None;
            return Some(LineId(number));
        }
        let (number, others) = self.others.split_first()?;
        self.others = others;
        Some(LineId(*number))
    }
}
