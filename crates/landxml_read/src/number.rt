//! Words that are numbers.

ghost use Rattle.std.specs.Prelude.{◌≡◌, None};
ghost use Rattle.landxml_read.specs.Numbers.{decimal_of, number_cause, value_or_zero};

use crate::fault::DocCause;
use ground_num::{NumFault, Thousandths, read_decimal};

/// Why the word is no number of a document.
pub(crate) fn cause_of_number(word: &[u8]) -> Option<DocCause>
    ensures { result ≡ number_cause word.now }
{
    match read_decimal(word) {
        Ok(_) => None,
        Err(NumFault::NotNumber { .. }) => Some(DocCause::Number),
        Err(NumFault::TooBig) => Some(DocCause::Big),
    }
}

/// The number that the word spells, where nothing speaks against it.
pub(crate) fn number_of(word: &[u8]) -> Thousandths
    requires { number_cause word.now ≡ None }
    ensures { result.0 ≡ value_or_zero (decimal_of word.now) }
{
    match read_decimal(word) {
        Ok(number) => number,
        Err(NumFault::NotNumber { .. }) => unreachable!(),
        Err(NumFault::TooBig) => unreachable!(),
    }
}
