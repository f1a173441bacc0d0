//! The values of the attribute that is read of a tag.

ghost use Rattle.std.specs.Prelude.{◌≡◌};
ghost use Rattle.landxml_read.specs.Events.{no_values, with_value};
ghost use Rattle.landxml_read.specs.Faults.{is_long};

use crate::buffer::Buffer;

/// The longest value of a read attribute, decoded, in bytes. Words and names of elements are no longer either.
pub(crate) const LONGEST: usize = 255;

/// What the values of the read attribute of a tag come to.
#[derive(Drop)]
pub(crate) struct Values {
    pub(crate) is_there: bool,
    pub(crate) is_twice: bool,
    /// One has more than 255 bytes.
    pub(crate) is_long: bool,
    /// One has a reference that isn't listed.
    pub(crate) is_unlisted: bool,
    /// The first one, decoded.
    pub(crate) first: Option<Buffer>,
}

// Whether the value has more than 255 bytes.
fn is_long_value(text: &Option<Buffer>) -> bool
    ensures { result ≡ is_long text.now }
{
    match text {
        Some(text) => text.len() > LONGEST,
        None => false,
    }
}

impl Values {
    /// Of no value.
    pub(crate) fn none() -> Values
        ensures { result ≡ no_values }
    {
        Values {
            is_there: false,
            is_twice: false,
            is_long: false,
            is_unlisted: false,
            first: None,
        }
    }

    /// One more value, decoded where its references are listed.
    pub(crate) fn add(&mut self, text: Option<Buffer>)
        ensures { self.new ≡ with_value self.old text }
    {
        self.is_twice = self.is_twice || self.is_there;
        self.is_long = self.is_long || is_long_value(&text);
        self.is_unlisted = self.is_unlisted || text.is_none();
        if !self.is_there {
            self.first = text;
        }
        self.is_there = true;
    }
}
