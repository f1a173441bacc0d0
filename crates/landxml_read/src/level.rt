//! How far a document's root element is.

ghost use Rattle.std.specs.Prelude.{◌≡◌};
ghost use Rattle.landxml_read.specs.Scan.{IsShallow, opened, passed, closed, is_inside, is_unclosed};

/// How far the document's root element is.
#[derive(Clone, Copy, Debug, PartialEq, Eq)]
pub(crate) enum Level {
    /// It hasn't begun.
    Before,
    /// It is open, and in it so many elements, one inside the other.
    Inside(u32),
    /// It is closed.
    After,
}

impl Level {
    /// After a start tag.
    pub(crate) fn opened(self) -> Level
        requires { IsShallow self }
        ensures { result ≡ opened self }
    {
        match self {
            Level::Inside(k) => Level::Inside(k + 1),
            Level::Before | Level::After => Level::Inside(0),
        }
    }

    /// After an empty element.
    pub(crate) fn passed(self) -> Level
        ensures { result ≡ passed self }
    {
        match self {
            Level::Inside(k) => Level::Inside(k),
            Level::Before | Level::After => Level::After,
        }
    }

    /// After an end tag.
    pub(crate) fn closed(self) -> Level
        ensures { result ≡ closed self }
    {
        match self {
            Level::Inside(0) => Level::After,
            Level::Inside(k) => Level::Inside(k - 1),
            Level::Before | Level::After => Level::After,
        }
    }

    /// Whether an element is open.
    pub(crate) fn is_inside(self) -> bool
        ensures { result ≡ is_inside self }
    {
        matches!(self, Level::Inside(_))
    }

    /// Whether an element may begin.
    pub(crate) fn is_unclosed(self) -> bool
        ensures { result ≡ is_unclosed self }
    {
        !matches!(self, Level::After)
    }
}
