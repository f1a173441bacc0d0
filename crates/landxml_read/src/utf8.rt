//! UTF-8 that comes byte by byte.

ghost use Rattle.std.specs.Prelude.{◌≡◌};
ghost use Rattle.landxml_read.specs.Utf8.{is_between, on_between, begun_by, utf8_next, is_ready};

/// What may come next in UTF-8.
#[derive(Clone, Copy, Debug, PartialEq, Eq)]
pub(crate) enum Utf8 {
    /// A character.
    Ready,
    /// The last byte of a sequence.
    One,
    /// Its last two bytes.
    Two,
    /// Its last three bytes.
    Three,
    /// The last two, after a first byte E0, which must not spell what two bytes can.
    AfterE0,
    /// The last two, after a first byte ED, which must not spell a surrogate.
    AfterEd,
    /// The last three, after a first byte F0, which must not spell what three bytes can.
    AfterF0,
    /// The last three, after a first byte F4, which must not spell more than 10FFFF.
    AfterF4,
}

// The state, where the byte lies between the two.
fn on(first: u8, last: u8, b: u8, state: Utf8) -> Option<Utf8>
    ensures { result ≡ on_between first last b state }
{
    if b > first && b < last {
        Some(state)
    } else {
        None
    }
}

// After the first byte of a sequence, or a character of one byte.
fn begun(b: u8) -> Option<Utf8>
    ensures { result ≡ begun_by b }
{
    match b {
        _ if b < 0x80 => Some(Utf8::Ready),
        _ if b < 0xC2 => None,
        _ if b < 0xE0 => Some(Utf8::One),
        0xE0 => Some(Utf8::AfterE0),
        0xED => Some(Utf8::AfterEd),
        _ if b < 0xF0 => Some(Utf8::Two),
        0xF0 => Some(Utf8::AfterF0),
        _ if b < 0xF4 => Some(Utf8::Three),
        0xF4 => Some(Utf8::AfterF4),
        _ => None,
    }
}

impl Utf8 {
    /// What may come next after the byte. None where UTF-8 doesn't go on with it.
    pub(crate) fn after(self, b: u8) -> Option<Utf8>
        ensures { result ≡ utf8_next self b }
    {
        match self {
            Utf8::Ready => begun(b),
            Utf8::One => on(0x7F, 0xC0, b, Utf8::Ready),
            Utf8::Two => on(0x7F, 0xC0, b, Utf8::One),
            Utf8::Three => on(0x7F, 0xC0, b, Utf8::Two),
            Utf8::AfterE0 => on(0x9F, 0xC0, b, Utf8::One),
            Utf8::AfterEd => on(0x7F, 0xA0, b, Utf8::One),
            Utf8::AfterF0 => on(0x8F, 0xC0, b, Utf8::Two),
            Utf8::AfterF4 => on(0x7F, 0x90, b, Utf8::Two),
        }
    }

    /// Whether no sequence is open.
    pub(crate) fn is_ready(self) -> bool
        ensures { result ≡ is_ready self }
    {
        matches!(self, Utf8::Ready)
    }
}
