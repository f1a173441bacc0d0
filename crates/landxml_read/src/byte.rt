//! What a byte may be in markup.

ghost use Rattle.std.specs.Prelude.{◌≡◌};
ghost use Rattle.landxml_read.specs.Markup.{is_white, is_free, begins_name, is_in_name, is_in_value};

/// Whether the byte is a space, TAB, LF or CR.
pub(crate) fn is_white_byte(b: u8) -> bool
    ensures { result ≡ is_white b }
{
    b == b' ' || b == b'\t' || b == b'\n' || b == b'\r'
}

/// Whether the byte may stand anywhere.
pub(crate) fn is_free_byte(b: u8) -> bool
    ensures { result ≡ is_free b }
{
    b > 31 || is_white_byte(b)
}

/// Whether a name may begin with the byte.
pub(crate) fn may_begin_name(b: u8) -> bool
    ensures { result ≡ begins_name b }
{
    (b > 64 && b < 91) || (b > 96 && b < 123) || b == b'_' || b == b':' || b > 127
}

/// Whether a name may go on with the byte.
pub(crate) fn may_be_in_name(b: u8) -> bool
    ensures { result ≡ is_in_name b }
{
    may_begin_name(b) || (b > 47 && b < 58) || b == b'-' || b == b'.'
}

/// Whether the byte may stand in a value between such quotes.
pub(crate) fn may_be_in_value(quote: u8, b: u8) -> bool
    ensures { result ≡ is_in_value quote b }
{
    is_free_byte(b) && b != quote && b != b'<'
}
