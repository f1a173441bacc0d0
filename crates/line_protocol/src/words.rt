//! How a line falls into words.

ghost use Rattle.std.specs.Prelude.{◌≡◌, ◌<◌, ◌∷◌, [], MatchOption, IfSome, length, ◌==◌};
ghost use Rattle.std.specs.List.{position};
ghost use Rattle.line_protocol.specs.Grammar.{words_of};

/// Why a part of a line has no value.
#[derive(Clone, Copy, Debug, PartialEq, Eq)]
pub(crate) enum Unread {
    /// It is none of the grammar.
    NoSuch,
    /// A place or a level is outside its limit.
    Outside,
    /// Out of memory for its places.
    NoRoom,
}

/// The offset at which the byte first stands.
pub(crate) fn offset_of_byte(byte: u8, text: &[u8]) -> Option<usize>
    ensures { result ≡ position (λ b. b == byte) text.now }
{
    text.iter().position(|b| *b == byte)
}

/// The first word, and what comes after its space. None where there is no space.
pub(crate) fn first_word(text: &[u8]) -> Option<(&[u8], &[u8])>
    ensures words { MatchOption result (words_of text.now ≡ text.now ∷ []) (λ parts. words_of text.now ≡ parts.0.now ∷ words_of parts.1.now) }
    ensures shorter { IfSome result (λ parts. length parts.1.now < length text.now) }
{
    match offset_of_byte(b' ', text) {
        Some(at) => Some((&text[..at], &text[at + 1..])),
        None => None,
    }
}
