//! Where a line that is no request first differs from every request.

ghost use Rattle.std.specs.Prelude.{◌≡◌, ◌≤◌, length, nat_eq};
ghost use Rattle.std.specs.List.{common_prefix_len};
ghost use Rattle.ground_num.specs.FirstFault.{IsFirstFault};
ghost use Rattle.line_protocol.specs.Fault.{After, IsEdit, IsEmpty, IsFaultOffset, IsLine};
ghost use Rattle.line_protocol.specs.Scanning.{EndsNumbers};

use crate::figure::Scan;

// How many bytes the text has of the phrase, from the first on.
fn common_front(phrase: &[u8], text: &[u8]) -> usize
    ensures in_text { result ≤ length text.now }
    ensures value { result ≡ common_prefix_len nat_eq phrase.now text.now }
{
    let mut front = 0;
    while front < phrase.len() && front < text.len() && phrase[front] == text[front] {
        front += 1;
    }
    front
}

// The fault offset of a text that should be this word alone.
fn word_fault(word: &[u8], text: &[u8]) -> usize
    ensures { IsFirstFault (After word.now IsEmpty) text.now result }
{
    common_front(word, text)
}

// The fault offset of a text that should be numbers.
fn numbers_fault(mut scan: Scan, text: &[u8]) -> usize
    ensures { IsFirstFault (EndsNumbers scan) text.now result }
{
    for (i, b) in text.iter().enumerate() {
        match scan.after(*b) {
            Some(next) => scan = next,
            None => return i,
        }
    }
    text.len()
}

// The fault offset of a text that should be a phrase and numbers after it.
fn numbers_after(phrase: &[u8], scan: Scan, text: &[u8]) -> usize
    ensures { IsFirstFault (After phrase.now (EndsNumbers scan)) text.now result }
{
    let front = common_front(phrase, text);
    if front < phrase.len() {
        return front;
    }
    front + numbers_fault(scan, &text[front..])
}

// The fault offset of a text that should be a kind and the places of a line.
fn line_fault(text: &[u8]) -> usize
    ensures { IsFirstFault IsLine text.now result }
{
    numbers_after(b"island ", Scan::PLACES, text)
        .max(numbers_after(b"void ", Scan::PLACES, text))
        .max(numbers_after(b"outer ", Scan::PLACES, text))
        .max(numbers_after(b"break ", Scan::PLACES, text))
}

// The fault offset of a text that should be a phrase and a new line after it.
fn line_after(phrase: &[u8], text: &[u8]) -> usize
    ensures { IsFirstFault (After phrase.now IsLine) text.now result }
{
    let front = common_front(phrase, text);
    if front < phrase.len() {
        return front;
    }
    front + line_fault(&text[front..])
}

// The fault offset of a text that should be an edit.
fn edit_fault(text: &[u8]) -> usize
    ensures { IsFirstFault IsEdit text.now result }
{
    numbers_after(b"unline ", Scan::ID, text)
        .max(line_after(b"line ", text))
        .max(numbers_after(b"set ", Scan::SPOT, text))
        .max(numbers_after(b"remove ", Scan::PLACE, text))
        .max(numbers_after(b"add ", Scan::SPOT, text))
}

// The fault offset of a text that should be a phrase and an edit after it.
fn edit_after(phrase: &[u8], text: &[u8]) -> usize
    ensures { IsFirstFault (After phrase.now IsEdit) text.now result }
{
    let front = common_front(phrase, text);
    if front < phrase.len() {
        return front;
    }
    front + edit_fault(&text[front..])
}

/// The offset of the first byte that no request allows after those before it, or the line's length.
/// Takes no memory, and looks at each byte at most once for each phrase that may stand there.
pub(crate) fn fault_offset(line: &[u8]) -> usize
    ensures { IsFaultOffset line.now result }
{
    word_fault(b"quit", line)
        .max(word_fault(b"export", line))
        .max(word_fault(b"stat", line))
        .max(numbers_after(b"volume ", Scan::LEVEL, line))
        .max(numbers_after(b"contour ", Scan::LEVEL, line))
        .max(numbers_after(b"level ", Scan::PLACE, line))
        .max(edit_after(b"do ", line))
        .max(word_fault(b"commit", line))
        .max(edit_after(b"plan ", line))
        .max(word_fault(b"sync", line))
}
