//! A session over a link.

ghost use Rattle.std.specs.Prelude.{◌≡◌, ◌≢◌, ◌+◌, ◌≤◌, ◌<◌, ◌^◌, ◌∷◌, ℕ, List, [], true, None, Some, IfOk, length, take};
ghost use Rattle.ground_io.specs.Causes.{HasCause, Rose};
ghost use Rattle.ground_io.specs.Order.{AddsRead};
ghost use Rattle.ground_io.specs.Wires.{wire_view};
ghost use Rattle.ground_model.specs.History.{IsLegal};
ghost use Rattle.line_protocol.specs.Replies.{HasVolumeWithin};
ghost use Rattle.turn_lock.specs.declared.journal.Journal.{Journal as History};
ghost use Rattle.turn_lock.specs.Journal.{IsPrefix, OthersAdded};
ghost use Rattle.turn_lock.specs.Setting.{setting};
ghost use Rattle.session.specs.Talk.{Visit, Talk};
ghost use Rattle.session.specs.Talking.{Serves, ServesLine, position, is_bye, Answered, GoesOn, ReadsFront};
ghost use Rattle.session.specs.Turns.{Conversed};
ghost use Rattle.session.specs.declared.conversation.Ended.TheVariants.{ReadFault, WriteFault, Memory};

use crate::answer::{origin, put_answer};
use crate::line::{LINE_LIMIT, LineBuffer};
use crate::session::{Session, needs_turn, own_step};
use crate::turns::Turns;
use ground_io::{Failed, Link, Sink};
use line_protocol::{LineFault, Reply, Request, read_request};
use std::alloc::Global;
use store::Store;

/// How many bytes one read takes at the most.
const PIECE_SIZE: usize = 4096;

/// How a session ended.
#[derive(Clone, Copy, Debug, PartialEq, Eq)]
pub enum Ended {
    /// A line asked to quit and was answered; bytes after it are not looked at.
    Quit,
    /// The input ended after a line end, or was empty.
    End,
    /// The input ended inside a line, which is not answered.
    Cut,
    /// A line has more than 131,071 bytes.
    LongLine,
    /// The budget of bytes was read.
    Spent,
    /// A read failed. Every whole line that was read is answered.
    ReadFault,
    /// A write failed. What was written is a beginning of the replies.
    WriteFault,
    /// Out of memory for the line buffer or for the first version. Nothing was read or written.
    Memory,
}

// The reply to a request within its limits.
fn reply_to_request<T: Turns>(
    alloc: Global,
    turns: &mut T,
    session: &mut Session,
    request: Request,
) -> Reply
    requires ready { T.Ready turns.old }
    requires author { session.old.author ≡ T.number turns.old }
    requires prefix { IsPrefix session.old.journal (T.seen turns.old) }
    ensures serves { (own : List ℕ) × (T.Finds turns.old turns.new own) × Serves (T.number turns.old) (position (T.seen turns.old) session.old, position (T.seen turns.new) session.new) request result own }
    ensures author { session.new.author ≡ session.old.author }
    ensures ready { T.Ready turns.new }
    ensures number { T.number turns.new ≡ T.number turns.old }
    ensures volume { HasVolumeWithin result }
{
    if needs_turn(session, &request) {
        turns.turn(session, request)
    } else {
        own_step(alloc, session, request)
    }
}

// The reply to a line, whatever it is.
fn reply_to_line<T: Turns>(
    alloc: Global,
    turns: &mut T,
    session: &mut Session,
    line: &[u8],
) -> Reply
    requires ready { T.Ready turns.old }
    requires author { session.old.author ≡ T.number turns.old }
    requires prefix { IsPrefix session.old.journal (T.seen turns.old) }
    requires short { length line.now < 2 ^ 32 }
    ensures serves { (own : List ℕ) × (T.Finds turns.old turns.new own) × ServesLine (T.number turns.old) (position (T.seen turns.old) session.old, position (T.seen turns.new) session.new) line.now result own }
    ensures author { session.new.author ≡ session.old.author }
    ensures ready { T.Ready turns.new }
    ensures number { T.number turns.new ≡ T.number turns.old }
    ensures volume { HasVolumeWithin result }
{
    match read_request(alloc, line, origin(session)) {
        Ok(request) => reply_to_request(alloc, turns, session, request),
        Err(LineFault::Syntax(offset)) => Reply::Syntax(offset),
        Err(LineFault::Range) => Reply::Range,
        Err(LineFault::Memory) => Reply::Memory,
    }
}

// Whether the reply ends the session.
fn is_farewell(reply: &Reply) -> bool
    ensures { result ≡ is_bye reply.now }
{
    matches!(reply, Reply::Bye)
}

// Answers one line, and says whether it asks to quit.
fn answer_line<T: Turns, S: Sink>(
    alloc: Global,
    turns: &mut T,
    session: &mut Session,
    sink: &mut S,
    line: &[u8],
) -> Result<bool, Failed>
    requires ready { T.Ready turns.old }
    requires author { session.old.author ≡ T.number turns.old }
    requires prefix { IsPrefix session.old.journal (T.seen turns.old) }
    requires short { length line.now < 2 ^ 32 }
    ensures answered { (own : List ℕ) × (T.Finds turns.old turns.new own) × Answered (T.number turns.old) (position (T.seen turns.old) session.old, position (T.seen turns.new) session.new) line.now (record { written = S.written sink.old; order = S.write_order sink.old }, record { written = S.written sink.new; order = S.write_order sink.new }) own result }
    ensures cause { HasCause (S.write_faults sink.old) (S.write_faults sink.new) result }
    ensures rest { S.beside_writes sink.new ≡ S.beside_writes sink.old }
    ensures author { session.new.author ≡ session.old.author }
    ensures ready { T.Ready turns.new }
    ensures number { T.number turns.new ≡ T.number turns.old }
{
    let reply = reply_to_line(alloc, turns, session, line);
    turns.before_reply();
    put_answer(session, &reply, sink)?;
    Ok(is_farewell(&reply))
}

// Answers the lines that these bytes end, and keeps what comes after them.
fn answer_bytes<T: Turns, L: Link>(
    alloc: Global,
    turns: &mut T,
    session: &mut Session,
    link: &mut L,
    line: &mut LineBuffer,
    bytes: &[u8],
) -> Option<Ended>
    requires ready { T.Ready turns.old }
    requires author { session.old.author ≡ T.number turns.old }
    requires prefix { IsPrefix session.old.journal (T.seen turns.old) }
    requires fits { length line.old + length bytes.now ≤ 131072 }
    ensures goes { (own : List ℕ) × (T.Finds turns.old turns.new own) × GoesOn (T.number turns.old) (record { position = position (T.seen turns.old) session.old; rest = line.old; output = record { written = L.written link.old; order = L.write_order link.old } }) (record { position = position (T.seen turns.new) session.new; rest = line.new; output = record { written = L.written link.new; order = L.write_order link.new } }) bytes.now own result }
    ensures author { session.new.author ≡ session.old.author }
    ensures ready { T.Ready turns.new }
    ensures number { T.number turns.new ≡ T.number turns.old }
    ensures prefix { IsPrefix session.new.journal (T.seen turns.new) }
    ensures stays { setting (T.seen turns.new) ≡ setting (T.seen turns.old) }
    ensures fault { result ≡ Some WriteFault → Rose (L.write_faults link.old) (L.write_faults link.new) }
    ensures no_fault { result ≢ Some WriteFault → L.write_faults link.new ≡ L.write_faults link.old }
    ensures left { L.left link.new ≡ L.left link.old }
    ensures read_faults { L.read_faults link.new ≡ L.read_faults link.old }
    ensures names { L.names link.new ≡ L.names link.old }
{
    for b in bytes {
        if *b == b'\n' {
            match answer_line(alloc, turns, session, link, line.text()) {
                Ok(false) => line.clear(),
                Ok(true) => return Some(Ended::Quit),
                Err(Failed) => return Some(Ended::WriteFault),
            }
        } else {
            line.push(*b);
        }
    }
    None
}

// Reads at most so many bytes to the front of the piece.
fn read_piece<L: Link>(
    link: &mut L,
    piece: &mut [u8; PIECE_SIZE],
    most: usize,
) -> Result<usize, Failed>
    requires some { 0 < most }
    requires fits { most ≤ PIECE_SIZE }
    ensures bound { IfOk result (λ n. (n ≤ most) × (length (take n piece.new) ≡ n)) }
    ensures bytes { ReadsFront (L.left link.old) (L.left link.new) piece.new result }
    ensures order { AddsRead (L.write_order link.old) (L.write_order link.new) result piece.new }
    ensures cause { HasCause (L.read_faults link.old) (L.read_faults link.new) result }
    ensures written { L.written link.new ≡ L.written link.old }
    ensures write_faults { L.write_faults link.new ≡ L.write_faults link.old }
    ensures names { L.names link.new ≡ L.names link.old }
{
    link.read(&mut piece[..most])
}

// The reads of a session that holds the version found last, and what is answered. Others may have
// gone on with the history before that version.
fn answer_reads<T: Turns, L: Link>(
    alloc: Global,
    turns: &mut T,
    session: &mut Session,
    link: &mut L,
    line: &mut LineBuffer,
    budget: u64,
) -> Ended
    requires ready { T.Ready turns.old }
    requires held { session.old.journal ≡ T.seen turns.old }
    requires fresh { session.old.pending ≡ None }
    requires author { session.old.author ≡ T.number turns.old }
    requires empty { line.old ≡ [] }
    requires legal { IsLegal (T.seen turns.old).limits (T.seen turns.old).entries }
    ensures session { (own : List ℕ) × (T.Finds turns.old turns.new own) × ((first : History) → OthersAdded (T.number turns.old ∷ []) first (T.seen turns.old) → Visit (record { setting = setting first; author = T.number turns.old; start = length first.entries }) (length (T.seen turns.old).entries) own budget (record { entries = first.entries; wire = wire_view L.left L.written L.write_order L.read_faults L.write_faults link.old }) (record { entries = (T.seen turns.new).entries; wire = wire_view L.left L.written L.write_order L.read_faults L.write_faults link.new }) result) }
    ensures ending { result ≢ Memory }
    ensures stays { setting (T.seen turns.new) ≡ setting (T.seen turns.old) }
    ensures ready { T.Ready turns.new }
    ensures author { T.number turns.new ≡ T.number turns.old }
    ensures names { L.names link.new ≡ L.names link.old }
    ensures read_fault { result ≡ ReadFault → Rose (L.read_faults link.old) (L.read_faults link.new) }
    ensures reads_passed { result ≢ ReadFault → L.read_faults link.new ≡ L.read_faults link.old }
    ensures write_fault { result ≡ WriteFault → Rose (L.write_faults link.old) (L.write_faults link.new) }
    ensures writes_passed { result ≢ WriteFault → L.write_faults link.new ≡ L.write_faults link.old }
{
    let mut piece = [0u8; PIECE_SIZE];
    let mut left = budget;
    'reading: while line.len() < LINE_LIMIT && left > 0 {
        let room = left
            .min(PIECE_SIZE as u64)
            .min((LINE_LIMIT - line.len()) as u64) as usize;
        match read_piece(link, &mut piece, room) {
            Err(Failed) => return Ended::ReadFault,
            Ok(0) if line.len() == 0 => return Ended::End,
            Ok(0) => return Ended::Cut,
            Ok(count) => {
                left -= count as u64;
                if let Some(ended) = answer_bytes(
                    alloc,
                    turns,
                    session,
                    link,
                    line,
                    &piece[..count],
                ) {
                    return ended;
                }
            }
        }
    }
    if line.len() < LINE_LIMIT {
        Ended::Spent
    } else {
        Ended::LongLine
    }
}

/// Answers the lines of a link, in order and before the next read, in turns that are made so. It hands
/// each reply to the link as `put_answer` does, and never reads more than `budget` bytes. Its line
/// buffer, of 131,072 bytes, and its first version are taken before the first read. An edit whose
/// reply could not be written stays made. Where a link's bytes and the order of its calls aren't
/// known, as with standard input, no clause says anything of them.
pub fn converse<T: Turns, L: Link>(alloc: Global, turns: &mut T, link: &mut L, budget: u64) -> Ended
    requires ready { T.Ready turns.old }
    ensures session { Conversed (T.number turns.old) (T.seen turns.old, T.seen turns.new) (T.Finds turns.old turns.new) budget (wire_view L.left L.written L.write_order L.read_faults L.write_faults link.old, wire_view L.left L.written L.write_order L.read_faults L.write_faults link.new) result }
    ensures stays { setting (T.seen turns.new) ≡ setting (T.seen turns.old) }
    ensures ready { T.Ready turns.new }
    ensures author { T.number turns.new ≡ T.number turns.old }
    ensures names { L.names link.new ≡ L.names link.old }
    ensures read_fault { result ≡ ReadFault → Rose (L.read_faults link.old) (L.read_faults link.new) }
    ensures reads_passed { result ≢ ReadFault → L.read_faults link.new ≡ L.read_faults link.old }
    ensures write_fault { result ≡ WriteFault → Rose (L.write_faults link.old) (L.write_faults link.new) }
    ensures writes_passed { result ≢ WriteFault → L.write_faults link.new ≡ L.write_faults link.old }
{
    let Ok(mut line) = LineBuffer::new(alloc) else {
        return Ended::Memory;
    };
    let Ok(version) = turns.hold() else {
        return Ended::Memory;
    };
    let mut session = Session::start(turns.author(), version);
    // Only the proof reads it: a version's journal is legal.
    let _front = session.front();
    answer_reads(alloc, turns, &mut session, link, &mut line, budget)
}

/// Answers the lines of a link, as `converse` does, as the one author of the store.
pub fn talk<L: Link>(alloc: Global, store: &mut Store, link: &mut L, budget: u64) -> Ended
    ensures session { Talk (record { setting = setting store.old.journal; author = 1; start = length store.old.journal.entries }) budget (record { entries = store.old.journal.entries; wire = wire_view L.left L.written L.write_order L.read_faults L.write_faults link.old }) (record { entries = store.new.journal.entries; wire = wire_view L.left L.written L.write_order L.read_faults L.write_faults link.new }) result }
    ensures stays { setting store.new.journal ≡ setting store.old.journal }
    ensures names { L.names link.new ≡ L.names link.old }
    ensures read_fault { result ≡ ReadFault → Rose (L.read_faults link.old) (L.read_faults link.new) }
    ensures reads_passed { result ≢ ReadFault → L.read_faults link.new ≡ L.read_faults link.old }
    ensures write_fault { result ≡ WriteFault → Rose (L.write_faults link.old) (L.write_faults link.new) }
    ensures writes_passed { result ≢ WriteFault → L.write_faults link.new ≡ L.write_faults link.old }
{
    let ended = converse(alloc, store, link, budget);
    // Only the proof reads it: a store's journal is legal.
    let _front = store.front();
    ended
}
