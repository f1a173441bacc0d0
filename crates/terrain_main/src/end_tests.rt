//! How sessions and the program end, and that each reply is one write.

use crate::command::exit_status;
use crate::sessions::{converse, ground, number_in, replies_to};
use ground_io::{Call, Link, MemLink, MemSink, MemSource, Pair, Recorded, StdSource};
use ground_model::Limits;
use std::alloc::{AllocError, Global};
use std::io::{self, Read};
use std::process::Abort;
use std::slice;
use std::test::Fail;
use store::Store;

// Each row: the budget, what goes wrong, what is read, and then the end, what is written, and what a
// session afterwards answers to `stat`. `;` stands for a line's end.
const ENDS: &str = "\
1000||stat\r;quit\r;stat;|Quit;stat 0 points 0 lines 0;bye;stat 0 points 0 lines 0;
1000|||End;stat 0 points 0 lines 0;
1000||stat|Cut;stat 0 points 0 lines 0;
0||stat;stat;|Spent;stat 0 points 0 lines 0;
4||stat;stat;|Spent;stat 0 points 0 lines 0;
5||stat;stat;|Spent;stat 0 points 0 lines 0;stat 0 points 0 lines 0;
9||stat;stat;|Spent;stat 0 points 0 lines 0;stat 0 points 0 lines 0;
1000|read 1|stat;|ReadFault;stat 0 points 0 lines 0;
1000|read 2|stat;|ReadFault;stat 0 points 0 lines 0;stat 0 points 0 lines 0;
1000|write 2|do add 0 0 0;stat;quit;|WriteFault;done 1;stat 1 points 1 lines 0;";

// Each row: the words, or none where they can't be had, what goes wrong, what is read, and then the
// exit status and what is written.
const STATUSES: &str = "\
talk||do add 0 0 0;stat;quit;|0;done 1;stat 1 points 1 lines 0;bye;
walk||stat;|2;fault usage;
talk talk||stat;|2;fault usage;
||stat;|2;fault usage;
walk|write 1|stat;|2;
trial 0 0||stat;|0;trial 0 0 front 0 points 0 lines 0 refused 0 conflicts 0 facets 0 cut 0 fill 0 net 0;
trial 0 1||stat;|0;trial 0 1 front 1 points 1 lines 0 refused 0 conflicts 0 facets 0 cut 0 fill 0 net 0;
trial 0 3||stat;|0;trial 0 3 front 3 points 3 lines 0 refused 0 conflicts 0 facets 1 cut 0 fill 9012203745075 net -9012203745075;
trial 4 3||stat;|0;trial 4 3 front 3 points 3 lines 0 refused 0 conflicts 0 facets 1 cut 26582603630976 fill 0 net 26582603630976;
trial 18446744073709551615 0|read 1||0;trial 18446744073709551615 0 front 0 points 0 lines 0 refused 0 conflicts 0 facets 0 cut 0 fill 0 net 0;
trial 0 1|write 1|stat;|5;
trial 18446744073709551616 0||stat;|2;fault usage;
trial 0 100001||stat;|2;fault usage;
trial 0||stat;|2;fault usage;
trial 0 1 1||stat;|2;fault usage;
trial 00 1||stat;|2;fault usage;
trial 0 +1||stat;|2;fault usage;
trial -0 1||stat;|2;fault usage;
trial 0 1.0||stat;|2;fault usage;
trial 0  1||stat;|2;fault usage;
check||<LandXML/>|0;surfaces 0;
check --origin 4 -5.5||<LandXML/>|0;surfaces 0;
check|||3;fault document 0 cut;
check|read 1||4;
check|write 1||3;
check|write 1|<LandXML/>|5;
check --origin 4||<LandXML/>|2;fault usage;
check --origin 4 5.0001||<LandXML/>|2;fault usage;
check --surface a||<LandXML/>|2;fault usage;
rewrite||<LandXML/>|3;fault document 10 no-surface;
rewrite --surface --origin||<LandXML/>|3;fault document 10 no-surface;
rewrite --surface a --origin 4 5||<LandXML/>|3;fault document 10 no-surface;
rewrite --origin 4 5 --surface a||<LandXML/>|3;fault document 10 no-surface;
rewrite --surface||<LandXML/>|2;fault usage;
rewrite --surface a --surface b||<LandXML/>|2;fault usage;
help||stat;|0;check [--origin N E];rewrite [--surface NAME] [--origin N E];talk;trial SEED COUNT;help;serve PORT WORKERS SESSIONS [--surface NAME] [--origin N E];
help|write 1|stat;|5;
help help||stat;|2;fault usage;
talk|read 1|stat;|4;
talk|write 1|stat;|5;
talk||stat|12;";

fn columns(row: &str) -> [&str; 4] {
    let mut columns = row.split('|');
    let first = columns.next().unwrap_or("");
    let second = columns.next().unwrap_or("");
    let third = columns.next().unwrap_or("");
    [first, second, third, columns.next().unwrap_or("")]
}

// The text with a line's end in the place of each `;`.
fn lines_of(alloc: Global, text: &str) -> Result<String, Fail> {
    let mut lines = String::new(alloc);
    for letter in text.chars() {
        lines.push(if letter == ';' { '\n' } else { letter })?;
    }
    Ok(lines)
}

// The number of the call that fails, or one that no session here reaches.
fn failing(fault: &str, side: &str) -> Result<u64, Fail> {
    Ok(u64::from(number_in(fault, side, 1_000)?))
}

fn source(alloc: Global, input: &str, fail: u64) -> Result<MemSource, AllocError> {
    MemSource::new(alloc, input.as_bytes(), &[fail])
}

fn source_of(alloc: Global, fault: &str, input: &str) -> Result<MemSource, Fail> {
    let fail = failing(fault, "read")?;
    let input = lines_of(alloc, input)?;
    Ok(source(alloc, input.as_str(), fail)?)
}

fn sink_of(alloc: Global, fault: &str) -> Result<MemSink, Fail> {
    Ok(MemSink::new(alloc, 256, &[failing(fault, "write")?])?)
}

fn expect(rt: &impl Abort, alloc: Global, found: &str, wanted: &str) -> Result<(), Fail> {
    let wanted = lines_of(alloc, wanted)?;
    assert_eq!(rt; found, wanted.as_str());
    Ok(())
}

// How a session ends, and what it writes.
fn end_of(
    alloc: Global,
    store: &mut Store,
    mut source: MemSource,
    mut sink: MemSink,
    budget: u64,
) -> Result<String, Fail> {
    let mut pair = Pair::new(&mut source, &mut sink);
    let ended = converse(alloc, store, &mut pair, budget);
    Ok(format!(in alloc; "{ended:?}\n{}", str::from_utf8(sink.written())?)?)
}

fn run_end(rt: &impl Abort, alloc: Global, row: &str) -> Result<(), Fail> {
    let [budget, fault, input, wanted] = columns(row);
    let budget = budget.parse()?;
    let mut store = ground(alloc, Limits::FULL)?;
    let source = source_of(alloc, fault, input)?;
    let mut found = end_of(alloc, &mut store, source, sink_of(alloc, fault)?, budget)?;
    found.push_str(replies_to(alloc, &mut store, "stat\n")?.as_str())?;
    expect(rt, alloc, found.as_str(), wanted)
}

#[test]
fn sessions_end_as_they_are_to(rt: HostRuntime) -> Result<(), Fail> {
    for row in ENDS.split('\n') {
        run_end(&rt, rt.alloc(), row)?;
    }
    Ok(())
}

// The words that blanks part, or None where there are none.
fn words_of(alloc: Global, text: &str) -> Result<Option<Vec<String>>, Fail> {
    if text.is_empty() {
        return Ok(None);
    }
    let mut words = Vec::new(alloc);
    for word in text.split(' ') {
        words.push(String::from_str(alloc, word)?)?;
    }
    Ok(Some(words))
}

// The exit status without its clauses, which only make the proof of the caller slow.
fn exit_status_of(
    alloc: Global,
    words: Option<Vec<String>>,
    source: &mut MemSource,
    sink: &mut MemSink,
) -> u8 {
    exit_status(alloc, words, source, sink)
}

// The exit status, and what is written.
fn status_of(
    alloc: Global,
    words: Option<Vec<String>>,
    mut source: MemSource,
    mut sink: MemSink,
) -> Result<String, Fail> {
    let status = exit_status_of(alloc, words, &mut source, &mut sink);
    Ok(format!(in alloc; "{status}\n{}", str::from_utf8(sink.written())?)?)
}

fn run_program(rt: &impl Abort, alloc: Global, row: &str) -> Result<(), Fail> {
    let [words, fault, input, wanted] = columns(row);
    let source = source_of(alloc, fault, input)?;
    let sink = sink_of(alloc, fault)?;
    let found = status_of(alloc, words_of(alloc, words)?, source, sink)?;
    expect(rt, alloc, found.as_str(), wanted)
}

#[test]
fn the_program_ends_with_its_status(rt: HostRuntime) -> Result<(), Fail> {
    for row in STATUSES.split('\n') {
        run_program(&rt, rt.alloc(), row)?;
    }
    Ok(())
}

#[test]
fn a_line_without_an_end_is_too_long(rt: HostRuntime) -> Result<(), Fail> {
    let words = words_of(rt.alloc(), "talk")?;
    let letters = vec![in rt.alloc(); b'a'; 131_072]?;
    let mut source = MemSource::new(rt.alloc(), letters.as_slice(), &[])?;
    let mut sink = MemSink::new(rt.alloc(), 16, &[])?;
    let status = exit_status_of(rt.alloc(), words, &mut source, &mut sink);
    assert_eq!(rt; (status, sink.written().is_empty()), (11, true));
    Ok(())
}

// A reader that gives one byte a read.
#[derive(Drop)]
struct ByteByByte<'a>(slice::Iter<'a, u8>);

impl Read for ByteByByte<'_> {
    fn read(&mut self, buf: &mut [u8]) -> io::Result<usize> {
        match (buf.first_mut(), self.0.next()) {
            (Some(first), Some(byte)) => {
                *first = *byte;
                Ok(1)
            }
            _ => Ok(0),
        }
    }
}

// What each write of a session over this link moved, each after a bar.
fn writes_over<L: Link + Drop>(alloc: Global, link: L) -> Result<String, Fail> {
    let mut store = ground(alloc, Limits::FULL)?;
    let mut recorded = Recorded::new(alloc, link);
    converse(alloc, &mut store, &mut recorded, 1_000);
    let mut text = String::new(alloc);
    for call in recorded.calls() {
        if let Call::Sent(bytes) = call {
            write!(text, "|{}", str::from_utf8(bytes.as_slice())?)?;
        }
    }
    Ok(text)
}

#[test]
fn each_reply_is_one_write(rt: HostRuntime) -> Result<(), Fail> {
    let input = b"do add 0 0 0\nstat\n\nlevel 0 0\nquit\n";
    let wanted = "|done 1\n|stat 1 points 1 lines 0\n|error syntax 0\n|outside 1\n|bye\n";
    let whole = MemLink::new(rt.alloc(), input, 128, &[], &[])?;
    assert_eq!(rt; writes_over(rt.alloc(), whole)?.as_str(), wanted);
    let mut source = StdSource::new(ByteByByte(input.iter()));
    let mut sink = MemSink::new(rt.alloc(), 128, &[])?;
    let pair = Pair::new(&mut source, &mut sink);
    assert_eq!(rt; writes_over(rt.alloc(), pair)?.as_str(), wanted);
    Ok(())
}
