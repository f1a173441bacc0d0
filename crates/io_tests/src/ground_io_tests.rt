//! What no clause says: that calls succeed, what an object over std makes of its answers, that a piece
//! is flushed before its write answers, and that bytes go through a socket.
ghost use Rattle.std.specs.Prelude.{◌≤◌, IfOk};

use ground_io::{
    Call, Door, Failed, MemDoor, MemLink, MemSink, MemSource, Pair, Recorded, Sink, Source,
    StdSink, StdSource, StreamLink, TcpDoor, write_all,
};
use std::alloc::{AllocError, Global};
use std::io::{BufWriter, ErrorKind, Read, Write};
use std::net::{Ipv4Addr, Net, SocketAddr, TcpListener, TcpStream};
use std::process::Abort;
use std::test::Fail;
use std::time::{Clock, Duration};
use std::{io, thread};

// A read, without its clauses: they only make the proofs of its callers slow.
fn read<S: Source>(source: &mut S) -> Result<usize, Failed> {
    source.read(&mut [0u8; 4])
}

// A write of some bytes, without its clauses.
fn write<S: Sink>(rt: &impl Abort, sink: &mut S, piece: &[u8]) -> Result<usize, Failed> {
    assert!(rt; !piece.is_empty());
    sink.write(piece)
}

// A write of a whole text, without its clauses.
fn send<S: Sink>(sink: &mut S, text: &[u8]) -> Result<(), Failed> {
    write_all(sink, text)
}

// A link in memory, without its clauses.
fn link(
    alloc: Global,
    bytes: &[u8],
    fail_reads: &[u64],
    fail_writes: &[u64],
) -> Result<MemLink, AllocError> {
    MemLink::new(alloc, bytes, 2, fail_reads, fail_writes)
}

#[test]
fn a_link_in_memory_numbers_reads_and_writes_apart(rt: HostRuntime) -> Result<(), Fail> {
    let mut link = link(rt.alloc(), b"abc", &[1], &[2])?;
    assert_eq!(rt; read(&mut link), Err(Failed));
    assert_eq!(rt; write(&rt, &mut link, b"x"), Ok(1));
    assert_eq!(rt; read(&mut link), Ok(3));
    assert_eq!(rt; write(&rt, &mut link, b"y"), Err(Failed));
    assert_eq!(rt; write(&rt, &mut link, b"zw"), Ok(1), "the room ends");
    assert_eq!(rt; link.written(), b"xz".as_slice());
    Ok(())
}

#[test]
fn a_failure_has_a_text(rt: HostRuntime) -> Result<(), Fail> {
    assert_eq!(rt; Failed.to_string(rt.alloc())?.as_str(), "the object failed");
    Ok(())
}

#[test]
fn a_pair_writes_a_text_or_a_beginning_of_it(rt: HostRuntime) -> Result<(), Fail> {
    let mut source = MemSource::new(rt.alloc(), b"xy", &[])?;
    let mut sink = MemSink::new(rt.alloc(), 5, &[])?;
    let mut pair = Pair::new(&mut source, &mut sink);
    assert_eq!(rt; send(&mut pair, b""), Ok(()));
    assert_eq!(rt; send(&mut pair, b"abc"), Ok(()));
    assert_eq!(rt; read(&mut pair), Ok(2));
    assert_eq!(rt; send(&mut pair, b"defg"), Err(Failed));
    assert_eq!(rt; sink.written(), b"abcde".as_slice());
    Ok(())
}

fn is_read(calls: &[Call], index: usize, bytes: &[u8]) -> bool {
    match calls.get(index) {
        Some(Call::Received(found)) => found.as_slice() == bytes,
        _ => false,
    }
}

fn is_write(calls: &[Call], index: usize, bytes: &[u8]) -> bool {
    match calls.get(index) {
        Some(Call::Sent(found)) => found.as_slice() == bytes,
        _ => false,
    }
}

#[test]
fn a_record_holds_the_calls_that_did_not_fail(rt: HostRuntime) -> Result<(), Fail> {
    let mut recorded = Recorded::new(rt.alloc(), link(rt.alloc(), b"abc", &[2], &[])?);
    assert_eq!(rt; read(&mut recorded), Ok(3));
    assert_eq!(rt; read(&mut recorded), Err(Failed));
    assert_eq!(rt; send(&mut recorded, b"xy"), Ok(()));
    assert_eq!(rt; read(&mut recorded), Ok(0));
    let calls = recorded.calls();
    assert!(rt; is_read(calls, 0, b"abc"));
    assert!(rt; is_write(calls, 1, b"xy"));
    assert!(rt; is_read(calls, 2, b""));
    assert_eq!(rt; calls.len(), 3);
    Ok(())
}

fn door_of_two(alloc: Global) -> Result<MemDoor, AllocError> {
    let mut wires = Vec::new(alloc);
    wires.push(link(alloc, b"a", &[], &[])?)?;
    wires.push(link(alloc, b"b", &[], &[])?)?;
    MemDoor::new(alloc, wires, &[2])
}

// What a door in memory got back as its k-th wire, or nothing.
fn back(door: &MemDoor, k: usize) -> &[u8] {
    match door.back(k) {
        Some(wire) => wire.written(),
        None => &[],
    }
}

#[test]
fn a_door_in_memory_keeps_what_is_handed_back(rt: HostRuntime) -> Result<(), Fail> {
    let mut door = door_of_two(rt.alloc())?;
    assert!(rt; serve_one(&mut door));
    assert!(rt; !serve_one(&mut door), "the second call fails");
    assert!(rt; serve_one(&mut door));
    assert!(rt; is_at_end(&mut door));
    assert_eq!(rt; back(&door, 0), b"a".as_slice());
    assert_eq!(rt; back(&door, 1), b"b".as_slice());
    assert!(rt; door.back(2).is_none());
    Ok(())
}

// Sends back what one wire sends, up to its end.
fn serve_one<D: Door>(door: &mut D) -> bool {
    let Ok(Some(mut wire)) = door.accept() else {
        return false;
    };
    let ended = echoes(&mut wire);
    door.hand_back(wire);
    ended
}

fn is_at_end<W: Drop, D: Door<Wire = W>>(door: &mut D) -> bool {
    matches!(door.accept(), Ok(None))
}

// Sends the next piece back, if there is one.
fn echoes_piece<L: Source + Sink>(link: &mut L) -> Result<bool, Failed> {
    let mut buf = [0u8; 16];
    let count = link.read(&mut buf)?;
    write_all(link, &buf[..count])?;
    Ok(count > 0)
}

fn echoes<L: Source + Sink>(link: &mut L) -> bool {
    for _ in 0..100u32 {
        match echoes_piece(link) {
            Ok(true) => {}
            Ok(false) => return true,
            Err(Failed) => return false,
        }
    }
    false
}

// A stream whose every call answers this.
#[derive(Drop)]
struct Fake(Result<usize, ErrorKind>);

impl Fake {
    fn answer(&self, most: usize) -> io::Result<usize>
        ensures { IfOk result (λ count. count ≤ most) }
    {
        match self.0 {
            Ok(count) => Ok(count.min(most)),
            Err(kind) => Err(io::Error::from(kind)),
        }
    }
}

impl Read for Fake {
    fn read(&mut self, buf: &mut [u8]) -> io::Result<usize> {
        self.answer(buf.len())
    }
}

impl Write for Fake {
    fn write(&mut self, buf: &[u8]) -> io::Result<usize> {
        self.answer(buf.len())
    }

    fn flush(&mut self) -> io::Result<()> {
        Ok(())
    }
}

#[test]
fn a_stream_of_std_is_short_or_interrupted_or_takes_nothing_or_fails(rt: HostRuntime) {
    let failed = Err(Failed);
    for (answer, want_read, want_write) in [
        (Ok(9), Ok(4), Ok(4)),
        (Ok(2), Ok(2), Ok(2)),
        (Ok(0), Ok(0), failed),
        (Err(ErrorKind::Interrupted), failed, failed),
        (Err(ErrorKind::BrokenPipe), failed, failed),
    ] {
        check_std(&rt, answer, want_read, want_write);
        check_stream(&rt, answer, want_read, want_write);
    }
}

// A source and a sink over streams of std.
fn check_std(
    rt: &impl Abort,
    answer: Result<usize, ErrorKind>,
    want_read: Result<usize, Failed>,
    want_write: Result<usize, Failed>,
) {
    let found = read(&mut StdSource::new(Fake(answer)));
    assert_eq!(rt; found, want_read, "{answer:?}");
    let found = write(rt, &mut StdSink::new(Fake(answer)), b"abcd");
    assert_eq!(rt; found, want_write, "{answer:?}");
}

// A link over one stream.
fn check_stream(
    rt: &impl Abort,
    answer: Result<usize, ErrorKind>,
    want_read: Result<usize, Failed>,
    want_write: Result<usize, Failed>,
) {
    let mut link = StreamLink::new(Fake(answer));
    assert_eq!(rt; read(&mut link), want_read, "{answer:?}");
    assert_eq!(rt; write(rt, &mut link, b"abcd"), want_write, "{answer:?}");
}

// A sink over a buffer that can flush three bytes.
fn check_flushes<S: Sink>(rt: &impl Abort, sink: &mut S) {
    assert_eq!(rt; send(sink, b"ab"), Ok(()));
    assert_eq!(rt;
        write(rt, sink, b"cd"),
        Err(Failed),
        "one byte can't be flushed"
    );
    assert_eq!(rt; write(rt, sink, b"e"), Err(Failed), "from then on");
}

#[test]
fn a_piece_is_flushed_before_its_write_answers(rt: HostRuntime) -> Result<(), Fail> {
    let mut out = [0u8; 3];
    let mut sink = StdSink::new(BufWriter::with_capacity(rt.alloc(), 16, out.as_mut_slice())?);
    check_flushes(&rt, &mut sink);
    assert_eq!(rt; sink.into_inner().buffer(), b"d".as_slice());
    assert_eq!(rt; &out, b"abc");
    Ok(())
}

// A port that was free a moment ago.
fn free_address<R: Net<Stream = TcpStream, Listener = TcpListener>>(
    rt: &R,
) -> io::Result<SocketAddr> {
    TcpListener::bind(rt, SocketAddr::from((Ipv4Addr::LOCALHOST, 0)))?.local_addr()
}

// What a client that sends `ping` and then goes gets back, once somebody listens.
fn is_echoed<R: Net<Stream = TcpStream, Listener = TcpListener> + Clock>(
    rt: &R,
    address: SocketAddr,
) -> bool {
    for _ in 0..2000u32 {
        if let Ok(stream) = TcpStream::connect(rt, address) {
            return is_answered(stream).unwrap_or(false);
        }
        thread::sleep(rt, Duration::from_millis(5));
    }
    false
}

fn is_answered(mut stream: TcpStream) -> io::Result<bool> {
    let mut buf = [0u8; 4];
    stream.set_read_timeout(Some(Duration::from_secs(10)))?;
    stream.write_all(b"ping")?;
    stream.read_exact(&mut buf)?;
    Ok(&buf == b"ping")
}

#[test]
fn a_socket_is_a_link(rt: HostRuntime) -> Result<(), Fail> {
    let mut is_served = false;
    for _ in 0..10u32 {
        let address = free_address(&rt)?;
        let client = rt.clone()?;
        let child = thread::spawn(&rt, move || is_echoed(&client, address))?;
        let mut door = TcpDoor::new(rt.clone()?, address, 1);
        let served = serve_one(&mut door);
        if child.join(&rt) && served {
            assert!(rt; is_at_end(&mut door), "one session");
            is_served = true;
            break;
        }
    }
    assert!(rt; is_served);
    Ok(())
}

#[test]
fn a_door_binds_at_its_first_accept(rt: HostRuntime) -> Result<(), Fail> {
    let taken = TcpListener::bind(&rt, SocketAddr::from((Ipv4Addr::LOCALHOST, 0)))?;
    let address = taken.local_addr()?;
    let mut door = TcpDoor::new(rt.clone()?, address, 1);
    assert!(rt; door.accept().is_err(), "somebody else listens there");
    let mut door = TcpDoor::new(rt.clone()?, address, 0);
    assert!(rt; is_at_end(&mut door), "no session");
    Ok(())
}
