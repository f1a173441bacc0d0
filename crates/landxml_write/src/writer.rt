//! A buffered writer over a sink.

ghost use Rattle.std.specs.Prelude.{◌≡◌, [], true, false, MatchResult, OnOk};
ghost use Rattle.ground_io.specs.Causes.{HasCause};
ghost use Rattle.ground_io.specs.Order.{SendsText};
ghost use Rattle.ground_io.specs.Streams.{WritesText};
ghost use Rattle.landxml_write.specs.Flowing.{Flow, Flows, flow_of};

use crate::bytes::{Bytes, ROOM};
use crate::output::Output;
use ground_io::{Failed, Sink, write_all};
use ground_num::{Thousandths, put_decimal};
use itoa::Buffer;

/// A sink with the bytes that wait for the next write. After a failed write it passes over the rest.
#[derive(Drop)]
pub(crate) struct Writer<'a, S> {
    sink: &'a mut S,
    held: Bytes,
    failed: bool,
}

// Bytes that wait before they go on.
trait Holding {
    ghost use Rattle.std.specs.Prelude.{◌+◌, ◌≤◌, length};

    ghost flow: { Self → Flow };

    // How many more bytes it can hold.
    fn room(&self) -> usize
        ensures { length (flow self.now).held + result ≡ 8192 };

    // Sends on what it holds.
    fn flush(&mut self)
        ensures flows { Flows (flow self.old) (flow self.new) [] }
        ensures held { (flow self.new).failed ≡ false → (flow self.new).held ≡ [] };

    // Holds the piece.
    fn hold(&mut self, piece: &[u8])
        requires { (flow self.old).failed ≡ false → length (flow self.old).held + length piece.now ≤ 8192 }
        ensures { Flows (flow self.old) (flow self.new) piece.now };

    // Writes a piece that is too long to be held.
    fn pass(&mut self, piece: &[u8])
        requires { (flow self.old).failed ≡ false → (flow self.old).held ≡ [] }
        ensures { Flows (flow self.old) (flow self.new) piece.now };
}

// Sends the bytes on.
fn send<S: Sink>(sink: &mut S, held: &mut Bytes) -> Result<(), Failed>
    ensures bytes { WritesText (S.written sink.old) (S.written sink.new) result held.old }
    ensures order { SendsText (S.write_order sink.old) (S.write_order sink.new) result held.old }
    ensures cause { HasCause (S.write_faults sink.old) (S.write_faults sink.new) result }
    ensures rest { S.beside_writes sink.new ≡ S.beside_writes sink.old }
    ensures held { held.new ≡ [] }
{
    let result = write_all(sink, held.as_bytes());
    held.clear();
    result
}

impl<'a, S: Sink> Holding for Writer<'a, S> {
    ghost flow = { λ w. flow_of (S.written w.sink.now) (S.write_order w.sink.now) (S.write_faults w.sink.now) (S.beside_writes w.sink.now) w.sink.ghost_name w.held w.failed };

    fn room(&self) -> usize {
        self.held.room()
    }

    fn flush(&mut self) {
        if !self.failed {
            self.failed = send(self.sink, &mut self.held).is_err();
        }
    }

    fn hold(&mut self, piece: &[u8]) {
        if !self.failed {
            self.held.add(piece);
        }
    }

    fn pass(&mut self, piece: &[u8]) {
        if !self.failed {
            self.failed = write_all(self.sink, piece).is_err();
        }
    }
}

// Holds the piece, or sends it on where it has no room.
fn put_piece<H: Holding>(holding: &mut H, piece: &[u8])
    ensures { Flows (H.flow holding.old) (H.flow holding.new) piece.now }
{
    if piece.len() <= holding.room() {
        return holding.hold(piece);
    }
    holding.flush();
    if piece.len() <= ROOM {
        holding.hold(piece);
    } else {
        holding.pass(piece);
    }
}

impl<'a, S: Sink> Writer<'a, S> {
    /// A writer that holds nothing.
    pub(crate) fn new(sink: &'a mut S) -> Self
        ensures sink { result.sink.now ≡ sink.old }
        ensures name { result.sink.ghost_name ≡ sink.entry.ghost_name }
        ensures held { result.held ≡ [] }
        ensures failed { result.failed ≡ false }
    {
        Writer {
            sink,
            held: Bytes::new(),
            failed: false,
        }
    }

    /// Sends on what it holds. Whether all was written.
    pub(crate) fn finish(&mut self) -> Result<(), Failed>
        ensures flows { Flows (flow_of (S.written self.old.sink.now) (S.write_order self.old.sink.now) (S.write_faults self.old.sink.now) (S.beside_writes self.old.sink.now) self.old.sink.ghost_name self.old.held self.old.failed) (flow_of (S.written self.new.sink.now) (S.write_order self.new.sink.now) (S.write_faults self.new.sink.now) (S.beside_writes self.new.sink.now) self.new.sink.ghost_name self.new.held self.new.failed) [] }
        ensures held { OnOk result (self.new.held ≡ []) }
        ensures failed { MatchResult result (λ _. self.new.failed ≡ false) (λ _. self.new.failed ≡ true) }
    {
        self.flush();
        if self.failed { Err(Failed) } else { Ok(()) }
    }
}

impl<'a, S: Sink> Output for Writer<'a, S> {
    ghost use Rattle.landxml_write.specs.Flowing.{Flows, flow_of, flows_none, flows_both};

    ghost Takes = { λ x y text. Flows (flow_of (S.written x.sink.now) (S.write_order x.sink.now) (S.write_faults x.sink.now) (S.beside_writes x.sink.now) x.sink.ghost_name x.held x.failed) (flow_of (S.written y.sink.now) (S.write_order y.sink.now) (S.write_faults y.sink.now) (S.beside_writes y.sink.now) y.sink.ghost_name y.held y.failed) text };

    fn put(&mut self, piece: &[u8]) {
        put_piece(self, piece);
    }

    fn put_number(&mut self, number: u32) {
        let mut buffer = Buffer::new();
        put_piece(self, buffer.format(number).as_bytes());
    }

    fn put_thousandths(&mut self, value: i64) {
        let mut decimal = [0u8; 24];
        let len = put_decimal(Thousandths(value), &mut decimal);
        put_piece(self, &decimal[..len]);
    }

    ghost takes_none = { λ x. flows_none _ };

    ghost takes_both = { λ x y z t u. flows_both _ _ _ t u };
}
