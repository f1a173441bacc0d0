//! Any stream of std as a link, and a socket as one.
ghost use Rattle.std.specs.Prelude.{◌≡◌, None, [], refl};

use crate::fault::{Failed, FaultCount};
use crate::link::Link;
use crate::sink::Sink;
use crate::source::Source;
use std::io::{Read, Write};
use std::marker::Model;
use std::net::TcpStream;

/// A TCP stream as a link. It closes when it is dropped.
pub type TcpLink = StreamLink<TcpStream>;

/// A stream that counts its faults: each Err, an interrupted call's too, and a write that takes
/// nothing. Nothing is known of its bytes, and no write is flushed: a stream is to hold nothing back.
#[derive(Drop)]
pub struct StreamLink<S: Read + Write> {
    stream: S,
    read_faults: FaultCount,
    write_faults: FaultCount,
}

impl<S: Read + Write> Model for StreamLink<S> {
    ghost use Rattle.ground_io.specs.Outside.{StreamView};

    ghost Value = { StreamView S };

    ghost view = { λ l. record { stream = l.stream; read_faults = l.read_faults; write_faults = l.write_faults } };
}

impl<S: Read + Write> StreamLink<S> {
    pub fn new(stream: S) -> Self
        ensures { result ≡ record { stream = stream; read_faults = 0; write_faults = 0 } }
    {
        StreamLink {
            stream,
            read_faults: FaultCount::new(),
            write_faults: FaultCount::new(),
        }
    }
}

impl<S: Read + Write> Source for StreamLink<S> {
    ghost left = { λ _. None };

    ghost read_faults = { λ l. l.read_faults };

    ghost read_order = { λ _. None };

    ghost beside_reads = { λ l. record { known = None; faults = l.write_faults; names = [] } };

    fn read(&mut self, into: &mut [u8]) -> Result<usize, Failed> {
        match self.stream.read(into) {
            Ok(count) => Ok(count),
            Err(_) => Err(self.read_faults.rise()),
        }
    }
}

impl<S: Read + Write> Sink for StreamLink<S> {
    ghost written = { λ _. None };

    ghost write_faults = { λ l. l.write_faults };

    ghost write_order = { λ _. None };

    ghost beside_writes = { λ l. record { known = None; faults = l.read_faults; names = [] } };

    fn write(&mut self, piece: &[u8]) -> Result<usize, Failed> {
        match self.stream.write(piece) {
            Ok(count) if count > 0 => Ok(count),
            _ => Err(self.write_faults.rise()),
        }
    }
}

impl<S: Read + Write> Link for StreamLink<S> {
    ghost names = { λ _. [] };

    ghost reads_keep = { λ _. refl };

    ghost writes_keep = { λ _. refl };

    ghost one_order = { λ _. refl };
}
