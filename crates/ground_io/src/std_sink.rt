//! Any writer of std as a sink.
ghost use Rattle.std.specs.Prelude.{◌≡◌, None};
ghost use Rattle.ground_io.specs.Streams.{alone};
ghost use Rattle.ground_io.specs.Outside.{without_last};

use crate::fault::{Failed, FaultCount};
use crate::sink::Sink;
use std::io::Write;
use std::marker::Model;

/// A writer of std that counts its faults: each Err, and a writer that takes nothing. Each piece is
/// flushed before its write answers, so a client that waits for it gets it.
///
/// Where a flush fails, nobody knows whether its piece went out. It doesn't count as written, and each
/// later write fails, so that no byte goes out twice.
#[derive(Drop)]
pub struct StdSink<W: Write> {
    inner: W,
    faults: FaultCount,
    unflushed: usize,
}

impl<W: Write> Model for StdSink<W> {
    ghost use Rattle.ground_io.specs.Outside.{WriterView};

    ghost Value = { WriterView W };

    ghost view = { λ s. record { inner = s.inner; faults = s.faults; unflushed = s.unflushed } };
}

impl<W: Write> StdSink<W> {
    pub fn new(inner: W) -> Self
        ensures { result ≡ record { inner = inner; faults = 0; unflushed = 0 } }
    {
        StdSink {
            inner,
            faults: FaultCount::new(),
            unflushed: 0,
        }
    }

    /// The writer, with the bytes that could not be flushed.
    pub fn into_inner(self) -> W
        ensures { result ≡ self.inner }
    {
        let StdSink {
            inner,
            faults: _,
            unflushed: _,
        } = self;
        inner
    }
}

impl<W: Write> Sink for StdSink<W> {
    ghost written = { λ s. without_last s.unflushed (W.contents s.inner) };

    ghost write_faults = { λ s. s.faults };

    ghost write_order = { λ _. None };

    ghost beside_writes = { λ _. alone };

    fn write(&mut self, piece: &[u8]) -> Result<usize, Failed> {
        if self.unflushed > 0 {
            return Err(self.faults.rise());
        }
        match self.inner.write(piece) {
            Ok(count) if count > 0 => {
                if self.inner.flush().is_err() {
                    self.unflushed = count;
                    return Err(self.faults.rise());
                }
                Ok(count)
            }
            _ => Err(self.faults.rise()),
        }
    }
}
