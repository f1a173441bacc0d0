//! Any reader of std as a source.
ghost use Rattle.std.specs.Prelude.{◌≡◌, None};
ghost use Rattle.ground_io.specs.Streams.{alone};

use crate::fault::{Failed, FaultCount};
use crate::source::Source;
use std::io::Read;
use std::marker::Model;

/// A reader of std that counts its faults: each Err, an interrupted call's too. What is known of its
/// bytes is what is known of the reader's.
#[derive(Drop)]
pub struct StdSource<R: Read> {
    inner: R,
    faults: FaultCount,
}

impl<R: Read> Model for StdSource<R> {
    ghost use Rattle.ground_io.specs.Outside.{ReaderView};

    ghost Value = { ReaderView R };

    ghost view = { λ s. record { inner = s.inner; faults = s.faults } };
}

impl<R: Read> StdSource<R> {
    pub fn new(inner: R) -> Self
        ensures { result ≡ record { inner = inner; faults = 0 } }
    {
        StdSource {
            inner,
            faults: FaultCount::new(),
        }
    }
}

impl<R: Read> Source for StdSource<R> {
    ghost left = { λ s. R.remaining s.inner };

    ghost read_faults = { λ s. s.faults };

    ghost read_order = { λ _. None };

    ghost beside_reads = { λ _. alone };

    fn read(&mut self, into: &mut [u8]) -> Result<usize, Failed> {
        match self.inner.read(into) {
            Ok(count) => Ok(count),
            Err(_) => Err(self.faults.rise()),
        }
    }
}
