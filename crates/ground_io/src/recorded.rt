//! A link that records its calls.
ghost use Rattle.std.specs.Prelude.{◌≡◌, ◌<◌, ◌≤◌, [], Some, IfOk, OnOk, vec_len, vec_capacity, refl};

use crate::fault::{Failed, FaultCount};
use crate::link::Link;
use crate::mem_sink::push_all;
use crate::sink::Sink;
use crate::source::Source;
use std::alloc::{AllocError, Global};
use std::marker::Model;

/// A call that didn't fail, with the bytes that it moved.
#[derive(Debug, Drop)]
pub enum Call {
    /// A read. It gave no byte at the end.
    Received(Vec<u8>),

    /// A write.
    Sent(Vec<u8>),
}

/// A link that records its calls in their order. A call fails where the link does, and where memory
/// for its record can't be had.
#[derive(Drop)]
pub struct Recorded<L: Link> {
    link: L,
    calls: Vec<Call>,
    read_faults: FaultCount,
    write_faults: FaultCount,
}

impl<L: Link> Model for Recorded<L> {
    ghost use Rattle.ground_io.specs.Recording.{RecordView, events_of};

    ghost Value = { RecordView L };

    ghost view = { λ r. record { link = r.link; calls = events_of r.calls.items; read_faults = r.read_faults; write_faults = r.write_faults } };
}

impl<L: Link> Recorded<L> {
    ghost use Rattle.ground_io.specs.Recording.{events_of};

    pub fn new(alloc: Global, link: L) -> Self
        ensures { result ≡ record { link = link; calls = []; read_faults = 0; write_faults = 0 } }
    {
        Recorded {
            link,
            calls: Vec::new(alloc),
            read_faults: FaultCount::new(),
            write_faults: FaultCount::new(),
        }
    }

    pub fn calls(&self) -> &[Call]
        ensures { events_of result.now ≡ self.now.calls }
    {
        &self.calls
    }
}

impl<L: Link> Source for Recorded<L> {
    ghost left = { λ r. L.left r.link };

    ghost read_faults = { λ r. r.read_faults };

    ghost read_order = { λ r. Some r.calls };

    ghost beside_reads = { λ r. record { known = L.written r.link; faults = r.write_faults; names = L.names r.link } };

    #[tactic(auto, using(crate::proofs::Calls::records_call))]
    fn read(&mut self, into: &mut [u8]) -> Result<usize, Failed> {
        // Room comes first, so that no byte is lost where there is none.
        let Ok(mut bytes) = room_for(&mut self.calls, into.len()) else {
            return Err(self.read_faults.rise());
        };
        match self.link.read(into) {
            Ok(count) => {
                push_all(&mut bytes, &into[..count]);
                self.calls.push_reserved(Call::Received(bytes));
                Ok(count)
            }
            Err(Failed) => Err(self.read_faults.rise()),
        }
    }
}

impl<L: Link> Sink for Recorded<L> {
    ghost written = { λ r. L.written r.link };

    ghost write_faults = { λ r. r.write_faults };

    ghost write_order = { λ r. Some r.calls };

    ghost beside_writes = { λ r. record { known = L.left r.link; faults = r.read_faults; names = L.names r.link } };

    #[tactic(auto, using(crate::proofs::Calls::records_call))]
    fn write(&mut self, piece: &[u8]) -> Result<usize, Failed> {
        let Ok(mut bytes) = room_for(&mut self.calls, piece.len()) else {
            return Err(self.write_faults.rise());
        };
        match self.link.write(piece) {
            Ok(count) => {
                push_all(&mut bytes, &piece[..count]);
                self.calls.push_reserved(Call::Sent(bytes));
                Ok(count)
            }
            Err(Failed) => Err(self.write_faults.rise()),
        }
    }
}

impl<L: Link> Link for Recorded<L> {
    ghost names = { λ r. L.names r.link };

    ghost reads_keep = { λ _. refl };

    ghost writes_keep = { λ _. refl };

    ghost one_order = { λ _. refl };
}

// Room for the record of a call that moves at most so many bytes.
fn room_for(calls: &mut Vec<Call>, most: usize) -> Result<Vec<u8>, AllocError>
    ensures same { calls.new.items ≡ calls.old.items }
    ensures one { OnOk result (vec_len calls.new < vec_capacity calls.new) }
    ensures bytes { IfOk result (λ b. (b.items ≡ []) × (most ≤ vec_capacity b)) }
{
    calls.reserve(1)?;
    Vec::with_capacity(*calls.allocator(), most)
}
