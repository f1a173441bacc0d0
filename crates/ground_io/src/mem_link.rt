//! A link in memory.
ghost use Rattle.std.specs.Prelude.{◌≡◌, ◌↔◌, ◌⊎◌, ◌+◌, ◌<◌, ◌≤◌, [], Some, length, min, IfOk, IsOk, IsErr, OnErr, refl, None};
ghost use Rattle.std.specs.Io.{ReadsAtMost};
ghost use Rattle.std.specs.Io.KnownBytes.{ReadConsumes, WriteAppends};
ghost use Rattle.ground_io.specs.Causes.{HasCause};
ghost use Rattle.ground_io.specs.Streams.{TakesSome};
ghost use Rattle.ground_io.specs.Memory.{plan_of, CountsCall, FailsAsPlanned, IsPlanned};

use crate::fault::Failed;
use crate::link::Link;
use crate::mem_sink::MemSink;
use crate::mem_source::MemSource;
use crate::sink::Sink;
use crate::source::Source;
use std::alloc::{AllocError, Global};
use std::marker::Model;

/// A source and a sink in memory in one. Its reads and its writes are numbered apart.
#[derive(Drop)]
pub struct MemLink {
    source: MemSource,
    sink: MemSink,
}

impl Model for MemLink {
    ghost use Rattle.ground_io.specs.Memory.{LinkView};

    ghost Value = { LinkView };

    ghost view = { λ l. record { reads = l.source; writes = l.sink } };
}

impl MemLink {
    pub fn new(
        alloc: Global,
        bytes: &[u8],
        room: usize,
        fail_reads: &[u64],
        fail_writes: &[u64],
    ) -> Result<MemLink, AllocError>
        ensures reads { IfOk result (λ l. l.reads ≡ record { bytes = bytes.now; plan = plan_of fail_reads.now }) }
        ensures writes { IfOk result (λ l. l.writes ≡ record { bytes = []; room = room; plan = plan_of fail_writes.now }) }
    {
        Ok(MemLink {
            source: MemSource::new(alloc, bytes, fail_reads)?,
            sink: MemSink::new(alloc, room, fail_writes)?,
        })
    }

    pub fn written(&self) -> &[u8]
        ensures { result.now ≡ self.now.writes.bytes }
    {
        self.sink.written()
    }
}

impl Source for MemLink {
    ghost left = { λ l. Some l.reads.bytes };

    ghost read_faults = { λ l. l.reads.plan.faults };

    ghost read_order = { λ _. None };

    ghost beside_reads = { λ l. record { known = Some l.writes.bytes; faults = l.writes.plan.faults; names = [] } };

    fn read(&mut self, into: &mut [u8]) -> Result<usize, Failed>
        requires { 0 < length into.old }
        ensures bound { ReadsAtMost result into.new }
        ensures bytes { ReadConsumes (Some self.old.reads.bytes) (Some self.new.reads.bytes) result into.new }
        ensures cause { HasCause self.old.reads.plan.faults self.new.reads.plan.faults result }
        ensures rest { self.new.writes ≡ self.old.writes }
        ensures count { IfOk result (λ n. n ≡ min (length into.old) (length self.old.reads.bytes)) }
        ensures counts { CountsCall self.old.reads.plan self.new.reads.plan result }
        ensures planned { FailsAsPlanned self.old.reads.plan result }
        ensures steady { self.old.reads.plan.fail ≡ [] → IsOk result }
    {
        self.source.read(into)
    }
}

impl Sink for MemLink {
    ghost written = { λ l. Some l.writes.bytes };

    ghost write_faults = { λ l. l.writes.plan.faults };

    ghost write_order = { λ _. None };

    ghost beside_writes = { λ l. record { known = Some l.reads.bytes; faults = l.reads.plan.faults; names = [] } };

    fn write(&mut self, piece: &[u8]) -> Result<usize, Failed>
        requires { 0 < length piece.now }
        ensures bound { TakesSome result piece.now }
        ensures bytes { WriteAppends (Some self.old.writes.bytes) (Some self.new.writes.bytes) result piece.now }
        ensures cause { HasCause self.old.writes.plan.faults self.new.writes.plan.faults result }
        ensures rest { self.new.reads ≡ self.old.reads }
        ensures count { IfOk result (λ n. n ≡ min (length piece.now) self.old.writes.room) }
        ensures room { IfOk result (λ n. self.old.writes.room ≡ self.new.writes.room + n) }
        ensures same_room { OnErr result (self.new.writes.room ≡ self.old.writes.room) }
        ensures counts { CountsCall self.old.writes.plan self.new.writes.plan result }
        ensures planned { IsErr result ↔ (IsPlanned self.old.writes.plan ⊎ (self.old.writes.room ≡ 0)) }
        ensures steady { self.old.writes.plan.fail ≡ [] → 0 < self.old.writes.room → IsOk result }
    {
        self.sink.write(piece)
    }
}

impl Link for MemLink {
    ghost names = { λ _. [] };

    ghost reads_keep = { λ _. refl };

    ghost writes_keep = { λ _. refl };

    ghost one_order = { λ _. refl };
}
