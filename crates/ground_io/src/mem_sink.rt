//! A sink in memory.
ghost use Rattle.std.specs.Prelude.{◌≡◌, ◌↔◌, ◌⊎◌, ◌+◌, ◌-◌, ◌<◌, ◌≤◌, ◌++◌, [], Some, length, min, vec_len, vec_capacity, IfOk, IsOk, IsErr, OnErr, None};
ghost use Rattle.std.specs.Io.KnownBytes.{WriteAppends};
ghost use Rattle.ground_io.specs.Causes.{HasCause};
ghost use Rattle.ground_io.specs.Streams.{alone, TakesSome};
ghost use Rattle.ground_io.specs.Memory.{plan_of, CountsCall, IsPlanned};

use crate::fault::Failed;
use crate::fault_plan::FaultPlan;
use crate::sink::Sink;
use std::alloc::{AllocError, Global};
use std::marker::Model;

/// A sink in memory, whose room is taken when it is made. The writes with the numbers `fail` fail,
/// and each where no room is left.
#[derive(Drop)]
pub struct MemSink {
    bytes: Vec<u8>,
    room: usize,
    plan: FaultPlan,
}

impl Model for MemSink {
    ghost use Rattle.std.specs.Prelude.{◌≤◌, ◌+◌, vec_len, vec_capacity};
    ghost use Rattle.ground_io.specs.Memory.{SinkView};

    ghost Value = { SinkView };

    ghost view = { λ s. record { bytes = s.bytes.items; room = s.room; plan = s.plan } };

    ghost invariant = { λ s. vec_len s.bytes + s.room ≤ vec_capacity s.bytes };
}

impl MemSink {
    pub fn new(alloc: Global, room: usize, fail: &[u64]) -> Result<MemSink, AllocError>
        ensures { IfOk result (λ s. s ≡ record { bytes = []; room = room; plan = plan_of fail.now }) }
    {
        Ok(MemSink {
            bytes: Vec::with_capacity(alloc, room)?,
            room,
            plan: FaultPlan::new(alloc, fail)?,
        })
    }

    pub fn written(&self) -> &[u8]
        ensures { result.now ≡ self.now.bytes }
    {
        &self.bytes
    }
}

impl Sink for MemSink {
    ghost written = { λ s. Some s.bytes };

    ghost write_faults = { λ s. s.plan.faults };

    ghost write_order = { λ _. None };

    ghost beside_writes = { λ _. alone };

    /// Ok takes the first bytes that fit the room that is left.
    fn write(&mut self, piece: &[u8]) -> Result<usize, Failed>
        requires { 0 < length piece.now }
        ensures bound { TakesSome result piece.now }
        ensures bytes { WriteAppends (Some self.old.bytes) (Some self.new.bytes) result piece.now }
        ensures cause { HasCause self.old.plan.faults self.new.plan.faults result }
        ensures count { IfOk result (λ n. n ≡ min (length piece.now) self.old.room) }
        ensures room { IfOk result (λ n. self.old.room ≡ self.new.room + n) }
        ensures same_room { OnErr result (self.new.room ≡ self.old.room) }
        ensures counts { CountsCall self.old.plan self.new.plan result }
        ensures planned { IsErr result ↔ (IsPlanned self.old.plan ⊎ (self.old.room ≡ 0)) }
        ensures steady { self.old.plan.fail ≡ [] → 0 < self.old.room → IsOk result }
    {
        self.plan.begin_call()?;
        if self.room == 0 {
            return Err(self.plan.rise());
        }
        let count = piece.len().min(self.room);
        push_all(&mut self.bytes, &piece[..count]);
        self.room -= count;
        Ok(count)
    }
}

// Appends bytes for which there is room.
pub(crate) fn push_all(bytes: &mut Vec<u8>, piece: &[u8])
    requires { vec_len bytes.old + length piece.now ≤ vec_capacity bytes.old }
    ensures bytes { bytes.new.items ≡ bytes.old.items ++ piece.now }
    ensures room { vec_capacity bytes.new ≡ vec_capacity bytes.old }
{
    for byte in piece {
        bytes.push_reserved(*byte);
    }
}
