//! A source in memory.
ghost use Rattle.std.specs.Prelude.{◌≡◌, ◌<◌, [], Some, length, min, take, IfOk, IsOk, None};
ghost use Rattle.std.specs.Io.{ReadsAtMost};
ghost use Rattle.std.specs.Io.KnownBytes.{ReadConsumes};
ghost use Rattle.ground_io.specs.Causes.{HasCause};
ghost use Rattle.ground_io.specs.Streams.{alone};
ghost use Rattle.ground_io.specs.Memory.{plan_of, CountsCall, FailsAsPlanned};

use crate::fault::Failed;
use crate::fault_plan::FaultPlan;
use crate::source::Source;
use std::alloc::{AllocError, Global};
use std::marker::Model;

/// A source of bytes in memory, of which the reads with the numbers `fail` fail.
#[derive(Drop)]
pub struct MemSource {
    bytes: Vec<u8>,
    at: usize,
    plan: FaultPlan,
}

impl Model for MemSource {
    ghost use Rattle.std.specs.Prelude.{◌≤◌, drop, vec_len};
    ghost use Rattle.ground_io.specs.Memory.{SourceView};

    ghost Value = { SourceView };

    ghost view = { λ s. record { bytes = drop s.at s.bytes.items; plan = s.plan } };

    ghost invariant = { λ s. s.at ≤ vec_len s.bytes };
}

impl MemSource {
    pub fn new(alloc: Global, bytes: &[u8], fail: &[u64]) -> Result<MemSource, AllocError>
        ensures { IfOk result (λ s. s ≡ record { bytes = bytes.now; plan = plan_of fail.now }) }
    {
        Ok(MemSource {
            bytes: bytes.to_vec(alloc)?,
            at: 0,
            plan: FaultPlan::new(alloc, fail)?,
        })
    }
}

impl Source for MemSource {
    ghost left = { λ s. Some s.bytes };

    ghost read_faults = { λ s. s.plan.faults };

    ghost read_order = { λ _. None };

    ghost beside_reads = { λ _. alone };

    /// Ok gives as many bytes as are left and fit.
    fn read(&mut self, into: &mut [u8]) -> Result<usize, Failed>
        requires { 0 < length into.old }
        ensures bound { ReadsAtMost result into.new }
        ensures bytes { ReadConsumes (Some self.old.bytes) (Some self.new.bytes) result into.new }
        ensures cause { HasCause self.old.plan.faults self.new.plan.faults result }
        ensures count { IfOk result (λ n. n ≡ min (length into.old) (length self.old.bytes)) }
        ensures counts { CountsCall self.old.plan self.new.plan result }
        ensures planned { FailsAsPlanned self.old.plan result }
        ensures steady { self.old.plan.fail ≡ [] → IsOk result }
    {
        self.plan.begin_call()?;
        let count = copy_front(&self.bytes[self.at..], into);
        self.at += count;
        Ok(count)
    }
}

// Copies as much as fits, and says how much.
fn copy_front(from: &[u8], into: &mut [u8]) -> usize
    ensures count { result ≡ min (length from.now) (length into.old) }
    ensures bytes { take result into.new ≡ take result from.now }
{
    let count = from.len().min(into.len());
    into[..count].copy_from_slice(&from[..count]);
    count
}
