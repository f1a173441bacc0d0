//! The calls of an object in memory: which of them are to fail, and how many there were.
ghost use Rattle.std.specs.Prelude.{◌≡◌, IfOk, [], IsOk};
ghost use Rattle.ground_io.specs.Causes.{Rises};
ghost use Rattle.ground_io.specs.Memory.{CountsCall, FailsAsPlanned};

use crate::fault::{Failed, FaultCount};
use std::alloc::{AllocError, Global};
use std::marker::Model;

/// Calls are numbered from 1, up to the end of a `u64`, where the number stands still.
#[derive(Drop)]
pub struct FaultPlan {
    fail: Vec<u64>,
    calls: u64,
    faults: FaultCount,
}

impl Model for FaultPlan {
    ghost use Rattle.ground_io.specs.Memory.{Plan};

    ghost Value = { Plan };

    ghost view = { λ p. record { fail = p.fail.items; calls = p.calls; faults = p.faults } };
}

impl FaultPlan {
    ghost use Rattle.ground_io.specs.Memory.{plan_of};

    pub fn new(alloc: Global, fail: &[u64]) -> Result<FaultPlan, AllocError>
        ensures { IfOk result (λ p. p ≡ plan_of fail.now) }
    {
        Ok(FaultPlan {
            fail: fail.to_vec(alloc)?,
            calls: 0,
            faults: FaultCount::new(),
        })
    }

    /// Begins the next call. It fails where its number is in the list.
    pub fn begin_call(&mut self) -> Result<(), Failed>
        ensures counts { CountsCall self.old self.new result }
        ensures planned { FailsAsPlanned self.old result }
    {
        self.calls = self.calls.saturating_add(1);
        if self.fail.contains(&self.calls) {
            return Err(self.faults.rise());
        }
        Ok(())
    }

    /// Counts a fault that isn't planned.
    pub fn rise(&mut self) -> Failed
        ensures faults { Rises self.old.faults self.new.faults }
        ensures same { self.new ≡ record self.old { faults = self.new.faults } }
    {
        self.faults.rise()
    }
}
