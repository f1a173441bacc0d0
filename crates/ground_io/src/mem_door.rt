//! A door in memory.
ghost use Rattle.std.specs.Prelude.{◌≡◌, ◌↔◌, ◌+◌, ◌<◌, ◌++◌, ◌∷◌, [], Some, IfSome, IsNone, IsOk, IfOk, length, slice_get};
ghost use Rattle.std.specs.Option.{option_copied};
ghost use Rattle.ground_io.specs.Causes.{HasCause};
ghost use Rattle.ground_io.specs.Wires.{SameWires, Gives, TakesBack, OnWire, OnNoWire};
ghost use Rattle.ground_io.specs.Memory.{plan_of, wire_of, wires_of, CountsCall, FailsAsPlanned};

use crate::door::Door;
use crate::fault::Failed;
use crate::fault_plan::FaultPlan;
use crate::mem_link::MemLink;
use std::alloc::{AllocError, Global};
use std::collections::VecDeque;
use std::marker::Model;

/// A door with a list of links in memory, of which the accepts with the numbers `fail` fail. Room
/// for all links that are handed back is taken when it is made.
#[derive(Drop)]
pub struct MemDoor {
    coming: VecDeque<MemLink>,
    back: Vec<MemLink>,
    out: usize,
    plan: FaultPlan,
}

impl Model for MemDoor {
    ghost use Rattle.std.specs.Prelude.{◌+◌, ◌≤◌, vec_len, vec_capacity};
    ghost use Rattle.std.specs.VecDeque.{deque_len};
    ghost use Rattle.ground_io.specs.Memory.{DoorView};

    ghost Value = { DoorView };

    ghost view = { λ d. record { coming = d.coming.items; back = d.back.items; out = d.out; plan = d.plan } };

    ghost invariant = { λ d. vec_len d.back + d.out + deque_len d.coming ≤ vec_capacity d.back };
}

impl MemDoor {
    pub fn new(alloc: Global, wires: Vec<MemLink>, fail: &[u64]) -> Result<MemDoor, AllocError>
        ensures { IfOk result (λ d. d ≡ record { coming = wires.items; back = []; out = 0; plan = plan_of fail.now }) }
    {
        let plan = FaultPlan::new(alloc, fail)?;
        Ok(MemDoor {
            back: Vec::with_capacity(alloc, wires.len())?,
            coming: VecDeque::from_vec(wires),
            out: 0,
            plan,
        })
    }

    /// The wire handed back with this index, counted from 0.
    pub fn back(&self, index: usize) -> Option<&MemLink>
        ensures { option_copied result ≡ slice_get self.now.back index }
    {
        self.back.get(index)
    }
}

impl Door for MemDoor {
    type Wire = MemLink;

    ghost out = { λ d. d.out };

    ghost sessions = { λ d. length d.coming };

    ghost coming = { λ d. Some (wires_of d.coming) };

    ghost back = { λ d. Some (wires_of d.back) };

    ghost accept_faults = { λ d. d.plan.faults };

    ghost use Rattle.std.proofs.lemmas.List.{length-map};

    ghost counted = { λ d. length-map d.coming wire_of };

    fn accept(&mut self) -> Result<Option<MemLink>, Failed>
        ensures end { IfOk result (λ o. IsNone o ↔ (length self.old.coming ≡ 0)) }
        ensures cause { HasCause self.old.plan.faults self.new.plan.faults result }
        ensures first { OnWire result (λ w. self.old.coming ≡ w ∷ self.new.coming) }
        ensures goes_out { OnWire result (λ _. self.new.out ≡ self.old.out + 1) }
        ensures same_coming { OnNoWire result (self.new.coming ≡ self.old.coming) }
        ensures same_out { OnNoWire result (self.new.out ≡ self.old.out) }
        ensures same_back { self.new.back ≡ self.old.back }
        ensures counts { CountsCall self.old.plan self.new.plan result }
        ensures planned { FailsAsPlanned self.old.plan result }
        ensures steady { self.old.plan.fail ≡ [] → IsOk result }
    {
        self.plan.begin_call()?;
        match self.coming.pop_front() {
            Some(wire) => {
                self.out += 1;
                Ok(Some(wire))
            }
            None => Ok(None),
        }
    }

    fn hand_back(&mut self, wire: MemLink)
        requires { 0 < self.old.out }
        ensures back { self.new.back ≡ self.old.back ++ wire ∷ [] }
        ensures comes_in { self.old.out ≡ self.new.out + 1 }
        ensures same_coming { self.new.coming ≡ self.old.coming }
        ensures same_plan { self.new.plan ≡ self.old.plan }
    {
        self.out -= 1;
        self.back.push_reserved(wire);
    }
}
