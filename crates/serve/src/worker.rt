//! Workers: each serves the sessions of its door, one after another, with its pass.

ghost use Rattle.std.specs.Prelude.{◌≡◌, ◌+◌, ◌<◌, ℕ, List, [], true, false, length, slice_index_or, IfSome, IsSomeAnd};
ghost use Rattle.std.specs.List.{All};
ghost use Rattle.ground_io.specs.Causes.{Rose};
ghost use Rattle.ground_io.specs.Wires.{WireView, SameWires, TakesBack, wire_view};
ghost use Rattle.serve.specs.AtDesk.{Goes};
ghost use Rattle.serve.specs.Doors.{ServesWire, ServesDoor, Works};
ghost use Rattle.serve.specs.declared.worker.Worker.{Worker as Seen};

use crate::gate::Gate;
use crate::served::serve_session;
use desk::{Desk, Pass};
use ground_io::{Door, Failed};
use std::alloc::Global;
use std::sync::Wait;
use std::thread;
use std::thread::Threads;

/// The most threads that serve at once.
const THREADS: usize = 16;

/// One of a server's workers: its door, its pass, and whether the door failed.
#[derive(Drop)]
pub struct Worker<D> {
    pub door: D,
    pub pass: Option<Pass>,
    pub failed: bool,
}

// Serves one wire, and hands it back.
fn serve_wire<R: Wait, D: Door, G: Gate>(
    rt: &R,
    alloc: Global,
    desk: &Desk,
    pass: Pass,
    door: &mut D,
    wire: D::Wire,
    gate: &G,
    budget: u64,
) -> Pass
    requires desk { pass.table ≡ desk.now.table }
    requires out { 0 < D.out door.old }
    ensures served { (after : WireView) × ServesWire pass result budget (wire_view D.Wire.left D.Wire.written D.Wire.read_order D.Wire.read_faults D.Wire.write_faults wire) after × TakesBack (D.back door.old) (D.back door.new) after }
    ensures pass { (fronts : List ℕ) × Goes pass result fronts }
    ensures table { result.table ≡ pass.table }
    ensures comes_in { D.out door.old ≡ D.out door.new + 1 }
    ensures same_coming { SameWires (D.coming door.old) (D.coming door.new) }
    ensures same_sessions { D.sessions door.new ≡ D.sessions door.old }
    ensures same_faults { D.accept_faults door.new ≡ D.accept_faults door.old }
{
    let mut wire = wire;
    let (pass, _ended) = serve_session(rt, alloc, desk, pass, &mut wire, gate, budget);
    door.hand_back(wire);
    pass
}

// Serves the sessions of a door until none is left, or until it fails, which is the answer.
fn serve_wires<R: Wait, D: Door, G: Gate>(
    rt: &R,
    alloc: Global,
    desk: &Desk,
    pass: Pass,
    door: &mut D,
    gate: &G,
    budget: u64,
) -> (Pass, bool)
    requires { pass.table ≡ desk.now.table }
    ensures served { ServesDoor pass result.0 budget (D.coming door.old, D.coming door.new) (D.back door.old, D.back door.new) }
    ensures table { result.0.table ≡ pass.table }
    ensures same_out { D.out door.new ≡ D.out door.old }
    ensures all { result.1 ≡ false → (D.sessions door.new ≡ 0) × IfSome (D.coming door.new) (λ wires. wires ≡ []) }
    ensures failed { result.1 ≡ true → Rose (D.accept_faults door.old) (D.accept_faults door.new) }
    ensures passed { result.1 ≡ false → D.accept_faults door.new ≡ D.accept_faults door.old }
{
    let mut pass = pass;
    'sessions: loop {
        match door.accept() {
            Ok(Some(wire)) => pass = serve_wire(rt, alloc, desk, pass, door, wire, gate, budget),
            Ok(None) => return (pass, false),
            Err(Failed) => return (pass, true),
        }
    }
}

// Serves the sessions of a worker's door with its pass.
fn work<R: Wait, D: Door, G: Gate>(
    rt: &R,
    alloc: Global,
    desk: &Desk,
    worker: &mut Worker<D>,
    gate: &G,
    budget: u64,
)
    requires { IsSomeAnd worker.old.pass (λ p. p.table ≡ desk.now.table) }
    ensures { Works D.coming D.back D.out D.sessions D.accept_faults budget worker.old worker.new }
{
    if let Some(pass) = worker.pass.take() {
        let (pass, failed) = serve_wires(rt, alloc, desk, pass, &mut worker.door, gate, budget);
        worker.pass = Some(pass);
        worker.failed = failed;
    }
}

/// Serves the sessions of all doors, each worker's one after another with its pass, and the workers
/// side by side in threads. Where a thread can't be had its worker's sessions come after others'. The
/// fault of a session ends that session alone, and a door that fails ends its worker's. Each wire is
/// handed back to its door, and each pass to its worker.
pub fn serve_all<R: Threads + Wait + Sync, D: Door + Send, G: Gate + Sync>(
    rt: &R,
    alloc: Global,
    desk: &Desk,
    workers: &mut [Worker<D>],
    gate: &G,
    budget: u64,
)
    requires { All (λ w. IsSomeAnd w.pass (λ p. p.table ≡ desk.now.table)) workers.old }
    ensures { (i : ℕ) (d : Seen D) → i < length workers.old → Works D.coming D.back D.out D.sessions D.accept_faults budget (slice_index_or workers.old i d) (slice_index_or workers.new i d) }
{
    thread::for_each_mut(
        rt,
        workers,
        THREADS,
        &|_, worker|
            requires { IsSomeAnd worker.old.pass (λ p. p.table ≡ desk.now.table) }
            ensures { Works D.coming D.back D.out D.sessions D.accept_faults budget worker.old worker.new }
        { work(rt, alloc, desk, worker, gate, budget) },
    );
}
