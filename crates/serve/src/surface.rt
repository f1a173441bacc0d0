//! A surface, served by workers at a desk of its own.

ghost use Rattle.std.specs.Prelude.{◌≡◌, ◌<◌, ◌≤◌, length, vec_len, vec_capacity, IsSome, IfOk, IfErr};
ghost use Rattle.std.specs.List.{All};
ghost use Rattle.serve.specs.Surfaces.{HavePasses, GaveBack, ServesSurface};

use crate::gate::Gate;
use crate::worker::{Worker, serve_all};
use desk::{Desk, Pass};
use ground_io::Door;
use std::alloc::{AllocError, Global};
use std::sync::Wait;
use std::thread::Threads;
use store::Store;

// Gives each worker the pass of its place.
fn give_passes<D>(workers: &mut [Worker<D>], passes: Vec<Pass>)
    requires { vec_len passes ≡ length workers.old }
    ensures { HavePasses passes.items workers.old workers.new }
{
    let mut passes = passes;
    for worker in workers.iter_mut() {
        worker.pass = Some(passes.remove(0));
    }
}

// Takes the workers' passes back, into this room.
fn take_passes<D>(workers: &mut [Worker<D>], room: Vec<Pass>) -> Vec<Pass>
    requires empty { vec_len room ≡ 0 }
    requires room { length workers.old ≤ vec_capacity room }
    requires there { All (λ w. IsSome w.pass) workers.old }
    ensures { GaveBack result.items workers.old workers.new }
{
    let mut passes = room;
    for worker in workers.iter_mut() {
        match worker.pass.take() {
            Some(pass) => passes.push_reserved(pass),
            None => unreachable!(),
        }
    }
    passes
}

/// Serves a surface: opens a desk over its store, gives each worker the pass whose author is the
/// worker's place, counted from 1, serves the sessions of all doors as `serve_all` does, and closes
/// the desk with all passes. It gives the store as it is then. The room for the passes is made before
/// the first door is asked: out of memory no door was asked, and the workers are as before.
pub fn serve_surface<R: Threads + Wait + Sync, D: Door + Send, G: Gate + Sync>(
    rt: &R,
    alloc: Global,
    store: Store,
    workers: &mut [Worker<D>],
    gate: &G,
    budget: u64,
) -> Result<Store, AllocError>
    requires { (0 < length workers.old) × (length workers.old ≤ 16) }
    ensures ok { IfOk result (λ after. ServesSurface D.coming D.back D.out D.sessions D.accept_faults budget store.journal after.journal workers.old workers.new) }
    ensures err { IfErr result (λ _. workers.new ≡ workers.old) }
{
    let room = Vec::with_capacity(alloc, workers.len())?;
    let Ok((desk, passes)) = Desk::open(alloc, store, workers.len() as u16) else {
        return Err(AllocError);
    };
    give_passes(workers, passes);
    serve_all(rt, alloc, &desk, workers, gate, budget);
    let passes = take_passes(workers, room);
    let store = desk.close(passes);
    // Only the proof reads it: a store's journal is legal.
    let _front = store.front();
    Ok(store)
}
