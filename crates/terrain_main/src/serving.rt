//! The command `serve`.

ghost use Rattle.std.specs.Prelude.{◌≡◌, ◌↔◌, ◌<◌, ◌≤◌, ◌++◌, ◌∷◌, [], Option, None, Some, false, length, codes, IfSome, option_map};
ghost use Rattle.std.specs.List.{All};
ghost use Rattle.landxml_surface.specs.declared.origin.OriginRule.{OriginRule as Rule};
ghost use Rattle.landxml_surface.specs.Drafts.{IsRule};
ghost use Rattle.line_protocol.specs.Replies.{spaced};
ghost use Rattle.document_commands.specs.Streams.{stream};
ghost use Rattle.terrain_main.specs.Commands.{serve_words as serve_by, serving_of as serving_by_words, serve_name as serve_name_by, fault_line, PutsLine};
ghost use Rattle.terrain_main.specs.Serving.{doors, server, any_failed, EndsServing, ServesTo, RunsServe};
ghost use Rattle.terrain_main.specs.declared.status.Status.TheVariants.{Usage};
ghost use Rattle.terrain_main.specs.declared.words.Listen.{Listen as Numbers};
ghost use Rattle.turn_lock.specs.declared.journal.Journal.{Journal};

use crate::status::Status;
use crate::words::{serve_name, serving_of};
use document_commands::open_surface;
use ground_io::{Door, Sink, Source, write_all};
use ground_model::Limits;
use landxml_surface::OriginRule;
use line_protocol::Text;
use serve::{OpenGate, Worker, serve_surface};
use std::alloc::{AllocError, Global};
use std::sync::Wait;
use std::thread::Threads;
use store::Store;

/// The bytes that one session may read.
const BUDGET: u64 = 1 << 40;

// The last line: how many entries sessions made, and the last front.
fn last_line(made: u32, front: u32) -> Text
    ensures { result ≡ codes "served" ++ spaced made ++ codes " front" ++ spaced front ++ 10 ∷ [] }
{
    let mut text = Text::new();
    text.add(b"served");
    text.add_number(u64::from(made));
    text.add(b" front");
    text.add_number(u64::from(front));
    text.add(b"\n");
    text
}

// Whether the door of a worker failed.
fn has_failed<D>(workers: &[Worker<D>]) -> bool
    ensures { result ≡ any_failed workers.now }
{
    workers.iter().any(|worker| worker.failed)
}

// Writes the last line, once all workers are back.
fn put_last<D, O: Sink>(line: &[u8], workers: &[Worker<D>], output: &mut O) -> Status
    ensures { EndsServing (stream (O.written output.old) (O.write_faults output.old)) (stream (O.written output.new) (O.write_faults output.new)) workers.now line.now result }
{
    match write_all(output, line) {
        Ok(()) if has_failed(workers) => Status::DoorFault,
        Ok(()) => Status::Ok,
        Err(_) => Status::WriteFault,
    }
}

// Serves a loaded surface, and then writes the last line. No entry of the load is by a session.
fn serve_loaded<R: Threads + Wait + Sync, D: Door + Send, O: Sink>(
    rt: &R,
    alloc: Global,
    store: Store,
    workers: &mut [Worker<D>],
    output: &mut O,
) -> Status
    requires count { (0 < length workers.old) × (length workers.old ≤ 16) }
    requires loaded { All (λ e. e.author ≡ 0) store.journal.entries }
    ensures to { (closing : Option Journal) × ServesTo (doors D.coming D.back D.out D.sessions D.accept_faults) store.journal (server (stream (O.written output.old) (O.write_faults output.old)) workers.old) (server (stream (O.written output.new) (O.write_faults output.new)) workers.new) result closing }
    ensures free { All (λ w. w.pass ≡ None) workers.old → All (λ w. w.pass ≡ None) workers.new }
{
    let loaded = store.front();
    match serve_surface(rt, alloc, store, workers, &OpenGate, BUDGET) {
        Ok(store) => {
            let front = store.front();
            let line = last_line(front - loaded, front);
            put_last(line.as_bytes(), workers, output)
        }
        Err(AllocError) => Status::Memory,
    }
}

// Loads the surface that is asked for, and serves it.
fn serve_document<R: Threads + Wait + Sync, S: Source, O: Sink, D: Door + Send>(
    rt: &R,
    alloc: Global,
    name: Option<&[u8]>,
    rule: OriginRule,
    file: &mut S,
    output: &mut O,
    workers: &mut [Worker<D>],
) -> Status
    requires rule { IsRule rule }
    requires count { (0 < length workers.old) × (length workers.old ≤ 16) }
    ensures serves { RunsServe (doors D.coming D.back D.out D.sessions D.accept_faults) (option_map (λ n. n.now) name.entry) rule (stream (S.left file.old) (S.read_faults file.old), stream (S.left file.new) (S.read_faults file.new)) (server (stream (O.written output.old) (O.write_faults output.old)) workers.old) (server (stream (O.written output.new) (O.write_faults output.new)) workers.new) result }
    ensures free { All (λ w. w.pass ≡ None) workers.old → All (λ w. w.pass ≡ None) workers.new }
{
    match open_surface(alloc, name, rule, Limits::FULL, file, output) {
        Ok(store) => serve_loaded(rt, alloc, store, workers, output),
        Err(end) => Status::of_document(end),
    }
}

/// Does what the words of a `serve` command ask for: reads the document of the file, loads the
/// surface that is asked for, serves the sessions of the workers' doors, each session with a budget of
/// 2^40 bytes, and writes the last line. No door is asked before the surface is loaded, and the line
/// is written once all workers are back. Any other words are `Usage`: then nothing is read. It may
/// wait.
pub fn run_serve<R: Threads + Wait + Sync, S: Source, O: Sink, D: Door + Send>(
    rt: &R,
    alloc: Global,
    words: &[String],
    file: &mut S,
    output: &mut O,
    workers: &mut [Worker<D>],
) -> Status
    requires idle { All (λ w. (w.pass ≡ None) × (w.failed ≡ false)) workers.old }
    requires count { IfSome (serve_by words.now) (λ listen. length workers.old ≡ listen.workers) }
    ensures usage { (result ≡ Usage) ↔ (serve_by words.now ≡ None) }
    ensures fault_line { result ≡ Usage → PutsLine (O.written output.old) (O.written output.new) (O.write_faults output.old) (O.write_faults output.new) fault_line }
    ensures unread { result ≡ Usage → file.new ≡ file.old }
    ensures unasked { result ≡ Usage → workers.new ≡ workers.old }
    ensures serves { (listen : Numbers) (rule : Rule) → serving_by_words words.now ≡ Some (listen, rule) → RunsServe (doors D.coming D.back D.out D.sessions D.accept_faults) (serve_name_by words.now) rule (stream (S.left file.old) (S.read_faults file.old), stream (S.left file.new) (S.read_faults file.new)) (server (stream (O.written output.old) (O.write_faults output.old)) workers.old) (server (stream (O.written output.new) (O.write_faults output.new)) workers.new) result }
    ensures free { All (λ w. w.pass ≡ None) workers.new }
{
    match serving_of(words) {
        Some((_, rule)) => {
            serve_document(rt, alloc, serve_name(words), rule, file, output, workers)
        }
        None => {
            let _ = write_all(output, b"fault usage\n");
            Status::Usage
        }
    }
}
