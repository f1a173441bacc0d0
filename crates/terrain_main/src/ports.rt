//! Serving on the loopback ports.

ghost use Rattle.std.specs.Prelude.{◌≡◌, ◌≤◌, ◌+◌, Some, None, false, vec_len, IfOk};
ghost use Rattle.std.specs.List.{All};
ghost use Rattle.terrain_main.specs.Commands.{serve_words as serve_by};

use crate::serving::run_serve;
use crate::status::Status;
use crate::words::Listen;
use ground_io::{Sink, Source, TcpDoor};
use serve::Worker;
use std::alloc::{AllocError, Global};
use std::net::{Ipv4Addr, Net, SocketAddr, TcpListener, TcpStream};
use std::sync::Wait;
use std::thread::Threads;

// A worker for each of the ports. None listens before its first session is asked for.
fn workers_at<R>(
    rt: &R,
    alloc: Global,
    listen: Listen,
) -> Result<Vec<Worker<TcpDoor<R>>>, AllocError>
where
    R: Clone + Net<Stream = TcpStream, Listener = TcpListener>,
    requires { listen.port + listen.workers ≤ 65536 }
    ensures count { IfOk result (λ workers. vec_len workers ≡ listen.workers) }
    ensures idle { IfOk result (λ workers. All (λ w. (w.pass ≡ None) × (w.failed ≡ false)) workers.items) }
{
    let mut workers = Vec::new(alloc);
    for number in 0..listen.workers {
        let address = SocketAddr::from((Ipv4Addr::LOCALHOST, listen.port + number));
        let worker = Worker {
            door: TcpDoor::new(rt.clone()?, address, listen.sessions),
            pass: None,
            failed: false,
        };
        workers.push(worker)?;
    }
    Ok(workers)
}

/// Serves a document's surface on these ports, as the words ask.
pub(crate) fn serve_at<R, S: Source, O: Sink>(
    rt: &R,
    alloc: Global,
    words: &[String],
    listen: Listen,
    input: &mut S,
    output: &mut O,
) -> Status
where
    R: Threads + Wait + Sync + Send + Clone + Net<Stream = TcpStream, Listener = TcpListener>,
    requires listen { serve_by words.now ≡ Some listen }
    requires ports { listen.port + listen.workers ≤ 65536 }
{
    match workers_at(rt, alloc, listen) {
        Ok(mut workers) => run_serve(rt, alloc, words, input, output, workers.as_mut_slice()),
        Err(AllocError) => Status::Memory,
    }
}
