//! The terrain server's program: it makes the real objects, runs a command over them, and ends
//! with its status.
#![tactic(auto)]

mod command;
mod documents;
#[cfg(test)]
mod end_tests;
#[cfg(test)]
mod export_texts;
#[cfg(test)]
mod line_session_texts;
mod ports;
#[cfg(test)]
mod refusal_texts;
#[cfg(test)]
mod reply_tests;
mod reporting;
#[cfg(test)]
mod request_tests;
mod serving;
#[cfg(test)]
mod session_texts;
#[cfg(test)]
mod sessions;
mod status;
#[cfg(test)]
mod trial_tests;
mod words;

use command::exit_status;
use ground_io::{Sink, Source, StdSink, StdSource};
use ports::serve_at;
use std::alloc::Global;
use std::env;
use std::net::{Net, TcpListener, TcpStream};
use std::process::ExitCode;
use std::sync::Wait;
use std::thread::Threads;
use words::serve_words;

// The words of the command line, without the program's name. None where they can't be had, as
// where one is no text.
fn words_of_command(rt: &HostRuntime) -> Option<Vec<String>> {
    let mut words = Vec::new(rt.alloc());
    for word in env::args(rt).ok()?.skip(1) {
        words.push(word).ok()?;
    }
    Some(words)
}

// Serves where the words ask for it, and else runs the command that they are.
fn status_of<R, S: Source, O: Sink>(
    rt: &R,
    alloc: Global,
    words: Vec<String>,
    input: &mut S,
    output: &mut O,
) -> u8
where
    R: Threads + Wait + Sync + Send + Clone + Net<Stream = TcpStream, Listener = TcpListener>,
{
    match serve_words(words.as_slice()) {
        Some(listen) => serve_at(rt, alloc, words.as_slice(), listen, input, output).code(),
        None => exit_status(alloc, Some(words), input, output),
    }
}

fn main(rt: HostRuntime) -> ExitCode {
    let mut input = StdSource::new(rt.stdin());
    let mut output = StdSink::new(rt.stdout());
    ExitCode::from(match words_of_command(&rt) {
        Some(words) => status_of(&rt, rt.alloc(), words, &mut input, &mut output),
        None => exit_status(rt.alloc(), None, &mut input, &mut output),
    })
}
