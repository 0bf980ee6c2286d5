//! Mines, publishes, checks and runs programs for integer sequences, and makes input.
#![tactic(auto)]

mod checking;
mod ending;
mod files;
mod making;
mod mining;
mod publishing;
mod run;
mod status;
#[cfg(test)]
mod tests;
mod text;

use command_words::{Help, help_of};
use ending::tell;
use loda_io::{FileShelf, Shelf, Sink, StdSink, write_all};
use mine_workers::OpenGate;
use run::{run_mine, run_plain};
use status::Status;
use std::alloc::Global;
use std::process::ExitCode;
use std::sync::Wait;
use std::thread::Threads;
use std::{env, io};

// The words after the program's own name. It is an error where one is no text, or memory ran out.
fn arguments(rt: &HostRuntime) -> io::Result<Vec<String>> {
    let words: Vec<String> = env::args(rt)?.skip(1).collect(rt.alloc())?;
    Ok(words)
}

// Whether the command is one for workers.
fn is_mine(words: &[String]) -> bool {
    match words {
        [command, ..] => command.as_str() == "mine",
        [] => false,
    }
}

// Writes the page of help that the words ask for.
fn show<K: Sink>(help: Help, sink: &mut K) -> Status {
    match write_all(sink, help.text().as_bytes()) {
        Ok(()) => Status::Done,
        Err(_) => Status::WriteFault,
    }
}

// Shows the help that the words ask for, or makes the top call of their command.
fn answer<F: Shelf, K: Sink, R: Threads + Wait + Sync>(
    rt: &R,
    alloc: Global,
    words: &[String],
    shelf: &mut F,
    sink: &mut K,
) -> Status {
    if let Some(help) = help_of(words) {
        return show(help, sink);
    }
    if is_mine(words) {
        return run_mine(rt, alloc, words, shelf, sink, &OpenGate);
    }
    run_plain(alloc, words, shelf, sink)
}

fn main(rt: HostRuntime) -> ExitCode {
    let mut shelf = FileShelf::new(rt);
    let mut sink = StdSink::new(rt);
    let status = match arguments(&rt) {
        Ok(words) => answer(&rt, rt.alloc(), &words, &mut shelf, &mut sink),
        Err(error) if error.kind() == io::ErrorKind::OutOfMemory => Status::Memory,
        Err(_) => Status::Usage,
    };
    ExitCode::from(tell(status, &mut rt.stderr()))
}
