//! A run of the program over any shelf and any sink.

ghost use Rattle.std.specs.Prelude.{◌≡◌, ◌≢◌, ◌↔◌, ◌⊎◌, ℕ, List, Some, None, map, string_bytes};
ghost use Rattle.loda_semantics.specs.Limits.{IsStepLimit};
ghost use Rattle.loda_io.specs.Shelf.{OnlyRead};
ghost use Rattle.loda_io.specs.Sink.{WriteFailed};
ghost use Rattle.oeis_terms.specs.Table.{IsBounded};
ghost use Rattle.loda_mine.specs.declared.files.Contents.{Contents as contents};
ghost use Rattle.loda_mine.specs.declared.status.FileRole.{FileRole as file_role};
ghost use Rattle.loda_mine.specs.declared.status.Status.{Status as status};
ghost use Rattle.command_words.specs.Words.{Request as request, request_of, mine_request_of, IsInRange, IsPlain, IsMine};
ghost use Rattle.command_words.specs.Requests.{asked};
ghost use Rattle.loda_mine.specs.Answer.{Found, contents_of, IsOutput, IsAnswer, bytes_in};
ghost use Rattle.loda_mine.specs.Run.{Finds, RunsAs, FileFailed, path_at, Files, TellsAt, Tells, Exactly, stop_of, TellsTo, IsFirstStop, EndsSoOr, Precedes, Ends, IsReady, NothingFails, Opens, WritesOutput, Headline, MineHeadline, HasOneOutput};

use crate::checking::{check, eval};
use crate::files::{Contents, open};
use crate::making::make;
use crate::mining::mine;
use crate::publishing::publish;
use crate::status::Status;
use command_words::{Request, Task, mine_request_of, request_of};
use loda_io::{Shelf, Sink, write_all};
use mine_workers::Gate;
use std::alloc::Global;
use std::sync::Wait;
use std::thread::Threads;

// The output of a command without workers, by what stands in its files.
fn output_of(alloc: Global, task: Task, limit: u64, contents: Contents) -> Result<Vec<u8>, Status>
    requires plain { IsPlain task }
    requires range { IsInRange task }
    requires limit { IsStepLimit limit }
    requires bounded { IsBounded contents.terms }
    ensures { IsOutput task limit contents (bytes_in result) }
{
    match task {
        Task::Publish => publish(alloc, contents, limit),
        Task::Check => check(alloc, &contents, limit),
        Task::Eval { name, arg } => eval(alloc, &contents, name, arg, limit),
        Task::Made { n, kind } => make(alloc, n, kind, limit),
        Task::Mine { .. } => unreachable!(),
    }
}

// The output of `mine`, by what stands in its files.
fn mine_output_of<G: Gate, R: Threads + Wait + Sync>(
    rt: &R,
    alloc: Global,
    task: Task,
    limit: u64,
    contents: Contents,
    gate: &G,
) -> Result<Vec<u8>, Status>
    requires mine { IsMine task }
    requires range { IsInRange task }
    requires limit { IsStepLimit limit }
    requires bounded { IsBounded contents.terms }
    ensures { IsOutput task limit contents (bytes_in result) }
{
    match task {
        Task::Mine {
            seed,
            jobs,
            workers,
        } => mine(rt, alloc, contents, limit, seed, jobs, workers, gate),
        _ => unreachable!(),
    }
}

// The whole output, before any of it is written.
fn prepare<F: Shelf>(alloc: Global, shelf: &mut F, request: &Request<'_>) -> Result<Vec<u8>, Status>
    requires plain { IsPlain request.now.task }
    requires range { IsInRange request.now.task }
    requires limit { IsStepLimit request.now.limit }
    ensures kept { OnlyRead (F.known shelf.old) (F.known shelf.new) }
    ensures answer { (found : Found) × Finds (F.known shelf.old) (F.known shelf.new) (asked request.now) found
        × IsAnswer (asked request.now) (contents_of found) (bytes_in result) }
{
    let contents = open(alloc, shelf, request)?;
    output_of(alloc, request.task, request.limit, contents)
}

// The whole output of `mine`, before any of it is written.
fn prepare_mine<F: Shelf, G: Gate, R: Threads + Wait + Sync>(
    rt: &R,
    alloc: Global,
    shelf: &mut F,
    request: &Request<'_>,
    gate: &G,
) -> Result<Vec<u8>, Status>
    requires mine { IsMine request.now.task }
    requires range { IsInRange request.now.task }
    requires limit { IsStepLimit request.now.limit }
    ensures kept { OnlyRead (F.known shelf.old) (F.known shelf.new) }
    ensures answer { (found : Found) × Finds (F.known shelf.old) (F.known shelf.new) (asked request.now) found
        × IsAnswer (asked request.now) (contents_of found) (bytes_in result) }
{
    let contents = open(alloc, shelf, request)?;
    mine_output_of(rt, alloc, request.task, request.limit, contents, gate)
}

// Writes what was prepared, and says how the run ends.
fn write<K: Sink>(sink: &mut K, prepared: Result<Vec<u8>, Status>) -> Status
    ensures { Ends (bytes_in prepared) (K.written sink.old) (K.written sink.new) result }
{
    match prepared {
        Err(status) => status,
        Ok(output) => match write_all(sink, &output) {
            Ok(()) => Status::Done,
            Err(_) => Status::WriteFault,
        },
    }
}

// A run of a command without workers, told by what was found.
fn run<F: Shelf, K: Sink>(alloc: Global, words: &[String], shelf: &mut F, sink: &mut K) -> Status
    ensures kept { OnlyRead (F.known shelf.old) (F.known shelf.new) }
    ensures run { RunsAs (request_of (map string_bytes words.now)) (F.known shelf.old) (F.known shelf.new) (K.written sink.old) (K.written sink.new) result }
{
    let Some(request) = request_of(words) else {
        return Status::Usage;
    };
    let prepared = prepare(alloc, shelf, &request);
    write(sink, prepared)
}

// A run of `mine`, told by what was found.
fn run_workers<F: Shelf, K: Sink, G: Gate, R: Threads + Wait + Sync>(
    rt: &R,
    alloc: Global,
    words: &[String],
    shelf: &mut F,
    sink: &mut K,
    gate: &G,
) -> Status
    ensures kept { OnlyRead (F.known shelf.old) (F.known shelf.new) }
    ensures run { RunsAs (mine_request_of (map string_bytes words.now)) (F.known shelf.old) (F.known shelf.new) (K.written sink.old) (K.written sink.new) result }
{
    let Some(request) = mine_request_of(words) else {
        return Status::Usage;
    };
    let mined = prepare_mine(rt, alloc, shelf, &request, gate);
    write(sink, mined)
}

/// Reads the files that the words name, and writes what their command has for them.
///
/// The commands are `publish`, `check`, `eval` and `made`. The files are read in the order terms, store, candidates, each whole and
/// then parsed before the next is read. The whole output is made before the first write.
pub fn run_plain<F: Shelf, K: Sink>(
    alloc: Global,
    words: &[String],
    shelf: &mut F,
    sink: &mut K,
) -> Status
    // What is told of the files stays, and no count falls.
    ensures kept { OnlyRead (F.known shelf.old) (F.known shelf.new) }
    // The status and what is written are those of what was found at the paths of the words.
    ensures run { RunsAs (request_of (map string_bytes words.now)) (F.known shelf.old) (F.known shelf.new) (K.written sink.old) (K.written sink.new) result }
    ensures usage { (result ≡ Status.Usage) ↔ (request_of (map string_bytes words.now) ≡ None) }
    ensures read { (file : file_role) → result ≡ Status.ReadFault file → FileFailed (F.known shelf.old) (F.known shelf.new) (request_of (map string_bytes words.now)) file }
    // The files before the one that failed are in their sizes and grammars, where they are told.
    ensures before { (asks : request) (file earlier : file_role) (bytes : List ℕ) → request_of (map string_bytes words.now) ≡ Some asks → result ≡ Status.ReadFault file
        → Precedes earlier file → TellsAt (F.known shelf.old) (path_at (Some asks) earlier) bytes → stop_of earlier bytes ≡ None }
    ensures write { result ≡ Status.WriteFault → WriteFailed (K.written sink.old) (K.written sink.new) }
    ensures nothing { result ≢ Status.Done → result ≢ Status.WriteFault → K.written sink.new ≡ K.written sink.old }
    // Where the files are told, each status comes exactly where they say, or where the shelf failed.
    ensures exact { (asks : request) (files : Files) → request_of (map string_bytes words.now) ≡ Some asks → Tells (F.known shelf.old) asks files
        → Exactly (F.known shelf.old) (F.known shelf.new) (K.written sink.old) (K.written sink.new) asks files result }
    // The first file that stops the run decides its status, whatever stands in those behind it.
    ensures first { (asks : request) (files : Files) (file : file_role) (s : status) → request_of (map string_bytes words.now) ≡ Some asks → TellsTo (F.known shelf.old) asks files file
        → IsFirstStop files file s → EndsSoOr (F.known shelf.old) (F.known shelf.new) (K.written sink.old) (K.written sink.new) asks s result }
    // Where nothing fails and the command is not refused, all of the output is written, or memory ran out.
    ensures complete { (asks : request) (files : Files) (inside : contents) → request_of (map string_bytes words.now) ≡ Some asks → Opens (F.known shelf.old) asks files inside
        → IsReady asks.task asks.limit inside → NothingFails (F.known shelf.old) (F.known shelf.new) (K.written sink.old) (K.written sink.new) asks
        → (result ≡ Status.Done) ⊎ (result ≡ Status.Memory) }
    // What is written at the end is what the command has for what stands in the files, and nothing else.
    ensures done { (asks : request) (files : Files) → request_of (map string_bytes words.now) ≡ Some asks → Tells (F.known shelf.old) asks files → result ≡ Status.Done
        → (inside : contents) × Opens (F.known shelf.old) asks files inside × WritesOutput (K.written sink.old) (K.written sink.new) asks inside }
    // What `publish` writes at the end: every job answered as one thread would, in order, and nothing lost.
    ensures headline { (asks : request) (files : Files) → request_of (map string_bytes words.now) ≡ Some asks → asks.task ≡ Task.Publish → Tells (F.known shelf.old) asks files → result ≡ Status.Done
        → Headline (F.known shelf.old) (K.written sink.old) (K.written sink.new) asks files }
    // It is one function of the words and the files.
    ensures one { (asks : request) (inside : contents) → request_of (map string_bytes words.now) ≡ Some asks → HasOneOutput asks inside }
{
    run(alloc, words, shelf, sink)
}

/// Reads the files that the words name, lets workers propose and publish, and writes the report.
///
/// The command is `mine`. The files are read in the order terms, store, each whole and then parsed before the next is read. The
/// whole report is made before the first write. The gate is called before and after each publish. It waits for its workers.
pub fn run_mine<F: Shelf, K: Sink, G: Gate, R: Threads + Wait + Sync>(
    rt: &R,
    alloc: Global,
    words: &[String],
    shelf: &mut F,
    sink: &mut K,
    gate: &G,
) -> Status
    // What is told of the files stays, and no count falls.
    ensures kept { OnlyRead (F.known shelf.old) (F.known shelf.new) }
    // The status and what is written are those of what was found at the paths of the words.
    ensures run { RunsAs (mine_request_of (map string_bytes words.now)) (F.known shelf.old) (F.known shelf.new) (K.written sink.old) (K.written sink.new) result }
    ensures usage { (result ≡ Status.Usage) ↔ (mine_request_of (map string_bytes words.now) ≡ None) }
    ensures read { (file : file_role) → result ≡ Status.ReadFault file → FileFailed (F.known shelf.old) (F.known shelf.new) (mine_request_of (map string_bytes words.now)) file }
    // The files before the one that failed are in their sizes and grammars, where they are told.
    ensures before { (asks : request) (file earlier : file_role) (bytes : List ℕ) → mine_request_of (map string_bytes words.now) ≡ Some asks → result ≡ Status.ReadFault file
        → Precedes earlier file → TellsAt (F.known shelf.old) (path_at (Some asks) earlier) bytes → stop_of earlier bytes ≡ None }
    ensures write { result ≡ Status.WriteFault → WriteFailed (K.written sink.old) (K.written sink.new) }
    ensures nothing { result ≢ Status.Done → result ≢ Status.WriteFault → K.written sink.new ≡ K.written sink.old }
    // Where the files are told, each status comes exactly where they say, or where the shelf failed.
    ensures exact { (asks : request) (files : Files) → mine_request_of (map string_bytes words.now) ≡ Some asks → Tells (F.known shelf.old) asks files
        → Exactly (F.known shelf.old) (F.known shelf.new) (K.written sink.old) (K.written sink.new) asks files result }
    // The first file that stops the run decides its status, whatever stands in those behind it.
    ensures first { (asks : request) (files : Files) (file : file_role) (s : status) → mine_request_of (map string_bytes words.now) ≡ Some asks → TellsTo (F.known shelf.old) asks files file
        → IsFirstStop files file s → EndsSoOr (F.known shelf.old) (F.known shelf.new) (K.written sink.old) (K.written sink.new) asks s result }
    // Where nothing fails and the command is not refused, all of the output is written, or memory ran out.
    ensures complete { (asks : request) (files : Files) (inside : contents) → mine_request_of (map string_bytes words.now) ≡ Some asks → Opens (F.known shelf.old) asks files inside
        → IsReady asks.task asks.limit inside → NothingFails (F.known shelf.old) (F.known shelf.new) (K.written sink.old) (K.written sink.new) asks
        → (result ≡ Status.Done) ⊎ (result ≡ Status.Memory) }
    // What is written at the end is what the command has for what stands in the files, and nothing else.
    ensures done { (asks : request) (files : Files) → mine_request_of (map string_bytes words.now) ≡ Some asks → Tells (F.known shelf.old) asks files → result ≡ Status.Done
        → (inside : contents) × Opens (F.known shelf.old) asks files inside × WritesOutput (K.written sink.old) (K.written sink.new) asks inside }
    // What is written at the end: every job of the seed answered as one thread would, once, and nothing lost.
    ensures headline { (asks : request) (files : Files) → mine_request_of (map string_bytes words.now) ≡ Some asks → Tells (F.known shelf.old) asks files → result ≡ Status.Done
        → MineHeadline (F.known shelf.old) (K.written sink.old) (K.written sink.new) asks files }
    // With one worker it is one function of the words and the files.
    ensures one { (asks : request) (inside : contents) (seed jobs : ℕ) → asks.task ≡ Task.Mine seed jobs 1 → HasOneOutput asks inside }
{
    run_workers(rt, alloc, words, shelf, sink, gate)
}
