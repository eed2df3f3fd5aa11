ghost use Rattle.std.specs.Prelude.{map, string_bytes};
ghost use Rattle.script_links.specs.OfferedLinks.{TellOffers};
ghost use Rattle.script_run.specs.Played.{TellClosed};
ghost use Rattle.brpc_eng.specs.ProgramAnswers.{UnusedLinker, Answers, CountsStand, faults_over, linker_over, sink_over, source_over};
ghost use Rattle.brpc_eng.specs.StatusNumbers.{number_of};

use crate::alone::answer_alone;
use crate::commands::{Waiting, read_waiting};
use crate::serve::serve;
use crate::status::Status;
use crate::threads::run_threads;
use sock_io::{Gate, Linker, Sink, Source};
use std::alloc::Global;
use std::sync::Wait;
use std::thread::Threads;

/// Does what the words ask for, by one of the seven commands, and answers its status. Words that ask for none of them are told the
/// usage text.
///
/// | status | comes |
/// | --- | --- |
/// | 0 | where the command was done; the input of `replay`, `sim`, `run` and `frames` was read to its end |
/// | 2 | exactly where the words ask for no command; the usage text is written |
/// | 3 | exactly where the whole input is no script; the first fault is written |
/// | 4 | only where the source failed |
/// | 5 | only where the sink failed, in place of 0; a beginning of the report was written |
/// | 6 | exactly where more than 1,048,576 bytes came, in `frames` more than 268,435,456 |
/// | 7 | where memory ran out; in `run` of a script with calls also where no report could be made of what its threads left |
/// | 8 | only where a link couldn't be opened, and those opened before are given back untouched; in `serve` only where an accept failed, or a put or a take of a connection |
/// | 9 | exactly where the bytes read by `frames` have a faulty frame, also where the sink fails; the frames before it and the fault are written; in `serve` exactly where the bytes of a connection have one, and 8 isn't answered |
///
/// Faults are met in the order words, source, size, script, opening, run, printing; want of memory
/// may come at any place of it, and is the one answer that needs no cause. `run` may never answer, as where
/// a client waits for a call (`join`) that nobody ends, nor `serve`, where nobody connects; all else ends, and is what
/// `brpc_alone` does. Only `serve` accepts connections. `serve` reads nothing: it gives each connection that
/// it accepted back, whatever the status. `frames` prints as it reads, so that with 4,
/// 6 and 7 the lines of the frames that were whole stand written; where the sink fails the bytes of that read are judged to
/// their end, and no more are read.
pub fn brpc<R: Threads + Wait + Sync, S: Source, K: Sink, L: Linker, G: Gate + Sync>(
    rt: &R,
    alloc: Global,
    usage: &str,
    words: &[String],
    source: &mut S,
    out: &mut K,
    links: &mut L,
    gate: &G,
) -> u8
    requires unused { UnusedLinker (L.state links.old) }
    // `TellClosed`: a reading half of this type tells whether it is found closed. Links in memory do. `TellOffers`: its links tell what
    // they took, gave and are offered, as those whose other end is the built-in server do, and those in memory answer each put as the
    // options of their `open` say.
    ensures answers { Answers usage.now (map string_bytes words.now) (source_over (S.state source.old) (S.state source.new)) (sink_over (K.state out.old) (K.state out.new)) (linker_over (TellClosed L.I.state) (TellOffers L.goes_by_shape L.O.state L.I.state) L.tells_in (L.state links.old) (L.state links.new)) result }
    ensures counts { CountsStand (faults_over (S.state source.old).faults (S.state source.new).faults) (faults_over (L.state links.old).faults (L.state links.new).faults) result }
{
    answer(rt, alloc, usage, words, source, out, links, gate).number()
}

/// What the words ask for is done.
fn answer<R: Threads + Wait + Sync, S: Source, K: Sink, L: Linker, G: Gate + Sync>(
    rt: &R,
    alloc: Global,
    usage: &str,
    words: &[String],
    source: &mut S,
    out: &mut K,
    links: &mut L,
    gate: &G,
) -> Status
    requires unused { UnusedLinker (L.state links.old) }
    ensures answers { Answers usage.now (map string_bytes words.now) (source_over (S.state source.old) (S.state source.new)) (sink_over (K.state out.old) (K.state out.new)) (linker_over (TellClosed L.I.state) (TellOffers L.goes_by_shape L.O.state L.I.state) L.tells_in (L.state links.old) (L.state links.new)) (number_of result) }
    ensures counts { CountsStand (faults_over (S.state source.old).faults (S.state source.new).faults) (faults_over (L.state links.old).faults (L.state links.new).faults) (number_of result) }
{
    match read_waiting(words) {
        None => answer_alone(alloc, usage, words, source, out, links),
        Some(waiting) => match waiting {
            Waiting::Run(port) => run_threads(rt, alloc, port, source, out, links, gate),
            Waiting::Serve(doors) => serve(rt, alloc, &doors, out, links),
        },
    }
}
