ghost use Rattle.script_links.specs.OfferedLinks.{TellOffers};
ghost use Rattle.script_links.specs.LinksGivenBack.{SameConnections};
ghost use Rattle.script_run.specs.Played.{TellClosed, turns_of};
ghost use Rattle.brpc_eng.specs.StatusNumbers.{number_of};
ghost use Rattle.brpc_eng.specs.ProgramAnswers.{OpenedNothing, Wrote, FaultWritten, ReplayedInput, by_turns, in_memory, CountsStand, faults_over, linker_over, sink_over, source_over};

use crate::input::{read_input, tell_fault};
use crate::run::run_and_report;
use crate::status::Status;
use script_run::Schedule;
use sock_io::{Linker, Sink, Source, write_all};
use std::alloc::Global;

/// Reads a script and runs it by a schedule: its own, or one that is drawn.
pub fn replay<S: Source, K: Sink, L: Linker>(
    alloc: Global,
    source: &mut S,
    out: &mut K,
    links: &mut L,
    schedule: Schedule,
) -> Status
    requires unopened { OpenedNothing (L.state links.old) }
    ensures replayed { ReplayedInput in_memory (by_turns (λ script. turns_of script schedule)) (source_over (S.state source.old) (S.state source.new)) (sink_over (K.state out.old) (K.state out.new)) (linker_over (TellClosed L.I.state) (TellOffers L.goes_by_shape L.O.state L.I.state) L.tells_in (L.state links.old) (L.state links.new)) (number_of result) }
    ensures counts { CountsStand (faults_over (S.state source.old).faults (S.state source.new).faults) (faults_over (L.state links.old).faults (L.state links.new).faults) (number_of result) }
    ensures connections { SameConnections (L.state links.old) (L.state links.new) }
{
    match read_input(alloc, source) {
        Ok(script) => run_and_report(alloc, script, schedule, out, links),
        Err(fault) => tell_fault(alloc, fault, out),
    }
}

/// Writes where a script is faulty.
pub fn write_fault<K: Sink>(alloc: Global, line: u32, kind: u8, out: &mut K) -> Status
    ensures { FaultWritten (sink_over (K.state out.old) (K.state out.new)) line kind (number_of result) }
{
    match format!(in alloc; "script fault line {line} kind {kind}\n") {
        Ok(text) => {
            write_answer(out, text.as_bytes());
            Status::FaultyScript
        }
        Err(_) => Status::NoMemory,
    }
}

/// Writes the text of an answer, which stands whatever becomes of the writing.
pub fn write_answer<K: Sink>(out: &mut K, text: &[u8])
    ensures { Wrote (sink_over (K.state out.old) (K.state out.new)) text.now }
{
    let _ = write_all(out, text);
}
