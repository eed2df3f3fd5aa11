ghost use Rattle.std.specs.Prelude.{◌≡◌, ◌≢◌, true};
ghost use Rattle.std.specs.List.{list_all};
ghost use Rattle.script_links.specs.LinksGivenBack.{SameConnections, has_piece};
ghost use Rattle.script_links.specs.OfferedLinks.{TellOffers};
ghost use Rattle.script_threads.specs.ServedLinksOfReport.{IsShort};
ghost use Rattle.script_run.specs.Played.{TellClosed};
ghost use Rattle.brpc_eng.specs.StatusNumbers.{number_of};
ghost use Rattle.brpc_eng.specs.ProgramAnswers.{OpenedNothing, OpenedBy, RanOnThreads, ReplayedInput, RunTold, CountsStand, run_mode, faults_over, linker_over, sink_over, source_over};

use crate::input::{read_input, tell_fault};
use crate::run::write_report;
use crate::status::Status;
use script_lang::Script;
use script_threads::run_on_threads;
use sock_io::{Gate, Linker, Mode, OpenFault, Sink, Source};
use std::alloc::Global;
use std::sync::Wait;
use std::thread::Threads;

/// How links are made: over TCP to the port, where one is named, or else over rings.
fn run_mode(port: Option<u16>) -> Mode
    ensures { result ≡ run_mode port }
{
    match port {
        Some(port) => Mode::Tcp(port),
        None => Mode::Ring,
    }
}

/// Reads a script and runs it on threads, whatever its schedule, over rings, or over TCP to the port that is named.
pub fn run_threads<R: Threads + Wait + Sync, S: Source, K: Sink, L: Linker, G: Gate + Sync>(
    rt: &R,
    alloc: Global,
    port: Option<u16>,
    source: &mut S,
    out: &mut K,
    links: &mut L,
    gate: &G,
) -> Status
    requires unopened { OpenedNothing (L.state links.old) }
    ensures replayed { ReplayedInput (run_mode port) (RanOnThreads (run_mode port)) (source_over (S.state source.old) (S.state source.new)) (sink_over (K.state out.old) (K.state out.new)) (linker_over (TellClosed L.I.state) (TellOffers L.goes_by_shape L.O.state L.I.state) L.tells_in (L.state links.old) (L.state links.new)) (number_of result) }
    ensures counts { CountsStand (faults_over (S.state source.old).faults (S.state source.new).faults) (faults_over (L.state links.old).faults (L.state links.new).faults) (number_of result) }
    ensures connections { SameConnections (L.state links.old) (L.state links.new) }
{
    match read_input(alloc, source) {
        Ok(script) => threads_and_report(rt, alloc, port, &script, out, links, gate),
        Err(fault) => tell_fault(alloc, fault, out),
    }
}

/// Runs a script on threads, its links read beside its clients, and writes its report.
fn threads_and_report<R: Threads + Wait + Sync, K: Sink, L: Linker, G: Gate + Sync>(
    rt: &R,
    alloc: Global,
    port: Option<u16>,
    script: &Script,
    out: &mut K,
    links: &mut L,
    gate: &G,
) -> Status
    requires unopened { OpenedNothing (L.state links.old) }
    requires short { IsShort script.now }
    requires pieces { list_all has_piece script.now ≡ true }
    ensures ran { RanOnThreads (run_mode port) script.now (sink_over (K.state out.old) (K.state out.new)) (linker_over (TellClosed L.I.state) (TellOffers L.goes_by_shape L.O.state L.I.state) L.tells_in (L.state links.old) (L.state links.new)) (number_of result) }
    ensures opened { OpenedBy (run_mode port) script.now (linker_over (TellClosed L.I.state) (TellOffers L.goes_by_shape L.O.state L.I.state) L.tells_in (L.state links.old) (L.state links.new)) (number_of result) }
    ensures linker { number_of result ≢ 8 → (L.state links.new).faults ≡ (L.state links.old).faults }
    ensures connections { SameConnections (L.state links.old) (L.state links.new) }
{
    let mode = run_mode(port);
    let ran = run_on_threads(rt, alloc, mode, script, links, gate);
    tell_run(ran, out)
}

/// Writes the report of a run, or tells what stood in its way.
fn tell_run<K: Sink>(ran: Result<Vec<u8>, OpenFault>, out: &mut K) -> Status
    ensures { RunTold ran (sink_over (K.state out.old) (K.state out.new)) (number_of result) }
{
    match ran {
        Ok(text) => write_report(out, &text),
        Err(OpenFault::Failed) => Status::OpenFailed,
        Err(OpenFault::NoMemory) => Status::NoMemory,
    }
}
