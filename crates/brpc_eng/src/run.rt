ghost use Rattle.std.specs.Prelude.{◌≡◌, ◌≢◌, true};
ghost use Rattle.std.specs.List.{list_all};
ghost use Rattle.sock_io.specs.declared.link.Mode.TheVariants as modes;
ghost use Rattle.script_links.specs.LinksGivenBack.{SameConnections, has_piece};
ghost use Rattle.script_links.specs.OfferedLinks.{TellOffers};
ghost use Rattle.script_threads.specs.ServedLinksOfReport.{IsShort};
ghost use Rattle.script_run.specs.Played.{TellClosed, turns_of};
ghost use Rattle.brpc_eng.specs.StatusNumbers.{number_of};
ghost use Rattle.brpc_eng.specs.ProgramAnswers.{OpenedNothing, OpenedBy, Ran, TextWritten, linker_over, sink_over};

use crate::status::Status;
use script_lang::Script;
use script_run::{Print, Schedule, run_script};
use sock_io::{Failed, Linker, OpenFault, Sink, write_all};
use std::alloc::Global;

/// Runs a script, and writes its report.
pub fn run_and_report<K: Sink, L: Linker>(
    alloc: Global,
    script: Script,
    schedule: Schedule,
    out: &mut K,
    links: &mut L,
) -> Status
    requires unopened { OpenedNothing (L.state links.old) }
    requires short { IsShort script }
    requires pieces { list_all has_piece script ≡ true }
    ensures ran { Ran (turns_of script schedule) script (sink_over (K.state out.old) (K.state out.new)) (linker_over (TellClosed L.I.state) (TellOffers L.goes_by_shape L.O.state L.I.state) L.tells_in (L.state links.old) (L.state links.new)) (number_of result) }
    ensures opened { OpenedBy modes.Loop script (linker_over (TellClosed L.I.state) (TellOffers L.goes_by_shape L.O.state L.I.state) L.tells_in (L.state links.old) (L.state links.new)) (number_of result) }
    ensures linker { number_of result ≢ 8 → (L.state links.new).faults ≡ (L.state links.old).faults }
    ensures connections { SameConnections (L.state links.old) (L.state links.new) }
{
    match run_script(alloc, script, schedule, Print::Report, links) {
        Ok(text) => write_report(out, &text),
        Err(OpenFault::Failed) => Status::OpenFailed,
        Err(OpenFault::NoMemory) => Status::NoMemory,
    }
}

/// Writes a report, or a summary.
pub fn write_report<K: Sink>(out: &mut K, text: &[u8]) -> Status
    ensures { TextWritten (sink_over (K.state out.old) (K.state out.new)) text.now (number_of result) }
{
    match write_all(out, text) {
        Ok(()) => Status::Done,
        Err(Failed) => Status::SinkFailed,
    }
}
