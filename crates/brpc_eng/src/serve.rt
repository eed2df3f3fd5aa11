ghost use Rattle.std.specs.Prelude.{◌≡◌, ◌≢◌, ◌⊎◌};
ghost use Rattle.script_links.specs.OfferedLinks.{TellOffers};
ghost use Rattle.script_run.specs.Played.{TellClosed};
ghost use Rattle.brpc_eng.specs.StatusNumbers.{number_of};
ghost use Rattle.brpc_eng.specs.ProgramAnswers.{UnusedLinker, ServedPort, TextWritten, WroteNothing, served_text, linker_over, sink_over};

use crate::doors::Doors;
use crate::run::write_report;
use crate::status::Status;
use serve_port::{ServeFault, serve_all};
use sock_io::{Linker, Sink};
use std::alloc::Global;
use std::sync::Wait;
use std::thread::Threads;

/// Serves connections at a port, and writes how many frames had replies.
pub fn serve<R: Threads + Wait + Sync, K: Sink, L: Linker>(
    rt: &R,
    alloc: Global,
    doors: &Doors,
    out: &mut K,
    links: &mut L,
) -> Status
    requires unused { UnusedLinker (L.state links.old) }
    ensures served { ServedPort doors.now.connections (sink_over (K.state out.old) (K.state out.new)) (linker_over (TellClosed L.I.state) (TellOffers L.goes_by_shape L.O.state L.I.state) L.tells_in (L.state links.old) (L.state links.new)) (number_of result) }
    ensures linker { number_of result ≢ 8 → (L.state links.new).faults ≡ (L.state links.old).faults }
{
    match serve_all(
        rt,
        alloc,
        links,
        doors.port as u16,
        doors.connections as u16,
    ) {
        Ok(frames) => write_served(alloc, doors.connections, frames, out),
        Err(ServeFault::AcceptFailed) => Status::OpenFailed,
        Err(ServeFault::ConnectionFailed) => Status::OpenFailed,
        Err(ServeFault::FaultyFrame) => Status::FaultyFrames,
        Err(ServeFault::NoMemory) => Status::NoMemory,
    }
}

/// Writes how many connections were served, and how many frames had replies.
fn write_served<K: Sink>(alloc: Global, connections: u32, frames: u64, out: &mut K) -> Status
    ensures { TextWritten (sink_over (K.state out.old) (K.state out.new)) (served_text connections frames) (number_of result)
        ⊎ ((number_of result ≡ 7) × WroteNothing (sink_over (K.state out.old) (K.state out.new))) }
{
    match format!(in alloc; "served {connections} frames {frames}\n") {
        Ok(text) => write_report(out, text.as_bytes()),
        Err(_) => Status::NoMemory,
    }
}
