ghost use Rattle.std.specs.Prelude.{◌≡◌, ◌≢◌, ◌<◌, ◌^◌, Ok, IfOk};
ghost use Rattle.brpc_model.specs.DrawnSeatsAndScripts.{generated};
ghost use Rattle.brpc_model.specs.Script.{script_of};
ghost use Rattle.brpc_model.specs.ScriptText.{script_text};
ghost use Rattle.script_links.specs.LinksGivenBack.{SameConnections};
ghost use Rattle.script_links.specs.OfferedLinks.{TellOffers};
ghost use Rattle.script_run.specs.Played.{TellClosed};
ghost use Rattle.brpc_eng.specs.StatusNumbers.{number_of};
ghost use Rattle.brpc_eng.specs.ProgramAnswers.{OpenedNothing, Loaded, linker_over, sink_over};

use crate::draw::Draw;
use crate::run::write_report;
use crate::status::Status;
use script_draw::generate;
use script_lang::Script;
use script_run::{Load, Print, Schedule, run_script};
use sock_io::{Linker, NoMemory, OpenFault, Sink};
use std::alloc::Global;

/// The script that is drawn from this seed.
fn drawn_script(alloc: Global, seed: u64, draw: &Draw) -> Result<Script, NoMemory>
    requires { seed < 2 ^ 32 }
    ensures exact { IfOk result (λ script. script ≡ generated seed draw.now.clients draw.now.operations) }
    ensures again { IfOk result (λ script. script_of (script_text script) ≡ Ok script) }
{
    let lines = generate(alloc, seed, draw.clients as u16, draw.operations as u16)?;
    let script = Script::of(alloc, lines)?;
    Ok(script)
}

/// Draws a script, runs it by the schedule that its seed draws, and writes the summary of that run.
pub fn load<K: Sink, L: Linker>(alloc: Global, draw: &Draw, out: &mut K, links: &mut L) -> Status
    requires unopened { OpenedNothing (L.state links.old) }
    ensures loaded { Loaded draw.now.seed draw.now.clients draw.now.operations (sink_over (K.state out.old) (K.state out.new)) (linker_over (TellClosed L.I.state) (TellOffers L.goes_by_shape L.O.state L.I.state) L.tells_in (L.state links.old) (L.state links.new)) (number_of result) }
    ensures linker { number_of result ≢ 8 → (L.state links.new).faults ≡ (L.state links.old).faults }
    ensures connections { SameConnections (L.state links.old) (L.state links.new) }
{
    let seed = u64::from(draw.seed);
    let Ok(script) = drawn_script(alloc, seed, draw) else {
        return Status::NoMemory;
    };
    let summary = Print::Summary(Load {
        seed: draw.seed,
        clients: draw.clients,
        operations: draw.operations,
    });
    match run_script(alloc, script, Schedule::Drawn(seed), summary, links) {
        Ok(text) => write_report(out, &text),
        Err(OpenFault::Failed) => Status::OpenFailed,
        Err(OpenFault::NoMemory) => Status::NoMemory,
    }
}
