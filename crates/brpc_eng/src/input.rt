ghost use Rattle.std.specs.Prelude.{◌≡◌, ◌≢◌, true, IfErr, IfOk, IsErrOf, OnOk};
ghost use Rattle.std.specs.List.{list_all};
ghost use Rattle.sock_io.specs.FaultCauses.{Rose};
ghost use Rattle.script_links.specs.LinksGivenBack.{has_piece};
ghost use Rattle.script_threads.specs.ServedLinksOfReport.{IsShort};
ghost use Rattle.brpc_eng.specs.Input.{CameAs, NoScriptTold};
ghost use Rattle.brpc_eng.specs.StatusNumbers.{number_of};
ghost use Rattle.brpc_eng.specs.ProgramAnswers.{sink_over};

use crate::replay::write_fault;
use crate::status::Status;
use crate::streams::{InputFault, read_all};
use script_lang::{Script, ScriptError, read_script};
use sock_io::{Sink, Source};
use std::alloc::Global;

/// Why there is no script to run.
#[derive(Clone, Copy)]
pub enum NoScript {
    /// The input wasn't read whole.
    Unread(InputFault),
    /// It is faulty there.
    Faulty { line: u32, kind: u8 },
}

/// Reads the input as a script, and keeps nothing of its text.
pub fn read_input<S: Source>(alloc: Global, source: &mut S) -> Result<Script, NoScript>
    ensures came { CameAs (S.state source.old).left (S.state source.new).left result }
    ensures short { IfOk result (λ script. IsShort script) }
    ensures pieces { IfOk result (λ script. list_all has_piece script ≡ true) }
    ensures failed { IsErrOf result (NoScript.Unread InputFault.Failed) → Rose (S.state source.old).faults (S.state source.new).faults }
    ensures kept { OnOk result ((S.state source.new).faults ≡ (S.state source.old).faults) }
    ensures unfailed { IfErr result (λ fault. fault ≢ NoScript.Unread InputFault.Failed → (S.state source.new).faults ≡ (S.state source.old).faults) }
{
    let bytes = match read_all(alloc, source) {
        Ok(bytes) => bytes,
        Err(fault) => return Err(NoScript::Unread(fault)),
    };
    match read_script(alloc, &bytes) {
        Ok(script) => Ok(script),
        Err(ScriptError::Fault { line, kind }) => Err(NoScript::Faulty { line, kind }),
        Err(ScriptError::NoMemory) => Err(NoScript::Unread(InputFault::NoMemory)),
    }
}

/// Writes where a script is faulty, and nothing where the input wasn't read whole.
pub fn tell_fault<K: Sink>(alloc: Global, fault: NoScript, out: &mut K) -> Status
    ensures told { NoScriptTold fault (sink_over (K.state out.old) (K.state out.new)) (number_of result) }
    ensures unfailed { number_of result ≢ 4 → fault ≢ NoScript.Unread InputFault.Failed }
{
    match fault {
        NoScript::Unread(InputFault::Failed) => Status::SourceFailed,
        NoScript::Unread(InputFault::TooLong) => Status::TooLong,
        NoScript::Unread(InputFault::NoMemory) => Status::NoMemory,
        NoScript::Faulty { line, kind } => write_fault(alloc, line, kind, out),
    }
}
