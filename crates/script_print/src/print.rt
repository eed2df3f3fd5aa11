ghost use Rattle.std.specs.Prelude.{◌≡◌, IsErrOf, OnOk, map};
ghost use Rattle.std.specs.Io.KnownBytes.{Appends};
ghost use Rattle.brpc_model.specs.ScriptText.{script_text};
ghost use Rattle.script_items.specs.LineMeaning.{item};
ghost use Rattle.sock_io.specs.FaultCauses.{Rose};
ghost use Rattle.sock_io.specs.PartWrittenToSink.{WrotePart};
ghost use Rattle.script_print.specs.ReadBack.{IsScript, IsReadBack};

use crate::script_text::text_of;
use script_items::Line;
use sock_io::{Sink, write_all};
use std::alloc::Global;

/// Why a script wasn't printed whole.
#[derive(Clone, Copy)]
pub enum PrintFault {
    /// The sink failed, and has taken a front of the text.
    Sink,
    /// Memory ran out before anything was written.
    NoMemory,
}

/// Prints the script of these lines, a line for each item: the sizes that differ from their defaults in the order
/// `slots`, `requests`, `first`; then the setup and the clients; then `sched` and the schedule,
/// where it has lines. Options of an `open` stand in the order piece, again, fail, serve, end, and
/// `att` before `retry`, each where it isn't the default; hexadecimal is in lower case.
///
/// What is printed of a script that was read is read again as the same script. `Sink` comes only
/// where the sink failed, and `NoMemory` only before anything was written. The rules of the text
/// are this project's own.
pub fn print_script<K: Sink>(alloc: Global, lines: &[Line], out: &mut K) -> Result<(), PrintFault>
    ensures whole { OnOk result (
        Appends (K.state out.old).contents (K.state out.new).contents (script_text (map item lines.now))) }
    ensures kept { OnOk result ((K.state out.new).faults ≡ (K.state out.old).faults) }
    ensures failed { IsErrOf result PrintFault.Sink →
        Rose (K.state out.old).faults (K.state out.new).faults }
    ensures front { IsErrOf result PrintFault.Sink →
        WrotePart (K.state out.old).contents (K.state out.new).contents (script_text (map item lines.now)) }
    ensures untouched { IsErrOf result PrintFault.NoMemory → out.new ≡ out.old }
    ensures again { IsScript (map item lines.now) → IsReadBack (map item lines.now) }
{
    let Ok(text) = text_of(alloc, lines) else {
        return Err(PrintFault::NoMemory);
    };
    match write_all(out, text.as_slice()) {
        Ok(()) => Ok(()),
        Err(_) => Err(PrintFault::Sink),
    }
}
