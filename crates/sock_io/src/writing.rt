ghost use Rattle.std.specs.Prelude.{◌≡◌, OnErr, OnOk};
ghost use Rattle.std.specs.Io.KnownBytes.{Appends};
ghost use Rattle.sock_io.specs.FaultCauses.{Rose};
ghost use Rattle.sock_io.specs.PartWrittenToSink.{WrotePart};

use crate::mem_source::from_place;
use crate::stream::{Failed, Sink};

/// Writes a text whole. Where the sink fails, it has taken a beginning of the text.
pub fn write_all<K: Sink>(out: &mut K, text: &[u8]) -> Result<(), Failed>
    ensures whole { OnOk result (Appends (K.state out.old).contents (K.state out.new).contents text.now) }
    ensures kept { OnOk result ((K.state out.new).faults ≡ (K.state out.old).faults) }
    ensures part { OnErr result (WrotePart (K.state out.old).contents (K.state out.new).contents text.now) }
    ensures failed { OnErr result (Rose (K.state out.old).faults (K.state out.new).faults) }
{
    let mut rest = text;
    while !rest.is_empty() {
        let count = out.write(rest)?;
        rest = from_place(rest, count);
    }
    Ok(())
}
