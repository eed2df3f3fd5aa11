ghost use Rattle.std.specs.Prelude.{◌<◌, ◌≤◌, length, IfOk};

use sock_io::Failed;
use std::io::{ErrorKind, Read, Write};

/// How often a call that a signal interrupted is made again.
const TRIES: u32 = 1_000;

/// Waits for bytes and reads them: 0 where the other end gave its end.
pub fn read_some<R: Read>(reader: &mut R, room: &mut [u8]) -> Result<usize, Failed>
    ensures { IfOk result (λ n. n ≤ length room.new) }
{
    for _ in 0..TRIES {
        match reader.read(room) {
            Ok(count) => return Ok(count),
            Err(fault) if fault.kind() == ErrorKind::Interrupted => {}
            Err(_) => return Err(Failed),
        }
    }
    Err(Failed)
}

/// Waits for a place and writes a part of the piece, 1 byte at least. A writer that takes nothing failed.
pub fn write_some<W: Write>(writer: &mut W, piece: &[u8]) -> Result<usize, Failed>
    ensures { IfOk result (λ n. (0 < n) × (n ≤ length piece.now)) }
{
    for _ in 0..TRIES {
        match writer.write(piece) {
            Ok(count) if count > 0 => return Ok(count),
            Ok(_) => return Err(Failed),
            Err(fault) if fault.kind() == ErrorKind::Interrupted => {}
            Err(_) => return Err(Failed),
        }
    }
    Err(Failed)
}
