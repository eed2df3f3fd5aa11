ghost use Rattle.std.specs.Prelude.{◌≡◌, ℕ, ◌<◌, List, IsErrOf};
ghost use Rattle.sock_io.specs.FaultCauses.{Rose};
ghost use Rattle.brpc_eng.specs.WholeSourceRead.{ReadWhole};

use sock_io::{Failed, Source};
use std::alloc::Global;

/// The bytes of a script are at most so many.
const SCRIPT_LIMIT: usize = 1_048_576;

/// Why the input wasn't read whole.
#[derive(Clone, Copy)]
pub enum InputFault {
    /// A read failed.
    Failed,
    /// More bytes came than a script may have.
    TooLong,
    NoMemory,
}

/// Reads all that a source gives, and at most one byte more than a script may have.
pub fn read_all<S: Source>(alloc: Global, source: &mut S) -> Result<Vec<u8>, InputFault>
    ensures came { (bytes : List ℕ) × ReadWhole (S.state source.old).left (S.state source.new).left bytes result }
    ensures failed { IsErrOf result InputFault.Failed → Rose (S.state source.old).faults (S.state source.new).faults }
    ensures kept { (¬ IsErrOf result InputFault.Failed) → (S.state source.new).faults ≡ (S.state source.old).faults }
{
    let mut bytes = Vec::new(alloc);
    let mut room = [0u8; 4096];
    while bytes.len() <= SCRIPT_LIMIT {
        let most = room.len().min(SCRIPT_LIMIT + 1 - bytes.len());
        match source.read(&mut room[..most]) {
            Ok(0) => return Ok(bytes),
            Ok(count) => {
                if bytes.extend_from_slice(&room[..count]).is_err() {
                    return Err(InputFault::NoMemory);
                }
            }
            Err(Failed) => return Err(InputFault::Failed),
        }
    }
    Err(InputFault::TooLong)
}
