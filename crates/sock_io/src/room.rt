ghost use Rattle.std.specs.Prelude.{◌≡◌, ◌≤◌, [], IfOk, vec_capacity};

use sock_words::NoMemory;
use std::alloc::Global;

/// No bytes, with the room for so many.
pub(crate) fn with_room(alloc: Global, room: usize) -> Result<Vec<u8>, NoMemory>
    ensures { IfOk result (λ bytes. (bytes.items ≡ []) × (room ≤ vec_capacity bytes)) }
{
    Ok(Vec::with_capacity(alloc, room)?)
}
