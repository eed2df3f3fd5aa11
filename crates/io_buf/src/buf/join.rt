ghost use Rattle.std.specs.Prelude.{◌≡◌, ◌≤◌, ◌++◌, length, OnOk, OnErr};

use super::IoBuf;
use io_block::{BLOCK_BYTES, BlockPool, NoMemory};

// So many references at most are copied together at once.
const JOINED: usize = 64;

// Fewer aren't.
const FEW: usize = 32;

impl IoBuf {
    /// Copies the bytes to the end, as `append_bytes`, for a stream that may come in many small pieces: now and then the
    /// last references are copied together, as many as a block takes. So however small the pieces are, there are few references
    /// for the bytes. Nothing is said of their sizes.
    #[inline(always)]
    pub fn append_joined(&mut self, pool: &mut BlockPool, bytes: &[u8]) -> Result<(), NoMemory>
        ensures items { OnOk result (self.new.items ≡ self.old.items ++ bytes.now) }
        ensures err { OnErr result (self.new ≡ self.old) }
    {
        self.append_bytes(pool, bytes)?;
        let refs = self.pieces.len();
        if refs % JOINED == 0 && refs > 0 {
            self.join_last(pool);
        }
        Ok(())
    }

    // Copies the last references together, where those are many small ones and memory isn't wanting.
    #[inline(never)]
    fn join_last(&mut self, pool: &mut BlockPool)
        ensures { self.new.items ≡ self.old.items }
    {
        let size = self.last_bytes();
        if size == 0 {
            return;
        }
        let Ok(()) = self.reserve_refs(1) else {
            return;
        };
        let mut room = [0u8; BLOCK_BYTES];
        let copy = &mut room[..size];
        self.copy_at(self.len - size, copy);
        let Ok(piece) = pool.write(copy) else {
            return;
        };
        self.pop_back(size);
        self.push_reserved(piece);
    }

    // How many bytes the last references have, as many as a block takes; or 0 where those are few references.
    fn last_bytes(&self) -> usize
        ensures within { result ≤ length self.now.items }
        ensures block { result ≤ BLOCK_BYTES }
    {
        let refs = self.refs();
        let mut size = 0;
        let mut count = 0;
        while count < JOINED && count < refs {
            let more = self.piece(refs - 1 - count).len();
            if size + more > BLOCK_BYTES {
                break;
            }
            size += more;
            count += 1;
        }
        if count >= FEW && size <= self.len {
            size
        } else {
            0
        }
    }
}
