ghost use Rattle.std.specs.Prelude.{◌≡◌, ◌+◌, ◌≤◌, length, IfOk, OnOk, OnErr};

use crate::NoMemory;
use crate::kept::{Kept, exact};
use crate::pool::BLOCK_BYTES;
use bytes::{Bytes, BytesMut};
use std::alloc::Global;
use std::marker::Model;
use std::mem;

/// The rest of the block that is written to, which nothing else writes to. Contracts see how many
/// bytes it takes.
#[derive(Drop)]
pub struct Room {
    block: BytesMut,
}

impl Model for Room {
    ghost use Rattle.std.specs.Prelude.{ℕ, ◌≡◌, ◌≤◌, []};
    ghost use Rattle.io_block.specs.declared.pool.TheConstants.{BLOCK_BYTES};

    ghost Value = { ℕ };

    ghost view = { λ r. r.block.spare };

    ghost invariant = { λ r. (r.block.items ≡ []) × (r.block.spare ≤ BLOCK_BYTES) };
}

impl Room {
    pub fn none(alloc: Global) -> Room
        ensures { result ≡ 0 }
    {
        Room {
            block: BytesMut::new(alloc),
        }
    }

    #[inline(always)]
    pub fn left(&self) -> usize
        ensures value { result ≡ self.now }
        ensures at_most { result ≤ BLOCK_BYTES }
    {
        self.block.capacity()
    }

    /// Copies the bytes into the block, and returns a reference to them.
    #[inline(always)]
    pub fn write(&mut self, bytes: &[u8]) -> Result<Bytes, NoMemory>
        requires { length bytes.now ≤ self.old }
        ensures ok { IfOk result (λ piece. piece ≡ bytes.now) }
        ensures left { OnOk result (self.new + length bytes.now ≡ self.old) }
        ensures err { OnErr result (self.new ≡ self.old) }
    {
        self.block.extend_reserved(bytes);
        match self.block.freeze_to(bytes.len()) {
            Ok(piece) => Ok(piece),
            Err(_) => {
                self.block.truncate(0);
                Err(NoMemory)
            }
        }
    }

    /// A whole block: the same one where nothing refers to it any more, or another.
    #[inline(never)]
    pub fn renew(&mut self, kept: &mut Kept) -> Result<(), NoMemory>
        ensures room { OnOk result (self.new ≡ BLOCK_BYTES) }
        ensures kept { kept.new ≤ kept.old }
    {
        let empty = BytesMut::new(*self.block.allocator());
        let mut block = mem::replace(&mut self.block, empty);
        if block.try_reclaim(BLOCK_BYTES) {
            self.block = exact(block);
            return Ok(());
        }
        self.block = kept.take()?;
        Ok(())
    }
}
