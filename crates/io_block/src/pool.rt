ghost use Rattle.std.specs.Prelude.{◌≡◌, ◌+◌, ◌-◌, ◌<◌, ◌≤◌, min, [], IsOk, IfOk, length};

use crate::NoMemory;
use crate::kept::Kept;
use crate::room::Room;
use bytes::{Bytes, BytesMut};
use std::alloc::Global;
use std::marker::Model;
use std::mem;

/// The bytes of a block: the default of bRPC's IOBuf (iobuf.md).
pub const BLOCK_BYTES: usize = 8_192;

/// How many blocks a pool keeps at most. bRPC keeps eight for each thread.
pub const KEPT_BLOCKS: usize = 8;

/// Keeps up to eight blocks that came free, so that a stream of messages runs on the same few, and
/// the rest of the block that was written to last, so that small messages lie in one block behind
/// one another. Contracts see how many it keeps.
#[derive(Drop)]
pub struct BlockPool {
    kept: Kept,
    room: Room,
    scratch: Vec<u8>,
    alloc: Global,
}

impl Model for BlockPool {
    ghost use Rattle.std.specs.Prelude.{ℕ};

    ghost Value = { ℕ };

    ghost view = { λ p. p.kept };
}

impl BlockPool {
    /// A pool that keeps none yet. It takes no memory.
    pub fn new(alloc: Global) -> BlockPool
        ensures { result ≡ 0 }
    {
        BlockPool {
            kept: Kept::new(alloc),
            room: Room::none(alloc),
            scratch: Vec::new(alloc),
            alloc,
        }
    }

    /// How many blocks it keeps.
    pub fn kept(&self) -> usize
        ensures count { result ≡ self.now }
        ensures at_most { result ≤ KEPT_BLOCKS }
    {
        self.kept.count()
    }

    /// A block with no bytes and 8,192 free ones: a kept one, which takes no memory, or a new one.
    pub fn take(&mut self) -> Result<BytesMut, NoMemory>
        ensures block { IfOk result (λ b. (b.items ≡ []) × (b.spare ≡ BLOCK_BYTES)) }
        ensures kept { 0 < self.old → IsOk result }
        ensures count { self.new ≡ self.old - 1 }
    {
        self.kept.take()
    }

    /// Takes a block back that came free. It is kept while fewer than eight are, and dropped
    /// otherwise.
    pub fn give_back(&mut self, block: BytesMut)
        requires { (block.items ≡ []) × (BLOCK_BYTES ≤ block.spare) }
        ensures { self.new ≡ min KEPT_BLOCKS (self.old + 1) }
    {
        self.kept.give_back(block);
    }

    /// Lets a reference to a block go. Where it was the last one the block came free, and is taken
    /// back; the bytes of a block that is in use elsewhere stay as they are.
    #[inline(always)]
    pub fn recycle(&mut self, piece: Bytes)
        ensures at_least { self.old ≤ self.new }
        ensures at_most { self.new ≤ min KEPT_BLOCKS (self.old + 1) }
    {
        let _ = self.kept.count();
        if piece.is_unique() {
            self.take_back(piece);
        }
    }

    // Takes the block back that the last reference to it is given up for.
    #[inline(never)]
    fn take_back(&mut self, piece: Bytes)
        ensures at_least { self.old ≤ self.new }
        ensures at_most { self.new ≤ min KEPT_BLOCKS (self.old + 1) }
    {
        let _ = self.kept.count();
        let Ok(mut block) = piece.try_into_mut() else {
            return;
        };
        block.clear();
        if block.capacity() >= BLOCK_BYTES {
            self.kept.give_back(block);
        }
    }

    /// Lends memory to spell in, which holds anything. What is lent meanwhile is another.
    pub fn lend_scratch(&mut self) -> Vec<u8>
        ensures { self.new ≡ self.old }
    {
        let empty = Vec::new(self.alloc);
        mem::replace(&mut self.scratch, empty)
    }

    /// Takes that memory back, unless it grew beyond a block.
    pub fn keep_scratch(&mut self, scratch: Vec<u8>)
        ensures { self.new ≡ self.old }
    {
        if scratch.capacity() <= BLOCK_BYTES {
            self.scratch = scratch;
        }
    }

    /// How many bytes the rest of the last block takes.
    pub fn left(&self) -> usize
        ensures { result ≤ BLOCK_BYTES }
    {
        self.room.left()
    }

    /// Copies the bytes behind those that were written last, where the rest of that block takes
    /// them, and into a whole block otherwise; returns a reference to them.
    #[inline(always)]
    pub fn write(&mut self, bytes: &[u8]) -> Result<Bytes, NoMemory>
        requires { length bytes.now ≤ BLOCK_BYTES }
        ensures ok { IfOk result (λ piece. piece ≡ bytes.now) }
        ensures kept { self.new ≤ self.old }
    {
        if self.room.left() < bytes.len() {
            self.room.renew(&mut self.kept)?;
        }
        self.room.write(bytes)
    }
}
