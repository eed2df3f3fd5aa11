ghost use Rattle.std.specs.Prelude.{◌≡◌, ◌+◌, ◌-◌, ◌<◌, ◌≤◌, min, [], IsOk, IsSome, ◌↔◌, IfOk, IfSome};

use crate::NoMemory;
use crate::pool::{BLOCK_BYTES, KEPT_BLOCKS};
use bytes::BytesMut;
use std::alloc::Global;
use std::marker::Model;
use std::mem;

/// Up to eight blocks that came free. Contracts see how many.
#[derive(Drop)]
pub struct Kept {
    kept: [BytesMut; KEPT_BLOCKS],
    count: usize,
    alloc: Global,
}

impl Model for Kept {
    ghost use Rattle.std.specs.Prelude.{ℕ};

    ghost Value = { ℕ };

    ghost use Rattle.io_block.specs.Pool.{KeepsBlocks};

    ghost view = { λ p. p.count };

    ghost invariant = { KeepsBlocks };
}

impl Kept {
    /// None yet. It takes no memory.
    pub fn new(alloc: Global) -> Kept
        ensures { result ≡ 0 }
    {
        Kept {
            kept: [
                BytesMut::new(alloc),
                BytesMut::new(alloc),
                BytesMut::new(alloc),
                BytesMut::new(alloc),
                BytesMut::new(alloc),
                BytesMut::new(alloc),
                BytesMut::new(alloc),
                BytesMut::new(alloc),
            ],
            count: 0,
            alloc,
        }
    }

    /// How many there are.
    pub fn count(&self) -> usize
        ensures count { result ≡ self.now }
        ensures at_most { result ≤ KEPT_BLOCKS }
    {
        self.count
    }

    /// A block with no bytes and 8,192 free ones: a kept one, which takes no memory, or a new one.
    pub fn take(&mut self) -> Result<BytesMut, NoMemory>
        ensures block { IfOk result (λ b. (b.items ≡ []) × (b.spare ≡ BLOCK_BYTES)) }
        ensures kept { 0 < self.old → IsOk result }
        ensures count { self.new ≡ self.old - 1 }
    {
        if let Some(block) = self.pop() {
            return Ok(exact(block));
        }
        let block = BytesMut::with_capacity(self.alloc, BLOCK_BYTES)?;
        Ok(exact(block))
    }

    /// Takes a block back that came free. It is kept while fewer than eight are, and dropped
    /// otherwise.
    pub fn give_back(&mut self, block: BytesMut)
        requires { (block.items ≡ []) × (BLOCK_BYTES ≤ block.spare) }
        ensures { self.new ≡ min KEPT_BLOCKS (self.old + 1) }
    {
        if self.count < KEPT_BLOCKS {
            self.kept[self.count] = block;
            self.count += 1;
        }
    }

    // The block that was kept last.
    fn pop(&mut self) -> Option<BytesMut>
        ensures variant { IsSome result ↔ (0 < self.old) }
        ensures block { IfSome result (λ b. (b.items ≡ []) × (BLOCK_BYTES ≤ b.spare)) }
        ensures count { self.new ≡ self.old - 1 }
    {
        if self.count == 0 {
            return None;
        }
        self.count -= 1;
        let empty = BytesMut::new(self.alloc);
        Some(mem::replace(&mut self.kept[self.count], empty))
    }
}

/// Moves what is above 8,192 free bytes out of the block's range.
pub fn exact(mut block: BytesMut) -> BytesMut
    requires { (block.items ≡ []) × (BLOCK_BYTES ≤ block.spare) }
    ensures { (result.items ≡ []) × (result.spare ≡ BLOCK_BYTES) }
{
    let above = block.capacity() - BLOCK_BYTES;
    block.advance_mut(above);
    block.advance(above);
    block
}
