ghost use Rattle.std.specs.Prelude.{◌≡◌, ℕ, ◌+◌, ◌<◌, ◌≤◌, List, [], ◌∷◌, ◌++◌, length, IfOk, OnOk, OnErr};
ghost use Rattle.std.specs.Bool.{OnTrue};
ghost use Rattle.io_buf.specs.Buffer.{block_sizes, IsPiece};

use super::IoBuf;
use bytes::Bytes;
use io_block::{BLOCK_BYTES, BlockPool, NoMemory};
use std::alloc::Global;

impl IoBuf {
    /// Copies the bytes to the end, first into the rest of the block that the pool's buffers wrote to
    /// last, and then into whole blocks. In a buffer that was empty they lie in pieces of 8,192
    /// bytes from their start, the last one shorter, and at most 8,192 bytes in one piece.
    #[inline(always)]
    pub fn append_bytes(&mut self, pool: &mut BlockPool, bytes: &[u8]) -> Result<(), NoMemory>
        ensures items { OnOk result (self.new.items ≡ self.old.items ++ bytes.now) }
        ensures empty { OnOk result (self.old.items ≡ []
            → self.new.sizes ≡ block_sizes (length bytes.now)) }
        ensures kept { OnOk result ((more : List ℕ) × (self.new.sizes ≡ self.old.sizes ++ more)) }
        ensures err { OnErr result (self.new ≡ self.old) }
    {
        let fresh = self.len == 0;
        if bytes.is_empty() {
            return Ok(());
        }
        if bytes.len() <= BLOCK_BYTES && (fresh || bytes.len() <= pool.left()) {
            return self.write_piece(pool, bytes);
        }
        let added = in_blocks(self.alloc, pool, bytes, fresh)?;
        self.append_whole(added)
    }

    // As `append_buf`, where room for the references must be made first.
    #[inline(never)]
    fn append_whole(&mut self, other: IoBuf) -> Result<(), NoMemory>
        ensures items { OnOk result (self.new.items ≡ self.old.items ++ other.items) }
        ensures sizes { OnOk result (self.new.sizes ≡ self.old.sizes ++ other.sizes) }
        ensures err { OnErr result (self.new ≡ self.old) }
    {
        match self.reserve_refs(other.refs()) {
            Ok(()) => {
                self.append_buf(other);
                Ok(())
            }
            Err(fault) => {
                drop(other);
                Err(fault)
            }
        }
    }

    /// Moves the references of the other buffer to the end. It copies nothing.
    pub fn append_buf(&mut self, mut other: IoBuf)
        requires { length other.sizes ≤ self.old.spare }
        ensures items { self.new.items ≡ self.old.items ++ other.items }
        ensures sizes { self.new.sizes ≡ self.old.sizes ++ other.sizes }
        ensures spare { self.new.spare + length other.sizes ≡ self.old.spare }
    {
        while let Some(piece) = other.pop_piece() {
            self.push_reserved(piece);
        }
    }

    /// Lets the buffer go, and gives each block that comes free so back to the pool: those that no
    /// other buffer has a reference to.
    #[inline(always)]
    pub fn recycle(self, pool: &mut BlockPool)
        ensures { pool.old ≤ pool.new }
    {
        let IoBuf {
            pieces,
            len: _,
            alloc: _,
        } = self;
        pieces.recycle(pool);
    }

    // Adds a reference.
    #[inline(always)]
    pub(super) fn push_piece(&mut self, piece: Bytes) -> Result<(), NoMemory>
        requires { IsPiece piece }
        ensures items { OnOk result (self.new.items ≡ self.old.items ++ piece) }
        ensures sizes { OnOk result (self.new.sizes ≡ self.old.sizes ++ length piece ∷ []) }
        ensures err { OnErr result (self.new ≡ self.old) }
    {
        self.reserve_refs(1)?;
        self.push_reserved(piece);
        Ok(())
    }

    // Copies at most a block of bytes, and adds the reference to them. It is the one place where the pool
    // writes, so that the new reference is put where it belongs at once.
    #[inline(never)]
    fn write_piece(&mut self, pool: &mut BlockPool, bytes: &[u8]) -> Result<(), NoMemory>
        requires { (0 < length bytes.now) × (length bytes.now ≤ BLOCK_BYTES) }
        ensures items { OnOk result (self.new.items ≡ self.old.items ++ bytes.now) }
        ensures sizes { OnOk result (self.new.sizes ≡ self.old.sizes ++ length bytes.now ∷ []) }
        ensures err { OnErr result (self.new ≡ self.old) }
    {
        let piece = pool.write(bytes)?;
        self.push_piece(piece)
    }

    // Writes the bytes in pieces of a block.
    fn fill_blocks(&mut self, pool: &mut BlockPool, bytes: &[u8]) -> Result<(), NoMemory>
        ensures items { OnOk result (self.new.items ≡ self.old.items ++ bytes.now) }
        ensures sizes { OnOk result (self.new.sizes
            ≡ self.old.sizes ++ block_sizes (length bytes.now)) }
    {
        let mut at = 0;
        while at < bytes.len() {
            let end = at + BLOCK_BYTES.min(bytes.len() - at);
            self.write_piece(pool, &bytes[at..end])?;
            at = end;
        }
        Ok(())
    }

    // As `in_blocks`, at the end.
    fn fill(&mut self, pool: &mut BlockPool, bytes: &[u8], fresh: bool) -> Result<(), NoMemory>
        ensures items { OnOk result (self.new.items ≡ self.old.items ++ bytes.now) }
        ensures sizes { OnOk result (OnTrue fresh (self.new.sizes ≡ self.old.sizes ++ block_sizes (length bytes.now))) }
    {
        let within = pool.left();
        if fresh || within == 0 || within >= bytes.len() {
            self.fill_blocks(pool, bytes)?;
            return Ok(());
        }
        self.write_piece(pool, &bytes[..within])?;
        self.fill_blocks(pool, &bytes[within..])?;
        Ok(())
    }
}

// The bytes in pieces of a block; unless they are to begin with a whole piece, what fits goes into
// the rest of the last block first.
#[inline(never)]
fn in_blocks(
    alloc: Global,
    pool: &mut BlockPool,
    bytes: &[u8],
    fresh: bool,
) -> Result<IoBuf, NoMemory>
    ensures items { IfOk result (λ b. b.items ≡ bytes.now) }
    ensures sizes { IfOk result (λ b. OnTrue fresh (b.sizes ≡ block_sizes (length bytes.now))) }
{
    let mut added = IoBuf::new(alloc);
    match added.fill(pool, bytes, fresh) {
        Ok(()) => Ok(added),
        Err(fault) => {
            drop(added);
            Err(fault)
        }
    }
}
