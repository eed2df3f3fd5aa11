ghost use Rattle.std.specs.Prelude.{◌≡◌, ◌<◌, ◌≤◌, ◌==◌, [], length, sum, slice_index, take, All, IsOk, OnOk, OnErr};

use crate::refs::Refs;
use bytes::Bytes;
use io_block::{BLOCK_BYTES, NoMemory};
use std::alloc::Global;
use std::marker::Model;

mod append;
mod copy;
mod cut;
mod ends;
mod join;

// More references than these have no addresses: reserving more is want of memory.
const MOST_REFS: usize = 1_125_899_906_842_624;

/// A message as references to shared blocks (bRPC's iobuf.md). A contract sees its bytes as `items`,
/// how many of them each reference has as `sizes`, and as `spare` the number of references that can
/// be added without memory. Which blocks they lie in is seen nowhere.
///
/// Whether a block came free shows only as its last reference is given up. So blocks go back to a
/// pool through the calls that are handed one, `recycle_front` and `recycle`, and `pop_front`,
/// `pop_back` and a drop free them.
#[derive(Drop)]
pub struct IoBuf {
    pieces: Refs,
    len: usize,
    alloc: Global,
}

impl Model for IoBuf {
    ghost use Rattle.io_buf.specs.Buffer.{Buffer, buffer_code};

    ghost Value = { Buffer };

    ghost coded = { buffer_code };

    ghost use Rattle.io_buf.specs.InsideBuffer.{buffer_view, IsBuffer};

    ghost view = { buffer_view };

    ghost invariant = { IsBuffer };
}

impl IoBuf {
    ghost use Rattle.io_buf.specs.Buffer.{piece_at, IsPiece, IsSize, AddsPiece};

    /// An empty buffer. It takes no memory, nor do two references.
    #[inline(always)]
    pub fn new(alloc: Global) -> IoBuf
        ensures items { result.items ≡ [] }
        ensures sizes { result.sizes ≡ [] }
        ensures spare { result.spare ≡ 2 }
    {
        IoBuf {
            pieces: Refs::new(alloc),
            len: 0,
            alloc,
        }
    }

    /// How many bytes it has.
    #[inline(always)]
    pub fn len(&self) -> usize
        ensures { result ≡ length self.now.items }
    {
        self.len
    }

    /// Whether it has no bytes.
    pub fn is_empty(&self) -> bool
        ensures { result ≡ (length self.now.items == 0) }
    {
        self.len == 0
    }

    /// How many references it has.
    pub fn refs(&self) -> usize
        ensures value { result ≡ length self.now.sizes }
        ensures total { sum self.now.sizes ≡ length self.now.items }
        ensures each { All IsSize self.now.sizes }
    {
        self.pieces.len()
    }

    /// The bytes of the first reference: at least one, and at most 8,192.
    pub fn first_piece(&self) -> &[u8]
        requires { 0 < length self.now.items }
        ensures front { result.now ≡ take (slice_index self.now.sizes 0) self.now.items }
        ensures size { length result.now ≡ slice_index self.now.sizes 0 }
        ensures some { 0 < length result.now }
        ensures at_most { length result.now ≤ BLOCK_BYTES }
    {
        self.pieces.get(0).as_slice()
    }

    /// The bytes of the reference at this place.
    pub fn piece(&self, place: usize) -> &[u8]
        requires { place < length self.now.sizes }
        ensures value { result.now ≡ piece_at self.now place }
        ensures size { length result.now ≡ slice_index self.now.sizes place }
        ensures some { 0 < length result.now }
        ensures at_most { length result.now ≤ BLOCK_BYTES }
    {
        self.pieces.get(place).as_slice()
    }

    /// Makes room for n references, so that adding them takes no memory.
    #[inline(always)]
    pub fn reserve_refs(&mut self, n: usize) -> Result<(), NoMemory>
        ensures items { self.new.items ≡ self.old.items }
        ensures sizes { self.new.sizes ≡ self.old.sizes }
        ensures ok { OnOk result (n ≤ self.new.spare) }
        ensures err { OnErr result (self.new ≡ self.old) }
        ensures enough { n ≤ self.old.spare → IsOk result }
        ensures spare { self.old.spare ≤ self.new.spare }
    {
        let refs = self.pieces.len();
        if n <= self.pieces.capacity() - refs {
            return Ok(());
        }
        self.grow_refs(n)
    }

    // Makes room for n references in memory.
    #[inline(never)]
    fn grow_refs(&mut self, n: usize) -> Result<(), NoMemory>
        ensures items { self.new.items ≡ self.old.items }
        ensures sizes { self.new.sizes ≡ self.old.sizes }
        ensures ok { OnOk result (n ≤ self.new.spare) }
        ensures err { OnErr result (self.new ≡ self.old) }
        ensures spare { self.old.spare ≤ self.new.spare }
    {
        let refs = self.pieces.len();
        if n > MOST_REFS - refs {
            return Err(NoMemory);
        }
        // At least twofold, so that references added one by one are moved a few times each.
        let more = n.max(refs).min(MOST_REFS - refs);
        self.pieces.reserve_exact(more)?;
        Ok(())
    }

    // Adds a reference, for which there is room.
    #[inline(always)]
    fn push_reserved(&mut self, piece: Bytes)
        requires room { 0 < self.old.spare }
        requires piece { IsPiece piece }
        ensures { AddsPiece self.old self.new piece }
    {
        self.len += piece.len();
        self.pieces.push_back_reserved(piece);
    }
}
