ghost use Rattle.std.specs.Prelude.{◌≡◌, ◌+◌, ◌<◌, ◌≤◌, [], ◌∷◌, ◌++◌, length, take, drop, map, slice_index, All, IfOk, IfErr, OnOk, OnErr};
ghost use Rattle.std.specs.List.{concat};
ghost use Rattle.io_buf.specs.Buffer.{front_sizes, rest_sizes, IsPiece};
ghost use Rattle.io_buf.specs.Fault.{IsCauseOf};

use super::IoBuf;
use crate::fault::CutFault;
use crate::refs::Refs;
use bytes::Bytes;
use io_block::{BLOCK_BYTES, NoMemory};

impl IoBuf {
    /// A buffer with the same bytes, in the same blocks. It copies nothing.
    #[inline(always)]
    pub fn share(&self) -> Result<IoBuf, NoMemory>
        ensures items { IfOk result (λ b. b.items ≡ self.now.items) }
        ensures sizes { IfOk result (λ b. b.sizes ≡ self.now.sizes) }
    {
        if self.len > 0 && self.len <= self.first_piece().len() {
            return self.share_within(0, self.len);
        }
        self.share_each()
    }

    // As `share`, from each reference in turn.
    #[inline(never)]
    fn share_each(&self) -> Result<IoBuf, NoMemory>
        ensures items { IfOk result (λ b. b.items ≡ self.now.items) }
        ensures sizes { IfOk result (λ b. b.sizes ≡ self.now.sizes) }
    {
        let mut all = IoBuf::new(self.alloc);
        match all.append_each(self) {
            Ok(()) => Ok(all),
            Err(fault) => {
                drop(all);
                Err(fault)
            }
        }
    }

    /// Appends references to the other buffer's bytes. It copies nothing. After a refusal it has a
    /// beginning of them besides its own.
    #[inline(always)]
    pub fn append_shared(&mut self, other: &IoBuf) -> Result<(), NoMemory>
        ensures items { OnOk result (self.new.items ≡ self.old.items ++ other.now.items) }
        ensures sizes { OnOk result (self.new.sizes ≡ self.old.sizes ++ other.now.sizes) }
    {
        if other.len == 0 {
            return Ok(());
        }
        if other.len <= other.first_piece().len() {
            return self.append_one(other);
        }
        self.append_each(other)
    }

    // Appends a reference to the other buffer's bytes, which are one piece.
    #[inline(never)]
    fn append_one(&mut self, other: &IoBuf) -> Result<(), NoMemory>
        requires some { (0 < length other.now.items) × (length other.now.items ≤ BLOCK_BYTES) }
        requires one { (0 < length other.now.sizes) × (length other.now.items ≤ slice_index other.now.sizes 0) }
        ensures items { OnOk result (self.new.items ≡ self.old.items ++ other.now.items) }
        ensures sizes { OnOk result (self.new.sizes ≡ self.old.sizes ++ other.now.sizes) }
    {
        let piece = other.part_within(0, other.len)?;
        self.push_piece(piece)
    }

    // Appends references to the other buffer's bytes.
    #[inline(never)]
    fn append_each(&mut self, other: &IoBuf) -> Result<(), NoMemory>
        ensures items { OnOk result (self.new.items ≡ self.old.items ++ other.now.items) }
        ensures sizes { OnOk result (self.new.sizes ≡ self.old.sizes ++ other.now.sizes) }
    {
        self.reserve_refs(other.pieces.len())?;
        self.add_front(&other.pieces, other.len)
    }

    /// A buffer with the first n bytes, in the same blocks. It copies nothing.
    #[inline(always)]
    pub fn share_front(&self, n: usize) -> Result<IoBuf, NoMemory>
        requires { n ≤ length self.now.items }
        ensures items { IfOk result (λ b. b.items ≡ take n self.now.items) }
        ensures sizes { IfOk result (λ b. b.sizes ≡ front_sizes n self.now.sizes) }
    {
        if n > 0 && n <= self.first_piece().len() {
            return self.share_within(0, n);
        }
        self.front_each(n)
    }

    // As `share_front`, from each reference in turn.
    #[inline(never)]
    fn front_each(&self, n: usize) -> Result<IoBuf, NoMemory>
        requires { n ≤ length self.now.items }
        ensures items { IfOk result (λ b. b.items ≡ take n self.now.items) }
        ensures sizes { IfOk result (λ b. b.sizes ≡ front_sizes n self.now.sizes) }
    {
        let mut front = IoBuf::new(self.alloc);
        match front.add_front(&self.pieces, n) {
            Ok(()) => Ok(front),
            Err(fault) => {
                drop(front);
                Err(fault)
            }
        }
    }

    /// A buffer with the bytes from one place up to another, in the same blocks. It copies nothing, and
    /// takes no memory where they lie in the first piece.
    pub fn share_part(&self, from: usize, to: usize) -> Result<IoBuf, NoMemory>
        requires from { from ≤ to }
        requires to { to ≤ length self.now.items }
        ensures items { IfOk result (λ b. b.items ≡ drop from (take to self.now.items)) }
        ensures sizes { IfOk result (λ b. b.sizes ≡ rest_sizes from (front_sizes to self.now.sizes)) }
    {
        if from < to && to <= self.first_piece().len() {
            return self.share_within(from, to);
        }
        let mut part = self.share_front(to)?;
        part.pop_front(from);
        Ok(part)
    }

    /// Cuts the first n bytes off, as a buffer over the same blocks. It copies nothing.
    pub fn cut_front(&mut self, n: usize) -> Result<IoBuf, CutFault>
        ensures items { IfOk result (λ front. front.items ≡ take n self.old.items) }
        ensures sizes { IfOk result (λ front. front.sizes ≡ front_sizes n self.old.sizes) }
        ensures rest_items { OnOk result (self.new.items ≡ drop n self.old.items) }
        ensures rest_sizes { OnOk result (self.new.sizes ≡ rest_sizes n self.old.sizes) }
        ensures spare { self.new.spare + length self.new.sizes
            ≡ self.old.spare + length self.old.sizes }

        // It is refused as too short exactly where n is above the length.
        ensures fits { OnOk result (n ≤ length self.old.items) }
        ensures cause { IfErr result (IsCauseOf (length self.old.items) n) }
        ensures err { OnErr result (self.new ≡ self.old) }
    {
        if n > self.len {
            return Err(CutFault::Short { have: self.len });
        }
        let front = self.share_front(n)?;
        self.pop_front(n);
        Ok(front)
    }

    // A buffer with some bytes of the first piece.
    #[inline(always)]
    fn share_within(&self, from: usize, to: usize) -> Result<IoBuf, NoMemory>
        requires some { (from < to) × (to ≤ BLOCK_BYTES) }
        requires within { (0 < length self.now.sizes) × (to ≤ slice_index self.now.sizes 0) }
        ensures items { IfOk result (λ b. b.items ≡ drop from (take to self.now.items)) }
        ensures sizes { IfOk result (λ b. b.sizes ≡ rest_sizes from (front_sizes to self.now.sizes)) }
    {
        let piece = self.part_within(from, to)?;
        let mut part = IoBuf::new(self.alloc);
        part.push_reserved(piece);
        Ok(part)
    }

    // A reference to some bytes of the first piece.
    #[inline(always)]
    fn part_within(&self, from: usize, to: usize) -> Result<Bytes, NoMemory>
        requires some { (from < to) × (to ≤ BLOCK_BYTES) }
        requires within { (0 < length self.now.sizes) × (to ≤ slice_index self.now.sizes 0) }
        ensures piece { IfOk result IsPiece }
        ensures items { IfOk result (λ p. p ≡ drop from (take to self.now.items)) }
        ensures sizes { IfOk result (λ p. length p ∷ [] ≡ rest_sizes from (front_sizes to self.now.sizes)) }
    {
        let first = self.pieces.get(0);
        let piece = first.slice(from..to)?;
        Ok(piece)
    }

    // Adds references to the first n bytes of the pieces.
    #[inline(always)]
    fn add_front(&mut self, pieces: &Refs, n: usize) -> Result<(), NoMemory>
        requires pieces { All IsPiece pieces.now.items }
        requires n { n ≤ length (concat pieces.now.items) }
        ensures items { OnOk result (self.new.items
            ≡ self.old.items ++ take n (concat pieces.now.items)) }
        ensures sizes { OnOk result (self.new.sizes
            ≡ self.old.sizes ++ front_sizes n (map length pieces.now.items)) }
    {
        let mut left = n;
        let mut place = 0;
        while left > 0 {
            let piece = pieces.get(place);
            let taken = left.min(piece.len());
            self.push_piece(piece.slice(..taken)?)?;
            left -= taken;
            place += 1;
        }
        Ok(())
    }
}
