ghost use Rattle.std.specs.Prelude.{◌≡◌, ◌+◌, ◌-◌, ◌<◌, ◌≤◌, [], length, take, drop, slice_index, MatchOption};
ghost use Rattle.io_buf.specs.Buffer.{front_sizes, rest_sizes, IsPiece, PutsPieceFirst, TakesLast, IsShorter};

use super::IoBuf;
use bytes::Bytes;
use io_block::BlockPool;

impl IoBuf {
    /// Drops the first n bytes. Each reference that goes takes the same time, however many there
    /// are.
    pub fn pop_front(&mut self, n: usize)
        requires { n ≤ length self.old.items }
        ensures items { self.new.items ≡ drop n self.old.items }
        ensures sizes { self.new.sizes ≡ rest_sizes n self.old.sizes }
        ensures spare { self.new.spare + length self.new.sizes
            ≡ self.old.spare + length self.old.sizes }
    {
        let keep = self.len - n;
        while self.len > keep {
            drop(self.advance_first(self.len - keep));
        }
    }

    /// Drops the first n bytes, as `pop_front`, and gives each block that comes free so back to the
    /// pool.
    pub fn recycle_front(&mut self, pool: &mut BlockPool, n: usize)
        requires { n ≤ length self.old.items }
        ensures items { self.new.items ≡ drop n self.old.items }
        ensures sizes { self.new.sizes ≡ rest_sizes n self.old.sizes }
        ensures spare { self.new.spare + length self.new.sizes
            ≡ self.old.spare + length self.old.sizes }
        ensures pool { pool.old ≤ pool.new }
    {
        let keep = self.len - n;
        while self.len > keep {
            recycle_gone(pool, self.advance_first(self.len - keep));
        }
    }

    /// Drops the last n bytes.
    pub fn pop_back(&mut self, n: usize)
        requires { n ≤ length self.old.items }
        ensures items { self.new.items ≡ take (length self.old.items - n) self.old.items }
        ensures sizes { self.new.sizes
            ≡ front_sizes (length self.old.items - n) self.old.sizes }
        ensures spare { self.new.spare + length self.new.sizes
            ≡ self.old.spare + length self.old.sizes }
    {
        let keep = self.len - n;
        while self.len > keep {
            self.retreat_last(self.len - keep);
        }
    }

    // Takes the first reference.
    #[inline(always)]
    pub(super) fn pop_piece(&mut self) -> Option<Bytes>
        ensures { MatchOption result ((self.old.sizes ≡ []) × (self.old.items ≡ []) × (self.new ≡ self.old))
            (λ piece. IsPiece piece × PutsPieceFirst self.new self.old piece) }
    {
        let piece = self.pieces.pop_front()?;
        self.len -= piece.len();
        Some(piece)
    }

    // Takes the last reference.
    fn pop_last_piece(&mut self) -> Option<Bytes>
        ensures { MatchOption result ((self.old.sizes ≡ []) × (self.old.items ≡ []) × (self.new ≡ self.old))
            (λ piece. IsPiece piece × TakesLast self.old self.new piece) }
    {
        let piece = self.pieces.pop_back()?;
        self.len -= piece.len();
        Some(piece)
    }

    // Drops up to n bytes of the first reference, and returns it where it went whole.
    fn advance_first(&mut self, n: usize) -> Option<Bytes>
        requires { (0 < n) × (n ≤ length self.old.items) }
        ensures shorter { IsShorter self.old self.new n }
        ensures items { self.new.items
            ≡ drop (length self.old.items - length self.new.items) self.old.items }
        ensures sizes { self.new.sizes
            ≡ rest_sizes (length self.old.items - length self.new.items) self.old.sizes }
    {
        if n < self.first_piece().len() {
            self.advance_within(n);
            return None;
        }
        let Some(first) = self.pop_piece() else {
            unreachable!()
        };
        Some(first)
    }

    // Drops the first n bytes of the first reference, which has more.
    fn advance_within(&mut self, n: usize)
        requires some { 0 < length self.old.sizes }
        requires within { (0 < n) × (n < slice_index self.old.sizes 0) }
        ensures items { self.new.items ≡ drop n self.old.items }
        ensures sizes { self.new.sizes ≡ rest_sizes n self.old.sizes }
        ensures spare { self.new.spare ≡ self.old.spare }
        ensures refs { length self.new.sizes ≡ length self.old.sizes }
    {
        self.len -= n;
        self.pieces.advance_first(n);
    }

    // Drops up to n bytes of the last reference.
    fn retreat_last(&mut self, n: usize)
        requires { (0 < n) × (n ≤ length self.old.items) }
        ensures shorter { IsShorter self.old self.new n }
        ensures items { self.new.items ≡ take (length self.new.items) self.old.items }
        ensures sizes { self.new.sizes ≡ front_sizes (length self.new.items) self.old.sizes }
    {
        let Some(mut last) = self.pop_last_piece() else {
            unreachable!()
        };
        if n < last.len() {
            last.truncate(last.len() - n);
            self.push_reserved(last);
        }
    }
}

// Gives the block back of a reference that went, where that frees it.
#[inline(always)]
fn recycle_gone(pool: &mut BlockPool, gone: Option<Bytes>)
    ensures { pool.old ≤ pool.new }
{
    if let Some(piece) = gone {
        pool.recycle(piece);
    }
}
