ghost use Rattle.std.specs.Prelude.{◌≡◌, ◌+◌, ◌^◌, ◌<◌, ◌≤◌, [], ◌∷◌, ◌++◌, length, drop, max, slice_index_or, None, MatchOption, OnOk, OnErr};
ghost use Rattle.std.specs.Option.{option_to_list};

use bytes::Bytes;
use io_block::BlockPool;
use std::alloc::{AllocError, Global};
use std::collections::VecDeque;
use std::marker::Model;
use std::mem;

/// References in a row, of which the first two are held in place, so that they take no memory.
/// Contracts see the bytes of each, and how many there is room for.
#[derive(Drop)]
pub(crate) struct Refs {
    first: Option<Bytes>,
    second: Option<Bytes>,
    rest: VecDeque<Bytes>,
}

impl Model for Refs {
    ghost use Rattle.io_buf.specs.ReferencesInRow.{RefsState, refs_view, IsRefs};

    ghost Value = { RefsState };

    ghost view = { refs_view };

    ghost invariant = { IsRefs };
}

impl Refs {
    #[inline(always)]
    pub(crate) fn new(alloc: Global) -> Refs
        ensures items { result.items ≡ [] }
        ensures capacity { result.capacity ≡ 2 }
    {
        let Ok(rest) = VecDeque::with_capacity(alloc, 0) else {
            unreachable!()
        };
        Refs {
            first: None,
            second: None,
            rest,
        }
    }

    #[inline(always)]
    pub(crate) fn len(&self) -> usize
        ensures { result ≡ length self.now.items }
    {
        if self.first.is_none() {
            return 0;
        }
        if self.second.is_none() {
            return 1;
        }
        2 + self.rest.len()
    }

    #[inline(always)]
    pub(crate) fn capacity(&self) -> usize
        ensures { result ≡ self.now.capacity }
    {
        2 + self.rest.capacity()
    }

    #[inline(always)]
    pub(crate) fn get(&self, place: usize) -> &Bytes
        requires { place < length self.now.items }
        ensures value { result.now ≡ slice_index_or self.now.items place result.now }
        ensures bound { place < 2 ^ 50 }
    {
        if place > 1 {
            return &self.rest[place - 2];
        }
        let held = if place == 0 {
            &self.first
        } else {
            &self.second
        };
        match held {
            Some(piece) => piece,
            None => unreachable!(),
        }
    }

    #[inline(always)]
    pub(crate) fn push_back_reserved(&mut self, piece: Bytes)
        requires { length self.old.items < self.old.capacity }
        ensures items { self.new.items ≡ self.old.items ++ piece ∷ [] }
        ensures capacity { self.new.capacity ≡ self.old.capacity }
    {
        if self.first.is_none() {
            self.first = Some(piece);
        } else if self.second.is_none() {
            self.second = Some(piece);
        } else {
            self.rest.push_back_reserved(piece);
        }
    }

    /// Drops the first bytes of the first reference, which has more.
    pub(crate) fn advance_first(&mut self, n: usize)
        requires some { 0 < length self.old.items }
        requires within { n < length (slice_index_or self.old.items 0 []) }
        ensures items { self.new.items ≡ drop n (slice_index_or self.old.items 0 []) ∷ drop 1 self.old.items }
        ensures capacity { self.new.capacity ≡ self.old.capacity }
    {
        if let Some(first) = &mut self.first {
            first.advance(n);
        }
    }

    #[inline(always)]
    pub(crate) fn pop_front(&mut self) -> Option<Bytes>
        ensures items { self.old.items ≡ option_to_list result ++ self.new.items }
        ensures capacity { self.new.capacity ≡ self.old.capacity }
        ensures cases { MatchOption result ((self.old.items ≡ []) × (self.new ≡ self.old)) (λ _. length self.new.items + 1 ≡ length self.old.items) }
    {
        if self.second.is_none() {
            return mem::replace(&mut self.first, None);
        }
        let third = self.rest.pop_front();
        let second = mem::replace(&mut self.second, third);
        mem::replace(&mut self.first, second)
    }

    pub(crate) fn pop_back(&mut self) -> Option<Bytes>
        ensures items { self.old.items ≡ self.new.items ++ option_to_list result }
        ensures capacity { self.new.capacity ≡ self.old.capacity }
        ensures cases { MatchOption result ((self.old.items ≡ []) × (self.new ≡ self.old)) (λ _. length self.new.items + 1 ≡ length self.old.items) }
    {
        if let Some(last) = self.rest.pop_back() {
            return Some(last);
        }
        if let Some(second) = mem::replace(&mut self.second, None) {
            return Some(second);
        }
        mem::replace(&mut self.first, None)
    }

    /// Gives each reference up, from the last to the first. Where there are at most two, one that isn't the last to its
    /// block is dropped where it lies, behind which no other is to be moved: moving it costs time.
    #[inline(always)]
    pub(crate) fn recycle(mut self, pool: &mut BlockPool)
        ensures { pool.old ≤ pool.new }
    {
        if self.rest.is_empty() && !is_last(&self.second) {
            self.second = None;
            if !is_last(&self.first) {
                return;
            }
        }
        self.recycle_each(pool);
    }

    // Gives each reference up, from the last to the first.
    #[inline(never)]
    fn recycle_each(self, pool: &mut BlockPool)
        ensures { pool.old ≤ pool.new }
    {
        let Refs {
            first,
            second,
            rest,
        } = self;
        if !rest.is_empty() {
            recycle_rest(rest, pool);
        }
        recycle_held(second, pool);
        recycle_held(first, pool);
    }

    pub(crate) fn reserve_exact(&mut self, more: usize) -> Result<(), AllocError>
        requires { length self.old.items + more ≤ 2 ^ 50 }
        ensures items { self.new.items ≡ self.old.items }
        ensures ok { OnOk result (self.new.capacity ≡ max self.old.capacity (length self.old.items + more)) }
        ensures err { OnErr result (self.new.capacity ≡ self.old.capacity) }
    {
        let within = if self.first.is_none() {
            2
        } else if self.second.is_none() {
            1
        } else {
            0
        };
        self.rest.reserve_exact(more.saturating_sub(within))
    }
}

// Gives the references behind the first two up, from the last to the first.
#[inline(never)]
fn recycle_rest(mut rest: VecDeque<Bytes>, pool: &mut BlockPool)
    ensures { pool.old ≤ pool.new }
{
    while let Some(piece) = rest.pop_back() {
        pool.recycle(piece);
    }
}

// Whether this is the last reference to a block.
#[inline(always)]
fn is_last(held: &Option<Bytes>) -> bool {
    match held {
        Some(piece) => piece.is_unique(),
        None => false,
    }
}

// Gives a reference up where there is one.
#[inline(always)]
fn recycle_held(held: Option<Bytes>, pool: &mut BlockPool)
    ensures { pool.old ≤ pool.new }
{
    if let Some(piece) = held {
        pool.recycle(piece);
    }
}
