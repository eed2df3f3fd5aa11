// A call for each kind of step.
ghost use Rattle.std.specs.Prelude.{◌≡◌, ◌≢◌, ◌+◌, ◌%◌, ◌<◌, ◌≤◌, ℕ, Bool, [], ◌∷◌, IsTrue};
ghost use Rattle.sock_words.specs.PackedWords.{call_id};
ghost use Rattle.corr_core.specs.IdSlotWord.{parts, made_word, locked_word, posted_word, unlocked_word, free_word};
ghost use Rattle.corr_core.specs.IdSlotLaw.{LAST, is_made, is_advance};
ghost use Rattle.corr_core.specs.declared.marks.Hand.TheVariants.{Empty, Full};
ghost use Rattle.corr_core.specs.declared.marks.Token.TheVariants.{Claimed, Locked, Leaving};
ghost use Rattle.corr_core.specs.declared.marks.Note.TheVariants.{Tried, Made, Ended, Locker, Queued, Saw};
ghost use Rattle.id_rule.specs.LawfulIdTable.{tokens_in, notes_in, with_note};
ghost use Rattle.id_rule.specs.IdPlays.{LockFits, Longer};
ghost use Rattle.corr_id.specs.Ruled.{IsBehind, IsFresh};
ghost use Rattle.corr_id.specs.IdTableSeat.{Sits, Stays};
ghost use Rattle.corr_id.specs.SeatBehindIdCalls.{is_saw, is_at, Became, one, MayMove, Moved, Claims, Locks, FoundUpTo, ReachedUpTo, tokens_left, advance_note};
ghost use Rattle.sock_words.specs.PackedWords.{bit};
ghost use Rattle.sock_words.specs.Totals.{total};

use crate::plays::{Claim, End, Free, Give, Lock, Make, Queue, Read, See, Take, Unlock};
use crate::table::{IdSeat, IdTable};
use corr_core::{id_index, tag_index};
use sock_words::IdWord;

impl<C> IdTable<C> {
    // I1: the slot is claimed where 0 is found.
    pub(crate) fn claim_id(&self, seat: &mut IdSeat<C>, at: u16) -> u64
        requires seat { Sits self.now.table.shared.table_id seat.old }
        requires slot { at < self.now.table.shared.key.slots }
        ensures seat { Stays seat.old seat.new }
        ensures claimed { result ≡ 0 → Became at seat.old.me.0 seat.new.me.0 (Claimed 0 Empty ∷ []) [] }
        ensures none { result ≡ 0 → tokens_in at seat.old.me.0 ≡ [] }
        ensures tried { result ≢ 0 → Became at seat.old.me.0 seat.new.me.0 (tokens_in at seat.old.me.0) (one at Tried) }
    {
        let index = tag_index(at);
        self.table.shared.swap::<Claim>(seat, index, 1)
    }

    // I7 by the seat that claimed the slot.
    pub(crate) fn read_first(&self, seat: &mut IdSeat<C>, at: u16) -> u64
        requires seat { Sits self.now.table.shared.table_id seat.old }
        requires slot { at < self.now.table.shared.key.slots }
        requires claim { Claims at seat.old.me.0 0 Empty }
        ensures seat { Stays seat.old seat.new }
        ensures read { Became at seat.old.me.0 seat.new.me.0 (Claimed (parts result).first Empty ∷ []) [] }
        ensures first { (1 ≤ (parts result).first) × ((parts result).first ≤ LAST) }
        ensures before { (w : ℕ) → 0 < total (is_saw w) (notes_in at seat.old.me.0) → 0 < (parts w).state → (parts w).first < (parts result).first }
        ensures unnoted { (x : ℕ) → x % 2 ≡ 0 → total (is_at x (call_id at (parts result).first)) seat.old.me.0.kept ≡ 0 }
    {
        let index = id_index(at);
        self.table.shared.load::<Read>(seat, index)
    }

    // I7.
    pub(crate) fn load_id_word(&self, seat: &mut IdSeat<C>, at: u16) -> u64
        requires seat { Sits self.now.table.shared.table_id seat.old }
        requires slot { at < self.now.table.shared.key.slots }
        ensures seat { Stays seat.old seat.new }
        ensures saw { Became at seat.old.me.0 seat.new.me.0 (tokens_in at seat.old.me.0) (one at (Saw result)) }
        ensures first { 1 ≤ (parts result).first }
        ensures behind { (f : ℕ) → 0 < total (is_made f) (notes_in at seat.old.me.0) → IsBehind f (parts result) }
        ensures advanced { (f : ℕ) → 0 < total (is_advance f) (notes_in at seat.old.me.0) → IsBehind f (parts result) }
    {
        let index = id_index(at);
        self.table.shared.load::<See>(seat, index)
    }

    // K1 and K2: the home gets this value, and the answer is what it had.
    pub(crate) fn move_call(&self, seat: &mut IdSeat<C>, at: u16, value: Option<C>) -> Option<C>
        requires seat { Sits self.now.table.shared.table_id seat.old }
        requires slot { at < self.now.table.shared.key.slots }
        requires may { MayMove at seat.old.me.0 value }
        ensures seat { Stays seat.old seat.new }
        ensures moved { Moved at seat.old.me.0 seat.new.me.0 value result }
    {
        let index = tag_index(at);
        self.table.shared.load::<Take>(seat, index);
        let found = self.table.shared.exchange(seat, at as usize, value);
        self.table.shared.load::<Give>(seat, index);
        found
    }

    // I2.
    pub(crate) fn make_id(&self, seat: &mut IdSeat<C>, at: u16, value: u64)
        requires seat { Sits self.now.table.shared.table_id seat.old }
        requires slot { at < self.now.table.shared.key.slots }
        requires word { (parts value ≡ made_word (parts value).first (parts value).range) × (1 ≤ (parts value).first) × (2 ≤ (parts value).range) × ((parts value).range ≤ 8) }
        requires claim { (c : C) × Claims at seat.old.me.0 (parts value).first (Full c) }
        ensures seat { Stays seat.old seat.new }
        ensures made { (c : C) → Claims at seat.old.me.0 (parts value).first (Full c) → Became at seat.old.me.0 seat.new.me.0 [] (one at (Made (parts value).first (parts value).range c)) }
    {
        let index = id_index(at);
        self.table.shared.store::<Make>(seat, index, value);
    }

    // I3, and I4 on an open id. The answer is the word found.
    pub(crate) fn lock_id(&self, seat: &mut IdSeat<C>, at: u16, from: u64, next: u64) -> u64
        requires seat { Sits self.now.table.shared.table_id seat.old }
        requires slot { at < self.now.table.shared.key.slots }
        requires from { ((parts from).state ≡ 1) × (parts next ≡ locked_word (parts from)) }
        ensures seat { Stays seat.old seat.new }
        ensures won { result ≡ from → LockFits (parts from) × ((c : C) × Became at seat.old.me.0 seat.new.me.0 (Locked (parts from).first (parts from).range (parts from).attempt c (parts from).oldest (parts from).second (Full c) ∷ []) (one at (Locker (parts from).first c))) }
        ensures none_queued { result ≡ from → ((parts from).oldest ≡ 0) × ((parts from).second ≡ 0) }
        ensures latest { result ≡ from → FoundUpTo at (parts from).first seat.old.me.0 }
        ensures reached { result ≡ from → ReachedUpTo at (parts from).first (parts from).attempt seat.old.me.0 }
        ensures lost { result ≢ from → Became at seat.old.me.0 seat.new.me.0 (tokens_in at seat.old.me.0) (one at (Saw result)) }
    {
        let index = id_index(at);
        self.table
            .shared
            .compare_exchange::<Lock>(seat, index, from, next)
    }

    // I4 on a locked id: the error is queued where the word is still `from`. The answer is the word found.
    pub(crate) fn queue_id(
        &self,
        seat: &mut IdSeat<C>,
        at: u16,
        from: u64,
        next: u64,
        error: u16,
    ) -> u64
        requires seat { Sits self.now.table.shared.table_id seat.old }
        requires slot { at < self.now.table.shared.key.slots }
        requires from { ((parts from).state ≡ 2) × ((parts from).second ≡ 0) }
        requires error { (1 ≤ error) × IsFresh (parts from).attempt error }
        requires next { parts next ≡ posted_word (parts from) error }
        ensures seat { Stays seat.old seat.new }
        ensures won { result ≡ from → Became at seat.old.me.0 seat.new.me.0 (tokens_in at seat.old.me.0) (one at (Queued (parts from).first error)) }
        ensures latest { result ≡ from → FoundUpTo at (parts from).first seat.old.me.0 }
        ensures lost { result ≢ from → Became at seat.old.me.0 seat.new.me.0 (tokens_in at seat.old.me.0) (one at (Saw result)) }
    {
        let index = id_index(at);
        self.table
            .shared
            .compare_exchange::<Queue>(seat, index, from, next)
    }

    // I5: the id opens, or its oldest error is taken out. The answer is the word found.
    pub(crate) fn unlock_id(&self, seat: &mut IdSeat<C>, at: u16, from: u64, next: u64) -> u64
        requires seat { Sits self.now.table.shared.table_id seat.old }
        requires slot { at < self.now.table.shared.key.slots }
        requires next { (advance : Bool) × (parts next ≡ unlocked_word (parts from) (bit advance)) × (IsTrue advance → (parts from).attempt + 2 < (parts from).range) }
        requires lock { (c : C) × Locks at seat.old.me.0 (parts from) c (Full c) }
        ensures seat { Stays seat.old seat.new }
        ensures won { result ≡ from → (c : C) → Locks at seat.old.me.0 (parts from) c (Full c) → Became at (with_note at (Saw from) seat.old.me.0) seat.new.me.0 (tokens_left (parts from) (parts next) c) (advance_note at (parts from) (parts next)) }
        ensures lost { result ≢ from → (c : C) → Locks at seat.old.me.0 (parts from) c (Full c) → Became at seat.old.me.0 seat.new.me.0 (Locked (parts result).first (parts result).range (parts result).attempt c (parts result).oldest (parts result).second (Full c) ∷ []) [] }
        ensures longer { result ≢ from → Longer (parts from).first (parts from).range (parts from).attempt (parts from).oldest (parts from).second (parts result) }
        ensures fresh { result ≢ from → ((parts from).oldest ≡ 0 → (parts result).oldest ≢ 0 → IsFresh (parts result).attempt (parts result).oldest) × ((parts from).second ≡ 0 → (parts result).second ≢ 0 → IsFresh (parts result).attempt (parts result).second) }
    {
        let index = id_index(at);
        self.table
            .shared
            .compare_exchange::<Unlock>(seat, index, from, next)
    }

    // I6: the range of the lock, whose word is `from`, ends.
    pub(crate) fn end_id(&self, seat: &mut IdSeat<C>, at: u16, from: IdWord, next: u64)
        requires seat { Sits self.now.table.shared.table_id seat.old }
        requires slot { at < self.now.table.shared.key.slots }
        requires next { parts next ≡ free_word ((parts from.0).first + (parts from.0).range) }
        requires lock { (c : C) × Locks at seat.old.me.0 (parts from.0) c Empty }
        ensures seat { Stays seat.old seat.new }
        ensures freed { (parts next).first ≤ LAST → Became at seat.old.me.0 seat.new.me.0 (Leaving ∷ []) (one at (Ended (parts from.0).first (parts from.0).attempt)) }
        ensures retired { LAST < (parts next).first → Became at seat.old.me.0 seat.new.me.0 [] (one at (Ended (parts from.0).first (parts from.0).attempt)) }
    {
        let index = id_index(at);
        let _ = from;
        self.table.shared.swap::<End>(seat, index, next);
    }

    // I8.
    pub(crate) fn free_id(&self, seat: &mut IdSeat<C>, at: u16)
        requires seat { Sits self.now.table.shared.table_id seat.old }
        requires slot { at < self.now.table.shared.key.slots }
        requires leaving { tokens_in at seat.old.me.0 ≡ Leaving ∷ [] }
        ensures seat { Stays seat.old seat.new }
        ensures freed { Became at seat.old.me.0 seat.new.me.0 [] [] }
    {
        let index = tag_index(at);
        self.table.shared.store::<Free>(seat, index, 0);
    }
}
