// Ids that are made, locked and ended.
ghost use Rattle.std.specs.Prelude.{◌≡◌, ◌+◌, ◌%◌, ◌<◌, ◌≤◌, ◌⊎◌, ℕ, [], ◌∷◌, true, false, IfOk, IfErr, IfSome, IfNone};
ghost use Rattle.corr_core.specs.IdSlotWord.{parts};
ghost use Rattle.corr_core.specs.IdSlotLaw.{LAST, is_made, is_advance, is_tried};
ghost use Rattle.corr_core.specs.declared.marks.Hand.TheVariants.{Empty, Full};
ghost use Rattle.corr_core.specs.declared.marks.Token.TheVariants.{Claimed, Locked};
ghost use Rattle.corr_core.specs.declared.marks.Note.TheVariants.{Made, Ended};
ghost use Rattle.id_rule.specs.LawfulIdTable.{notes_of, tokens_in};
ghost use Rattle.id_rule.specs.IdPlays.{LockFits};
ghost use Rattle.corr_id.specs.IdTableSeat.{Sits, Stays};
ghost use Rattle.corr_id.specs.LocksByAttempt.{IsKnown};
ghost use Rattle.corr_id.specs.SeatBehindIdCalls.{is_saw, is_at, Became, one, Claims, Locks, GotLock, Quiet, MadeAs, OutOf, LacksId, Found, FoundNow, TakenNow, LockedNow};
ghost use Rattle.sock_words.specs.PackedWords.{call_id, id_slot, id_first};
ghost use Rattle.sock_words.specs.Totals.{total};

use crate::table::{IdSeat, IdTable};
use crossbeam_utils::Backoff;
use sock_words::{CorrelationId, IdWord};
use std::sync::Wait;

// So often is looked for the end of an id before one sleeps: until a `Backoff` has yielded the processor a few times.
const LOOKS: u32 = 10;

/// There was no free slot. The content comes back.
#[derive(Drop)]
pub struct IdFull<C> {
    pub content: C,
}

/// The range has ended, or the word found has another one, or there is no such slot, and then it is 0.
#[derive(Clone, Copy, Debug, PartialEq, Eq)]
pub struct IdGone {
    pub found: u64,
}

/// An id that a seat has locked, with its content. It must be spent by an unlocking or an end. The word is the one that the seat
/// last found or left.
pub struct IdLock<C> {
    pub content: C,
    pub slot: u16,
    pub word: IdWord,
    pub ghost fits: { LockFits (parts word.0) },
    pub ghost is_locked: { (parts word.0).state ≡ 2 },
    pub ghost in_order: { (parts word.0).oldest ≡ 0 → (parts word.0).second ≡ 0 },
}

/// What a lock gets: the id, or why there was none.
pub type Locking<C> = Result<IdLock<C>, IdGone>;

impl<C> IdLock<C> {
    /// The content.
    pub fn content(&self) -> &C
        ensures { result.now ≡ self.now.content }
    {
        &self.content
    }

    /// The id.
    pub fn id(&self) -> u64
        ensures { result ≡ call_id self.now.slot (parts self.now.word.0).first }
    {
        CorrelationId::pack(self.slot, self.word.first()).0
    }

    /// The current attempt, counted from 0.
    pub fn attempt(&self) -> u8
        ensures { result ≡ (parts self.now.word.0).attempt }
    {
        self.word.attempt()
    }

    /// How many versions the id has.
    pub fn range(&self) -> u8
        ensures { result ≡ (parts self.now.word.0).range }
    {
        self.word.range()
    }
}

impl<C> IdTable<C> {
    // The claimed slot gets a range with this content.
    fn make(&self, seat: &mut IdSeat<C>, at: u16, range: u8, content: C) -> u64
        requires seat { Sits self.now.table.shared.table_id seat.old }
        requires slot { at < self.now.table.shared.key.slots }
        requires range { (2 ≤ range) × (range ≤ 8) }
        requires claim { Claims at seat.old.me.0 0 Empty }
        ensures seat { Stays seat.old seat.new }
        ensures id { (1 ≤ id_first result) × (id_first result ≤ LAST) × (id_slot result ≡ at) }
        ensures made { Became at seat.old.me.0 seat.new.me.0 [] (one at (Made (id_first result) range content)) }
        ensures before { (w : ℕ) → 0 < total (is_saw w) (notes_of at seat.old.me.0.notes) → 0 < (parts w).state → (parts w).first < id_first result }
        ensures unnoted { (x : ℕ) → x % 2 ≡ 0 → total (is_at x result) seat.old.me.0.kept ≡ 0 }
        ensures noted { 0 < total (is_made (id_first result)) (notes_of (id_slot result) seat.new.me.0.notes) }
    {
        let first = IdWord(self.read_first(seat, at)).first();
        let found = self.move_call(seat, at, Some(content));
        let None = found else {
            unreachable!();
        };
        let word = IdWord::pack(first, IdWord::OPEN, range, 0, 0, 0);
        self.make_id(seat, at, word.0);
        CorrelationId::pack(at, first).0
    }

    /// A new id of 2 to 8 versions, open and at attempt 0 (`bthread_id_create_ranged`). There is no room only where this call
    /// found each slot taken.
    pub fn create(&self, seat: &mut IdSeat<C>, range: u8, content: C) -> Result<u64, IdFull<C>>
        requires seat { Sits self.now.table.shared.table_id seat.old }
        requires range { (2 ≤ range) × (range ≤ 8) }
        ensures seat { Stays seat.old seat.new }
        ensures made { IfOk result (λ id. MadeAs seat.old.me.0 seat.new.me.0 self.now.plan.slots id range content) }
        ensures low { IfOk result (λ id. id_first id ≤ LAST) }
        ensures noted { IfOk result (λ id. 0 < total (is_made (id_first id)) (notes_of (id_slot id) seat.new.me.0.notes)) }
        ensures full { IfErr result (λ e. (e.content ≡ content) × Quiet seat.old.me.0 seat.new.me.0 × ((i : ℕ) → i < self.now.plan.slots → 0 < total is_tried (notes_of i seat.new.me.0.notes))) }
        ensures full_now { IfErr result (λ e. (i : ℕ) → i < self.now.plan.slots → TakenNow i seat.old.me.0 seat.new.me.0) }
    {
        if let Some(at) = self.claim_likely(seat) {
            return Ok(self.make(seat, at, range, content));
        }
        let slots = self.plan.slots;
        let mut at = 0;
        while at < slots {
            if self.claim_id(seat, at) == 0 {
                return Ok(self.make(seat, at, range, content));
            }
            at += 1;
        }
        Err(IdFull { content })
    }

    // I1 of a slot that seemed free at a look.
    #[inline(always)]
    fn claim_likely(&self, seat: &mut IdSeat<C>) -> Option<u16>
        requires seat { Sits self.now.table.shared.table_id seat.old }
        ensures seat { Stays seat.old seat.new }
        ensures claimed { IfSome result (λ at. (at < self.now.plan.slots) × Became at seat.old.me.0 seat.new.me.0 (Claimed 0 Empty ∷ []) [] × (tokens_in at seat.old.me.0 ≡ [])) }
        ensures missed { IfNone result (Quiet seat.old.me.0 seat.new.me.0) }
    {
        let Some(at) = self.likely_slot() else {
            return None;
        };
        if self.claim_id(seat, at) != 0 {
            return None;
        }
        self.look_behind(at);
        Some(at)
    }

    // K2 once the id is locked.
    pub(crate) fn take_call(&self, seat: &mut IdSeat<C>, at: u16, word: IdWord) -> IdLock<C>
        requires seat { Sits self.now.table.shared.table_id seat.old }
        requires slot { at < self.now.table.shared.key.slots }
        requires fits { LockFits (parts word.0) × ((parts word.0).state ≡ 2) × ((parts word.0).oldest ≡ 0 → (parts word.0).second ≡ 0) }
        requires lock { (c : C) × Locks at seat.old.me.0 (parts word.0) c (Full c) }
        ensures seat { Stays seat.old seat.new }
        ensures fields { (result.slot ≡ at) × (result.word ≡ word) }
        ensures taken { (c : C) → Locks at seat.old.me.0 (parts word.0) c (Full c) → (result.content ≡ c) × Became at seat.old.me.0 seat.new.me.0 (Locked (parts word.0).first (parts word.0).range (parts word.0).attempt c (parts word.0).oldest (parts word.0).second Empty ∷ []) [] }
    {
        let found = self.move_call(seat, at, None);
        let Some(content) = found else {
            unreachable!();
        };
        IdLock {
            content,
            slot: at,
            word,
        }
    }

    /// Locks an id, by itself or by an attempt's version, once it is open (`bthread_id_lock`). It is gone exactly where the word
    /// read has ended or has another range. Where the seat knows of the id that it was made, or advanced, it has ended then.
    pub fn lock<R: Wait>(&self, rt: &R, seat: &mut IdSeat<C>, version: u64) -> Locking<C>
        requires seat { Sits self.now.table.shared.table_id seat.old }
        ensures seat { Stays seat.old seat.new }
        ensures locked { IfOk result (λ k. (k.slot ≡ id_slot version) × ((word : ℕ) × GotLock k.slot seat.old.me.0 seat.new.me.0 word (parts k.word.0) k.content)) }
        ensures inside { IfOk result (λ k. k.slot < self.now.plan.slots) }
        ensures of_range { IfOk result (λ k. ((parts k.word.0).first ≤ id_first version) × (id_first version < (parts k.word.0).first + (parts k.word.0).range)) }
        ensures own { IfOk result (λ k. 0 < total (is_made (id_first version)) (notes_of (id_slot version) seat.old.me.0.notes) → (parts k.word.0).first ≡ id_first version) }
        ensures gone { IfErr result (λ e. Quiet seat.old.me.0 seat.new.me.0 × (((self.now.plan.slots ≤ id_slot version) × (e.found ≡ 0)) ⊎ (Found (id_slot version) e.found seat.new.me.0 × OutOf (parts e.found) (id_first version)))) }
        ensures found_now { IfOk result (λ k. LockedNow k.slot seat.old.me.0 seat.new.me.0 (parts k.word.0)) }
        ensures gone_now { IfErr result (λ e. id_slot version < self.now.plan.slots → FoundNow (id_slot version) e.found seat.old.me.0 seat.new.me.0) }
        ensures ended { IfErr result (λ e. id_slot version < self.now.plan.slots → 0 < total (is_made (id_first version)) (notes_of (id_slot version) seat.old.me.0.notes) → id_first version < (parts e.found).first) }
        ensures advanced { IfErr result (λ e. id_slot version < self.now.plan.slots → 0 < total (is_advance (id_first version)) (notes_of (id_slot version) seat.old.me.0.notes) → id_first version < (parts e.found).first) }
    {
        self.lock_within(rt, seat, version, false)
    }

    // I3 of a word that was found open, and K2; else the word that was found now.
    pub(crate) fn try_lock(
        &self,
        seat: &mut IdSeat<C>,
        at: u16,
        from: u64,
    ) -> Result<IdLock<C>, u64>
        requires seat { Sits self.now.table.shared.table_id seat.old }
        requires slot { at < self.now.table.shared.key.slots }
        requires from { ((parts from).state ≡ 1) × Found at from seat.old.me.0 }
        ensures seat { Stays seat.old seat.new }
        ensures locked { IfOk result (λ k. (k.slot ≡ at) × GotLock at seat.old.me.0 seat.new.me.0 from (parts k.word.0) k.content) }
        ensures lost { IfErr result (λ found. Quiet seat.old.me.0 seat.new.me.0 × Found at found seat.new.me.0) }
        ensures lost_now { IfErr result (λ found. FoundNow at found seat.old.me.0 seat.new.me.0) }
    {
        let next = corr_core::lock_id(from, IdWord(from)).next;
        let found = self.lock_id(seat, at, from, next);
        if found != from {
            return Err(found);
        }
        Ok(self.take_call(seat, at, IdWord(next)))
    }

    /// The range of the lock ends, with the errors that are queued (`bthread_id_unlock_and_destroy`). The content comes back.
    pub fn destroy(&self, seat: &mut IdSeat<C>, lock: IdLock<C>) -> C
        requires seat { Sits self.now.table.shared.table_id seat.old }
        requires lock { (lock.slot < self.now.plan.slots) × Locks lock.slot seat.old.me.0 (parts lock.word.0) lock.content Empty }
        ensures seat { Stays seat.old seat.new }
        ensures content { result ≡ lock.content }
        ensures ended { Became lock.slot seat.old.me.0 seat.new.me.0 [] (one lock.slot (Ended (parts lock.word.0).first (parts lock.word.0).attempt)) }
    {
        let IdLock {
            content,
            slot,
            word,
        } = lock;
        let first = word.first() + word.range() as u32;
        let next = IdWord::pack(first, IdWord::FREE, 1, 0, 0, 0);
        self.end_id(seat, slot, word, next.0);
        if first <= 67_108_848 {
            self.free_id(seat, slot);
        }
        self.bell(slot).ring();
        content
    }

    // A few looks for whether the id of this slot and first version has ended, with pauses that grow.
    fn ends_soon(&self, seat: &mut IdSeat<C>, at: u16, own: u32) -> bool
        requires seat { Sits self.now.table.shared.table_id seat.old }
        requires slot { at < self.now.table.shared.key.slots }
        ensures seat { Stays seat.old seat.new }
        ensures quiet { Quiet seat.old.me.0 seat.new.me.0 }
        ensures gone { result ≡ true → (word : ℕ) × FoundNow at word seat.old.me.0 seat.new.me.0 × LacksId (parts word) own }
        ensures ended { result ≡ true → IsKnown at own seat.old.me.0 → (word : ℕ) × FoundNow at word seat.old.me.0 seat.new.me.0 × (own < (parts word).first) }
    {
        let backoff = Backoff::new();
        'looks: for _ in 0..LOOKS {
            if lacks_id(IdWord(self.load_id_word(seat, at)), own) {
                return true;
            }
            backoff.snooze();
        }
        false
    }

    /// Waits until the id has ended, or finds that it never was (`bthread_id_join`). Where the seat knows of the id that it was
    /// made, or advanced, it has ended then: this call found a later range in its slot. It looks a few times, and then sleeps
    /// until an id ends.
    pub fn join<R: Wait>(&self, rt: &R, seat: &mut IdSeat<C>, id: u64)
        requires seat { Sits self.now.table.shared.table_id seat.old }
        ensures seat { Stays seat.old seat.new }
        ensures quiet { Quiet seat.old.me.0 seat.new.me.0 }
        ensures gone { (self.now.plan.slots ≤ id_slot id) ⊎ ((word : ℕ) × Found (id_slot id) word seat.new.me.0 × LacksId (parts word) (id_first id)) }
        ensures gone_now { id_slot id < self.now.plan.slots → (word : ℕ) × FoundNow (id_slot id) word seat.old.me.0 seat.new.me.0 × LacksId (parts word) (id_first id) }
        ensures ended { id_slot id < self.now.plan.slots → IsKnown (id_slot id) (id_first id) seat.old.me.0 → (word : ℕ) × FoundNow (id_slot id) word seat.old.me.0 seat.new.me.0 × (id_first id < (parts word).first) }
    {
        let id = CorrelationId(id);
        let Some(at) = self.slot_of(id) else {
            return;
        };
        let own = id.version();
        if self.ends_soon(seat, at, own) {
            return;
        }
        let bell = self.bell(at);
        bell.come();
        'looks: for _ in rt.forever() {
            let heard = bell.heard();
            if lacks_id(IdWord(self.load_id_word(seat, at)), own) {
                bell.go();
                return;
            }
            bell.sleep(rt, heard);
        }
    }
}

// Whether the word is free, or has another range than the version's.
pub(crate) fn is_out_of(word: IdWord, version: u32) -> bool
    ensures out { result ≡ true → OutOf (parts word.0) version }
    ensures within { result ≡ false → ((parts word.0).first ≤ version) × (version < (parts word.0).first + (parts word.0).range) }
{
    let first = word.first();
    word.state() == IdWord::FREE || version < first || version >= first + u32::from(word.range())
}

// Whether the word doesn't have the range of this first version.
pub(crate) fn lacks_id(word: IdWord, first: u32) -> bool
    ensures lacks { result ≡ true → LacksId (parts word.0) first }
    ensures has { result ≡ false → ((parts word.0).first ≡ first) × (((parts word.0).state ≡ 1) ⊎ ((parts word.0).state ≡ 2)) }
{
    let state = word.state();
    word.first() != first || (state != IdWord::OPEN && state != IdWord::LOCKED)
}
