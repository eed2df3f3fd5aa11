// Ids that are locked by the version of an attempt.
ghost use Rattle.std.specs.Prelude.{◌≡◌, ◌+◌, ◌<◌, ◌≤◌, ◌⊎◌, ℕ, true, false, IfOk, IfErr};
ghost use Rattle.corr_core.specs.IdSlotWord.{parts};
ghost use Rattle.corr_core.specs.IdSlotLaw.{is_made};
ghost use Rattle.id_rule.specs.LawfulIdTable.{notes_of};
ghost use Rattle.corr_id.specs.IdTableSeat.{Sits, Stays};
ghost use Rattle.corr_id.specs.SeatBehindIdCalls.{GotLock, Quiet, Found, FoundNow, LockedNow};
ghost use Rattle.corr_id.specs.LocksByAttempt.{LacksAttempt, IsOutside, IsWithin, IsKnown};
ghost use Rattle.sock_words.specs.PackedWords.{id_slot, id_first};
ghost use Rattle.sock_words.specs.Totals.{total};

use crate::calls::{IdGone, Locking, is_out_of};
use crate::table::{IdSeat, IdTable};
use crossbeam_utils::Backoff;
use sock_words::{CorrelationId, IdWord};
use std::sync::Wait;

impl<C> IdTable<C> {
    /// Locks an id by the version of an attempt, as `lock` does (`bthread_id_lock`). The id's own version, the first of its range,
    /// is that of no attempt, so that no response locks an id by it.
    pub fn lock_attempt<R: Wait>(&self, rt: &R, seat: &mut IdSeat<C>, version: u64) -> Locking<C>
        requires seat { Sits self.now.table.shared.table_id seat.old }
        ensures seat { Stays seat.old seat.new }
        ensures locked { IfOk result (λ k. (k.slot ≡ id_slot version) × ((word : ℕ) × GotLock k.slot seat.old.me.0 seat.new.me.0 word (parts k.word.0) k.content)) }
        ensures inside { IfOk result (λ k. k.slot < self.now.plan.slots) }
        ensures of_range { IfOk result (λ k. ((parts k.word.0).first < id_first version) × (id_first version < (parts k.word.0).first + (parts k.word.0).range)) }
        ensures gone { IfErr result (λ e. Quiet seat.old.me.0 seat.new.me.0 × (((self.now.plan.slots ≤ id_slot version) × (e.found ≡ 0)) ⊎ (Found (id_slot version) e.found seat.new.me.0 × LacksAttempt (parts e.found) (id_first version)))) }
        ensures found_now { IfOk result (λ k. LockedNow k.slot seat.old.me.0 seat.new.me.0 (parts k.word.0)) }
        ensures gone_now { IfErr result (λ e. id_slot version < self.now.plan.slots → FoundNow (id_slot version) e.found seat.old.me.0 seat.new.me.0) }
    {
        self.lock_within(rt, seat, version, true)
    }

    // Locks an id once it is open, where the word found has the version: an attempt's behind its first one alone.
    pub(crate) fn lock_within<R: Wait>(
        &self,
        rt: &R,
        seat: &mut IdSeat<C>,
        version: u64,
        attempt: bool,
    ) -> Locking<C>
        requires seat { Sits self.now.table.shared.table_id seat.old }
        ensures seat { Stays seat.old seat.new }
        ensures locked { IfOk result (λ k. (k.slot ≡ id_slot version) × ((word : ℕ) × GotLock k.slot seat.old.me.0 seat.new.me.0 word (parts k.word.0) k.content)) }
        ensures inside { IfOk result (λ k. k.slot < self.now.plan.slots) }
        ensures of_range { IfOk result (λ k. IsWithin attempt (parts k.word.0) (id_first version)) }
        ensures own { IfOk result (λ k. 0 < total (is_made (id_first version)) (notes_of (id_slot version) seat.old.me.0.notes) → (parts k.word.0).first ≡ id_first version) }
        ensures gone { IfErr result (λ e. Quiet seat.old.me.0 seat.new.me.0 × (((self.now.plan.slots ≤ id_slot version) × (e.found ≡ 0)) ⊎ (Found (id_slot version) e.found seat.new.me.0 × IsOutside attempt (parts e.found) (id_first version)))) }
        ensures found_now { IfOk result (λ k. LockedNow k.slot seat.old.me.0 seat.new.me.0 (parts k.word.0)) }
        ensures gone_now { IfErr result (λ e. id_slot version < self.now.plan.slots → FoundNow (id_slot version) e.found seat.old.me.0 seat.new.me.0) }
        ensures ended { attempt ≡ false → IfErr result (λ e. id_slot version < self.now.plan.slots → IsKnown (id_slot version) (id_first version) seat.old.me.0 → id_first version < (parts e.found).first) }
    {
        let id = CorrelationId(version);
        let Some(at) = self.slot_of(id) else {
            return Err(IdGone { found: 0 });
        };
        let own = id.version();
        let backoff = Backoff::new();
        'looks: for _ in rt.forever() {
            let found = self.load_id_word(seat, at);
            let word = IdWord(found);
            if is_outside(word, own, attempt) {
                return Err(IdGone { found });
            }
            if word.state() != IdWord::OPEN {
                backoff.snooze();
                continue;
            }
            if let Ok(lock) = self.try_lock(seat, at, found) {
                return Ok(lock);
            }
        }
        unreachable!()
    }
}

// Whether the word is free, or its range doesn't have the version behind its first one.
fn lacks_attempt(word: IdWord, version: u32) -> bool
    ensures lacks { result ≡ true → LacksAttempt (parts word.0) version }
    ensures has { result ≡ false → ((parts word.0).first < version) × (version < (parts word.0).first + (parts word.0).range) }
{
    let first = word.first();
    word.state() == IdWord::FREE || version <= first || version >= first + u32::from(word.range())
}

// Whether the word is free, or its range lacks the version; an attempt's is in a range only behind the first one.
fn is_outside(word: IdWord, version: u32, attempt: bool) -> bool
    ensures out { result ≡ true → IsOutside attempt (parts word.0) version }
    ensures within { result ≡ false → IsWithin attempt (parts word.0) version }
{
    if attempt {
        lacks_attempt(word, version)
    } else {
        is_out_of(word, version)
    }
}
