// The steps on the tag and the reference word of a slot.
ghost use Rattle.std.specs.Prelude.{◌≡◌, ◌+◌, ◌-◌, ◌%◌, ◌<◌, ◌≤◌, ◌≢◌, ℕ, true, false, [], ◌↔◌, IsTrue};
ghost use Rattle.sock_words.specs.PackedWords.{vref_nref, vref_version};
ghost use Rattle.sock_model.specs.MarkWeights.{is_busy, is_ref, is_any_coding, is_stage, is_hold, is_zero, is_recycled};
ghost use Rattle.sock_model.specs.SlotRows.{marks_of, knows, claimed, gave_birth, added, back, subbed, failed, recycled, freed, looked};
ghost use Rattle.sock_rule.specs.SocketSeatSplits.{IsSeat};
ghost use Rattle.sock_rule.specs.SocketPlays.{WordFits};
ghost use Rattle.sock_model.specs.ChainStepConditions.{KeepsRights};

use crate::plays::{AddRef, ClaimSlot, CreateLife, FreeSlot, LookWord, Recycle, SetOdd, SubRef};
use crate::table::{RuleTable, SockSeat};
use sock_io::Out;
use sock_model::{ref_index, tag_index};
use sock_words::{Step, Vref};

impl<O: Out> RuleTable<O> {
    /// A1, swap of the slot's tag with 1: the slot is claimed where 0 was found.
    pub fn claim_slot(&self, seat: &mut SockSeat<O>, at: u16) -> Step
        requires seat { IsSeat self.now.table.shared.table_id self.now.plan seat.old }
        requires slot { at < self.now.plan.slots }
        ensures seat { IsSeat self.now.table.shared.table_id self.now.plan seat.new }
        ensures view { seat.new.me ≡ (claimed at result.found seat.old.me.0, seat.old.me.1) }
        ensures won { IsTrue result.won ↔ (result.found ≡ 0) }
    {
        let index = tag_index(at as u32);
        let found = self.table.shared.swap::<ClaimSlot>(seat, index, 1);
        ref_core::claim_slot(found)
    }

    /// A3, fetch_add 1 on the reference word: a reference to the life of the version found where the seat knows it.
    pub fn add_ref(&self, seat: &mut SockSeat<O>, at: u16) -> Step
        requires seat { IsSeat self.now.table.shared.table_id self.now.plan seat.old }
        requires slot { at < self.now.plan.slots }
        requires room { marks_of is_ref at seat.old.me.0 < 65540 }
        ensures seat { IsSeat self.now.table.shared.table_id self.now.plan seat.new }
        ensures view { seat.new.me ≡ (added at result.found (knows at (vref_version result.found) seat.old.me.0) seat.old.me.0, seat.old.me.1) }
        ensures step { result.next ≡ result.found + 1 }
        ensures fits { WordFits at result.found seat.old.me.0 }
    {
        let index = ref_index(at as u32);
        let found = self.table.shared.fetch_add::<AddRef>(seat, index, 1);
        ref_core::add_ref(found)
    }

    /// A2, fetch_add 1 on the reference word of a slot that the seat claimed and made ready: it makes the life, whose version is the one found.
    pub fn birth(&self, seat: &mut SockSeat<O>, at: u16) -> Step
        requires seat { IsSeat self.now.table.shared.table_id self.now.plan seat.old }
        requires slot { at < self.now.plan.slots }
        requires claimed { (k : ℕ) × (0 < marks_of (is_stage 3 k) at seat.old.me.0) }
        ensures seat { IsSeat self.now.table.shared.table_id self.now.plan seat.new }
        ensures view { (k : ℕ) → 0 < marks_of (is_stage 3 k) at seat.old.me.0 → seat.new.me ≡ (gave_birth at result.found k seat.old.me.0, seat.old.me.1) }
        ensures step { result.next ≡ result.found + 1 }
        ensures version { (vref_version result.found ≤ 4294967292) × (vref_version result.found % 2 ≡ 0) }
    {
        let index = ref_index(at as u32);
        let found = self.table.shared.fetch_add::<CreateLife>(seat, index, 1);
        ref_core::birth(found)
    }

    /// A4, fetch_sub 1 on the reference word: a reference goes, to the word alone where there is one, else to its life.
    pub fn sub_ref(&self, seat: &mut SockSeat<O>, at: u16) -> Step
        requires seat { IsSeat self.now.table.shared.table_id self.now.plan seat.old }
        requires slot { at < self.now.plan.slots }
        requires held { 0 < marks_of is_ref at seat.old.me.0 }
        requires coded { marks_of is_any_coding at seat.old.me.0 ≡ 0 }
        requires rights { KeepsRights at seat.old.me.0 }
        ensures seat { IsSeat self.now.table.shared.table_id self.now.plan seat.new }
        ensures view { seat.new.me ≡ (subbed at result.found (back at result.found seat.old.me.0) seat.old.me.0, seat.old.me.1) }
        ensures step { result.next ≡ result.found - 1 }
        ensures more { marks_of is_ref at seat.old.me.0 ≤ vref_nref result.found }
        ensures top { (0 < vref_nref result.found) × (vref_version result.found ≤ 4294967294) }
        ensures fits { WordFits at result.found seat.old.me.0 }
    {
        let index = ref_index(at as u32);
        let found = self.table.shared.fetch_sub::<SubRef>(seat, index, 1);
        ref_core::sub_ref(found)
    }

    /// A5, fetch_or of bit 32 of the reference word: the life is failed where the version found was even.
    pub fn set_odd(&self, seat: &mut SockSeat<O>, at: u16) -> Step
        requires seat { IsSeat self.now.table.shared.table_id self.now.plan seat.old }
        requires slot { at < self.now.plan.slots }
        requires held { (h : ℕ) × (0 < marks_of (is_hold h) at seat.old.me.0) }
        requires room { marks_of is_ref at seat.old.me.0 < 65540 }
        ensures seat { IsSeat self.now.table.shared.table_id self.now.plan seat.new }
        ensures view { seat.new.me ≡ (failed at result.found seat.old.me.0, seat.old.me.1) }
        ensures fits { WordFits at result.found seat.old.me.0 }
    {
        let index = ref_index(at as u32);
        let found = self
            .table
            .shared
            .fetch_or::<SetOdd>(seat, index, 4_294_967_296);
        ref_core::set_odd(found)
    }

    /// A6, compare_exchange of the reference word from (odd version, 0) to the next version: who wins recycles the slot.
    pub fn recycle(&self, seat: &mut SockSeat<O>, at: u16, from: Vref) -> Step
        requires seat { IsSeat self.now.table.shared.table_id self.now.plan seat.old }
        requires slot { at < self.now.plan.slots }
        requires from { (vref_version from.0 < 4294967295) × (vref_version from.0 % 2 ≡ 1) × (vref_nref from.0 ≡ 0) }
        requires zero { 0 < marks_of (is_zero (vref_version from.0)) at seat.old.me.0 }
        ensures seat { IsSeat self.now.table.shared.table_id self.now.plan seat.new }
        ensures view { seat.new.me ≡ (recycled at from.0 result.found seat.old.me.0, seat.old.me.1) }
        ensures alone { result.found ≡ from.0 → marks_of is_busy at seat.old.me.0 ≡ 0 }
        ensures won { (result.found ≡ from.0 → result.won ≡ true) × (result.found ≢ from.0 → result.won ≡ false) }
    {
        let index = ref_index(at as u32);
        let old = from.0;
        let shared = &self.table.shared;
        let found = shared.compare_exchange::<Recycle>(seat, index, old, old + 4_294_967_296);
        ref_core::recycle(found, from)
    }

    /// A7, store of 0 into the tag of a slot that the seat recycled: it may be claimed again.
    pub fn free_slot(&self, seat: &mut SockSeat<O>, at: u16)
        requires seat { IsSeat self.now.table.shared.table_id self.now.plan seat.old }
        requires slot { at < self.now.plan.slots }
        requires recycled { (w : ℕ) × (0 < marks_of (is_recycled w) at seat.old.me.0) × (w ≤ 4294967292) }
        requires empty { seat.old.me.0.hands ≡ [] }
        ensures seat { IsSeat self.now.table.shared.table_id self.now.plan seat.new }
        ensures view { seat.new.me ≡ (freed at seat.old.me.0, seat.old.me.1) }
    {
        let index = tag_index(at as u32);
        self.table.shared.store::<FreeSlot>(seat, index, 0);
    }

    /// A8, load of the reference word.
    pub fn look_word(&self, seat: &mut SockSeat<O>, at: u16) -> Step
        requires seat { IsSeat self.now.table.shared.table_id self.now.plan seat.old }
        requires slot { at < self.now.plan.slots }
        ensures seat { IsSeat self.now.table.shared.table_id self.now.plan seat.new }
        ensures view { seat.new.me ≡ (looked at result.found seat.old.me.0, seat.old.me.1) }
        ensures fits { WordFits at result.found seat.old.me.0 }
    {
        let index = ref_index(at as u32);
        let found = self.table.shared.load::<LookWord>(seat, index);
        ref_core::look_word(found)
    }
}
