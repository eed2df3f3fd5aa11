// The words of the calls among the operations.
ghost use Rattle.std.specs.Prelude.{◌≡◌, ◌≢◌, ◌%◌, ◌<◌, ◌≤◌, false, true, IfNone, IfSome, IsSome};
ghost use Rattle.sock_words.specs.PackedWords.{at_word as packed_at, id_slot, id_first};
ghost use Rattle.corr_core.specs.IdSlotLaw.{is_made};
ghost use Rattle.corr_core.specs.IdTableLayout.{call_index, at_index, all_words};
ghost use Rattle.id_rule.specs.LawfulIdTable.{notes_of, with_kept};
ghost use Rattle.corr_id.specs.Ruled.{is_place};
ghost use Rattle.corr_id.specs.IdTableSeat.{Sits, Stays};
ghost use Rattle.corr_id.specs.SeatBehindIdCalls.{Quiet, Found, FoundNow};
ghost use Rattle.sock_words.specs.Totals.{total};

use crate::plays::{Load, Store};
use crate::table::{IdSeat, IdTable};
use sock_words::{AtWord, CorrelationId};

impl<C> IdTable<C> {
    /// Stores the id of a call, by its operation, where others find it. The id isn't 0, and this seat made it.
    pub fn note(&self, seat: &mut IdSeat<C>, operation: u16, id: u64)
        requires seat { Sits self.now.table.shared.table_id seat.old }
        requires operation { operation < self.now.plan.operations }
        requires some { id ≢ 0 }
        requires made { 0 < total (is_made (id_first id)) (notes_of (id_slot id) seat.old.me.0.notes) }
        ensures seat { Stays seat.old seat.new }
        ensures stored { seat.new.me.0 ≡ with_kept (call_index self.now.plan operation) true id seat.old.me.0 }
    {
        let index = corr_core::call_index(&self.plan, operation);
        self.store_word(seat, index, id);
    }

    /// The id of a call, by its operation: `None` only where none was there. Where this seat noted one, or was answered one, it
    /// is there.
    pub fn noted(&self, seat: &mut IdSeat<C>, operation: u16) -> Option<u64>
        requires seat { Sits self.now.table.shared.table_id seat.old }
        requires operation { operation < self.now.plan.operations }
        ensures seat { Stays seat.old seat.new }
        ensures found { IfSome result (λ id. (id ≢ 0) × (seat.new.me.0 ≡ with_kept (call_index self.now.plan operation) false id seat.old.me.0)) }
        ensures none { IfNone result (seat.new.me.0 ≡ seat.old.me.0) }
        ensures never_none { 0 < total (is_place (call_index self.now.plan operation)) seat.old.me.0.kept → IsSome result }
    {
        let index = corr_core::call_index(&self.plan, operation);
        self.load_word(seat, index)
    }

    /// Stores on which link the last attempt of a call is, by its operation. The id's slot and first version fit an `AtWord`,
    /// the link is 0 to 65,534, and the attempt is at most 6.
    pub fn set_at(&self, seat: &mut IdSeat<C>, operation: u16, id: u64, link: u16, attempt: u8)
        requires seat { Sits self.now.table.shared.table_id seat.old }
        requires operation { operation < self.now.plan.operations }
        requires id { (id_slot id < 65536) × (id_first id < 67108864) }
        requires link { link < 65535 }
        requires attempt { attempt ≤ 6 }
        ensures seat { Stays seat.old seat.new }
        ensures stored { seat.new.me.0 ≡ with_kept (at_index self.now.plan operation) true (packed_at (id_first id) (id_slot id) link attempt) seat.old.me.0 }
    {
        let index = corr_core::at_index(&self.plan, operation);
        let id = CorrelationId(id);
        let at = AtWord::pack(id.version(), id.slot() as u16, link, attempt);
        self.store_word(seat, index, at.0);
    }

    /// Where the last attempt of a call is, by its operation: `None` only where nothing was stored. Where this seat stored it, or
    /// was answered it, it is there.
    pub fn at(&self, seat: &mut IdSeat<C>, operation: u16) -> Option<AtWord>
        requires seat { Sits self.now.table.shared.table_id seat.old }
        requires operation { operation < self.now.plan.operations }
        ensures seat { Stays seat.old seat.new }
        ensures found { IfSome result (λ a. (a.0 ≢ 0) × (seat.new.me.0 ≡ with_kept (at_index self.now.plan operation) false a.0 seat.old.me.0)) }
        ensures none { IfNone result (seat.new.me.0 ≡ seat.old.me.0) }
        ensures never_none { 0 < total (is_place (at_index self.now.plan operation)) seat.old.me.0.kept → IsSome result }
    {
        let index = corr_core::at_index(&self.plan, operation);
        match self.load_word(seat, index) {
            Some(found) => Some(AtWord(found)),
            None => None,
        }
    }

    /// The word of a version's slot: 0 exactly where there is no such slot.
    pub fn word(&self, seat: &mut IdSeat<C>, version: u64) -> u64
        requires seat { Sits self.now.table.shared.table_id seat.old }
        ensures seat { Stays seat.old seat.new }
        ensures quiet { Quiet seat.old.me.0 seat.new.me.0 }
        ensures found { id_slot version < self.now.plan.slots → Found (id_slot version) result seat.new.me.0 × (0 < result) }
        ensures found_now { id_slot version < self.now.plan.slots → FoundNow (id_slot version) result seat.old.me.0 seat.new.me.0 }
        ensures no_slot { self.now.plan.slots ≤ id_slot version → result ≡ 0 }
    {
        let Some(at) = self.slot_of(CorrelationId(version)) else {
            return 0;
        };
        self.load_id_word(seat, at)
    }

    // The slot of an id: `None` exactly where the table has no such slot.
    pub(crate) fn slot_of(&self, id: CorrelationId) -> Option<u16>
        ensures some { IfSome result (λ at. (at ≡ id_slot id.0) × (at < self.now.plan.slots)) }
        ensures none { IfNone result (self.now.plan.slots ≤ id_slot id.0) }
    {
        let slot = id.slot();
        if slot < u32::from(self.plan.slots) {
            Some(slot as u16)
        } else {
            None
        }
    }

    // T1.
    fn store_word(&self, seat: &mut IdSeat<C>, index: usize, value: u64)
        requires seat { Sits self.now.table.shared.table_id seat.old }
        requires place { (call_index self.now.plan 0 ≤ index) × (index < all_words self.now.plan) }
        requires some { value ≢ 0 }
        requires made { index % 2 ≡ 0 → 0 < total (is_made (id_first value)) (notes_of (id_slot value) seat.old.me.0.notes) }
        ensures seat { Stays seat.old seat.new }
        ensures stored { seat.new.me.0 ≡ with_kept index true value seat.old.me.0 }
    {
        self.table.shared.store::<Store>(seat, index, value);
    }

    // T2: nothing where the word is 0.
    fn load_word(&self, seat: &mut IdSeat<C>, index: usize) -> Option<u64>
        requires seat { Sits self.now.table.shared.table_id seat.old }
        requires place { (call_index self.now.plan 0 ≤ index) × (index < all_words self.now.plan) }
        ensures seat { Stays seat.old seat.new }
        ensures found { IfSome result (λ n. (n ≢ 0) × (seat.new.me.0 ≡ with_kept index false n seat.old.me.0)) }
        ensures none { IfNone result (seat.new.me.0 ≡ seat.old.me.0) }
        ensures never_none { 0 < total (is_place index) seat.old.me.0.kept → IsSome result }
    {
        let found = self.table.shared.load::<Load>(seat, index);
        if found == 0 { None } else { Some(found) }
    }
}
