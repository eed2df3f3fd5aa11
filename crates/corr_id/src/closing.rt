// The end of a table.
ghost use Rattle.std.specs.Prelude.{◌≡◌, ◌≤◌, ◌<◌, ℕ, [], map, length, IfOk, IfErr, slice_index, slice_index_or, false};
ghost use Rattle.std.specs.List.{flat_map};
ghost use Rattle.std.specs.Mem.Slots.{slots_items, slots_len, slots_filled, IsFull};
ghost use Rattle.corr_core.specs.IdTableLayout.{tag_index};
ghost use Rattle.corr_id.specs.ClosedIdTable.{AllOf, AreIdWords};
ghost use Rattle.corr_id.specs.ClosingIdLists.{Closing};
ghost use Rattle.corr_id.specs.IdTableSeat.{IsFree};
ghost use Rattle.sock_words.specs.Totals.{total};

use crate::table::{IdSeat, IdTable};
use atomic_table::Closed;
use corr_core::id_index;
use sock_words::IdWord;
use std::alloc::Global;

/// There was no memory. All is untouched.
#[derive(Drop)]
pub struct IdNotClosed<C> {
    pub table: IdTable<C>,
    pub seats: Vec<IdSeat<C>>,
}

// One seat that has what all have noted, in their order.
fn join_all<C>(table: &IdTable<C>, mut seats: Vec<IdSeat<C>>) -> IdSeat<C>
    requires seats { AllOf table.now.table.shared.table_id seats.items }
    requires words { (0 < table.now.table.shared.table_id.words) × (1 ≤ total (λ s. s.me.0.share) seats.items) }
    ensures seat { (result.table_id ≡ table.now.table.shared.table_id) × (result.me.1 ≡ []) × IsFree result.me.0 }
    ensures lists { (result.me.0.notes ≡ flat_map (λ s. s.me.0.notes) seats.items) × (result.me.0.kept ≡ flat_map (λ s. s.me.0.kept) seats.items) × (result.me.0.share ≡ total (λ s. s.me.0.share) seats.items) }
{
    let Some(mut seat) = seats.pop() else {
        unreachable!();
    };
    while let Some(mut earlier) = seats.pop() {
        table.take_in(&mut earlier, seat);
        seat = earlier;
    }
    seat
}

// The words of the slots.
fn read_words<S>(table: &Closed<S, Global>, slots: u16, words: &mut Vec<IdWord>)
    requires full { IsFull table.now.words }
    requires words { tag_index slots ≤ slots_len table.now.words }
    requires sized { length words.old.items ≡ slots }
    ensures words { AreIdWords slots words.new.items (slots_items table.now.words) }
    ensures low { (i : ℕ) → slice_index (map (λ w. w.0) words.new.items) i < 18446744073709551616 }
{
    for slot in 0..slots {
        words[slot as usize] = IdWord(table.word(id_index(slot)));
    }
}

// The contents that are left, out of their homes.
fn empty_homes<S: Drop>(table: &mut Closed<S, Global>)
    requires full { IsFull table.old.slots }
    ensures { (k : ℕ) → k < slots_len table.new.slots → slice_index_or (slots_filled table.new.slots) k false ≡ false }
{
    let mut k = 0;
    while k < table.slot_count() {
        drop(table.take(k));
        k += 1;
    }
}

impl<C> IdTable<C> {
    /// One seat that has what all of these noted, in their order. As `take_in`, for many.
    pub fn join_seats(&self, seats: Vec<IdSeat<C>>) -> IdSeat<C>
        requires seats { AllOf self.now.table.shared.table_id seats.items }
        requires words { 0 < self.now.table.shared.table_id.words }
        requires some { 1 ≤ total (λ s. s.me.0.share) seats.items }
        ensures seat { (result.table_id ≡ self.now.table.shared.table_id) × (result.me.1 ≡ []) × IsFree result.me.0 }
        ensures share { result.me.0.share ≡ total (λ s. s.me.0.share) seats.items }
        ensures lists { (result.me.0.notes ≡ flat_map (λ s. s.me.0.notes) seats.items) × (result.me.0.kept ≡ flat_map (λ s. s.me.0.kept) seats.items) }
    {
        join_all(self, seats)
    }
}

impl<C: Drop> IdTable<C> {
    /// The last words of the slots. The seats are all that the table has but those that were taken in, and none holds a lock.
    /// Each is of 64 bits. Where memory is wanting all is untouched.
    pub fn close(self, alloc: Global, seats: Vec<IdSeat<C>>) -> Result<Vec<IdWord>, IdNotClosed<C>>
        requires seats { AllOf self.table.shared.table_id seats.items }
        requires all { total (λ s. s.me.0.share) seats.items ≡ self.plan.seats }
        requires some { (1 ≤ self.plan.seats) × (1 ≤ self.plan.operations) }
        ensures lists { IfOk result (λ words. Closing self.plan (flat_map (λ s. s.me.0.notes) seats.items) (flat_map (λ s. s.me.0.kept) seats.items) (map (λ w. w.0) words.items)) }
        ensures low { IfOk result (λ words. (i : ℕ) → slice_index (map (λ w. w.0) words.items) i < 18446744073709551616) }
        ensures untouched { IfErr result (λ e. (e.table ≡ self) × (e.seats ≡ seats)) }
    {
        let slots = self.plan.slots;
        let Ok(mut words) = vec![in alloc; IdWord(0); slots as usize] else {
            return Err(IdNotClosed { table: self, seats });
        };
        let seat = join_all(&self, seats);
        let IdTable {
            table,
            plan: _,
            next: _,
            bells: _,
        } = self;
        let mut closed = table.close_with(seat);
        read_words(&closed, slots, &mut words);
        empty_homes(&mut closed);
        closed.free();
        Ok(words)
    }
}
