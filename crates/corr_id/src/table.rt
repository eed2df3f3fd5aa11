// The table of words and homes, and its seats.
ghost use Rattle.std.specs.Prelude.{◌≡◌, ◌<◌, ◌≤◌, [], IfOk};
ghost use Rattle.corr_core.specs.IdTableLayout.{all_words};
ghost use Rattle.id_rule.specs.LawfulIdTable.{first_view, Unused, joined, lighter, newcomer};
ghost use Rattle.corr_id.specs.IdTableSeat.{IsFree};

use crate::bells::Bell;
use crate::plays::{Rule, SeatOut, TakeIn};
use atomic_table::{Seat, Table};
use corr_core::{Plan, View};
use std::alloc::{AllocError, Global};
use std::array::from_fn;
use std::sync::atomic::AtomicU64;

/// How many bells a table has.
pub const BELLS: usize = 32;

/// A seat of a table of ids. A thread makes its steps with it.
pub type IdSeat<C> = Seat<Option<C>, View<C>>;

/// The call ids that threads share, each with a content while it isn't ended.
/// bRPC's `bthread_id` with ranges of versions (bthread_id.md).
#[derive(Drop)]
pub struct IdTable<C> {
    pub table: Table<Option<C>, View<C>, Plan, Rule, Global>,
    pub plan: Plan,
    // Where a slot is looked for first, and who waits for the end of an id: each of every 32nd slot.
    pub(crate) next: AtomicU64,
    pub(crate) bells: [Bell; BELLS],
    pub ghost sized: { table.shared.table_id.words ≡ all_words table.shared.key },
    pub ghost planned: { table.shared.key ≡ plan },
}

impl<C> IdTable<C> {
    // A table with these words, which are those of a new one, and the seat that stands for all.
    pub(crate) fn open(
        alloc: Global,
        plan: Plan,
        words: &[u64],
    ) -> Result<(IdTable<C>, IdSeat<C>), AllocError>
        requires words { Unused plan words.now }
        requires seats { 1 ≤ plan.seats }
        ensures { IfOk result (λ t. (t.0.plan ≡ plan) × (t.1.table_id ≡ t.0.table.shared.table_id) × (t.1.me ≡ (first_view plan, []))) }
    {
        let count = plan.slots as usize;
        let (table, seat) = Table::vacant(alloc, words, count, &plan)?;
        let ids = IdTable {
            table,
            plan,
            next: AtomicU64::new(0),
            bells: from_fn(|_| Bell::new()),
        };
        Ok((ids, seat))
    }

    /// Joins two seats. The seat `from` has no lock; what it has noted is added to what `seat` has.
    pub fn take_in(&self, seat: &mut IdSeat<C>, from: IdSeat<C>)
        requires seat { seat.old.table_id ≡ self.now.table.shared.table_id }
        requires from { (from.table_id ≡ self.now.table.shared.table_id) × (from.me.1 ≡ []) × IsFree from.me.0 }
        requires words { 0 < self.now.table.shared.table_id.words }
        ensures seat { (seat.new.table_id ≡ seat.old.table_id) × (seat.new.id ≡ seat.old.id) }
        ensures view { seat.new.me ≡ (joined seat.old.me.0 from.me.0, seat.old.me.1) }
    {
        self.table.shared.join_seat::<TakeIn>(seat, from);
    }

    // A new seat, where the seat stands for more than itself.
    pub(crate) fn seat_out(&self, seat: &mut IdSeat<C>) -> IdSeat<C>
        requires seat { (seat.old.table_id ≡ self.now.table.shared.table_id) × (2 ≤ seat.old.me.0.share) }
        requires words { 0 < self.now.table.shared.table_id.words }
        ensures seat { (seat.new.table_id ≡ seat.old.table_id) × (seat.new.id ≡ seat.old.id) × (result.table_id ≡ seat.old.table_id) }
        ensures view { (seat.new.me ≡ (lighter seat.old.me.0, seat.old.me.1)) × (result.me ≡ (newcomer, [])) }
    {
        self.table.shared.split_seat::<SeatOut>(seat)
    }

    // The bell of this slot.
    #[inline(always)]
    pub(crate) fn bell(&self, at: u16) -> &Bell {
        &self.bells[at as usize % BELLS]
    }
}
