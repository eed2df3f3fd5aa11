// A new table with its seats.
ghost use Rattle.std.specs.Prelude.{◌≡◌, ◌+◌, ◌<◌, ◌≤◌, [], length, vec_len, vec_capacity, IfOk};
ghost use Rattle.id_rule.specs.LawfulIdTable.{first_view, Unused};
ghost use Rattle.corr_id.specs.IdTableOpening.{AreNew};

use crate::table::{IdSeat, IdTable};
use corr_core::{Plan, id_index, word_count};
use sock_words::IdWord;
use std::alloc::{AllocError, Global};

impl<C> IdTable<C> {
    /// A table of so many id slots, for the calls among so many operations, and its seats. The operations are at most 65,534,
    /// and there is a seat at least. An operation has words in the table where other threads find its call by its number; who
    /// finds calls by their ids needs none. A slot makes ids for 67,108,848 versions, a call taking as many as it has attempts,
    /// and 1 more; whose versions are used up it is retired, and never found free again (bthread_id.md).
    pub fn new(
        alloc: Global,
        slots: u16,
        operations: u16,
        seats: u16,
    ) -> Result<(IdTable<C>, Vec<IdSeat<C>>), AllocError>
        requires operations { operations < 65535 }
        requires seats { 1 ≤ seats }
        ensures plan { IfOk result (λ t. t.0.plan ≡ record { slots = slots; operations = operations + 1; seats = seats }) }
        ensures seats { IfOk result (λ t. AreNew t.0.table.shared.table_id t.1.items × (length t.1.items ≡ seats)) }
    {
        // The words of one more operation are there so that seats can be split where there is nothing else.
        let plan = Plan {
            slots,
            operations: operations + 1,
            seats,
        };
        let words = new_words(alloc, plan)?;
        let mut dealt = Vec::with_capacity(alloc, seats as usize)?;
        let (table, first) = IdTable::open(alloc, plan, &words)?;
        table.deal(first, &mut dealt);
        Ok((table, dealt))
    }

    // The seats, split off the first one.
    fn deal(&self, mut first: IdSeat<C>, seats: &mut Vec<IdSeat<C>>)
        requires first { (first.table_id ≡ self.now.table.shared.table_id) × (first.me ≡ (first_view self.now.plan, [])) }
        requires words { 0 < self.now.table.shared.table_id.words }
        requires some { 1 ≤ self.now.plan.seats }
        requires room { (seats.old.items ≡ []) × (vec_len seats.old ≡ 0) × (vec_capacity seats.old ≡ self.now.plan.seats) }
        ensures { AreNew self.now.table.shared.table_id seats.new.items × (length seats.new.items ≡ self.now.plan.seats) }
    {
        for _ in 1..self.plan.seats {
            let seat = self.seat_out(&mut first);
            seats.push_reserved(seat);
        }
        seats.push_reserved(first);
    }
}

// The words of a table before any step.
fn new_words(alloc: Global, plan: Plan) -> Result<Vec<u64>, AllocError>
    ensures { IfOk result (λ words. Unused plan words.items) }
{
    let count = word_count(&plan);
    let mut words = vec![in alloc; 0u64; count]?;
    let free = IdWord::pack(1, IdWord::FREE, 1, 0, 0, 0);
    for slot in 0..plan.slots {
        words[id_index(slot)] = free.0;
    }
    Ok(words)
}
