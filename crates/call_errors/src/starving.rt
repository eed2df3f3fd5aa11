// The retries that wait are given up for want of memory.
ghost use Rattle.call_errors.specs.ClientBooks.{stand_of, HasNoLock, KeepsSeat};
ghost use Rattle.call_errors.specs.Starving.{GivenUp, StarvedBy};

use crate::ending::end_call;
use crate::seats::CallSeat;
use corr_id::IdTable;
use sock_message::Call;
use sock_words::EINTERNAL;
use std::collections::VecDeque;
use std::mem;
use std::sync::Wait;

/// The call with this id ends for want of memory, unless it has ended.
pub fn give_up<R: Wait>(rt: &R, ids: &IdTable<Call>, calls: &mut CallSeat, id: u64)
    requires ids { HasNoLock ids.now.table.shared.table_id calls.old }
    ensures keeps { KeepsSeat ids.now.table.shared.table_id calls.old calls.new }
    ensures given_up { GivenUp ids.now.plan.slots id (stand_of calls.old) (stand_of calls.new) }
{
    if let Ok(lock) = ids.lock(rt, &mut calls.seat, id) {
        end_call(ids, calls, lock, EINTERNAL);
    }
}

/// Memory is wanting: each call whose retry waits ends with that, unless it has ended.
pub fn starve<R: Wait>(rt: &R, ids: &IdTable<Call>, calls: &mut CallSeat)
    requires ids { HasNoLock ids.now.table.shared.table_id calls.old }
    ensures keeps { KeepsSeat ids.now.table.shared.table_id calls.old calls.new }
    ensures starved { StarvedBy ids.now.plan.slots (stand_of calls.old) (stand_of calls.new) }
{
    calls.starved = true;
    let mut waiting = mem::replace(&mut calls.retries, VecDeque::new(calls.alloc));
    'retries: while let Some(retry) = waiting.pop_front() {
        give_up(rt, ids, calls, retry.id);
    }
}
