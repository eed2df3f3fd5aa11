// An error that is posted to the id of a call.
ghost use Rattle.std.specs.Prelude.{◌≤◌, MatchOption};
ghost use Rattle.call_errors.specs.ClientBooks.{stand_of, HasNoLock, KeepsSeat};
ghost use Rattle.call_errors.specs.PostedErrors.{PostedBy};

use crate::handling::handle;
use crate::seats::CallSeat;
use corr_id::{IdTable, Posted};
use sock_message::Call;
use std::sync::Wait;

/// An error is posted to an id, and handled where the id was open (bRPC's `bthread_id_error`). The code is 1 to 4,095; the
/// attempt is at most 6, and `None` for the whole call.
pub fn post_error<R: Wait>(
    rt: &R,
    ids: &IdTable<Call>,
    calls: &mut CallSeat,
    id: u64,
    code: u16,
    attempt: Option<u8>,
)
    requires ids { HasNoLock ids.now.table.shared.table_id calls.old }
    requires code { (1 ≤ code) × (code ≤ 4095) }
    requires attempt { MatchOption attempt (Unit {0}) (λ n. n ≤ 6) }
    ensures keeps { KeepsSeat ids.now.table.shared.table_id calls.old calls.new }
    ensures posted { PostedBy ids.now.plan.slots (stand_of calls.old) id code attempt (stand_of calls.new) }
{
    match ids.post(rt, &mut calls.seat, id, code, attempt) {
        Posted::Locked(lock) => handle(ids, calls, lock, code, attempt),
        Posted::Queued => {}
        Posted::Gone { found: _ } => {}
        Posted::Stale { current: _ } => {}
        Posted::Crowded {
            first: _,
            second: _,
        } => {}
    }
}
