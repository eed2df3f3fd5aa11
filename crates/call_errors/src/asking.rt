// What a client asks of a call, by its operation.
ghost use Rattle.std.specs.Prelude.{◌<◌};
ghost use Rattle.call_errors.specs.ClientBooks.{stand_of, HasNoLock, KeepsSeat};
ghost use Rattle.call_errors.specs.ExpireAndJoinOutcomes.{AskedBy};

use crate::handling::handle;
use crate::seats::CallSeat;
use corr_id::{IdTable, Posted};
use sock_message::Call;
use sock_words::{ERPCTIMEDOUT, Outcome};
use std::sync::Wait;

/// What is asked of a call that may have begun.
#[derive(Clone, Copy)]
pub enum Ask {
    /// That it end, since its time is over: that is posted to the whole call.
    Expire,
    /// To wait until it has ended (bRPC's `bthread_id_join`).
    Join,
}

/// This is asked of the call that is this operation.
pub fn ask_one<R: Wait>(
    rt: &R,
    ids: &IdTable<Call>,
    calls: &mut CallSeat,
    operation: u16,
    ask: Ask,
) -> Outcome
    requires ids { HasNoLock ids.now.table.shared.table_id calls.old }
    requires operation { operation < ids.now.plan.operations }
    ensures keeps { KeepsSeat ids.now.table.shared.table_id calls.old calls.new }
    ensures asked { AskedBy ask ids.now.plan operation result (stand_of calls.old) (stand_of calls.new) }
{
    let Some(id) = ids.noted(&mut calls.seat, operation) else {
        return Outcome::NotBegun;
    };
    match ask {
        Ask::Join => {
            ids.join(rt, &mut calls.seat, id);
            Outcome::Joined
        }
        Ask::Expire => match ids.post(rt, &mut calls.seat, id, ERPCTIMEDOUT, None) {
            Posted::Locked(lock) => {
                handle(ids, calls, lock, ERPCTIMEDOUT, None);
                Outcome::Expired
            }
            Posted::Queued => Outcome::Queued,
            Posted::Gone { found: _ } => Outcome::Late,
            Posted::Stale { current: _ } => Outcome::Late,
            Posted::Crowded { first, second } => Outcome::Crowded { first, second },
        },
    }
}
