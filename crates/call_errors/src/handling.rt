// An error for which a seat has the lock.
ghost use Rattle.std.specs.Prelude.{◌≡◌, ◌+◌, ◌<◌};
ghost use Rattle.std.specs.VecDeque.{deque_len, deque_capacity};
ghost use Rattle.corr_core.specs.IdSlotWord.{parts};
ghost use Rattle.corr_core.specs.declared.marks.Hand.TheVariants.{Empty};
ghost use Rattle.corr_id.specs.IdTableSeat.{Sits, Stays};
ghost use Rattle.corr_id.specs.SeatBehindIdCalls.{Locks};
ghost use Rattle.call_errors.specs.ClientBooks.{stand_of, LetGo};
ghost use Rattle.call_errors.specs.Handling.{is_whole as concerns_all, decision, Advanced, Decided};

use crate::ending::end_call;
use crate::retries::Retry;
use crate::seats::CallSeat;
use call_table::{Decision, on_error};
use corr_id::{IdLock, IdTable, Unlocked};
use sock_message::Call;
use sock_words::EINTERNAL;

// Whether an error with this attempt concerns the whole call.
fn is_whole(attempt: Option<u8>) -> bool
    ensures { result ≡ concerns_all attempt }
{
    match attempt {
        None => true,
        Some(_) => false,
    }
}

// What is done about an error of the call whose id is locked.
fn decide(lock: &IdLock<Call>, code: u16, attempt: Option<u8>) -> Decision
    ensures { result ≡ decision lock.now code attempt }
{
    on_error(lock.range(), lock.attempt(), code, is_whole(attempt))
}

// The call's next attempt is to be made: the lock is given back with it, and the retry is kept.
fn advance(ids: &IdTable<Call>, calls: &mut CallSeat, lock: IdLock<Call>) -> Unlocked<Call>
    requires seat { Sits ids.now.table.shared.table_id calls.old.seat }
    requires lock { (lock.slot < ids.now.plan.slots) × Locks lock.slot calls.old.seat.me.0 (parts lock.word.0) lock.content Empty }
    requires left { (parts lock.word.0).attempt + 2 < (parts lock.word.0).range }
    requires room { deque_len calls.old.retries < deque_capacity calls.old.retries }
    ensures seat { Stays calls.old.seat calls.new.seat }
    ensures sits { Sits ids.now.table.shared.table_id calls.new.seat }
    ensures advanced { Advanced lock result (stand_of calls.old) (stand_of calls.new) }
{
    let retry = Retry {
        id: lock.id(),
        attempt: lock.attempt() + 1,
    };
    let answer = ids.unlock(&mut calls.seat, lock, true);
    calls.retries.push_back_reserved(retry);
    answer
}

/// An error of a call, of this attempt or `None` for the whole of it, for which the seat has the lock: the call ends with it, or
/// a retry is kept and the lock is given back; and where another error is handed out then, that one is handled.
/// bRPC's `Controller::OnVersionedRPCReturned`. Where memory is wanting, the call ends with that whatever the error is.
pub fn handle(
    ids: &IdTable<Call>,
    calls: &mut CallSeat,
    lock: IdLock<Call>,
    code: u16,
    attempt: Option<u8>,
)
    requires seat { Sits ids.now.table.shared.table_id calls.old.seat }
    requires lock { (lock.slot < ids.now.plan.slots) × Locks lock.slot calls.old.seat.me.0 (parts lock.word.0) lock.content Empty }
    ensures seat { Stays calls.old.seat calls.new.seat }
    ensures sits { Sits ids.now.table.shared.table_id calls.new.seat }
    ensures let_go { LetGo lock.slot calls.old.seat.me.0 calls.new.seat.me.0 }
    ensures decided { Decided (stand_of calls.old) lock code attempt (stand_of calls.new) }
{
    if calls.starved {
        return end_call(ids, calls, lock, EINTERNAL);
    }
    match decide(&lock, code, attempt) {
        Decision::End => end_call(ids, calls, lock, code),
        Decision::Retry => {
            if calls.retries.reserve(1).is_err() {
                calls.starved = true;
                return end_call(ids, calls, lock, EINTERNAL);
            }
            match advance(ids, calls, lock) {
                Unlocked::Open => {}
                Unlocked::Next {
                    lock: next,
                    code: handed,
                    attempt: of,
                } => handle(ids, calls, next, handed, of),
            }
        }
    }
}
