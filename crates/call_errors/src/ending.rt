// A call that ends with a code.
ghost use Rattle.std.specs.Prelude.{◌≡◌, ◌<◌};
ghost use Rattle.corr_core.specs.IdSlotWord.{parts};
ghost use Rattle.corr_core.specs.declared.marks.Hand.TheVariants.{Empty};
ghost use Rattle.corr_id.specs.IdTableSeat.{Sits, Stays};
ghost use Rattle.corr_id.specs.SeatBehindIdCalls.{Locks};
ghost use Rattle.call_errors.specs.ClientBooks.{stand_of, books_of, Tells, LetGo};
ghost use Rattle.call_errors.specs.CallEndsWithCode.{EndedWith};

use crate::seats::CallSeat;
use corr_id::{IdLock, IdTable};
use rpc_client::Told;
use sock_message::Call;
use sock_words::Outcome;

// The outcome is told. Where no memory is there for it, memory is wanting from here on.
fn tell(calls: &mut CallSeat, told: Told)
    ensures seat { calls.new.seat ≡ calls.old.seat }
    ensures told { Tells told (books_of calls.old) (books_of calls.new) }
{
    if calls.told.push(told).is_err() {
        calls.starved = true;
    }
}

/// The call whose id is locked ends with this code.
pub fn end_call(ids: &IdTable<Call>, calls: &mut CallSeat, lock: IdLock<Call>, code: u16)
    requires seat { Sits ids.now.table.shared.table_id calls.old.seat }
    requires lock { (lock.slot < ids.now.plan.slots) × Locks lock.slot calls.old.seat.me.0 (parts lock.word.0) lock.content Empty }
    ensures seat { Stays calls.old.seat calls.new.seat }
    ensures sits { Sits ids.now.table.shared.table_id calls.new.seat }
    ensures let_go { LetGo lock.slot calls.old.seat.me.0 calls.new.seat.me.0 }
    ensures ended { EndedWith lock code (stand_of calls.old) (stand_of calls.new) }
{
    let id = lock.id();
    let call = ids.destroy(&mut calls.seat, lock);
    let told = Told {
        number: call.operation,
        outcome: Outcome::CallFailed { id, code },
    };
    drop(call);
    tell(calls, told);
}
