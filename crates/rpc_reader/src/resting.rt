// The calls that are left when no link is read any more.
ghost use Rattle.std.specs.Prelude.{◌<◌, All};
ghost use Rattle.rpc_reader.specs.ReaderIdSeat.{IsOpen, Rests};
ghost use Rattle.rpc_reader.specs.ReaderBooks.{books};
ghost use Rattle.rpc_reader.specs.CallsLeftAfterReading.{OneEnded, RestEnded};

use crate::books::AnswerSeat;
use crate::posting::end_lost;
use call_table::Call;
use corr_id::IdTable;
use std::sync::Wait;

/// The call of this operation ends, unless it has ended or never began.
fn end_one<R: Wait>(rt: &R, ids: &IdTable<Call>, calls: &mut AnswerSeat, operation: u16, code: u16)
    requires seat { IsOpen ids.now.table.shared.table_id calls.old.seat }
    requires operation { operation < ids.now.plan.operations }
    ensures ids { Rests calls.old.seat calls.new.seat }
    ensures ended { OneEnded ids.now.plan code operation (books calls.old) (books calls.new) }
{
    let Some(id) = ids.noted(&mut calls.seat, operation) else {
        return;
    };
    if let Ok(lock) = ids.lock(rt, &mut calls.seat, id) {
        end_lost(ids, calls, lock, code);
    }
}

/// Each call of these operations that hasn't ended ends: with the first response that was kept for it, or with the code. Their ids
/// are those that the seat finds, which knows at least of those that it noted itself, or a seat that it took in.
pub fn end_rest<R: Wait>(
    rt: &R,
    ids: &IdTable<Call>,
    calls: &mut AnswerSeat,
    operations: &[u16],
    code: u16,
)
    requires seat { IsOpen ids.now.table.shared.table_id calls.old.seat }
    requires operations { All (λ o. o < ids.now.plan.operations) operations.now }
    ensures ids { Rests calls.old.seat calls.new.seat }
    ensures rest { RestEnded ids.now.plan code operations.now (books calls.old) (books calls.new) }
{
    'rests: for operation in operations {
        end_one(rt, ids, calls, *operation, code);
    }
}
