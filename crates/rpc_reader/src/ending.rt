// The end of a call whose id the reader has locked.
ghost use Rattle.std.specs.Prelude.{◌≡◌, ◌≢◌, ◌<◌, ℕ, [], true};
ghost use Rattle.sock_words.specs.declared.outcome.Outcome.TheVariants.{CallFailed};
ghost use Rattle.prpc_frame.specs.FrameMeaning.{frame_of};
ghost use Rattle.brpc_model.specs.ResponseOutcome.{ending_of};
ghost use Rattle.corr_core.specs.IdSlotWord.{parts};
ghost use Rattle.corr_core.specs.declared.marks.Hand.TheVariants.{Empty};
ghost use Rattle.id_rule.specs.LawfulIdTable.{tokens_in};
ghost use Rattle.corr_id.specs.SeatBehindIdCalls.{Locks};
ghost use Rattle.corr_id.specs.IdTableSeat.{Sits};
ghost use Rattle.rpc_reader.specs.ReaderIdSeat.{Rests};
ghost use Rattle.rpc_reader.specs.ReaderBooks.{books, id_of, EndedAs};
ghost use Rattle.rpc_reader.specs.Met.{has_response};

use crate::books::AnswerSeat;
use call_table::Call;
use corr_id::{IdLock, IdTable};
use prpc_frame::Frame;
use sock_words::Outcome;

/// The call of the lock ends with this response. A reader never unlocks an id: it ends it.
pub fn end_answered(ids: &IdTable<Call>, calls: &mut AnswerSeat, lock: IdLock<Call>, frame: Frame)
    requires seat { Sits ids.now.table.shared.table_id calls.old.seat }
    requires lock { (lock.slot < ids.now.plan.slots) × Locks lock.slot calls.old.seat.me.0 (parts lock.word.0) lock.content Empty }
    requires others { (j : ℕ) → j ≢ lock.slot → tokens_in j calls.old.seat.me.0 ≡ [] }
    requires response { has_response frame.meta.response ≡ true }
    ensures rest { Rests calls.old.seat calls.new.seat }
    ensures ended { EndedAs lock.slot (parts lock.word.0) lock.content (ending_of (id_of lock.slot (parts lock.word.0)) (frame_of frame)) (books calls.old) (books calls.new) }
    ensures early { calls.new.early ≡ calls.old.early }
{
    let id = lock.id();
    let call = ids.destroy(&mut calls.seat, lock);
    calls.tell_response(call.operation, id, frame);
    drop(call);
}

/// The call of the lock ends with this code.
pub fn end_failed(ids: &IdTable<Call>, calls: &mut AnswerSeat, lock: IdLock<Call>, code: u16)
    requires seat { Sits ids.now.table.shared.table_id calls.old.seat }
    requires lock { (lock.slot < ids.now.plan.slots) × Locks lock.slot calls.old.seat.me.0 (parts lock.word.0) lock.content Empty }
    requires others { (j : ℕ) → j ≢ lock.slot → tokens_in j calls.old.seat.me.0 ≡ [] }
    ensures rest { Rests calls.old.seat calls.new.seat }
    ensures ended { EndedAs lock.slot (parts lock.word.0) lock.content (CallFailed (id_of lock.slot (parts lock.word.0)) code) (books calls.old) (books calls.new) }
    ensures early { calls.new.early ≡ calls.old.early }
{
    let id = lock.id();
    let lost = ids.destroy(&mut calls.seat, lock);
    calls.tell(lost.operation, Outcome::CallFailed { id, code });
    drop(lost);
}
