// What becomes of a whole frame.
ghost use Rattle.std.specs.Prelude.{◌≡◌};
ghost use Rattle.rpc_reader.specs.ReaderIdSeat.{IsOpen, Rests};
ghost use Rattle.rpc_reader.specs.ReaderBooks.{books};
ghost use Rattle.rpc_reader.specs.Met.{is_asked as asks, FrameMet};

use crate::books::{AnswerSeat, has_response};
use crate::ending::end_answered;
use call_table::Call;
use corr_core::is_early;
use corr_id::IdTable;
use prpc_frame::Frame;
use sock_words::{CorrelationId, IdWord};
use std::sync::Wait;

// Whether the frame is a response of one of so many id slots.
fn is_asked(frame: &Frame, slots: u16) -> bool
    ensures { result ≡ asks slots frame.now }
{
    has_response(frame) && CorrelationId(frame.meta.correlation_id).slot() < u32::from(slots)
}

/// A response ends the call whose id its correlation id is a version of, where that id is open. Where its range wasn't made yet,
/// it is kept. Other frames are passed over.
pub fn meet<R: Wait>(rt: &R, ids: &IdTable<Call>, calls: &mut AnswerSeat, frame: Frame)
    requires { IsOpen ids.now.table.shared.table_id calls.old.seat }
    ensures rest { Rests calls.old.seat calls.new.seat }
    ensures met { FrameMet ids.now.plan.slots frame (books calls.old) (books calls.new) }
{
    if !is_asked(&frame, ids.plan.slots) {
        drop(frame);
        return;
    }
    let version = frame.meta.correlation_id;
    match ids.lock_attempt(rt, &mut calls.seat, version) {
        Ok(lock) => end_answered(ids, calls, lock, frame),
        Err(gone) => {
            let word = IdWord(gone.found);
            if is_early(word, CorrelationId(version).version()) {
                calls.keep(frame);
            } else {
                drop(frame);
            }
        }
    }
}
