ghost use Rattle.std.specs.Prelude.{◌≡◌, ◌↔◌, pos, IsTrue, IfOk, Some, slice_set};
ghost use Rattle.prpc_frame.specs.FrameMeaning.{frame_of};
ghost use Rattle.sock_words.specs.ErrorCodes.{ERESPONSE};
ghost use Rattle.brpc_model.specs.ResponseOutcome.{by_code, ending_of};
ghost use Rattle.id_points.specs.IdsAndAttemptNumbers.{id_of};
ghost use Rattle.reader_points.specs.ReaderPoints.{code_by};

use io_buf::{IoBuf, NoMemory};
use prpc_frame::Frame;
use reader_points::Lost;
use sock_words::{ERESPONSE, Outcome, OwnedBytes};
use std::alloc::Global;

/// The operation of this number has this outcome.
pub fn tell(outcomes: &mut [Option<Outcome>], operation: u16, outcome: Outcome)
    ensures { outcomes.new ≡ slice_set outcomes.old operation (Some outcome) }
{
    let place = usize::from(operation);
    if place < outcomes.len() {
        outcomes[place] = Some(outcome);
    }
}

/// A copy of these bytes.
fn copied(alloc: Global, bytes: &IoBuf) -> Result<OwnedBytes, NoMemory>
    ensures { IfOk result (λ out. out ≡ bytes.now.items) }
{
    let mut copy = vec![in alloc; 0; bytes.len()]?;
    bytes.copy_to(&mut copy);
    Ok(OwnedBytes::new(copy))
}

/// Whether a number of a meta is 0.
fn is_zero(number: i32) -> bool
    ensures { IsTrue result ↔ (number ≡ pos 0) }
{
    number == 0
}

/// The outcome that a frame with a response of this code gives the call with this id.
fn ending_by(alloc: Global, id: u64, frame: &Frame, code: i32) -> Result<Outcome, NoMemory>
    ensures { IfOk result (λ outcome. outcome ≡ by_code id (frame_of frame.now) code) }
{
    if is_zero(code) {
        Ok(Outcome::Answered {
            id,
            payload: copied(alloc, &frame.payload)?,
            attachment: copied(alloc, &frame.attachment)?,
        })
    } else {
        Ok(Outcome::Peer { id, code })
    }
}

/// The outcome that a response gives the call with this id. It is copied.
/// The response's code is 0 or the other end's error (baidu_std.md).
pub fn ending(alloc: Global, id: u64, frame: &Frame) -> Result<Outcome, NoMemory>
    ensures { IfOk result (λ outcome. outcome ≡ ending_of id (frame_of frame.now)) }
{
    if !is_zero(frame.meta.compress_type) {
        return Ok(unread(id));
    }
    match &frame.meta.response {
        Some(response) => ending_by(alloc, id, frame, response.code),
        None => Ok(unread(id)),
    }
}

/// The outcome of the call with this id where its response can't be read.
pub fn unread(id: u64) -> Outcome
    ensures { result ≡ Outcome.CallFailed id ERESPONSE }
{
    Outcome::CallFailed {
        id,
        code: ERESPONSE,
    }
}

/// The outcome of a call that ended with the error of its link.
pub fn failed(lost: Lost) -> Outcome
    ensures { result ≡ Outcome.CallFailed (id_of lost.id) (code_by lost.closing.fault) }
{
    Outcome::CallFailed {
        id: lost.id.number(),
        code: lost.closing.code(),
    }
}
