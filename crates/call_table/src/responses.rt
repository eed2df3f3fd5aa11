ghost use Rattle.std.specs.Prelude.{◌≡◌, ◌↔◌, ℕ, pos, IsTrue, IsSome, IfSome};
ghost use Rattle.prpc_frame.specs.FrameMeaning.{frame_of};
ghost use Rattle.sock_message.specs.brpc_model.specs.ResponseOutcome.{ending_of};
ghost use Rattle.call_table.specs.ResponseEndsCall.{response_ending, outcome_of};

use prpc_frame::{Frame, IoBuf, RpcMeta};

/// How a response ends a call.
#[derive(Drop)]
pub enum Ending {
    /// It is compressed, so it isn't read.
    Unread,
    /// The peer answered, with this.
    Answered { payload: IoBuf, attachment: IoBuf },
    /// The peer failed the call, with this code.
    Peer { code: i32 },
}

/// How a frame that has a response ends its call (brpc's baidu_std.md): by its error code, unless it is compressed.
pub fn on_response(frame: Frame) -> Ending
    requires { IsSome frame.meta.response }
    ensures exact { result ≡ response_ending frame }
    // The outcome of the call with this id, where such a response of one of its versions ends it.
    ensures outcome { (id : ℕ) → outcome_of id result ≡ ending_of id (frame_of frame) }
{
    let code = response_code(&frame.meta);
    if !is_zero(frame.meta.compress_type) {
        return Ending::Unread;
    }
    if !is_zero(code) {
        return Ending::Peer { code };
    }
    let Frame {
        payload,
        attachment,
        ..
    } = frame;
    Ending::Answered {
        payload,
        attachment,
    }
}

// The code of the response.
fn response_code(meta: &RpcMeta) -> i32
    requires { IsSome meta.now.response }
    ensures { IfSome meta.now.response (λ r. r.code ≡ result) }
{
    match &meta.response {
        Some(response) => response.code,
        None => 0,
    }
}

// Whether a number of a meta is 0.
fn is_zero(number: i32) -> bool
    ensures { IsTrue result ↔ (number ≡ pos 0) }
{
    number == 0
}
