ghost use Rattle.std.specs.Prelude.{◌≡◌, ◌+◌, ◌≤◌, true, [], length, option_map, IfOk};
ghost use Rattle.brpc_model.specs.Frame.{frame_bytes, body_limit};
ghost use Rattle.brpc_model.specs.Spelling.{meta_bytes};
ghost use Rattle.rpc_meta.specs.MetaMeaning.{meaning};
ghost use Rattle.brpc_model.specs.Reply.{reply, answered_by, response_with};
ghost use Rattle.prpc_frame.specs.FrameMeaning.{frame_of};
ghost use Rattle.rpc_server.specs.ServiceAnswers.{code_of, text_of, meant};
ghost use Rattle.rpc_server.specs.ReplySize.{frame_size, IsBegun, IsFit};

use crate::service::{Answer, Refusal, serve};
use io_buf::{BlockPool, IoBuf, NoMemory};
use prpc_frame::{Frame, encode};
use rpc_meta::{MetaBytes, ResponseMeta, RpcMeta};
use std::alloc::Global;

/// The reply to a frame, in its bytes: none where the frame has no request. Some bytes begin with the frame, so that the
/// reply is no larger than one may be: the meta of a request that names a service and its method is longer than that of
/// the response.
pub fn reply_to(
    alloc: Global,
    pool: &mut BlockPool,
    frame: Frame,
) -> Result<Option<IoBuf>, NoMemory>
    requires { IsBegun (frame_of frame) }
    ensures { IfOk result (λ r. option_map (λ b. b.items) r ≡ option_map frame_bytes (reply (frame_of frame))) }
{
    let Frame {
        meta,
        payload,
        attachment,
    } = frame;
    let RpcMeta {
        request,
        compress_type,
        correlation_id,
        ..
    } = meta;
    let Some(request) = request else {
        return Ok(None);
    };
    let answer = serve(alloc, pool, compress_type, &request, payload, attachment)?;
    let bytes = answered(alloc, pool, correlation_id, answer)?;
    Ok(Some(bytes))
}

impl Refusal {
    /// The code of the response: bRPC's ENOSERVICE, ENOMETHOD or EREQUEST.
    pub fn code(self) -> u16
        ensures { result ≡ code_of self }
    {
        match self {
            Refusal::NoService => 1001,
            Refusal::NoMethod => 1002,
            Refusal::BadRequest => 1003,
        }
    }

    /// The text of the response.
    pub fn text(self) -> &'static [u8]
        ensures text { result.now ≡ text_of self }
        ensures short { length result.now ≤ 11 }
    {
        match self {
            Refusal::NoService => b"no service",
            Refusal::NoMethod => b"no method",
            Refusal::BadRequest => b"bad request",
        }
    }
}

// The frame of an answer.
fn answered(alloc: Global, pool: &mut BlockPool, id: u64, answer: Answer) -> Result<IoBuf, NoMemory>
    requires { IsFit id answer }
    ensures { IfOk result (λ b. b.items ≡ frame_bytes (answered_by id (meant answer))) }
{
    match answer {
        Answer::Gives {
            payload,
            attachment,
        } => respond(alloc, pool, id, 0, b"".as_slice(), &payload, &attachment),
        Answer::Refuses(refusal) => {
            let none = IoBuf::new(alloc);
            respond(
                alloc,
                pool,
                id,
                refusal.code(),
                refusal.text(),
                &none,
                &none,
            )
        }
    }
}

// The frame of a response.
fn respond(
    alloc: Global,
    pool: &mut BlockPool,
    id: u64,
    code: u16,
    text: &[u8],
    payload: &IoBuf,
    attachment: &IoBuf,
) -> Result<IoBuf, NoMemory>
    requires short { length text.now ≤ 11 }
    requires small { frame_size (response_with id «code» text.now payload.now.items attachment.now.items) ≤ body_limit }
    ensures { IfOk result (λ b. b.items ≡ frame_bytes (response_with id «code» text.now payload.now.items attachment.now.items)) }
{
    let Ok(text) = MetaBytes::copy(alloc, text) else {
        return Err(NoMemory);
    };
    let meta = response_meta(id, code, text, attachment);
    encode(alloc, pool, &meta, payload, attachment)
}

// The meta of a response.
fn response_meta(id: u64, code: u16, text: MetaBytes, attachment: &IoBuf) -> RpcMeta
    requires { length attachment.now.items ≤ body_limit }
    ensures { meaning result ≡ (response_with id «code» text [] attachment.now.items).meta }
{
    // A body's limit is far below what 32 bits hold.
    let Ok(attachment_size) = i32::try_from(attachment.len()) else {
        unreachable!();
    };
    RpcMeta {
        request: None,
        response: Some(ResponseMeta {
            code: i32::from(code),
            text,
        }),
        compress_type: 0,
        correlation_id: id,
        attachment_size,
    }
}
