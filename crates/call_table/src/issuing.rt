ghost use Rattle.std.specs.Prelude.{◌≡◌, ◌+◌, ◌-◌, ◌^◌, ◌<◌, ℕ, List, pos, ◌∷◌, ◌++◌, length, IfOk};
ghost use Rattle.sock_message.specs.brpc_model.specs.Frame.{IsFrame, Begins, judged};
ghost use Rattle.sock_message.specs.brpc_model.specs.Spelling.{meta_bytes};
ghost use Rattle.rpc_meta.specs.MetaMeaning.{meaning};
ghost use Rattle.rpc_meta.specs.MetaWriting.{HasPart};
ghost use Rattle.sock_message.specs.io_buf.specs.Buffer.{block_sizes};
ghost use Rattle.sock_message.specs.InsideMessages.{KeepsLimits};
ghost use Rattle.sock_message.specs.Asked.{meta_with, request_of, frame_of, head_of};

use prpc_frame::{BlockPool, IoBuf, NoMemory, RpcMeta, encode};
use rpc_meta::{MetaBytes, RequestMeta};
use sock_message::Call;
use std::alloc::Global;

/// The frame of an attempt of the call with this id (brpc's baidu_std.md). The attempt is counted from 0, and its correlation
/// id is `id + attempt + 1` (bthread_id.md, `bthread_id_create_ranged`), which is below 2^64.
///
/// Header and meta are one piece, and the other pieces are those of the payload and then those of the attachment, which are
/// shared and not copied.
pub fn issue(
    alloc: Global,
    pool: &mut BlockPool,
    call: &Call,
    id: u64,
    attempt: u8,
) -> Result<IoBuf, NoMemory>
    requires { id + attempt + 1 < 2 ^ 64 }
    ensures bytes { IfOk result (λ b. b.items ≡ frame_of call.now id attempt) }
    ensures frame { IfOk result (λ b. IsFrame b.items (request_of call.now id attempt)) }
    // It is taken for this frame and for no other, whatever stands behind it.
    ensures only { IfOk result (λ b. (more : List ℕ) → judged (b.items ++ more) ≡ Begins (request_of call.now id attempt) (length b.items - 12)) }
    ensures pieces { IfOk result (λ b. b.sizes ≡ head_of call.now id attempt ∷ block_sizes (length call.now.payload) ++ block_sizes (length call.now.attachment)) }
{
    // It keeps its limits.
    let _ = call.name(attempt);
    let meta = request_meta(alloc, call, id + u64::from(attempt) + 1)?;
    encode(alloc, pool, &meta, call.payload(), call.attachment())
}

// The meta of the call's request under this correlation id.
fn request_meta(alloc: Global, call: &Call, correlation_id: u64) -> Result<RpcMeta, NoMemory>
    requires { KeepsLimits call.now }
    ensures says { IfOk result (λ m. meaning m ≡ meta_with call.now correlation_id) }
    ensures sized { IfOk result (λ m. m.attachment_size ≡ pos (length call.now.attachment)) }
    ensures part { IfOk result (λ m. HasPart (meaning m)) }
    ensures short { IfOk result (λ m. length (meta_bytes (meaning m)) < 512) }
{
    let request = RequestMeta {
        service: MetaBytes::copy(alloc, call.service())?,
        method: MetaBytes::copy(alloc, call.method())?,
        log_id: None,
    };
    Ok(RpcMeta {
        request: Some(request),
        response: None,
        compress_type: 0,
        correlation_id,
        attachment_size: call.attachment().len() as i32,
    })
}
