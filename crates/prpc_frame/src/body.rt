ghost use Rattle.std.specs.Prelude.{◌≡◌, ◌+◌, ◌≤◌, length, take, drop, IfSome};
ghost use Rattle.prpc_frame.specs.Body.{MetaIs, MetaSays, AttachmentSays, BodySays};

use crate::fault::{FrameFault, NextFault};
use crate::frame::Frame;
use crate::header::Sizes;
use io_buf::IoBuf;
use rpc_meta::{MetaFault, RpcMeta};
use std::alloc::Global;

/// The frame of these sizes at the front. Its payload and attachment are shared.
#[inline(always)]
pub fn read_frame(alloc: Global, held: &IoBuf, sizes: Sizes) -> Result<Frame, NextFault>
    requires meta { sizes.meta ≤ sizes.body }
    requires body { 12 + sizes.body ≤ length held.now.items }
    ensures { BodySays held.now.items sizes.meta sizes.body result }
{
    let meta_bytes = sizes.meta as usize;
    let body_bytes = sizes.body as usize;
    let meta = read_meta(alloc, held, meta_bytes)?;
    let room = sizes.body - sizes.meta;
    let attached = attachment_bytes(meta.attachment_size, room)?;
    let mut rest = held.share_part(12 + meta_bytes, 12 + body_bytes)?;
    if attached == 0 {
        return Ok(Frame {
            meta,
            payload: rest,
            attachment: IoBuf::new(alloc),
        });
    }
    let payload_bytes = (room - attached) as usize;
    let payload = rest.share_front(payload_bytes)?;
    rest.pop_front(payload_bytes);
    Ok(Frame {
        meta,
        payload,
        attachment: rest,
    })
}

// The meta that stands behind the header: read where it lies where it is in the first piece, else
// copied first.
#[inline(always)]
fn read_meta(alloc: Global, held: &IoBuf, size: usize) -> Result<RpcMeta, NextFault>
    requires { 12 + size ≤ length held.now.items }
    ensures { MetaSays held.now.items size result }
{
    match meta_in(held.first_piece(), size) {
        Some(bytes) => meta_of(alloc, bytes),
        None => copy_meta(alloc, held, size),
    }
}

// As `read_meta`, from a copy of the bytes.
#[inline(never)]
fn copy_meta(alloc: Global, held: &IoBuf, size: usize) -> Result<RpcMeta, NextFault>
    requires { 12 + size ≤ length held.now.items }
    ensures { MetaSays held.now.items size result }
{
    let mut bytes = vec![in alloc; 0; size]?;
    held.copy_at(12, &mut bytes);
    meta_of(alloc, &bytes)
}

// The bytes of the meta, where all of them are in the first piece.
#[inline(always)]
fn meta_in(front: &[u8], size: usize) -> Option<&[u8]>
    ensures { IfSome result (λ bytes. (bytes.now ≡ take size (drop 12 front.now)) × (12 + size ≤ length front.now)) }
{
    if front.len() < 12 || size > front.len() - 12 {
        return None;
    }
    Some(&front[12..12 + size])
}

// The meta that these bytes are.
#[inline(always)]
fn meta_of(alloc: Global, bytes: &[u8]) -> Result<RpcMeta, NextFault>
    ensures { MetaIs bytes.now result }
{
    match RpcMeta::read(alloc, bytes) {
        Ok(meta) => Ok(meta),
        Err(MetaFault::NoMemory) => Err(NextFault::NoMemory),
        Err(fault) => Err(NextFault::Frame(FrameFault::Meta(fault))),
    }
}

/// How many bytes the attachment has, where it fits in the room behind the meta.
#[inline(always)]
pub fn attachment_bytes(size: i32, room: u32) -> Result<u32, FrameFault>
    ensures { AttachmentSays size room result }
{
    if size < 0 || size.unsigned_abs() > room {
        return Err(FrameFault::AttachOver { size, room });
    }
    Ok(size.unsigned_abs())
}
