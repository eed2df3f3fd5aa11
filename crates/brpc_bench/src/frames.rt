ghost use Rattle.std.specs.Prelude.{◌≡◌, ◌+◌, ◌≤◌, pos, length, IfOk};
ghost use Rattle.brpc_model.specs.Frame.{body_limit};
ghost use Rattle.brpc_model.specs.Spelling.{meta_bytes};
ghost use Rattle.rpc_meta.specs.MetaMeaning.{meaning};
ghost use Rattle.rpc_meta.specs.MetaWriting.{HasPart};

use io_buf::{BlockPool, IoBuf, NoMemory};
use prpc_frame::{Cutter, RpcMeta, encode};
use rpc_meta::{MetaBytes, RequestMeta};
use std::alloc::{AllocError, Global};

/// The most bytes of a payload.
const MOST: usize = 1_000_000;

/// As many bytes are fed at once.
const PIECE: usize = 4_096;

/// The meta of a request for the service and the method Echo.
fn echo_meta(alloc: Global) -> Result<RpcMeta, AllocError>
    ensures sized { IfOk result (λ meta. meta.attachment_size ≡ pos 0) }
    ensures part { IfOk result (λ meta. HasPart (meaning meta)) }
    ensures small { IfOk result (λ meta. length (meta_bytes (meaning meta)) ≤ 88) }
{
    let request = RequestMeta {
        service: MetaBytes::copy(alloc, b"Echo")?,
        method: MetaBytes::copy(alloc, b"Echo")?,
        log_id: None,
    };
    Ok(RpcMeta {
        request: Some(request),
        response: None,
        compress_type: 0,
        correlation_id: 12_345,
        attachment_size: 0,
    })
}

/// A payload of so many bytes.
fn payload(alloc: Global, pool: &mut BlockPool, size: usize) -> Result<IoBuf, NoMemory>
    requires { size ≤ MOST }
    ensures { IfOk result (λ b. length b.items ≤ MOST) }
{
    let bytes = Vec::from_elem(alloc, b'x', size)?;
    let mut buf = IoBuf::new(alloc);
    buf.append_bytes(pool, &bytes)?;
    Ok(buf)
}

/// Encodes a frame and gives it back: how many bytes it had.
fn encode_one(
    alloc: Global,
    pool: &mut BlockPool,
    meta: &RpcMeta,
    payload: &IoBuf,
    attachment: &IoBuf,
) -> Result<u64, NoMemory>
    requires sized { meta.now.attachment_size ≡ pos (length attachment.now.items) }
    requires part { HasPart (meaning meta.now) }
    requires small { length (meta_bytes (meaning meta.now)) + length payload.now.items + length attachment.now.items ≤ body_limit }
{
    let frame = encode(alloc, pool, meta, payload, attachment)?;
    let size = frame.len() as u64;
    frame.recycle(pool);
    Ok(size)
}

/// Encodes so many frames with payloads of so many bytes, and gives each back.
pub fn encode_all(alloc: Global, size: u32, count: u32) -> Result<u64, NoMemory> {
    let mut pool = BlockPool::new(alloc);
    let meta = echo_meta(alloc)?;
    let payload = payload(alloc, &mut pool, (size as usize).min(MOST))?;
    let attachment = IoBuf::new(alloc);
    let mut sum = 0u64;
    for _ in 0..count {
        let size = encode_one(alloc, &mut pool, &meta, &payload, &attachment)?;
        sum = sum.wrapping_add(size);
    }
    Ok(sum)
}

/// The bytes of a buffer.
fn copied(alloc: Global, buf: &IoBuf) -> Result<Vec<u8>, AllocError> {
    let mut bytes = Vec::from_elem(alloc, 0, buf.len())?;
    buf.copy_to(&mut bytes);
    Ok(bytes)
}

/// Those of a frame.
fn frame(alloc: Global, pool: &mut BlockPool, size: usize) -> Result<Vec<u8>, NoMemory>
    requires { size ≤ MOST }
{
    let meta = echo_meta(alloc)?;
    let payload = payload(alloc, pool, size)?;
    let attachment = IoBuf::new(alloc);
    let frame = encode(alloc, pool, &meta, &payload, &attachment)?;
    Ok(copied(alloc, &frame)?)
}

/// A stream of frames, of a million bytes or one frame.
fn stream(alloc: Global, pool: &mut BlockPool, size: usize) -> Result<Vec<u8>, NoMemory>
    requires { size ≤ MOST }
{
    let bytes = frame(alloc, pool, size)?;
    let mut all = Vec::new(alloc);
    for _ in 0..MOST / (size + 50) {
        all.extend_from_slice(&bytes)?;
    }
    Ok(all)
}

/// Cuts a frame, where one is whole: how many bytes its payload has.
fn cut_one(cutter: &mut Cutter) -> Option<u64> {
    match cutter.next() {
        Ok(Some(frame)) => Some(frame.payload.len() as u64),
        _ => None,
    }
}

/// Feeds a piece, and cuts the frames that are whole; how many bytes their payloads have.
fn cut_piece(cutter: &mut Cutter, pool: &mut BlockPool, piece: &[u8]) -> Result<u64, NoMemory> {
    cutter.feed(pool, piece)?;
    let mut sum = 0u64;
    for _ in 0..piece.len() {
        let Some(size) = cut_one(cutter) else {
            return Ok(sum);
        };
        sum = sum.wrapping_add(size);
    }
    Ok(sum)
}

/// Cuts a stream of frames with payloads of so many bytes, so many times.
pub fn cut_all(alloc: Global, size: u32, count: u32) -> Result<u64, NoMemory> {
    let mut pool = BlockPool::new(alloc);
    let all = stream(alloc, &mut pool, (size as usize).min(MOST))?;
    let mut cutter = Cutter::new(alloc);
    let mut sum = 0u64;
    for _ in 0..count {
        for piece in all.chunks(PIECE) {
            let passed = cut_piece(&mut cutter, &mut pool, piece)?;
            sum = sum.wrapping_add(passed);
        }
    }
    Ok(sum)
}
