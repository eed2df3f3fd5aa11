ghost use Rattle.std.specs.Prelude.{◌≡◌, List, ◌+◌, ◌≤◌, ◌<◌, ◌^◌, length, take, drop, flat_map, IfOk};
ghost use Rattle.brpc_model.specs.Frame.{Frame, frame_bytes, high_first};
ghost use Rattle.loop_link.specs.ServingFedBytes.{first_left};

use io_buf::IoBuf;
use sock_io::NoMemory;
use std::alloc::Global;

/// The header of a frame.
const HEADER_BYTES: usize = 12;

/// The buffer's bytes in one piece. More than a header's sizes can tell are want of memory.
pub(crate) fn gathered(alloc: Global, buf: &IoBuf) -> Result<Vec<u8>, NoMemory>
    ensures bytes { IfOk result (λ v. v.items ≡ buf.now.items) }
    ensures small { IfOk result (λ v. length v.items < 2 ^ 32) }
{
    if buf.len() > u32::MAX as usize {
        return Err(NoMemory);
    }
    let Ok(mut bytes) = vec![in alloc; 0; buf.len()] else {
        return Err(NoMemory);
    };
    buf.copy_to(&mut bytes);
    Ok(bytes)
}

/// How many of these bytes are given, which are those of the responses behind the first `given`.
pub(crate) fn given_len(end: Option<u32>, given: u64, bytes: &[u8]) -> usize
    ensures within { result ≤ length bytes.now }
    ensures given { (frames : List Frame) → length bytes.now < 2 ^ 32 → bytes.now ≡ flat_map frame_bytes frames → take result bytes.now ≡ flat_map frame_bytes (first_left end given frames) }
{
    match end {
        Some(most) => front_len(bytes, u64::from(most).saturating_sub(given)),
        None => bytes.len(),
    }
}

// How many bytes the first `count` of some frames have, which are these bytes.
fn front_len(bytes: &[u8], count: u64) -> usize
    ensures within { result ≤ length bytes.now }
    ensures front { (frames : List Frame) → length bytes.now < 2 ^ 32 → bytes.now ≡ flat_map frame_bytes frames → take result bytes.now ≡ flat_map frame_bytes (take count frames) }
{
    let mut at = 0;
    let mut left = count;
    while left > 0 && bytes.len() - at >= HEADER_BYTES {
        let size = body_len(&bytes[at..]);
        if size > bytes.len() - at - HEADER_BYTES {
            return at;
        }
        at += HEADER_BYTES + size;
        left -= 1;
    }
    at
}

// The size of a body, as the header in front tells it.
fn body_len(bytes: &[u8]) -> usize
    requires { 12 ≤ length bytes.now }
    ensures { result ≡ high_first (take 4 (drop 4 bytes.now)) }
{
    u32::from_be_bytes([bytes[4], bytes[5], bytes[6], bytes[7]]) as usize
}
