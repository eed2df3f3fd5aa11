ghost use Rattle.std.specs.Prelude.{◌≡◌, ℕ, List, ◌+◌, ◌<◌, ◌≤◌, ◌++◌, length, take, drop, min, true, false, IfSome, MatchOption};
ghost use Rattle.rpc_meta.specs.brpc_model.specs.Frame.{high_first, matching};
ghost use Rattle.prpc_frame.specs.Header.{magic_wrong, HeaderSays};

use crate::fault::FrameFault;
use io_buf::IoBuf;

/// The most bytes that a body may have.
pub const BODY_LIMIT: u32 = 67_108_864;

/// Bytes of the header.
pub const HEADER_BYTES: usize = 12;

/// `PRPC`.
pub const MAGIC: [u8; 4] = [0x50, 0x52, 0x50, 0x43];

/// The sizes in the header of a frame all of whose bytes are there.
#[derive(Clone, Copy)]
pub struct Sizes {
    /// Bytes of the meta, at most those of the body.
    pub meta: u32,
    /// Bytes of the body, at most `BODY_LIMIT`.
    pub body: u32,
}

/// The sizes of the frame at the front, or `None` where it isn't whole and has no fault yet. The header is read
/// where it lies where it is in the first piece, else copied first.
#[inline(always)]
pub fn read_header(held: &IoBuf) -> Result<Option<Sizes>, FrameFault>
    ensures { HeaderSays held.now.items result }
{
    match header_in(held) {
        Some(front) => judge_header(front, held.len()),
        None => copy_header(held),
    }
}

// The header, where all of it is in the first piece.
#[inline(always)]
fn header_in(held: &IoBuf) -> Option<&[u8]>
    ensures { IfSome result (λ front. (front.now ≡ take 12 held.now.items) × (12 ≤ length held.now.items)) }
{
    if held.is_empty() {
        return None;
    }
    let piece = held.first_piece();
    if piece.len() < HEADER_BYTES {
        return None;
    }
    Some(&piece[..HEADER_BYTES])
}

// As `read_header`, from a copy of the first bytes.
#[inline(never)]
fn copy_header(held: &IoBuf) -> Result<Option<Sizes>, FrameFault>
    ensures { HeaderSays held.now.items result }
{
    let mut room = [0; HEADER_BYTES];
    let there = held.len().min(HEADER_BYTES);
    let front = &mut room[..there];
    held.copy_at(0, front);
    judge_header(front, held.len())
}

/// Judges the first twelve bytes, or all where there are fewer, of `len` bytes.
#[inline(always)]
pub fn judge_header(front: &[u8], len: usize) -> Result<Option<Sizes>, FrameFault>
    requires { length front.now ≡ min len 12 }
    ensures { (more : List ℕ) → length front.now + length more ≡ len → HeaderSays (front.now ++ more) result }
{
    if let Some(at) = wrong_at(front) {
        return Err(FrameFault::BadMagic { at });
    }
    if front.len() < HEADER_BYTES {
        return Ok(None);
    }
    let body = u32_at(front, 4);
    let meta = u32_at(front, 8);
    if body > BODY_LIMIT {
        return Err(FrameFault::TooBig { size: body });
    }
    if meta > body {
        return Err(FrameFault::MetaOver { meta, body });
    }
    if len - HEADER_BYTES < body as usize {
        return Ok(None);
    }
    Ok(Some(Sizes { meta, body }))
}

// The first place at which the bytes differ from the magic, as far as they go.
#[inline(always)]
fn wrong_at(front: &[u8]) -> Option<u8>
    ensures { MatchOption result (magic_wrong front.now ≡ false) (λ at. (magic_wrong front.now ≡ true) × (at ≡ matching front.now)) }
{
    let mut at = 0;
    while at < MAGIC.len() && at < front.len() {
        if front[at] != MAGIC[at] {
            return Some(at as u8);
        }
        at += 1;
    }
    None
}

// The number that four bytes are, the highest first.
#[inline(always)]
fn u32_at(bytes: &[u8], at: usize) -> u32
    requires { at + 4 ≤ length bytes.now }
    ensures { result ≡ high_first (take 4 (drop at bytes.now)) }
{
    u32::from_be_bytes([bytes[at], bytes[at + 1], bytes[at + 2], bytes[at + 3]])
}
