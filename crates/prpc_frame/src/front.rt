ghost use Rattle.std.specs.Prelude.{◌≡◌, ◌≤◌, ◌++◌, length, take, drop, IfSome};
ghost use Rattle.prpc_frame.specs.Front.{IsInFront};
ghost use Rattle.prpc_frame.specs.Header.{IsWhole};

use crate::body::attachment_bytes;
use crate::header::{HEADER_BYTES, Sizes, judge_header};
use io_buf::IoBuf;
use rpc_meta::MetaView;

/// A frame that lies in one piece of what a cutter holds.
#[derive(Clone, Copy)]
pub struct FrontFrame<'a> {
    /// What the frame is.
    pub meta: MetaView<'a>,
    /// The body's bytes between the meta and the attachment.
    pub payload: &'a [u8],
    /// The body's last bytes, as many as the meta says.
    pub attachment: &'a [u8],
    /// How many bytes the frame has, with its header.
    pub size: usize,
}

/// The bytes of the first piece, none where there is none.
#[inline(always)]
pub fn first_bytes(held: &IoBuf) -> &[u8]
    ensures { result.now ++ drop (length result.now) held.now.items ≡ held.now.items }
{
    if held.is_empty() {
        return &[];
    }
    held.first_piece()
}

/// The frame with which these bytes begin, where they have all of it.
#[inline(always)]
pub fn read_front(bytes: &[u8]) -> Option<FrontFrame<'_>>
    ensures { IfSome result (λ frame. IsInFront bytes.now frame) }
{
    let sizes = whole_sizes(bytes)?;
    let behind = HEADER_BYTES + sizes.meta as usize;
    let size = HEADER_BYTES + sizes.body as usize;
    let Ok(meta) = MetaView::read(&bytes[HEADER_BYTES..behind]) else {
        return None;
    };
    let room = sizes.body - sizes.meta;
    let Ok(attached) = attachment_bytes(meta.attachment_size, room) else {
        return None;
    };
    let rest = part_of(bytes, behind, size);
    let payload_bytes = (room - attached) as usize;
    Some(FrontFrame {
        meta,
        payload: &rest[..payload_bytes],
        attachment: &rest[payload_bytes..],
        size,
    })
}

// The sizes of the frame with which these bytes begin, where they have all of it.
#[inline(always)]
fn whole_sizes(bytes: &[u8]) -> Option<Sizes>
    ensures { IfSome result (λ sizes. IsWhole bytes.now sizes.meta sizes.body) }
{
    if bytes.len() < HEADER_BYTES {
        return None;
    }
    match judge_header(&bytes[..HEADER_BYTES], bytes.len()) {
        Ok(sizes) => sizes,
        Err(_) => None,
    }
}

// The bytes from one place up to another.
#[inline(always)]
fn part_of(bytes: &[u8], from: usize, to: usize) -> &[u8]
    requires from { from ≤ to }
    requires to { to ≤ length bytes.now }
    ensures { result.now ≡ drop from (take to bytes.now) }
{
    &bytes[from..to]
}
