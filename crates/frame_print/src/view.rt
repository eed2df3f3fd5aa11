ghost use Rattle.std.specs.Prelude.{◌≡◌, length};
ghost use Rattle.prpc_frame.specs.Front.{front_of};
ghost use Rattle.prpc_frame.specs.FrameMeaning.{frame_of};
ghost use Rattle.frame_print.specs.FrameLineView.{bytes_viewed, frame_viewed};

use io_buf::IoBuf;
use prpc_frame::{Frame, FrontFrame, MetaView};

/// Bytes that are shown, wherever they lie.
#[derive(Clone, Copy)]
pub enum BytesView<'a> {
    /// In one piece.
    Slice(&'a [u8]),
    /// In blocks.
    Blocks(&'a IoBuf),
}

impl BytesView<'_> {
    /// How many there are.
    pub fn len(self) -> usize
        ensures { result ≡ length (bytes_viewed self.entry) }
    {
        match self {
            BytesView::Slice(bytes) => bytes.len(),
            BytesView::Blocks(buf) => buf.len(),
        }
    }
}

/// A frame that is shown.
#[derive(Clone, Copy)]
pub struct FrameView<'a> {
    /// What the frame is.
    pub meta: MetaView<'a>,
    /// The body's bytes between the meta and the attachment.
    pub payload: BytesView<'a>,
    /// The body's last bytes.
    pub attachment: BytesView<'a>,
}

impl FrameView<'_> {
    /// A frame that was cut out.
    #[inline]
    pub fn of(frame: &Frame) -> FrameView<'_>
        ensures { frame_viewed result ≡ frame_of frame.now }
    {
        FrameView {
            meta: MetaView::of(&frame.meta),
            payload: BytesView::Blocks(&frame.payload),
            attachment: BytesView::Blocks(&frame.attachment),
        }
    }
}

/// A frame that lies in one piece.
#[inline(always)]
pub fn front_view(frame: FrontFrame<'_>) -> FrameView<'_>
    ensures { frame_viewed result ≡ front_of frame.entry }
{
    FrameView {
        meta: frame.meta,
        payload: BytesView::Slice(frame.payload),
        attachment: BytesView::Slice(frame.attachment),
    }
}
