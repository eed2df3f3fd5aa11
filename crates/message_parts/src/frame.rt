ghost use Rattle.std.specs.Prelude.{◌≡◌, ◌+◌, ◌<◌, ◌≤◌, ◌==◌, ◌^◌, ◌∷◌, [], IfOk, length, drop};
ghost use Rattle.sock_message.specs.Asked.{frame_of, parts_of};
ghost use Rattle.seat_programs.specs.BufferParts.{part};
ghost use Rattle.message_parts.specs.FramesByParts.{LiesInParts};

use call_table::issue;
use io_buf::{BlockPool, IoBuf, NoMemory};
use sock_message::Call;
use std::alloc::Global;
use std::marker::Model;

/// The frame of an attempt of a call. Contracts see its bytes, and the lengths of its parts: of its header with the meta, of
/// its payload, and of its attachment.
/// A request of baidu_std.md: header, meta, payload and attachment behind one another.
#[derive(Drop)]
pub struct CallFrame {
    buf: Box<IoBuf>,
    head: usize,
    payload: usize,
    attachment: usize,
}

impl Model for CallFrame {
    ghost use Rattle.std.specs.Prelude.{◌∷◌, []};
    ghost use Rattle.message_parts.specs.FramesByParts.{ParcelData, LiesInParts};

    ghost Value = { ParcelData };

    ghost view = { λ f. record { bytes = f.buf.value.items; parts = f.head ∷ f.payload ∷ f.attachment ∷ [] } };

    ghost invariant = { λ f. LiesInParts (f.head ∷ f.payload ∷ f.attachment ∷ []) f.buf.value };
}

impl CallFrame {
    /// The frame of an attempt of the call with this id, counted from 0. The call's payload and its attachment are shared and
    /// not copied.
    pub fn new(
        alloc: Global,
        pool: &mut BlockPool,
        call: &Call,
        id: u64,
        attempt: u8,
    ) -> Result<CallFrame, NoMemory>
        requires { id + attempt + 1 < 2 ^ 64 }
        ensures { IfOk result (λ f. f ≡ record { bytes = frame_of call.now id attempt; parts = parts_of call.now id attempt }) }
    {
        let buf = issue(alloc, pool, call, id, attempt)?;
        let payload = call.payload().len();
        let attachment = call.attachment().len();
        let head = buf.len() - (payload + attachment);
        // Each piece has some byte, and at most a block's.
        let _ = buf.refs();
        let boxed = Box::new(alloc, buf)?;
        Ok(CallFrame {
            buf: boxed,
            head,
            payload,
            attachment,
        })
    }

    /// It begins to be put on a link. Nothing is copied.
    pub fn begin(self) -> OutgoingFrame
        ensures { result ≡ record { left = self.bytes; taken = 0; parts = self.parts } }
    {
        let CallFrame {
            buf,
            head,
            payload,
            attachment,
        } = self;
        // Its length can be counted.
        let _ = buf.len();
        OutgoingFrame {
            buf,
            taken: 0,
            head,
            payload,
            attachment,
        }
    }
}

/// A frame of which a link may have taken a part from its front. Contracts see what is left of it, how many bytes were taken,
/// and the lengths of its parts.
/// Parts are cut from its front as `IOBuf::cut_into` does (iobuf.md).
#[derive(Drop)]
pub struct OutgoingFrame {
    buf: Box<IoBuf>,
    taken: usize,
    head: usize,
    payload: usize,
    attachment: usize,
}

impl Model for OutgoingFrame {
    ghost use Rattle.std.specs.Prelude.{◌∷◌, []};
    ghost use Rattle.message_parts.specs.FramesByParts.{OutgoingData, LiesBehindIn};

    ghost Value = { OutgoingData };

    ghost view = { λ o. record { left = o.buf.value.items; taken = o.taken; parts = o.head ∷ o.payload ∷ o.attachment ∷ [] } };

    ghost invariant = { λ o. LiesBehindIn (o.head ∷ o.payload ∷ o.attachment ∷ []) o.taken o.buf.value };
}

impl OutgoingFrame {
    /// The bytes that are put next: up to the end of a part, or of a block in it, or none where nothing is left.
    pub fn next_piece(&self) -> &[u8]
        ensures { result.now ≡ part self.now.parts self.now.left self.now.taken }
    {
        if self.is_whole_taken() {
            return &[];
        }
        self.buf.first_piece()
    }

    /// The link took so many bytes of that piece.
    pub fn take(&mut self, count: usize)
        requires { count ≤ length (part self.old.parts self.old.left self.old.taken) }
        ensures left { self.new.left ≡ drop count self.old.left }
        ensures taken { self.new.taken ≡ self.old.taken + count }
        ensures parts { self.new.parts ≡ self.old.parts }
    {
        self.buf.pop_front(count);
        self.taken += count;
    }

    /// Whether the link took all of it.
    pub fn is_whole_taken(&self) -> bool
        ensures { result ≡ (length self.now.left == 0) }
    {
        self.buf.is_empty()
    }
}
