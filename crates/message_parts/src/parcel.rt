ghost use Rattle.std.specs.Prelude.{◌≡◌, ◌+◌, ◌≤◌, ◌==◌, length, drop};
ghost use Rattle.seat_programs.specs.BufferParts.{part};
ghost use Rattle.message_parts.specs.Parcels.{parcel_of, outgoing_of};

use crate::frame::{CallFrame, OutgoingFrame};
use sock_message::{Message, Outgoing};

/// What is put on a link: a message, or the frame of an attempt of a call.
#[derive(Drop)]
pub enum Parcel {
    Message(Message),
    Frame(CallFrame),
}

impl Parcel {
    /// It begins to be put on a link. Nothing is copied.
    #[inline(always)]
    pub fn begin(self) -> OutgoingParcel
        ensures { outgoing_of result ≡ record { left = (parcel_of self).bytes; taken = 0; parts = (parcel_of self).parts } }
    {
        match self {
            Parcel::Message(message) => OutgoingParcel::Message(message.begin()),
            Parcel::Frame(frame) => OutgoingParcel::Frame(frame.begin()),
        }
    }
}

/// The same of which a link may have taken a part from its front.
/// Parts are cut from its front as `IOBuf::cut_into` does (iobuf.md).
#[derive(Drop)]
pub enum OutgoingParcel {
    Message(Outgoing),
    Frame(OutgoingFrame),
}

impl OutgoingParcel {
    /// The bytes that are put next, or none where nothing is left.
    #[inline(always)]
    pub fn next_piece(&self) -> &[u8]
        ensures { result.now ≡ part (outgoing_of self.now).parts (outgoing_of self.now).left (outgoing_of self.now).taken }
    {
        match self {
            OutgoingParcel::Message(message) => message.next_piece(),
            OutgoingParcel::Frame(frame) => frame.next_piece(),
        }
    }

    /// The link took so many bytes of that piece.
    #[inline(always)]
    pub fn take(&mut self, count: usize)
        requires { count ≤ length (part (outgoing_of self.old).parts (outgoing_of self.old).left (outgoing_of self.old).taken) }
        ensures left { (outgoing_of self.new).left ≡ drop count (outgoing_of self.old).left }
        ensures taken { (outgoing_of self.new).taken ≡ (outgoing_of self.old).taken + count }
        ensures parts { (outgoing_of self.new).parts ≡ (outgoing_of self.old).parts }
    {
        match self {
            OutgoingParcel::Message(message) => message.take(count),
            OutgoingParcel::Frame(frame) => frame.take(count),
        }
    }

    /// Whether the link took all of it.
    #[inline(always)]
    pub fn is_whole_taken(&self) -> bool
        ensures { result ≡ (length (outgoing_of self.now).left == 0) }
    {
        match self {
            OutgoingParcel::Message(message) => message.is_whole_taken(),
            OutgoingParcel::Frame(frame) => frame.is_whole_taken(),
        }
    }
}
