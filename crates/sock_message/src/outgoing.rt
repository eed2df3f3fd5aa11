ghost use Rattle.std.specs.Prelude.{◌≡◌, ◌+◌, ◌≤◌, ◌==◌, length, drop};
ghost use Rattle.sock_message.specs.MessagePieces.{piece};
ghost use Rattle.sock_message.specs.BodiesOfMessages.{body_bytes, LiesWhole};

use crate::message::Body;
use std::marker::Model;

/// A message of which a link may have taken a part from its front. Contracts see what is left of it,
/// and how many bytes were taken.
#[derive(Drop)]
pub struct Outgoing {
    body: Body,
    taken: usize,
}

impl Model for Outgoing {
    ghost use Rattle.sock_message.specs.MessagePieces.{OnItsWay};
    ghost use Rattle.sock_message.specs.BodiesOfMessages.{left_of, IsLeftOf};

    ghost Value = { OnItsWay };

    ghost view = { λ o. record { left = left_of o.taken o.body; taken = o.taken } };

    ghost invariant = { λ o. IsLeftOf o.taken o.body };
}

impl Outgoing {
    // A message of which nothing was taken yet.
    #[inline(always)]
    pub(crate) fn whole(body: Body) -> Outgoing
        requires { LiesWhole body }
        ensures { result ≡ record { left = body_bytes body; taken = 0 } }
    {
        if let Body::Blocks(buf) = &body {
            // Its length can be counted.
            let _ = buf.len();
        }
        Outgoing { body, taken: 0 }
    }

    /// The bytes that are put next: up to the end of a block, or none where nothing is left.
    #[inline(always)]
    pub fn next_piece(&self) -> &[u8]
        ensures { result.now ≡ piece self.now.left self.now.taken }
    {
        match &self.body {
            Body::Few(few) => &few.as_slice()[self.taken..],
            Body::Blocks(buf) => {
                if buf.is_empty() {
                    return &[];
                }
                buf.first_piece()
            }
        }
    }

    /// The link took so many bytes of that piece.
    #[inline(always)]
    pub fn take(&mut self, count: usize)
        requires { count ≤ length (piece self.old.left self.old.taken) }
        ensures left { self.new.left ≡ drop count self.old.left }
        ensures taken { self.new.taken ≡ self.old.taken + count }
    {
        if let Body::Blocks(buf) = &mut self.body {
            buf.pop_front(count);
        }
        self.taken += count;
    }

    /// Whether the link took all of it.
    #[inline(always)]
    pub fn is_whole_taken(&self) -> bool
        ensures { result ≡ (length self.now.left == 0) }
    {
        match &self.body {
            Body::Few(few) => few.len() == self.taken,
            Body::Blocks(buf) => buf.is_empty(),
        }
    }

    /// How many bytes the link took.
    pub fn taken(&self) -> usize
        ensures { result ≡ self.now.taken }
    {
        self.taken
    }
}
