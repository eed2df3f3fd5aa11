ghost use Rattle.std.specs.Prelude.{◌≡◌, ◌≤◌, length, IfOk};
ghost use Rattle.sock_message.specs.BodiesOfMessages.{body_bytes, LiesWhole};

use crate::call::in_blocks;
use crate::few::{Few, MOST_FEW};
use crate::outgoing::Outgoing;
use io_buf::{BlockPool, IoBuf, NoMemory};
use std::alloc::Global;
use std::marker::Model;

/// The bytes of a message: few in place, or more in blocks of 8,192 from its start.
#[derive(Drop)]
pub(crate) enum Body {
    Few(Few),
    Blocks(Box<IoBuf>),
}

impl Body {
    // How many bytes it has.
    #[inline(always)]
    fn len(&self) -> usize
        ensures { result ≡ length (body_bytes self.now) }
    {
        match self {
            Body::Few(few) => few.len(),
            Body::Blocks(buf) => buf.len(),
        }
    }
}

/// A message as a client hands it in: its bytes, up to 40 of them in place, and more in blocks of 8,192 from its start (bRPC's
/// iobuf.md). Contracts see its bytes.
#[derive(Drop)]
pub struct Message {
    body: Body,
}

impl Model for Message {
    ghost use Rattle.std.specs.Prelude.{ℕ, List};
    ghost use Rattle.sock_message.specs.BodiesOfMessages.{body_bytes, LiesWhole};

    ghost Value = { List ℕ };

    ghost view = { λ m. body_bytes m.body };

    ghost invariant = { λ m. LiesWhole m.body };
}

impl Message {
    /// The message of these bytes. They are copied once, in place or into blocks of the pool.
    #[inline(always)]
    pub fn new(alloc: Global, pool: &mut BlockPool, bytes: &[u8]) -> Result<Message, NoMemory>
        ensures { IfOk result (λ m. m ≡ bytes.now) }
    {
        if bytes.len() <= MOST_FEW {
            return Ok(Message {
                body: Body::Few(Few::new(bytes)),
            });
        }
        Message::in_blocks(alloc, pool, bytes)
    }

    // The message of these bytes, in blocks.
    fn in_blocks(alloc: Global, pool: &mut BlockPool, bytes: &[u8]) -> Result<Message, NoMemory>
        ensures { IfOk result (λ m. m ≡ bytes.now) }
    {
        let buf = in_blocks(alloc, pool, bytes)?;
        let buf = Box::new(alloc, buf)?;
        Ok(Message {
            body: Body::Blocks(buf),
        })
    }

    /// How many bytes it has.
    #[inline(always)]
    pub fn len(&self) -> usize
        ensures { result ≡ length self.now }
    {
        self.body.len()
    }

    /// It begins to be put on a link. Nothing is copied.
    #[inline(always)]
    pub fn begin(self) -> Outgoing
        ensures { result ≡ record { left = self; taken = 0 } }
    {
        Outgoing::whole(self.body)
    }
}
